// A capsule is copied from a bank's staging area to its recovery area.
ghost use Rattle.std.specs.Prelude.{◌≡◌, ◌≢◌, ◌/◌, OnOk, OnErr, length};
ghost use Rattle.pfr_flash.specs.FlashState.{now, size_of};
ghost use Rattle.pfr_flash.specs.Layout.{IsBankSize};
ghost use Rattle.pfr_flash.specs.Range.{SameOutside};
ghost use Rattle.pfr_flash.specs.declared.names.Bank.{Bank};
ghost use Rattle.pfr_copy.specs.Applying.{CanCopyOver};
ghost use Rattle.pfr_copy.specs.Copied.{AddsPlan, Resumes, SetsMarks, written_pages};
ghost use Rattle.pfr_copy.specs.Marking.{HasLog, LogStays, recovery_deeds};
ghost use Rattle.pfr_copy.specs.Recovering.{HasJobBy};
ghost use Rattle.pfr_copy.specs.Stopped.{SetsSomeMarks};
ghost use Rattle.pfr_copy.specs.declared.marks.Marks.TheVariants as how;
ghost use Rattle.pfr_jobs.specs.Log.{log_at, open_job};
ghost use Rattle.pfr_engine.specs.Acceptance.{Acceptance};
ghost use Rattle.pfr_rebuilt.specs.Copying.{holds_text, recovery_page, recovery_pages};
ghost use Rattle.pfr_rebuilt.specs.Passing.{group_pages};
ghost use Rattle.pfr_recoverable.specs.Recoverable.{IsRecoverable};
ghost use Rattle.pfr_strokes.specs.Passes.{Passes};
ghost use Rattle.pfr_strokes.specs.Replaced.{replaced};
ghost use Rattle.pfr_strokes.specs.Strokes.{strokes_of};

use crate::copying::copy;
use crate::marks::Marks;
use pfr_bank::Held;
use pfr_capsule::Capsule;
use pfr_flash::{Flash, Layout};
use pfr_jobs::{JobKind, JobLog};
use pfr_strokes::CopyFail;

/// Copies a capsule from the staging area of a bank that is held to its recovery area: writes the pages that hold a byte of it
/// there, in rising order, those that the marks leave, with 0xFF behind its end.
///
/// The capsule was judged in the staging area, with this layout; its bytes are as they were judged.
///
/// At the first call of a device that fails it ends, with that device and that call's cause: then the pages before were
/// written, and the last one may be torn. `jobs` is of no more use then, where marks are heeded.
pub fn copy_recovery<F: Flash>(
    held: &mut Held<F>,
    nv: &mut F,
    jobs: &mut JobLog,
    capsule: &Capsule,
    layout: &Layout,
    marks: Marks,
) -> Result<(), CopyFail>
    requires size { IsBankSize (size_of (F.device held.old.flash)) }
    requires can { CanCopyOver (now (F.device held.old.flash)) layout.now capsule.now }
    requires log { HasLog marks held.old.bank (now (F.device nv.old)) (size_of (F.device nv.old)) jobs.old }
    // What is done to the bank and to the store: all at Ok, and a front at Err, the last operation perhaps torn.
    ensures passes { Passes (recovery_deeds marks held.old.bank (now (F.device held.old.flash)) (now (F.device nv.old)) capsule.now layout.now)
        (record { bank = F.device held.old.flash; store = F.device nv.old }) (record { bank = F.device held.new.flash; store = F.device nv.new }) result }
    ensures stands { OnOk result (LogStays marks held.old.bank (now (F.device nv.new)) jobs.old jobs.new) }
    // At Ok the bank holds its image with the pages replaced that the marks left.
    ensures rebuilt { let image = now (F.device held.old.flash) in
        OnOk result (now (F.device held.new.flash) ≡ replaced image (recovery_page image layout.now.staging_at capsule.now.length layout.now) (written_pages marks held.old.bank (now (F.device nv.old)) (group_pages (length image)) (recovery_pages layout.now capsule.now.length (length image)))) }
    // The capsule can be copied again.
    ensures again { OnOk result (CanCopyOver (now (F.device held.new.flash)) layout.now capsule.now) }
    // Its new operations are those that write these pages, in rising order: all at Ok, and a front of them at Err.
    ensures strokes { let image = now (F.device held.old.flash) in
        AddsPlan (strokes_of (recovery_page image layout.now.staging_at capsule.now.length layout.now) (written_pages marks held.old.bank (now (F.device nv.old)) (group_pages (length image)) (recovery_pages layout.now capsule.now.length (length image)))) (F.device held.old.flash) (F.device held.new.flash) result }
    // At Ok exactly the groups are marked that were, or that have a page of the job; without marks the store is as it was.
    ensures marked { let image = now (F.device held.old.flash) in
        OnOk result (SetsMarks marks held.old.bank (holds_text layout.now.recovery_at capsule.now.length) (group_pages (length image)) (length image / 4096) (now (F.device nv.old)) (now (F.device nv.new))) }
    // At Err those of them are marked, in rising order, that were finished.
    ensures stopped { let image = now (F.device held.old.flash) in
        OnErr result (SetsSomeMarks marks held.old.bank (holds_text layout.now.recovery_at capsule.now.length) (group_pages (length image)) (length image / 4096) (now (F.device nv.old)) (now (F.device nv.new))) }
    // However it ends, it can be resumed by its marks.
    ensures resumes { Resumes marks held.old.bank (group_pages (length (now (F.device held.old.flash)))) (record { bank = F.device held.old.flash; store = F.device nv.old }) (record { bank = F.device held.new.flash; store = F.device nv.new }) }
    // However it ends, a bank whose recovery job this is can be recovered.
    ensures recoverable { (accepts : Acceptance) → HasJobBy layout.now held.old.bank (now (F.device held.old.flash)) (now (F.device nv.old)) accepts →
        size_of (F.device nv.old) ≡ 32768 → IsRecoverable held.old.bank (now (F.device held.new.flash)) (now (F.device nv.new)) accepts }
    // Where marks aren't heeded the store isn't called. However it ends, the store is as it was outside of the bank's log; and at Ok
    // each log has open what it had.
    ensures unused { marks ≢ how.Heed → F.device nv.new ≡ F.device nv.old }
    ensures logged { SameOutside (log_at held.old.bank) 0x3000 (now (F.device nv.old)) (now (F.device nv.new)) }
    ensures opened { OnOk result ((b : Bank) → open_job (now (F.device nv.new)) b ≡ open_job (now (F.device nv.old)) b) }
    ensures bank { held.new.bank ≡ held.old.bank }
{
    copy(
        held.flash(),
        nv,
        jobs,
        capsule,
        layout,
        JobKind::RecoveryFromStaging,
        marks,
    )
}
