// A capsule is applied to a bank's active image.
ghost use Rattle.std.specs.Prelude.{◌≡◌, ◌≢◌, ◌/◌, OnOk, OnErr, length};
ghost use Rattle.pfr_flash.specs.FlashState.{now, size_of};
ghost use Rattle.pfr_flash.specs.Layout.{IsBankSize};
ghost use Rattle.pfr_flash.specs.Range.{SameOutside};
ghost use Rattle.pfr_flash.specs.declared.names.Bank.{Bank};
ghost use Rattle.pfr_copy.specs.Applying.{CanApply, IsActive};
ghost use Rattle.pfr_copy.specs.Copied.{AddsPlan, Resumes, SetsMarks, written_pages};
ghost use Rattle.pfr_copy.specs.Marking.{HasLog, LogStays, active_deeds};
ghost use Rattle.pfr_copy.specs.Recovering.{HasAreaBy};
ghost use Rattle.pfr_copy.specs.Stopped.{SetsSomeMarks};
ghost use Rattle.pfr_copy.specs.declared.marks.Marks.TheVariants as how;
ghost use Rattle.pfr_jobs.specs.Log.{log_at, open_job};
ghost use Rattle.pfr_engine.specs.Acceptance.{Acceptance};
ghost use Rattle.pfr_rebuilt.specs.ActiveCopying.{active_page, active_pages, is_active_page};
ghost use Rattle.pfr_rebuilt.specs.Passing.{group_pages};
ghost use Rattle.pfr_recoverable.specs.Recoverable.{HasGoodRecovery};
ghost use Rattle.pfr_strokes.specs.Passes.{Passes};
ghost use Rattle.pfr_strokes.specs.Replaced.{replaced};
ghost use Rattle.pfr_strokes.specs.Strokes.{strokes_of};

use crate::copying::copy;
use crate::marks::Marks;
use pfr_bank::Held;
use pfr_capsule::Capsule;
use pfr_flash::{Flash, Layout};
use pfr_jobs::{JobKind, JobLog};
use pfr_strokes::CopyFail;

/// Applies a capsule to the active image of a bank that is held: writes the job's pages, in rising order, those that the marks
/// leave.
///
/// The pages of the manifest area get the capsule's signed manifest, with 0xFF behind it. The pages of each region that
/// `kind` takes get what the capsule gives for them, and those that it leaves aren't written. Each page is erased, and then
/// programmed in pieces of 256 bytes. The capsule was judged for this bank with this layout; it lies in the bank's recovery
/// or staging area, where its bytes are as they were judged. A restore's `level` is 1 to 3; at another one, bit `level + 1` of
/// the masks is asked all the same.
///
/// At the first call of a device that fails it ends, with that device and that call's cause: then the pages before were
/// written, and the last one may be torn. `jobs` is of no more use then, where marks are heeded.
pub fn apply<F: Flash>(
    held: &mut Held<F>,
    nv: &mut F,
    jobs: &mut JobLog,
    capsule: &Capsule,
    layout: &Layout,
    kind: JobKind,
    marks: Marks,
) -> Result<(), CopyFail>
    requires size { IsBankSize (size_of (F.device held.old.flash)) }
    requires can { CanApply (now (F.device held.old.flash)) layout.now capsule.now }
    requires kind { IsActive kind }
    requires log { HasLog marks held.old.bank (now (F.device nv.old)) (size_of (F.device nv.old)) jobs.old }
    // What is done to the bank and to the store: all at Ok, and a front at Err, the last operation perhaps torn.
    ensures passes { Passes (active_deeds marks kind held.old.bank (now (F.device held.old.flash)) (now (F.device nv.old)) capsule.now layout.now)
        (record { bank = F.device held.old.flash; store = F.device nv.old }) (record { bank = F.device held.new.flash; store = F.device nv.new }) result }
    ensures stands { OnOk result (LogStays marks held.old.bank (now (F.device nv.new)) jobs.old jobs.new) }
    // At Ok the bank holds its image with the pages replaced that the marks left.
    ensures rebuilt { let image = now (F.device held.old.flash) in
        OnOk result (now (F.device held.new.flash) ≡ replaced image (active_page image capsule.now layout.now) (written_pages marks held.old.bank (now (F.device nv.old)) (group_pages (length image)) (active_pages kind image capsule.now layout.now))) }
    // Its new operations are those that write these pages, in rising order: all at Ok, and a front of them at Err.
    ensures strokes { let image = now (F.device held.old.flash) in
        AddsPlan (strokes_of (active_page image capsule.now layout.now) (written_pages marks held.old.bank (now (F.device nv.old)) (group_pages (length image)) (active_pages kind image capsule.now layout.now))) (F.device held.old.flash) (F.device held.new.flash) result }
    // At Ok exactly the groups are marked that were, or that have a page of the job; without marks the store is as it was.
    ensures marked { let image = now (F.device held.old.flash) in
        OnOk result (SetsMarks marks held.old.bank (is_active_page kind image capsule.now layout.now) (group_pages (length image)) (length image / 4096) (now (F.device nv.old)) (now (F.device nv.new))) }
    // At Err those of them are marked, in rising order, that were finished.
    ensures stopped { let image = now (F.device held.old.flash) in
        OnErr result (SetsSomeMarks marks held.old.bank (is_active_page kind image capsule.now layout.now) (group_pages (length image)) (length image / 4096) (now (F.device nv.old)) (now (F.device nv.new))) }
    // However it ends, a recovery area that was good is so still.
    ensures recoverable { (accepts : Acceptance) → HasAreaBy layout.now held.old.bank (now (F.device held.old.flash)) (now (F.device nv.old)) accepts →
        size_of (F.device nv.old) ≡ 32768 → HasGoodRecovery held.old.bank (now (F.device held.new.flash)) (now (F.device nv.new)) accepts }
    // It can be resumed by its marks.
    ensures resumes { Resumes marks held.old.bank (group_pages (length (now (F.device held.old.flash)))) (record { bank = F.device held.old.flash; store = F.device nv.old }) (record { bank = F.device held.new.flash; store = F.device nv.new }) }
    // Where marks aren't heeded the store isn't called. However it ends, the store is as it was outside of the bank's log; and at Ok
    // each log has open what it had.
    ensures unused { marks ≢ how.Heed → F.device nv.new ≡ F.device nv.old }
    ensures logged { SameOutside (log_at held.old.bank) 0x3000 (now (F.device nv.old)) (now (F.device nv.new)) }
    ensures opened { OnOk result ((b : Bank) → open_job (now (F.device nv.new)) b ≡ open_job (now (F.device nv.old)) b) }
    ensures bank { held.new.bank ≡ held.old.bank }
{
    copy(held.flash(), nv, jobs, capsule, layout, kind, marks)
}
