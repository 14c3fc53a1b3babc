// The pages of a job are written, whatever is done with marks.
ghost use Rattle.std.specs.Prelude.{◌≡◌, ◌≢◌, ◌/◌, OnOk, OnErr, length};
ghost use Rattle.pfr_flash.specs.FlashState.{FlashState, now, size_of};
ghost use Rattle.pfr_flash.specs.Layout.{IsBankSize};
ghost use Rattle.pfr_flash.specs.Plan.{Follows};
ghost use Rattle.pfr_copy.specs.Copied.{OpensOne, SetsMarks};
ghost use Rattle.pfr_copy.specs.Marking.{HasLog, LogStays, job_deeds};
ghost use Rattle.pfr_copy.specs.Stopped.{SetsSomeMarks};
ghost use Rattle.pfr_copy.specs.Working.{CanDo, is_job_page, job_page, job_pages};
ghost use Rattle.pfr_copy.specs.declared.marks.Marks.TheVariants as how;
ghost use Rattle.pfr_rebuilt.specs.Passing.{group_pages, ignoring};
ghost use Rattle.pfr_strokes.specs.Passes.{Passes};
ghost use Rattle.pfr_strokes.specs.Strokes.{strokes_of};

use crate::heeding::replace_heeding;
use crate::marks::Marks;
use crate::pages::replace_pages;
use crate::taking::PAGE;
use pfr_capsule::Capsule;
use pfr_flash::{Flash, FlashFail, Layout};
use pfr_jobs::{JobKind, JobLog};
use pfr_strokes::CopyFail;

/// Writes all pages of a job, in rising order.
pub fn replace_all<F: Flash>(
    flash: &mut F,
    capsule: &Capsule,
    layout: &Layout,
    kind: JobKind,
) -> Result<(), FlashFail>
    requires size { IsBankSize (size_of (F.device flash.old)) }
    requires can { CanDo kind (now (F.device flash.old)) layout.now capsule.now }
    ensures { let image = now (F.device flash.old) in
        Follows (strokes_of (job_page kind image capsule.now layout.now) (job_pages kind image capsule.now layout.now)) (F.device flash.old) (F.device flash.new) result }
{
    replace_pages(flash, capsule, layout, kind, 0, flash.size() / PAGE)?;
    Ok(())
}

// The same, where the store is left as it is.
fn replace_ignoring<F: Flash>(
    flash: &mut F,
    capsule: &Capsule,
    layout: &Layout,
    kind: JobKind,
) -> Result<(), CopyFail>
    requires size { IsBankSize (size_of (F.device flash.old)) }
    requires can { CanDo kind (now (F.device flash.old)) layout.now capsule.now }
    ensures { let image = now (F.device flash.old) in (store : FlashState) →
        Passes (ignoring (job_page kind image capsule.now layout.now) (group_pages (length image)) (job_pages kind image capsule.now layout.now))
        (record { bank = F.device flash.old; store = store }) (record { bank = F.device flash.new; store = store }) result }
{
    match replace_all(flash, capsule, layout, kind) {
        Ok(()) => Ok(()),
        Err(fail) => Err(CopyFail::Bank(fail)),
    }
}

/// Writes a job's pages, in rising order, those that the marks leave.
pub fn copy<F: Flash>(
    flash: &mut F,
    nv: &mut F,
    jobs: &mut JobLog,
    capsule: &Capsule,
    layout: &Layout,
    kind: JobKind,
    marks: Marks,
) -> Result<(), CopyFail>
    requires size { IsBankSize (size_of (F.device flash.old)) }
    requires can { CanDo kind (now (F.device flash.old)) layout.now capsule.now }
    requires log { HasLog marks jobs.old.bank (now (F.device nv.old)) (size_of (F.device nv.old)) jobs.old }
    ensures passes { Passes (job_deeds marks kind jobs.old.bank (now (F.device flash.old)) (now (F.device nv.old)) capsule.now layout.now)
        (record { bank = F.device flash.old; store = F.device nv.old }) (record { bank = F.device flash.new; store = F.device nv.new }) result }
    ensures stands { OnOk result (LogStays marks jobs.old.bank (now (F.device nv.new)) jobs.old jobs.new) }
    ensures marked { let image = now (F.device flash.old) in
        OnOk result (SetsMarks marks jobs.old.bank (is_job_page kind image capsule.now layout.now) (group_pages (length image)) (length image / 4096) (now (F.device nv.old)) (now (F.device nv.new))) }
    ensures stopped { let image = now (F.device flash.old) in
        OnErr result (SetsSomeMarks marks jobs.old.bank (is_job_page kind image capsule.now layout.now) (group_pages (length image)) (length image / 4096) (now (F.device nv.old)) (now (F.device nv.new))) }
    ensures one { marks ≡ how.Heed → OpensOne jobs.old.bank (group_pages (length (now (F.device flash.old))))
        (record { bank = F.device flash.old; store = F.device nv.old }) (record { bank = F.device flash.new; store = F.device nv.new }) }
    ensures unused { marks ≢ how.Heed → F.device nv.new ≡ F.device nv.old }
{
    match marks {
        Marks::Heed => replace_heeding(flash, nv, jobs, capsule, layout, kind),
        Marks::Ignore | Marks::Without => replace_ignoring(flash, capsule, layout, kind),
    }
}
