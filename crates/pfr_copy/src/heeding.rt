// The pages of a job are written group by group, where marks are heeded and set.
ghost use Rattle.std.specs.Prelude.{◌≡◌, ◌≢◌, ◌⊎◌, ℕ, ◌/◌, ◌<◌, ◌≤◌, true, OnOk, OnErr, length};
ghost use Rattle.pfr_flash.specs.FlashState.{now, size_of};
ghost use Rattle.pfr_flash.specs.Layout.{IsBankSize};
ghost use Rattle.pfr_copy.specs.Copied.{MarksGroups, OpensOne};
ghost use Rattle.pfr_copy.specs.Stopped.{MarksBelow};
ghost use Rattle.pfr_copy.specs.Working.{CanDo, is_job_page, job_page, job_pages};
ghost use Rattle.pfr_jobs.specs.LogPlans.{mark_plan};
ghost use Rattle.pfr_jobs.specs.LogState.{is_marked, log_of};
ghost use Rattle.pfr_jobs.specs.declared.job.OpenJob.TheVariants as job;
ghost use Rattle.pfr_rebuilt.specs.Passing.{group_pages, heeding};
ghost use Rattle.pfr_strokes.specs.Deeds.{marked_by, pass};
ghost use Rattle.pfr_strokes.specs.Passes.{Passes};
ghost use Rattle.pfr_strokes.specs.Replaced.{has_pages, pages_of_group};

use crate::pages::replace_pages;
use crate::taking::PAGE;
use pfr_capsule::Capsule;
use pfr_flash::{Flash, Layout};
use pfr_jobs::{JobKind, JobLog};
use pfr_strokes::CopyFail;

/// How many groups there are at most.
const GROUPS: u32 = 128;

// How many pages a group has, in a bank of so many bytes.
fn group_pages(size: u32) -> u32
    requires { size ≤ 67108864 }
    ensures { result ≡ group_pages size }
{
    (size / PAGE).div_ceil(GROUPS).max(1)
}

// Writes the job's pages of a group, and marks it where it has one.
fn replace_group<F: Flash>(
    flash: &mut F,
    nv: &mut F,
    jobs: &mut JobLog,
    capsule: &Capsule,
    layout: &Layout,
    kind: JobKind,
    group: u32,
) -> Result<(), CopyFail>
    requires size { IsBankSize (size_of (F.device flash.old)) }
    requires can { CanDo kind (now (F.device flash.old)) layout.now capsule.now }
    requires store { size_of (F.device nv.old) ≡ 32768 }
    requires stands { jobs.old ≡ log_of (now (F.device nv.old)) jobs.old.bank }
    requires open { jobs.old.job ≢ job.None }
    requires group { group < 128 }
    ensures passes { let image = now (F.device flash.old) in
        Passes (pass (job_page kind image capsule.now layout.now) (group_pages (length image)) (marked_by (mark_plan (now (F.device nv.old)) jobs.old.bank))
        (pages_of_group (is_job_page kind image capsule.now layout.now) (group_pages (length image)) (length image / 4096) group))
        (record { bank = F.device flash.old; store = F.device nv.old }) (record { bank = F.device flash.new; store = F.device nv.new }) result }
    ensures stands { OnOk result (jobs.new ≡ log_of (now (F.device nv.new)) jobs.old.bank) }
    ensures others { (other : ℕ) → other < 128 → other ≢ group →
        is_marked (now (F.device nv.new)) jobs.old.bank other ≡ is_marked (now (F.device nv.old)) jobs.old.bank other }
    ensures early { let image = now (F.device flash.old) in OnErr result ((F.device nv.new ≡ F.device nv.old)
        ⊎ (has_pages (pages_of_group (is_job_page kind image capsule.now layout.now) (group_pages (length image)) (length image / 4096) group) ≡ true)) }
{
    let count = group_pages(flash.size());
    let all = flash.size() / PAGE;
    let from = (group * count).min(all);
    let to = (from + count).min(all);
    match replace_pages(flash, capsule, layout, kind, from, to) {
        Ok(true) => match jobs.mark(nv, group) {
            Ok(()) => Ok(()),
            Err(fail) => Err(CopyFail::Store(fail)),
        },
        Ok(false) => Ok(()),
        Err(fail) => Err(CopyFail::Bank(fail)),
    }
}

/// Writes the job's pages of the groups that aren't marked, and marks each of these that has one.
pub fn replace_heeding<F: Flash>(
    flash: &mut F,
    nv: &mut F,
    jobs: &mut JobLog,
    capsule: &Capsule,
    layout: &Layout,
    kind: JobKind,
) -> Result<(), CopyFail>
    requires size { IsBankSize (size_of (F.device flash.old)) }
    requires can { CanDo kind (now (F.device flash.old)) layout.now capsule.now }
    requires store { size_of (F.device nv.old) ≡ 32768 }
    requires stands { jobs.old ≡ log_of (now (F.device nv.old)) jobs.old.bank }
    requires open { jobs.old.job ≢ job.None }
    ensures passes { let image = now (F.device flash.old) in
        Passes (heeding jobs.old.bank (now (F.device nv.old)) (job_page kind image capsule.now layout.now) (group_pages (length image)) (job_pages kind image capsule.now layout.now))
        (record { bank = F.device flash.old; store = F.device nv.old }) (record { bank = F.device flash.new; store = F.device nv.new }) result }
    ensures stands { OnOk result (jobs.new ≡ log_of (now (F.device nv.new)) jobs.old.bank) }
    ensures marked { let image = now (F.device flash.old) in
        OnOk result (MarksGroups jobs.old.bank (is_job_page kind image capsule.now layout.now) (group_pages (length image)) (length image / 4096) (now (F.device nv.old)) (now (F.device nv.new))) }
    ensures stopped { let image = now (F.device flash.old) in
        OnErr result (MarksBelow jobs.old.bank (is_job_page kind image capsule.now layout.now) (group_pages (length image)) (length image / 4096) (now (F.device nv.old)) (now (F.device nv.new))) }
    ensures one { OpensOne jobs.old.bank (group_pages (length (now (F.device flash.old))))
        (record { bank = F.device flash.old; store = F.device nv.old }) (record { bank = F.device flash.new; store = F.device nv.new }) }
{
    for group in 0..GROUPS {
        if !jobs.marked(group) {
            replace_group(flash, nv, jobs, capsule, layout, kind, group)?;
        }
    }
    Ok(())
}
