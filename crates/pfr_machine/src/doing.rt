// Jobs on the active image of a bank in work are done.
ghost use Rattle.std.specs.Prelude.{◌≡◌, ◌≤◌, Bool, OnOk, false, true};
ghost use Rattle.pfr_flash.specs.FlashState.{now};
ghost use Rattle.pfr_flash.specs.declared.names.Bank.{Bank};
ghost use Rattle.pfr_copy.specs.Applying.{CanApply, IsActive};
ghost use Rattle.pfr_fuses.specs.FusesOf.{fuses_of};
ghost use Rattle.pfr_fuses.specs.RootSlot.{layout_of};
ghost use Rattle.pfr_jobs.specs.Log.{open_job};
ghost use Rattle.pfr_jobs.specs.LogPlans.{IsKind};
ghost use Rattle.pfr_jobs.specs.LogState.{is_spent_in, log_of};
ghost use Rattle.pfr_jobs.specs.declared.job.OpenJob.TheVariants as job;
ghost use Rattle.pfr_report.specs.Texts.{HasText};
ghost use Rattle.pfr_story.specs.Goes.{Goes};
ghost use Rattle.pfr_story.specs.Guards.{latch_after};
ghost use Rattle.pfr_story.specs.JobPlans.{abandoned, by_log, done_with, with_job, worked, written_over};
ghost use Rattle.pfr_story.specs.Standing.{Standing, standing_after};
ghost use Rattle.pfr_story.specs.Story.{device_of};
ghost use Rattle.pfr_story.specs.World.{state_at};
ghost use Rattle.pfr_machine.specs.Jobs.{IsAtJob};
ghost use Rattle.pfr_machine.specs.Worlds.{IsAwake, Stays};

use crate::desk::Desk;
use pfr_capsule::Capsule;
use pfr_copy::Marks;
use pfr_flash::Flash;
use pfr_fuses::Fuses;
use pfr_jobs::{JobKind, JobLog};
use pfr_report::What;
use pfr_story::Stop;

impl<F: Flash> Desk<F> {
    /// Finishes the job that is open, and notes this.
    pub fn close_job(&mut self, log: &mut JobLog, what: What) -> Result<(), Stop>
        requires room { 1 ≤ self.old.world.notes.spare }
        requires at_job { IsAtJob self.old log.old }
        requires text { HasText what }
        requires still { (which : Bank) (s : Standing) → standing_after which what s ≡ s }
        requires still_latch { (which : Bank) (latch : Bool) → latch_after which what latch ≡ latch }
        ensures goes { Goes (abandoned what self.old.bank) self.old.world self.new.world result }
        ensures none { OnOk result (open_job (now self.new.world.nv) self.old.bank ≡ job.None) }
        ensures stays { Stays 1 self.old self.new result }
        ensures fuses { fuses_of (now self.new.world.nv) ≡ fuses_of (now self.old.world.nv) }
    {
        self.finish_job(log)?;
        self.note(what);
        Ok(())
    }

    /// Writes the pages of a job on the active image that is open, those whose groups aren't marked, and marks the groups.
    pub fn work_on(
        &mut self,
        log: &mut JobLog,
        fuses: &Fuses,
        capsule: &Capsule,
        kind: JobKind,
    ) -> Result<(), Stop>
        requires at_job { IsAtJob self.old log.old }
        requires can { CanApply (now (state_at (device_of self.old.bank) self.old.world))
            (layout_of fuses.now.provision self.old.bank) capsule.now }
        requires kind { IsActive kind }
        ensures goes { Goes (worked self.old.bank kind fuses.now capsule.now) self.old.world self.new.world result }
        ensures stands { OnOk result (log.new ≡ log_of (now self.new.world.nv) self.old.bank) }
        ensures open { OnOk result (log.new.job ≡ log.old.job) }
        ensures stays { Stays 0 self.old self.new result }
        ensures fuses { fuses_of (now self.new.world.nv) ≡ fuses_of (now self.old.world.nv) }
    {
        self.apply_with(log, fuses, capsule, kind, Marks::Heed)
    }

    /// Writes all pages of the active image that a capsule gives, by no job.
    pub fn write_over(
        &mut self,
        log: &mut JobLog,
        fuses: &Fuses,
        capsule: &Capsule,
        kind: JobKind,
    ) -> Result<(), Stop>
        requires on { IsAwake self.old.bank self.old.world }
        requires can { CanApply (now (state_at (device_of self.old.bank) self.old.world))
            (layout_of fuses.now.provision self.old.bank) capsule.now }
        requires kind { IsActive kind }
        ensures goes { Goes (written_over self.old.bank kind fuses.now capsule.now) self.old.world self.new.world result }
        ensures stays { Stays 0 self.old self.new result }
        ensures store { self.new.world.nv ≡ self.old.world.nv }
    {
        self.apply_with(log, fuses, capsule, kind, Marks::Without)
    }

    /// Does the job on the active image that is open, finishes it, and notes this.
    pub fn do_job(
        &mut self,
        log: &mut JobLog,
        fuses: &Fuses,
        capsule: &Capsule,
        kind: JobKind,
        that: What,
    ) -> Result<(), Stop>
        requires room { 1 ≤ self.old.world.notes.spare }
        requires at_job { IsAtJob self.old log.old }
        requires can { CanApply (now (state_at (device_of self.old.bank) self.old.world))
            (layout_of fuses.now.provision self.old.bank) capsule.now }
        requires kind { IsActive kind }
        requires text { HasText that }
        requires still { (which : Bank) (s : Standing) → standing_after which that s ≡ s }
        requires still_latch { (which : Bank) (latch : Bool) → latch_after which that latch ≡ latch }
        ensures goes { Goes (done_with self.old.bank kind fuses.now capsule.now that) self.old.world self.new.world result }
        ensures none { OnOk result (open_job (now self.new.world.nv) self.old.bank ≡ job.None) }
        ensures stays { Stays 1 self.old self.new result }
        ensures fuses { fuses_of (now self.new.world.nv) ≡ fuses_of (now self.old.world.nv) }
    {
        self.work_on(log, fuses, capsule, kind)?;
        self.close_job(log, that)
    }

    // Begins a job on the active image, and does it.
    fn begin_and_do(
        &mut self,
        log: &mut JobLog,
        fuses: &Fuses,
        capsule: &Capsule,
        kind: JobKind,
        that: What,
    ) -> Result<(), Stop>
        requires room { 1 ≤ self.old.world.notes.spare }
        requires on { IsAwake self.old.bank self.old.world }
        requires stands { log.old ≡ log_of (now self.old.world.nv) self.old.bank }
        requires none { log.old.job ≡ job.None }
        requires left { is_spent_in log.old ≡ false }
        requires can { CanApply (now (state_at (device_of self.old.bank) self.old.world))
            (layout_of fuses.now.provision self.old.bank) capsule.now }
        requires kind { IsActive kind }
        requires valid { IsKind kind }
        requires text { HasText that }
        requires still { (which : Bank) (s : Standing) → standing_after which that s ≡ s }
        requires still_latch { (which : Bank) (latch : Bool) → latch_after which that latch ≡ latch }
        ensures goes { Goes (by_log false self.old.bank kind fuses.now capsule.now that) self.old.world self.new.world result }
        ensures none { OnOk result (open_job (now self.new.world.nv) self.old.bank ≡ job.None) }
        ensures stays { Stays 1 self.old self.new result }
        ensures fuses { fuses_of (now self.new.world.nv) ≡ fuses_of (now self.old.world.nv) }
    {
        self.begin_job(log, kind, &capsule.digest())?;
        self.do_job(log, fuses, capsule, kind, that)
    }

    // Writes the active image by no job, since the log is spent, and notes this.
    fn write_and_note(
        &mut self,
        log: &mut JobLog,
        fuses: &Fuses,
        capsule: &Capsule,
        kind: JobKind,
        that: What,
    ) -> Result<(), Stop>
        requires room { 1 ≤ self.old.world.notes.spare }
        requires on { IsAwake self.old.bank self.old.world }
        requires can { CanApply (now (state_at (device_of self.old.bank) self.old.world))
            (layout_of fuses.now.provision self.old.bank) capsule.now }
        requires kind { IsActive kind }
        requires text { HasText that }
        requires still { (which : Bank) (s : Standing) → standing_after which that s ≡ s }
        requires still_latch { (which : Bank) (latch : Bool) → latch_after which that latch ≡ latch }
        ensures goes { Goes (by_log true self.old.bank kind fuses.now capsule.now that) self.old.world self.new.world result }
        ensures stays { Stays 1 self.old self.new result }
        ensures store { self.new.world.nv ≡ self.old.world.nv }
    {
        self.write_over(log, fuses, capsule, kind)?;
        self.note(that);
        Ok(())
    }

    // By the log that was loaded.
    fn by_log(
        &mut self,
        log: &mut JobLog,
        fuses: &Fuses,
        capsule: &Capsule,
        kind: JobKind,
        that: What,
    ) -> Result<(), Stop>
        requires room { 1 ≤ self.old.world.notes.spare }
        requires on { IsAwake self.old.bank self.old.world }
        requires stands { log.old ≡ log_of (now self.old.world.nv) self.old.bank }
        requires none { log.old.job ≡ job.None }
        requires can { CanApply (now (state_at (device_of self.old.bank) self.old.world))
            (layout_of fuses.now.provision self.old.bank) capsule.now }
        requires kind { IsActive kind }
        requires valid { IsKind kind }
        requires text { HasText that }
        requires still { (which : Bank) (s : Standing) → standing_after which that s ≡ s }
        requires still_latch { (which : Bank) (latch : Bool) → latch_after which that latch ≡ latch }
        ensures goes { Goes (by_log (is_spent_in log.old) self.old.bank kind fuses.now capsule.now that) self.old.world self.new.world result }
        ensures none { OnOk result (open_job (now self.new.world.nv) self.old.bank ≡ job.None) }
        ensures stays { Stays 1 self.old self.new result }
        ensures fuses { fuses_of (now self.new.world.nv) ≡ fuses_of (now self.old.world.nv) }
    {
        if log.is_spent() {
            self.write_and_note(log, fuses, capsule, kind, that)
        } else {
            self.begin_and_do(log, fuses, capsule, kind, that)
        }
    }

    /// Writes the active image from a capsule by a job of its own, or by none where the log is spent, and notes this.
    pub fn with_job(
        &mut self,
        fuses: &Fuses,
        capsule: &Capsule,
        kind: JobKind,
        that: What,
    ) -> Result<(), Stop>
        requires room { 1 ≤ self.old.world.notes.spare }
        requires on { IsAwake self.old.bank self.old.world }
        requires none { open_job (now self.old.world.nv) self.old.bank ≡ job.None }
        requires can { CanApply (now (state_at (device_of self.old.bank) self.old.world))
            (layout_of fuses.now.provision self.old.bank) capsule.now }
        requires kind { IsActive kind }
        requires valid { IsKind kind }
        requires text { HasText that }
        requires still { (which : Bank) (s : Standing) → standing_after which that s ≡ s }
        requires still_latch { (which : Bank) (latch : Bool) → latch_after which that latch ≡ latch }
        ensures goes { Goes (with_job self.old.bank kind fuses.now capsule.now that) self.old.world self.new.world result }
        ensures none { OnOk result (open_job (now self.new.world.nv) self.old.bank ≡ job.None) }
        ensures stays { Stays 1 self.old self.new result }
        ensures fuses { fuses_of (now self.new.world.nv) ≡ fuses_of (now self.old.world.nv) }
    {
        let mut log = self.load_log()?;
        self.by_log(&mut log, fuses, capsule, kind, that)
    }
}
