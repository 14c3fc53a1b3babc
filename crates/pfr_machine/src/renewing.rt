// The recovery area of a bank in work is replaced, by a job.
ghost use Rattle.std.specs.Prelude.{◌≡◌, ◌≤◌, OnOk, Ok, false};
ghost use Rattle.pfr_flash.specs.FlashState.{now};
ghost use Rattle.pfr_copy.specs.Applying.{CanCopyOver};
ghost use Rattle.pfr_fuses.specs.FusesOf.{fuses_of};
ghost use Rattle.pfr_fuses.specs.RootSlot.{layout_of};
ghost use Rattle.pfr_fuses.specs.declared.profile.Profile.TheVariants.{Two};
ghost use Rattle.pfr_jobs.specs.Log.{open_job};
ghost use Rattle.pfr_jobs.specs.LogState.{is_spent_in, log_of};
ghost use Rattle.pfr_jobs.specs.declared.job.OpenJob.TheVariants as job;
ghost use Rattle.pfr_report.specs.declared.note.What.TheVariants.{Abandoned, RecoveryUpdated};
ghost use Rattle.pfr_story.specs.Goes.{Goes};
ghost use Rattle.pfr_story.specs.JobPlans.{abandoned, by_digest, concluded, copied_again, copied_over, recovery_job, recovery_work, same_digest, second_pass};
ghost use Rattle.pfr_story.specs.Story.{device_of};
ghost use Rattle.pfr_story.specs.World.{state_at};
ghost use Rattle.pfr_machine.specs.Jobs.{HasFuses, IsAtJob, LeavesNoJob};
ghost use Rattle.pfr_machine.specs.Renewing.{looked_again, looked_over};
ghost use Rattle.pfr_machine.specs.Worlds.{IsAwake, Stays};

use crate::desk::Desk;
use pfr_auth::Area;
use pfr_capsule::Capsule;
use pfr_chain::Engine;
use pfr_copy::Marks;
use pfr_flash::Flash;
use pfr_fuses::Fuses;
use pfr_jobs::{JobKind, JobLog};
use pfr_report::What;
use pfr_story::Stop;

/// Whether two digests are the same.
pub fn same_digest(digest: &[u8; 32], other: &[u8; 32]) -> bool
    ensures { result ≡ same_digest digest.now other.now }
{
    *digest == *other
}

impl<F: Flash> Desk<F> {
    /// Gives the job up that is open.
    pub fn give_up(&mut self, log: &mut JobLog) -> Result<(), Stop>
        requires room { 1 ≤ self.old.world.notes.spare }
        requires at_job { IsAtJob self.old log.old }
        ensures goes { Goes (abandoned (Abandoned self.old.bank) self.old.bank) self.old.world self.new.world result }
        ensures none { OnOk result (open_job (now self.new.world.nv) self.old.bank ≡ job.None) }
        ensures stays { Stays 1 self.old self.new result }
        ensures fuses { fuses_of (now self.new.world.nv) ≡ fuses_of (now self.old.world.nv) }
    {
        let bank = self.bank;
        self.close_job(log, What::Abandoned { bank })
    }

    // Finishes the job that is open, and notes that the recovery area was updated.
    fn close_renewed(&mut self, log: &mut JobLog, svn: u8) -> Result<(), Stop>
        requires room { 1 ≤ self.old.world.notes.spare }
        requires at_job { IsAtJob self.old log.old }
        ensures goes { Goes (abandoned (RecoveryUpdated self.old.bank svn) self.old.bank) self.old.world self.new.world result }
        ensures none { OnOk result (open_job (now self.new.world.nv) self.old.bank ≡ job.None) }
        ensures stays { Stays 1 self.old self.new result }
        ensures fuses { fuses_of (now self.new.world.nv) ≡ fuses_of (now self.old.world.nv) }
    {
        let bank = self.bank;
        self.close_job(log, What::RecoveryUpdated { bank, svn })
    }

    /// Raises the floor to that of the capsule in the recovery area, finishes the job that is open, and notes this.
    pub fn conclude(
        &mut self,
        log: &mut JobLog,
        fuses: &mut Fuses,
        capsule: &Capsule,
    ) -> Result<(), Stop>
        requires room { 1 ≤ self.old.world.notes.spare }
        requires at_job { IsAtJob self.old log.old }
        requires found { fuses_of (now self.old.world.nv) ≡ Ok fuses.old }
        requires two { fuses.old.profile ≡ Two }
        requires svn { capsule.now.manifest.svn ≤ 127 }
        ensures goes { Goes (concluded (λ svn. RecoveryUpdated self.old.bank svn) self.old.bank fuses.old capsule.now) self.old.world self.new.world result }
        ensures leaves { LeavesNoJob self.old self.new fuses.old fuses.new result }
        ensures stays { Stays 1 self.old self.new result }
    {
        let svn = capsule.manifest().svn;
        self.raise_floor(fuses, u32::from(svn))?;
        self.close_renewed(log, svn)
    }

    /// Copies a capsule from the staging area to the recovery area: the pages whose groups aren't marked, and marks the groups.
    pub fn copy_over(
        &mut self,
        log: &mut JobLog,
        fuses: &Fuses,
        capsule: &Capsule,
    ) -> Result<(), Stop>
        requires at_job { IsAtJob self.old log.old }
        requires can { CanCopyOver (now (state_at (device_of self.old.bank) self.old.world))
            (layout_of fuses.now.provision self.old.bank) capsule.now }
        ensures goes { Goes (copied_over self.old.bank fuses.now capsule.now) self.old.world self.new.world result }
        ensures stands { OnOk result (log.new ≡ log_of (now self.new.world.nv) self.old.bank) }
        ensures open { OnOk result (log.new.job ≡ log.old.job) }
        ensures again { OnOk result (CanCopyOver (now (state_at (device_of self.old.bank) self.new.world))
            (layout_of fuses.now.provision self.old.bank) capsule.now) }
        ensures stays { Stays 0 self.old self.new result }
        ensures fuses { fuses_of (now self.new.world.nv) ≡ fuses_of (now self.old.world.nv) }
    {
        self.copy_with(log, fuses, capsule, Marks::Heed)
    }

    /// Copies all pages of a capsule from the staging area to the recovery area, whatever is marked.
    pub fn copy_again(
        &mut self,
        log: &mut JobLog,
        fuses: &Fuses,
        capsule: &Capsule,
    ) -> Result<(), Stop>
        requires at_job { IsAtJob self.old log.old }
        requires can { CanCopyOver (now (state_at (device_of self.old.bank) self.old.world))
            (layout_of fuses.now.provision self.old.bank) capsule.now }
        ensures goes { Goes (copied_again self.old.bank fuses.now capsule.now) self.old.world self.new.world result }
        ensures same { OnOk result (log.new ≡ log.old) }
        ensures stays { Stays 0 self.old self.new result }
        ensures store { self.new.world.nv ≡ self.old.world.nv }
    {
        self.copy_with(log, fuses, capsule, Marks::Ignore)
    }

    // Judges the recovery area behind the second pass, and concludes the job or gives it up.
    fn look_again<E: Engine>(
        &mut self,
        log: &mut JobLog,
        fuses: &mut Fuses,
        engine: &E,
    ) -> Result<(), Stop>
        requires room { 1 ≤ self.old.world.notes.spare }
        requires at_job { IsAtJob self.old log.old }
        requires fused { HasFuses self.old fuses.old }
        ensures goes { Goes (looked_again (Abandoned self.old.bank) (λ svn. RecoveryUpdated self.old.bank svn) (E.accepts engine.now) fuses.old self.old.bank) self.old.world self.new.world result }
        ensures leaves { LeavesNoJob self.old self.new fuses.old fuses.new result }
        ensures stays { Stays 1 self.old self.new result }
    {
        match self.judge(Area::Recovery, fuses, engine) {
            Ok(Ok(found)) => self.conclude(log, fuses, &found),
            Ok(Err(_)) => self.give_up(log),
            Err(stop) => Err(stop),
        }
    }

    /// Copies all pages of a capsule, and concludes the job.
    pub fn second_pass<E: Engine>(
        &mut self,
        log: &mut JobLog,
        fuses: &mut Fuses,
        capsule: &Capsule,
        engine: &E,
    ) -> Result<(), Stop>
        requires room { 1 ≤ self.old.world.notes.spare }
        requires at_job { IsAtJob self.old log.old }
        requires fused { HasFuses self.old fuses.old }
        requires can { CanCopyOver (now (state_at (device_of self.old.bank) self.old.world))
            (layout_of fuses.old.provision self.old.bank) capsule.now }
        ensures goes { Goes (second_pass (Abandoned self.old.bank) (λ svn. RecoveryUpdated self.old.bank svn) (E.accepts engine.now) self.old.bank fuses.old capsule.now) self.old.world self.new.world result }
        ensures leaves { LeavesNoJob self.old self.new fuses.old fuses.new result }
        ensures stays { Stays 1 self.old self.new result }
    {
        self.copy_again(log, fuses, capsule)?;
        self.look_again(log, fuses, engine)
    }

    // Concludes the job where its own capsule was found in the recovery area; else does the second pass.
    fn by_found<E: Engine>(
        &mut self,
        log: &mut JobLog,
        fuses: &mut Fuses,
        capsule: &Capsule,
        found: &Capsule,
        engine: &E,
    ) -> Result<(), Stop>
        requires room { 1 ≤ self.old.world.notes.spare }
        requires at_job { IsAtJob self.old log.old }
        requires fused { HasFuses self.old fuses.old }
        requires can { CanCopyOver (now (state_at (device_of self.old.bank) self.old.world))
            (layout_of fuses.old.provision self.old.bank) capsule.now }
        requires svn { found.now.manifest.svn ≤ 127 }
        ensures goes { Goes (by_digest (same_digest found.now.digest capsule.now.digest) (Abandoned self.old.bank) (λ svn. RecoveryUpdated self.old.bank svn) (E.accepts engine.now) self.old.bank fuses.old capsule.now found.now) self.old.world self.new.world result }
        ensures leaves { LeavesNoJob self.old self.new fuses.old fuses.new result }
        ensures stays { Stays 1 self.old self.new result }
    {
        if same_digest(&found.digest(), &capsule.digest()) {
            self.conclude(log, fuses, found)
        } else {
            self.second_pass(log, fuses, capsule, engine)
        }
    }

    // Judges the recovery area behind the first pass, and goes on by what is found.
    fn look_over<E: Engine>(
        &mut self,
        log: &mut JobLog,
        fuses: &mut Fuses,
        capsule: &Capsule,
        engine: &E,
    ) -> Result<(), Stop>
        requires room { 1 ≤ self.old.world.notes.spare }
        requires at_job { IsAtJob self.old log.old }
        requires fused { HasFuses self.old fuses.old }
        requires can { CanCopyOver (now (state_at (device_of self.old.bank) self.old.world))
            (layout_of fuses.old.provision self.old.bank) capsule.now }
        ensures goes { Goes (looked_over (Abandoned self.old.bank) (λ svn. RecoveryUpdated self.old.bank svn) (E.accepts engine.now) fuses.old capsule.now self.old.bank) self.old.world self.new.world result }
        ensures leaves { LeavesNoJob self.old self.new fuses.old fuses.new result }
        ensures stays { Stays 1 self.old self.new result }
    {
        match self.judge(Area::Recovery, fuses, engine) {
            Ok(Ok(found)) => self.by_found(log, fuses, capsule, &found, engine),
            Ok(Err(_)) => self.second_pass(log, fuses, capsule, engine),
            Err(stop) => Err(stop),
        }
    }

    /// Does the job on the recovery area that is open: copies a capsule from the staging area, raises the floor to that of the
    /// capsule that stands there then, finishes the job and notes this; or gives it up where none does.
    pub fn recovery_work<E: Engine>(
        &mut self,
        log: &mut JobLog,
        fuses: &mut Fuses,
        capsule: &Capsule,
        engine: &E,
    ) -> Result<(), Stop>
        requires room { 1 ≤ self.old.world.notes.spare }
        requires at_job { IsAtJob self.old log.old }
        requires fused { HasFuses self.old fuses.old }
        requires can { CanCopyOver (now (state_at (device_of self.old.bank) self.old.world))
            (layout_of fuses.old.provision self.old.bank) capsule.now }
        ensures goes { Goes (recovery_work (Abandoned self.old.bank) (λ svn. RecoveryUpdated self.old.bank svn) (E.accepts engine.now) self.old.bank fuses.old capsule.now) self.old.world self.new.world result }
        ensures leaves { LeavesNoJob self.old self.new fuses.old fuses.new result }
        ensures stays { Stays 1 self.old self.new result }
    {
        self.copy_over(log, fuses, capsule)?;
        self.look_over(log, fuses, capsule, engine)
    }

    /// Begins a job on the recovery area, and does it.
    pub fn recovery_job<E: Engine>(
        &mut self,
        log: &mut JobLog,
        fuses: &mut Fuses,
        capsule: &Capsule,
        engine: &E,
    ) -> Result<(), Stop>
        requires room { 1 ≤ self.old.world.notes.spare }
        requires on { IsAwake self.old.bank self.old.world }
        requires stands { log.old ≡ log_of (now self.old.world.nv) self.old.bank }
        requires none { log.old.job ≡ job.None }
        requires left { is_spent_in log.old ≡ false }
        requires fused { HasFuses self.old fuses.old }
        requires can { CanCopyOver (now (state_at (device_of self.old.bank) self.old.world))
            (layout_of fuses.old.provision self.old.bank) capsule.now }
        ensures goes { Goes (recovery_job (Abandoned self.old.bank) (λ svn. RecoveryUpdated self.old.bank svn) (E.accepts engine.now) self.old.bank fuses.old capsule.now) self.old.world self.new.world result }
        ensures leaves { LeavesNoJob self.old self.new fuses.old fuses.new result }
        ensures stays { Stays 1 self.old self.new result }
    {
        self.begin_job(log, JobKind::RecoveryFromStaging, &capsule.digest())?;
        self.recovery_work(log, fuses, capsule, engine)
    }
}
