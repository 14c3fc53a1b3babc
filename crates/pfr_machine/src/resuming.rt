// A job that the log of a bank in work has open at a power-on is resumed.
ghost use Rattle.std.specs.Prelude.{◌≡◌, ◌≤◌, true};
ghost use Rattle.pfr_flash.specs.FlashState.{now};
ghost use Rattle.pfr_copy.specs.Working.{CanDo};
ghost use Rattle.pfr_fuses.specs.RootSlot.{layout_of};
ghost use Rattle.pfr_jobs.specs.LogState.{log_of};
ghost use Rattle.pfr_story.specs.Goes.{Goes};
ghost use Rattle.pfr_story.specs.JobPlans.{by_open, job_notes, resumed, resumed_if, same_digest, source_of, work_of};
ghost use Rattle.pfr_story.specs.Story.{device_of};
ghost use Rattle.pfr_story.specs.World.{state_at};
ghost use Rattle.pfr_machine.specs.Jobs.{HasFuses, IsAtJob, LeavesNoJob};
ghost use Rattle.pfr_machine.specs.Renewing.{source_judged};
ghost use Rattle.pfr_machine.specs.Worlds.{IsAwake, Stays};

use crate::desk::Desk;
use crate::renewing::same_digest;
use pfr_auth::Area;
use pfr_capsule::Capsule;
use pfr_chain::Engine;
use pfr_flash::Flash;
use pfr_fuses::Fuses;
use pfr_jobs::{JobKind, JobLog, OpenJob};
use pfr_report::What;
use pfr_story::Stop;

// The area that a job works from.
fn source_of(kind: JobKind) -> Area
    ensures { result ≡ source_of kind }
{
    match kind {
        JobKind::ActiveFromRecovery { .. } => Area::Recovery,
        JobKind::ActiveFromStaging { .. } | JobKind::RecoveryFromStaging => Area::Staging,
    }
}

impl<F: Flash> Desk<F> {
    // Does the work of a job that is open, by its kind.
    fn do_work<E: Engine>(
        &mut self,
        log: &mut JobLog,
        fuses: &mut Fuses,
        capsule: &Capsule,
        kind: JobKind,
        engine: &E,
    ) -> Result<(), Stop>
        requires room { 1 ≤ self.old.world.notes.spare }
        requires at_job { IsAtJob self.old log.old }
        requires fused { HasFuses self.old fuses.old }
        requires can { CanDo kind (now (state_at (device_of self.old.bank) self.old.world))
            (layout_of fuses.old.provision self.old.bank) capsule.now }
        ensures goes { Goes (work_of (job_notes self.old.bank) (E.accepts engine.now) self.old.bank fuses.old capsule.now kind) self.old.world self.new.world result }
        ensures leaves { LeavesNoJob self.old self.new fuses.old fuses.new result }
        ensures stays { Stays 1 self.old self.new result }
    {
        let bank = self.bank;
        match kind {
            JobKind::ActiveFromRecovery { level } => {
                self.do_job(log, fuses, capsule, kind, What::Restored { bank, level })
            }
            JobKind::ActiveFromStaging { dynamic } => {
                let svn = capsule.manifest().svn;
                self.do_job(
                    log,
                    fuses,
                    capsule,
                    kind,
                    What::Updated { bank, dynamic, svn },
                )
            }
            JobKind::RecoveryFromStaging => self.recovery_work(log, fuses, capsule, engine),
        }
    }

    // Notes that a job is resumed, and does its work.
    fn resume_work<E: Engine>(
        &mut self,
        log: &mut JobLog,
        fuses: &mut Fuses,
        capsule: &Capsule,
        kind: JobKind,
        engine: &E,
    ) -> Result<(), Stop>
        requires room { 2 ≤ self.old.world.notes.spare }
        requires at_job { IsAtJob self.old log.old }
        requires fused { HasFuses self.old fuses.old }
        requires can { CanDo kind (now (state_at (device_of self.old.bank) self.old.world))
            (layout_of fuses.old.provision self.old.bank) capsule.now }
        ensures goes { Goes (resumed_if true (job_notes self.old.bank) (E.accepts engine.now) self.old.bank fuses.old capsule.now kind) self.old.world self.new.world result }
        ensures leaves { LeavesNoJob self.old self.new fuses.old fuses.new result }
        ensures stays { Stays 2 self.old self.new result }
    {
        let bank = self.bank;
        self.note(What::Resumed { bank, kind });
        self.do_work(log, fuses, capsule, kind, engine)
    }

    // Resumes a job where it works on the capsule that was found in its source area; else gives it up.
    fn resume_from<E: Engine>(
        &mut self,
        log: &mut JobLog,
        fuses: &mut Fuses,
        capsule: &Capsule,
        kind: JobKind,
        digest: &[u8; 32],
        engine: &E,
    ) -> Result<(), Stop>
        requires room { 2 ≤ self.old.world.notes.spare }
        requires at_job { IsAtJob self.old log.old }
        requires fused { HasFuses self.old fuses.old }
        requires can { CanDo kind (now (state_at (device_of self.old.bank) self.old.world))
            (layout_of fuses.old.provision self.old.bank) capsule.now }
        ensures goes { Goes (resumed_if (same_digest capsule.now.digest digest.now) (job_notes self.old.bank) (E.accepts engine.now) self.old.bank fuses.old capsule.now kind) self.old.world self.new.world result }
        ensures leaves { LeavesNoJob self.old self.new fuses.old fuses.new result }
        ensures stays { Stays 2 self.old self.new result }
    {
        if same_digest(&capsule.digest(), digest) {
            self.resume_work(log, fuses, capsule, kind, engine)
        } else {
            self.give_up(log)
        }
    }

    // Judges the source area of a job, and resumes it or gives it up.
    fn resume_job<E: Engine>(
        &mut self,
        log: &mut JobLog,
        fuses: &mut Fuses,
        kind: JobKind,
        digest: &[u8; 32],
        engine: &E,
    ) -> Result<(), Stop>
        requires room { 2 ≤ self.old.world.notes.spare }
        requires at_job { IsAtJob self.old log.old }
        requires fused { HasFuses self.old fuses.old }
        ensures goes { Goes (source_judged (job_notes self.old.bank) (E.accepts engine.now) fuses.old kind digest.now self.old.bank) self.old.world self.new.world result }
        ensures leaves { LeavesNoJob self.old self.new fuses.old fuses.new result }
        ensures stays { Stays 2 self.old self.new result }
    {
        match self.judge(source_of(kind), fuses, engine) {
            Ok(Ok(found)) => self.resume_from(log, fuses, &found, kind, digest, engine),
            Ok(Err(_)) => self.give_up(log),
            Err(stop) => Err(stop),
        }
    }

    // By what the log has open.
    fn by_open<E: Engine>(
        &mut self,
        log: &mut JobLog,
        fuses: &mut Fuses,
        engine: &E,
    ) -> Result<(), Stop>
        requires room { 2 ≤ self.old.world.notes.spare }
        requires on { IsAwake self.old.bank self.old.world }
        requires stands { log.old ≡ log_of (now self.old.world.nv) self.old.bank }
        requires fused { HasFuses self.old fuses.old }
        ensures goes { Goes (by_open (job_notes self.old.bank) (E.accepts engine.now) self.old.bank fuses.old log.old.job) self.old.world self.new.world result }
        ensures leaves { LeavesNoJob self.old self.new fuses.old fuses.new result }
        ensures stays { Stays 2 self.old self.new result }
    {
        match log.job() {
            OpenJob::None => Ok(()),
            OpenJob::Bad => self.give_up(log),
            OpenJob::Job { kind, digest } => self.resume_job(log, fuses, kind, &digest, engine),
        }
    }

    /// Resumes the job that the bank's log has open, or gives it up where its capsule isn't there. Then none is open.
    #[inline(never)]
    pub fn resume<E: Engine>(&mut self, fuses: &mut Fuses, engine: &E) -> Result<(), Stop>
        requires room { 2 ≤ self.old.world.notes.spare }
        requires on { IsAwake self.old.bank self.old.world }
        requires fused { HasFuses self.old fuses.old }
        ensures goes { Goes (resumed (job_notes self.old.bank) (E.accepts engine.now) self.old.bank fuses.old) self.old.world self.new.world result }
        ensures leaves { LeavesNoJob self.old self.new fuses.old fuses.new result }
        ensures stays { Stays 2 self.old self.new result }
    {
        let mut log = self.load_log()?;
        self.by_open(&mut log, fuses, engine)
    }
}
