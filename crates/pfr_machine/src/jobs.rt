// What is done for a bank in work by its log of jobs.
ghost use Rattle.std.specs.Prelude.{◌≡◌, ◌≢◌, ◌≤◌, false, IfOk, OnOk, Ok};
ghost use Rattle.pfr_flash.specs.FlashState.{now, size_of};
ghost use Rattle.pfr_flash.specs.Plan.{Follows};
ghost use Rattle.pfr_flash.specs.declared.names.Bank.{Bank};
ghost use Rattle.pfr_flash.specs.declared.names.Device.TheVariants.{Nv};
ghost use Rattle.pfr_fuses.specs.Changes.{raise_plan};
ghost use Rattle.pfr_fuses.specs.FusesOf.{fuses_of};
ghost use Rattle.pfr_fuses.specs.FusesState.{floor_of};
ghost use Rattle.pfr_fuses.specs.declared.profile.Profile.TheVariants.{Two};
ghost use Rattle.pfr_jobs.specs.LogPlans.{IsKind, begin_plan, finish_plan};
ghost use Rattle.pfr_jobs.specs.LogState.{is_spent_in, log_of};
ghost use Rattle.pfr_jobs.specs.declared.job.OpenJob.TheVariants as job;
ghost use Rattle.pfr_story.specs.Goes.{Goes};
ghost use Rattle.pfr_story.specs.JobPlans.{begun_job, finished_job, raised_to};
ghost use Rattle.pfr_story.specs.Plans.{asks_store};
ghost use Rattle.pfr_story.specs.Story.{device_of};
ghost use Rattle.pfr_story.specs.World.{state_at};
ghost use Rattle.pfr_machine.specs.Jobs.{IsAtJob};
ghost use Rattle.pfr_machine.specs.Inside.{KeepsLaid};
ghost use Rattle.pfr_machine.specs.Worlds.{IsAwake, Stays};

use crate::desk::Desk;
use pfr_flash::{Bank, Device, Flash, FlashFail};
use pfr_fuses::Fuses;
use pfr_jobs::{JobFail, JobKind, JobLog};
use pfr_story::Stop;

// Begins a job in a log that takes one more.
fn begin<F: Flash>(
    nv: &mut F,
    log: &mut JobLog,
    kind: JobKind,
    digest: &[u8; 32],
) -> Result<(), FlashFail>
    requires size { size_of (F.device nv.old) ≡ 32768 }
    requires stands { log.old ≡ log_of (now (F.device nv.old)) log.old.bank }
    requires none { log.old.job ≡ job.None }
    requires room { is_spent_in log.old ≡ false }
    requires kind { IsKind kind }
    ensures follows { Follows (begin_plan (now (F.device nv.old)) log.old.bank kind digest.now) (F.device nv.old) (F.device nv.new) result }
    ensures stands { OnOk result (log.new ≡ log_of (now (F.device nv.new)) log.old.bank) }
    ensures open { OnOk result (log.new.job ≡ job.Job kind digest.now) }
    ensures fuses { fuses_of (now (F.device nv.new)) ≡ fuses_of (now (F.device nv.old)) }
{
    match log.begin(nv, kind, digest) {
        Ok(()) => Ok(()),
        Err(JobFail::Flash(fail)) => Err(fail),
        Err(JobFail::Spent) => unreachable!(),
    }
}

// Finishes the job that a log has open.
fn finish<F: Flash>(nv: &mut F, log: &mut JobLog) -> Result<(), FlashFail>
    requires size { size_of (F.device nv.old) ≡ 32768 }
    requires stands { log.old ≡ log_of (now (F.device nv.old)) log.old.bank }
    requires open { log.old.job ≢ job.None }
    ensures follows { Follows (finish_plan (now (F.device nv.old)) log.old.bank) (F.device nv.old) (F.device nv.new) result }
    ensures stands { OnOk result (log.new ≡ log_of (now (F.device nv.new)) log.old.bank) }
    ensures none { OnOk result (log.new.job ≡ job.None) }
    ensures fuses { fuses_of (now (F.device nv.new)) ≡ fuses_of (now (F.device nv.old)) }
{
    log.finish(nv)
}

// Raises a bank's floor in a store of profile 2.
fn raise<F: Flash>(nv: &mut F, fuses: &mut Fuses, bank: Bank, svn: u32) -> Result<(), FlashFail>
    requires size { size_of (F.device nv.old) ≡ 32768 }
    requires found { fuses_of (now (F.device nv.old)) ≡ Ok fuses.old }
    requires two { fuses.old.profile ≡ Two }
    requires svn { svn ≤ 127 }
    ensures follows { Follows (raise_plan (floor_of fuses.old bank) bank svn) (F.device nv.old) (F.device nv.new) result }
    ensures found { OnOk result (fuses_of (now (F.device nv.new)) ≡ Ok fuses.new) }
    ensures two { fuses.new.profile ≡ Two }
    ensures provision { fuses.new.provision ≡ fuses.old.provision }
    ensures laid { KeepsLaid (now (F.device nv.old)) (now (F.device nv.new)) }
    ensures logs { (which : Bank) → log_of (now (F.device nv.new)) which ≡ log_of (now (F.device nv.old)) which }
{
    fuses.raise(nv, bank, svn)
}

/// A call of the store that failed.
pub fn store_stop(fail: FlashFail) -> Stop
    ensures { result ≡ record { device = Nv; fail = fail } }
{
    Stop {
        device: Device::Nv,
        fail,
    }
}

impl<F: Flash> Desk<F> {
    /// The bank's log of jobs.
    pub fn load_log(&mut self) -> Result<JobLog, Stop>
        requires on { IsAwake self.old.bank self.old.world }
        ensures goes { Goes asks_store self.old.world self.new.world result }
        ensures found { IfOk result (λ log. log ≡ log_of (now self.new.world.nv) self.old.bank) }
        ensures store { now self.new.world.nv ≡ now self.old.world.nv }
        ensures stays { Stays 0 self.old self.new result }
        ensures flash { state_at (device_of self.old.bank) self.new.world ≡ state_at (device_of self.old.bank) self.old.world }
    {
        match JobLog::load(&mut self.board.nv, self.bank) {
            Ok(log) => Ok(log),
            Err(fail) => Err(store_stop(fail)),
        }
    }

    /// Begins a job in the bank's log, which has none open and takes one more.
    pub fn begin_job(
        &mut self,
        log: &mut JobLog,
        kind: JobKind,
        digest: &[u8; 32],
    ) -> Result<(), Stop>
        requires on { IsAwake self.old.bank self.old.world }
        requires stands { log.old ≡ log_of (now self.old.world.nv) self.old.bank }
        requires none { log.old.job ≡ job.None }
        requires room { is_spent_in log.old ≡ false }
        requires kind { IsKind kind }
        ensures goes { Goes (begun_job self.old.bank kind digest.now) self.old.world self.new.world result }
        ensures stands { OnOk result (log.new ≡ log_of (now self.new.world.nv) self.old.bank) }
        ensures open { OnOk result (log.new.job ≡ job.Job kind digest.now) }
        ensures stays { Stays 0 self.old self.new result }
        ensures fuses { fuses_of (now self.new.world.nv) ≡ fuses_of (now self.old.world.nv) }
        ensures flash { state_at (device_of self.old.bank) self.new.world ≡ state_at (device_of self.old.bank) self.old.world }
    {
        match begin(&mut self.board.nv, log, kind, digest) {
            Ok(()) => Ok(()),
            Err(fail) => Err(store_stop(fail)),
        }
    }

    /// Finishes the job that the bank's log has open.
    pub fn finish_job(&mut self, log: &mut JobLog) -> Result<(), Stop>
        requires at_job { IsAtJob self.old log.old }
        ensures goes { Goes (finished_job self.old.bank) self.old.world self.new.world result }
        ensures stands { OnOk result (log.new ≡ log_of (now self.new.world.nv) self.old.bank) }
        ensures none { OnOk result (log.new.job ≡ job.None) }
        ensures stays { Stays 0 self.old self.new result }
        ensures fuses { fuses_of (now self.new.world.nv) ≡ fuses_of (now self.old.world.nv) }
        ensures flash { state_at (device_of self.old.bank) self.new.world ≡ state_at (device_of self.old.bank) self.old.world }
    {
        match finish(&mut self.board.nv, log) {
            Ok(()) => Ok(()),
            Err(fail) => Err(store_stop(fail)),
        }
    }

    /// Raises the bank's floor to a security version number, in a store of profile 2, unless it is as high already.
    pub fn raise_floor(&mut self, fuses: &mut Fuses, svn: u32) -> Result<(), Stop>
        requires on { IsAwake self.old.bank self.old.world }
        requires found { fuses_of (now self.old.world.nv) ≡ Ok fuses.old }
        requires two { fuses.old.profile ≡ Two }
        requires svn { svn ≤ 127 }
        ensures goes { Goes (raised_to svn self.old.bank fuses.old) self.old.world self.new.world result }
        ensures found { OnOk result (fuses_of (now self.new.world.nv) ≡ Ok fuses.new) }
        ensures two { fuses.new.profile ≡ Two }
        ensures provision { fuses.new.provision ≡ fuses.old.provision }
        ensures stays { Stays 0 self.old self.new result }
        ensures logs { (which : Bank) → log_of (now self.new.world.nv) which ≡ log_of (now self.old.world.nv) which }
        ensures flash { state_at (device_of self.old.bank) self.new.world ≡ state_at (device_of self.old.bank) self.old.world }
    {
        match raise(&mut self.board.nv, fuses, self.bank, svn) {
            Ok(()) => Ok(()),
            Err(fail) => Err(store_stop(fail)),
        }
    }
}
