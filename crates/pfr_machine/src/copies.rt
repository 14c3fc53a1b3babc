// Passes over the pages of a bank in work.
ghost use Rattle.std.specs.Prelude.{◌≡◌, ◌≢◌, OnOk};
ghost use Rattle.pfr_flash.specs.FlashState.{now};
ghost use Rattle.pfr_flash.specs.declared.names.Bank.{Bank};
ghost use Rattle.pfr_copy.specs.Applying.{CanApply, CanCopyOver, IsActive};
ghost use Rattle.pfr_copy.specs.Marking.{LogStays};
ghost use Rattle.pfr_copy.specs.declared.marks.Marks.TheVariants as how;
ghost use Rattle.pfr_fuses.specs.FusesOf.{fuses_of};
ghost use Rattle.pfr_fuses.specs.RootSlot.{layout_of};
ghost use Rattle.pfr_jobs.specs.Log.{open_job};
ghost use Rattle.pfr_story.specs.Goes.{Goes};
ghost use Rattle.pfr_story.specs.Story.{device_of};
ghost use Rattle.pfr_story.specs.World.{state_at};
ghost use Rattle.pfr_machine.specs.Passing.{KnowsLog, applied_by, copied_by, stop_at};
ghost use Rattle.pfr_machine.specs.Worlds.{IsAwake, Stays};

use crate::desk::{Desk, device_of};
use crate::jobs::store_stop;
use pfr_capsule::Capsule;
use pfr_copy::{Marks, apply, copy_recovery};
use pfr_flash::{Bank, Flash};
use pfr_fuses::Fuses;
use pfr_jobs::{JobKind, JobLog};
use pfr_story::Stop;
use pfr_strokes::CopyFail;

// A call of a pass that failed.
fn pass_stop(bank: Bank, fail: CopyFail) -> Stop
    ensures { result ≡ stop_at bank fail }
{
    match fail {
        CopyFail::Bank(fail) => Stop {
            device: device_of(bank),
            fail,
        },
        CopyFail::Store(fail) => store_stop(fail),
    }
}

impl<F: Flash> Desk<F> {
    /// Applies a capsule to the active image.
    pub fn apply_with(
        &mut self,
        log: &mut JobLog,
        fuses: &Fuses,
        capsule: &Capsule,
        kind: JobKind,
        marks: Marks,
    ) -> Result<(), Stop>
        requires on { IsAwake self.old.bank self.old.world }
        requires can { CanApply (now (state_at (device_of self.old.bank) self.old.world))
            (layout_of fuses.now.provision self.old.bank) capsule.now }
        requires kind { IsActive kind }
        requires log { KnowsLog marks self.old.bank (now self.old.world.nv) log.old }
        ensures goes { Goes (applied_by marks self.old.bank kind fuses.now capsule.now) self.old.world self.new.world result }
        ensures stands { OnOk result (LogStays marks self.old.bank (now self.new.world.nv) log.old log.new) }
        ensures opened { OnOk result ((which : Bank) → open_job (now self.new.world.nv) which ≡ open_job (now self.old.world.nv) which) }
        ensures unused { marks ≢ how.Heed → self.new.world.nv ≡ self.old.world.nv }
        ensures fuses { fuses_of (now self.new.world.nv) ≡ fuses_of (now self.old.world.nv) }
        ensures stays { Stays 0 self.old self.new result }
    {
        let layout = fuses.provision().layout(self.bank);
        let nv = &mut self.board.nv;
        match apply(&mut self.held, nv, log, capsule, layout, kind, marks) {
            Ok(()) => Ok(()),
            Err(fail) => Err(pass_stop(self.bank, fail)),
        }
    }

    /// Copies a capsule from the staging area to the recovery area.
    pub fn copy_with(
        &mut self,
        log: &mut JobLog,
        fuses: &Fuses,
        capsule: &Capsule,
        marks: Marks,
    ) -> Result<(), Stop>
        requires on { IsAwake self.old.bank self.old.world }
        requires can { CanCopyOver (now (state_at (device_of self.old.bank) self.old.world))
            (layout_of fuses.now.provision self.old.bank) capsule.now }
        requires log { KnowsLog marks self.old.bank (now self.old.world.nv) log.old }
        ensures goes { Goes (copied_by marks self.old.bank fuses.now capsule.now) self.old.world self.new.world result }
        ensures stands { OnOk result (LogStays marks self.old.bank (now self.new.world.nv) log.old log.new) }
        ensures opened { OnOk result ((which : Bank) → open_job (now self.new.world.nv) which ≡ open_job (now self.old.world.nv) which) }
        ensures again { OnOk result (CanCopyOver (now (state_at (device_of self.old.bank) self.new.world))
            (layout_of fuses.now.provision self.old.bank) capsule.now) }
        ensures unused { marks ≢ how.Heed → self.new.world.nv ≡ self.old.world.nv }
        ensures fuses { fuses_of (now self.new.world.nv) ≡ fuses_of (now self.old.world.nv) }
        ensures stays { Stays 0 self.old self.new result }
    {
        let layout = fuses.provision().layout(self.bank);
        let nv = &mut self.board.nv;
        match copy_recovery(&mut self.held, nv, log, capsule, layout, marks) {
            Ok(()) => Ok(()),
            Err(fail) => Err(pass_stop(self.bank, fail)),
        }
    }
}
