// How a bank is brought up.
ghost use Rattle.pfr_jobs.specs.Log.{open_job};
ghost use Rattle.pfr_jobs.specs.declared.job.OpenJob.TheVariants as job;
ghost use Rattle.pfr_jobs.specs.LogPlans.{IsKind};
ghost use Rattle.pfr_jobs.specs.declared.job.JobKind.TheVariants.{ActiveFromRecovery};
ghost use Rattle.pfr_fuses.specs.declared.profile.Profile.TheVariants.{Two};
ghost use Rattle.std.specs.Prelude.{◌≡◌, ◌≤◌, Ok, Err, IsOk};
ghost use Rattle.pfr_flash.specs.Answer.{IsFound};
ghost use Rattle.pfr_flash.specs.FlashState.{now, size_of};
ghost use Rattle.pfr_flash.specs.Holding.{HoldsBytes};
ghost use Rattle.pfr_flash.specs.Layout.{IsBankSize, IsValidLayout};
ghost use Rattle.pfr_auth.specs.Answer.{active_failure};
ghost use Rattle.pfr_copy.specs.Applying.{CanApply};
ghost use Rattle.pfr_fuses.specs.FusesOf.{fuses_of};
ghost use Rattle.pfr_fuses.specs.RootSlot.{layout_of};
ghost use Rattle.pfr_story.specs.Plans.{by_active, by_ready, checked_again, judged_active, judged_recovery, recovered, restored, tail};
ghost use Rattle.pfr_story.specs.Story.{then, device_of};
ghost use Rattle.pfr_story.specs.World.{state_at, story_of};
ghost use Rattle.pfr_machine.specs.Worlds.{IsAwake};
ghost use Rattle.pfr_machine.specs.Ready.{EndsSeated};

use crate::desk::{Desk, Found, Halt};
use crate::inner::Inner;
use pfr_auth::{ActiveFail, Area};
use pfr_capsule::Capsule;
use pfr_chain::Engine;
use pfr_flash::Flash;
use pfr_fuses::Fuses;
use pfr_report::LockWhy;

impl<F: Flash> Desk<F> {
    /// The bank's device has a bank's size, and all that it holds are bytes. This does nothing.
    pub fn known(&self)
        ensures size { IsBankSize (size_of (state_at (device_of self.now.bank) self.now.world)) }
        ensures bytes { HoldsBytes (state_at (device_of self.now.bank) self.now.world) }
        ensures store { size_of self.now.world.nv ≡ 32768 }
    {
        let _held = &self.held;
    }

    /// Checks an image that was made anew, and releases the bank.
    pub fn check_again<E: Engine>(self, fuses: &Fuses, engine: &E) -> Result<Inner<F>, Halt<F>>
        requires room { 1 ≤ self.world.notes.spare }
        requires on { IsAwake self.bank self.world }
        requires found { fuses_of (now self.world.nv) ≡ Ok fuses.now }
        requires valid { let layout = layout_of fuses.now.provision self.bank in
            IsValidLayout layout (size_of (state_at (device_of self.bank) self.world)) }
        requires trusted { IsOk (judged_active (E.accepts engine.now) self.bank fuses.now (story_of self.world)) }
        ensures { EndsSeated (checked_again (E.accepts engine.now) self.bank fuses.now) 1 self result }
    {
        match self.check(fuses, engine) {
            Ok(Found::Released(inner)) => Ok(inner),
            Ok(Found::Distrusted(_, _)) => unreachable!(),
            Err(halt) => Err(halt),
        }
    }

    /// Restores the bank from a good capsule, at a level of recovery, and releases it.
    pub fn restore_and_check<E: Engine>(
        mut self,
        fuses: &Fuses,
        capsule: &Capsule,
        level: u8,
        engine: &E,
    ) -> Result<Inner<F>, Halt<F>>
        requires room { 2 ≤ self.world.notes.spare }
        requires on { IsAwake self.bank self.world }
        requires none { open_job (now self.world.nv) self.bank ≡ job.None }
        requires found { fuses_of (now self.world.nv) ≡ Ok fuses.now }
        requires valid { let layout = layout_of fuses.now.provision self.bank in
            IsValidLayout layout (size_of (state_at (device_of self.bank) self.world)) }
        requires good { judged_recovery (E.accepts engine.now) self.bank fuses.now (story_of self.world) ≡ Ok capsule.now }
        requires can { let layout = layout_of fuses.now.provision self.bank in
            CanApply (now (state_at (device_of self.bank) self.world)) layout capsule.now }
        requires level { IsKind (ActiveFromRecovery level) }
        ensures { let again = checked_again (E.accepts engine.now) self.bank fuses.now in
            EndsSeated (then (restored self.bank level fuses.now capsule.now) again) 2 self result }
    {
        self.known();
        match self.restore(fuses, capsule, level) {
            Ok(()) => self.check_again(fuses, engine),
            Err(stop) => Err(Halt { stop, desk: self }),
        }
    }

    // Looks at the recovery area of a bank whose active image isn't trusted: restores it from there, or locks it.
    #[inline(never)]
    fn recover<E: Engine>(
        mut self,
        why: ActiveFail,
        fuses: &Fuses,
        engine: &E,
    ) -> Result<Inner<F>, Halt<F>>
        requires room { 2 ≤ self.world.notes.spare }
        requires on { IsAwake self.bank self.world }
        requires none { open_job (now self.world.nv) self.bank ≡ job.None }
        requires found { fuses_of (now self.world.nv) ≡ Ok fuses.now }
        requires valid { let layout = layout_of fuses.now.provision self.bank in
            IsValidLayout layout (size_of (state_at (device_of self.bank) self.world)) }
        requires cause { IsFound active_failure why }
        ensures { EndsSeated (recovered (E.accepts engine.now) self.bank fuses.now why) 2 self result }
    {
        match self.judge(Area::Recovery, fuses, engine) {
            Ok(Ok(capsule)) => self.restore_and_check(fuses, &capsule, 1, engine),
            Ok(Err(cause)) => Ok(self.lock(LockWhy::NoGoodImage(why, cause))),
            Err(stop) => Err(Halt { stop, desk: self }),
        }
    }

    // Notes that the active image isn't trusted, and goes on by the recovery area.
    fn distrust_and_recover<E: Engine>(
        mut self,
        why: ActiveFail,
        fuses: &Fuses,
        engine: &E,
    ) -> Result<Inner<F>, Halt<F>>
        requires room { 3 ≤ self.world.notes.spare }
        requires on { IsAwake self.bank self.world }
        requires none { open_job (now self.world.nv) self.bank ≡ job.None }
        requires found { fuses_of (now self.world.nv) ≡ Ok fuses.now }
        requires valid { let layout = layout_of fuses.now.provision self.bank in
            IsValidLayout layout (size_of (state_at (device_of self.bank) self.world)) }
        requires cause { IsFound active_failure why }
        ensures { EndsSeated (by_active (E.accepts engine.now) self.bank fuses.now (Err why)) 3 self result }
    {
        self.distrust(why);
        self.recover(why, fuses, engine)
    }

    /// Checks the bank: releases it, restores it, or locks it.
    pub fn tail<E: Engine>(self, fuses: &Fuses, engine: &E) -> Result<Inner<F>, Halt<F>>
        requires room { 3 ≤ self.world.notes.spare }
        requires on { IsAwake self.bank self.world }
        requires none { open_job (now self.world.nv) self.bank ≡ job.None }
        requires found { fuses_of (now self.world.nv) ≡ Ok fuses.now }
        requires valid { let layout = layout_of fuses.now.provision self.bank in
            IsValidLayout layout (size_of (state_at (device_of self.bank) self.world)) }
        ensures { EndsSeated (tail (E.accepts engine.now) self.bank fuses.now) 3 self result }
    {
        match self.check(fuses, engine) {
            Ok(Found::Released(inner)) => Ok(inner),
            Ok(Found::Distrusted(desk, why)) => desk.distrust_and_recover(why, fuses, engine),
            Err(halt) => Err(halt),
        }
    }

    /// Takes the job up that is open, or gives it up, and checks the bank.
    pub fn bring_up<E: Engine>(mut self, mut fuses: Fuses, engine: &E) -> Result<Inner<F>, Halt<F>>
        requires room { 5 ≤ self.world.notes.spare }
        requires on { IsAwake self.bank self.world }
        requires found { fuses_of (now self.world.nv) ≡ Ok fuses }
        requires two { fuses.profile ≡ Two }
        requires valid { let layout = layout_of fuses.provision self.bank in
            IsValidLayout layout (size_of (state_at (device_of self.bank) self.world)) }
        ensures { EndsSeated (by_ready (E.accepts engine.now) self.bank (Ok fuses)) 5 self result }
    {
        match self.resume(&mut fuses, engine) {
            Ok(()) => self.tail(&fuses, engine),
            Err(stop) => Err(Halt { stop, desk: self }),
        }
    }
}
