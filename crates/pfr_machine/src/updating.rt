// How a bank is updated.
ghost use Rattle.pfr_jobs.specs.Log.{open_job};
ghost use Rattle.pfr_jobs.specs.declared.job.OpenJob.TheVariants as job;
ghost use Rattle.pfr_fuses.specs.declared.profile.Profile.TheVariants.{Two};
ghost use Rattle.std.specs.Prelude.{◌≡◌, ◌≤◌, Ok};
ghost use Rattle.pfr_copy.specs.Applying.{CanApply};
ghost use Rattle.pfr_flash.specs.FlashState.{now, size_of};
ghost use Rattle.pfr_flash.specs.Layout.{IsValidLayout};
ghost use Rattle.pfr_flash.specs.declared.names.Bank.TheVariants.{Bmc};
ghost use Rattle.pfr_fuses.specs.FusesOf.{fuses_of};
ghost use Rattle.pfr_fuses.specs.RootSlot.{layout_of};
ghost use Rattle.pfr_story.specs.Course.{Follows};
ghost use Rattle.pfr_story.specs.Plans.{checked_again, judged_staging};
ghost use Rattle.pfr_story.specs.Promises.{Runs};
ghost use Rattle.pfr_story.specs.Standing.{standing_of, Off};
ghost use Rattle.pfr_story.specs.Story.{then, device_of};
ghost use Rattle.pfr_story.specs.Turn.{update_course};
ghost use Rattle.pfr_story.specs.World.{IsDark, state_at, story_of};
ghost use Rattle.pfr_story.specs.UpdatePlans.{active_updated, by_intent, updated};
ghost use Rattle.pfr_machine.specs.Inside.{IsAtRest, IsWhole};
ghost use Rattle.pfr_machine.specs.Ready.{EndsSeated, LeavesWhole};
ghost use Rattle.pfr_machine.specs.Worlds.{IsAwake};

use crate::desk::{Desk, Halt};
use crate::inner::Inner;
use crate::working::Work;
use pfr_auth::Area;
use pfr_capsule::Capsule;
use pfr_chain::Engine;
use pfr_flash::{Bank, Flash};
use pfr_fuses::Fuses;
use pfr_report::Refusal;
use pfr_script::Intent;

impl<F: Flash> Desk<F> {
    // Updates the bank from a good capsule, and releases it.
    fn update_and_check<E: Engine>(
        mut self,
        fuses: &Fuses,
        capsule: &Capsule,
        dynamic: bool,
        engine: &E,
    ) -> Result<Inner<F>, Halt<F>>
        requires room { 2 ≤ self.world.notes.spare }
        requires on { IsAwake self.bank self.world }
        requires none { open_job (now self.world.nv) self.bank ≡ job.None }
        requires found { fuses_of (now self.world.nv) ≡ Ok fuses.now }
        requires valid { let layout = layout_of fuses.now.provision self.bank in
            IsValidLayout layout (size_of (state_at (device_of self.bank) self.world)) }
        requires good { judged_staging (E.accepts engine.now) self.bank fuses.now (story_of self.world) ≡ Ok capsule.now }
        requires can { let layout = layout_of fuses.now.provision self.bank in
            CanApply (now (state_at (device_of self.bank) self.world)) layout capsule.now }
        ensures { let again = checked_again (E.accepts engine.now) self.bank fuses.now in
            EndsSeated (then (updated self.bank dynamic fuses.now capsule.now) again) 2 self result }
    {
        self.known();
        match self.update(fuses, capsule, dynamic) {
            Ok(()) => self.check_again(fuses, engine),
            Err(stop) => Err(Halt { stop, desk: self }),
        }
    }

    /// Updates the bank from its staging area: from a good capsule, or not at all.
    pub fn update_from_staging<E: Engine>(
        mut self,
        dynamic: bool,
        fuses: &Fuses,
        engine: &E,
    ) -> Result<Inner<F>, Halt<F>>
        requires room { 4 ≤ self.world.notes.spare }
        requires on { IsAwake self.bank self.world }
        requires none { open_job (now self.world.nv) self.bank ≡ job.None }
        requires found { fuses_of (now self.world.nv) ≡ Ok fuses.now }
        requires valid { let layout = layout_of fuses.now.provision self.bank in
            IsValidLayout layout (size_of (state_at (device_of self.bank) self.world)) }
        ensures { EndsSeated (active_updated (E.accepts engine.now) self.bank dynamic fuses.now) 4 self result }
    {
        match self.judge(Area::Staging, fuses, engine) {
            Ok(Ok(capsule)) => self.update_and_check(fuses, &capsule, dynamic, engine),
            Ok(Err(cause)) => self.refuse_so(Refusal::Capsule(cause), fuses, engine),
            Err(stop) => Err(Halt { stop, desk: self }),
        }
    }
}

impl<F: Flash> Desk<F> {
    /// Updates the bank as is asked: its active image or its recovery area, or a key is cancelled.
    pub fn update_as<E: Engine>(
        self,
        intent: Intent,
        fuses: Fuses,
        engine: &E,
    ) -> Result<Inner<F>, Halt<F>>
        requires room { 5 ≤ self.world.notes.spare }
        requires on { IsAwake self.bank self.world }
        requires none { open_job (now self.world.nv) self.bank ≡ job.None }
        requires found { fuses_of (now self.world.nv) ≡ Ok fuses }
        requires two { fuses.profile ≡ Two }
        requires valid { let layout = layout_of fuses.provision self.bank in
            IsValidLayout layout (size_of (state_at (device_of self.bank) self.world)) }
        ensures { EndsSeated (by_intent (E.accepts engine.now) self.bank intent fuses) 5 self result }
    {
        match intent {
            Intent::Active => self.update_from_staging(false, &fuses, engine),
            Intent::Full => self.update_from_staging(true, &fuses, engine),
            Intent::Recovery => self.update_recovery(fuses, engine),
            Intent::Cert => self.cancel_key(fuses, engine),
        }
    }
}

impl<F: Flash> Inner<F> {
    /// Updates a bank that runs, as is asked.
    pub fn update<E: Engine>(self, bank: Bank, intent: Intent, engine: &E) -> Inner<F>
        requires room { 64 ≤ self.notes.spare }
        requires whole { IsWhole self }
        requires runs { Runs bank self }
        requires rests { IsAtRest bank (now self.nv) }
        ensures follows { Follows (update_course (E.accepts engine.now) bank intent) self result }
        ensures leaves { LeavesWhole 64 self result }
        ensures dark { standing_of Bmc result.notes.list ≡ Off → IsDark result }
    {
        match self.work(bank, Work::Update { intent }, engine) {
            Ok(inner) => inner,
            Err(dark) => dark.off(),
        }
    }
}
