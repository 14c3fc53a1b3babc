// How a bank that is updated is checked: as it is where the update is refused, else by the fuses as they are then.
ghost use Rattle.std.specs.Prelude.{◌≡◌, ◌≤◌, Ok};
ghost use Rattle.pfr_flash.specs.FlashState.{now, size_of};
ghost use Rattle.pfr_flash.specs.Layout.{IsValidLayout};
ghost use Rattle.pfr_fuses.specs.FusesOf.{fuses_of};
ghost use Rattle.pfr_fuses.specs.RootSlot.{layout_of};
ghost use Rattle.pfr_jobs.specs.Log.{open_job};
ghost use Rattle.pfr_jobs.specs.declared.job.OpenJob.TheVariants as job;
ghost use Rattle.pfr_report.specs.Texts.{HasRefusalText};
ghost use Rattle.pfr_report.specs.declared.note.What.TheVariants.{Refused};
ghost use Rattle.pfr_story.specs.Plans.{checked_then};
ghost use Rattle.pfr_story.specs.Story.{device_of};
ghost use Rattle.pfr_story.specs.UpdatePlans.{refused_so};
ghost use Rattle.pfr_story.specs.World.{state_at};
ghost use Rattle.pfr_machine.specs.Ready.{EndsSeated};
ghost use Rattle.pfr_machine.specs.Worlds.{IsAwake, with_note};

use crate::desk::{Desk, Halt};
use crate::inner::Inner;
use pfr_chain::Engine;
use pfr_flash::Flash;
use pfr_fuses::Fuses;
use pfr_report::{Refusal, What};

impl<F: Flash> Desk<F> {
    // Notes that an update is refused for this cause.
    fn note_refusal(&mut self, why: Refusal)
        requires room { 1 ≤ self.old.world.notes.spare }
        requires text { HasRefusalText why }
        ensures noted { self.new ≡ record self.old { world = with_note (Refused self.old.bank why) self.old.world } }
    {
        let bank = self.bank;
        self.note(What::Refused { bank, why });
    }

    /// Refuses an update for this cause, and checks the bank as it is.
    pub fn refuse_so<E: Engine>(
        mut self,
        why: Refusal,
        fuses: &Fuses,
        engine: &E,
    ) -> Result<Inner<F>, Halt<F>>
        requires room { 4 ≤ self.world.notes.spare }
        requires on { IsAwake self.bank self.world }
        requires none { open_job (now self.world.nv) self.bank ≡ job.None }
        requires found { fuses_of (now self.world.nv) ≡ Ok fuses.now }
        requires valid { let layout = layout_of fuses.now.provision self.bank in
            IsValidLayout layout (size_of (state_at (device_of self.bank) self.world)) }
        requires text { HasRefusalText why }
        ensures { EndsSeated (refused_so (E.accepts engine.now) self.bank fuses.now why) 4 self result }
    {
        self.note_refusal(why);
        self.tail(fuses, engine)
    }

    /// Checks the bank behind work on the store: releases it, restores it, or locks it.
    pub fn check_then<E: Engine>(self, fuses: &Fuses, engine: &E) -> Result<Inner<F>, Halt<F>>
        requires room { 3 ≤ self.world.notes.spare }
        requires on { IsAwake self.bank self.world }
        requires none { open_job (now self.world.nv) self.bank ≡ job.None }
        requires found { fuses_of (now self.world.nv) ≡ Ok fuses.now }
        requires valid { let layout = layout_of fuses.now.provision self.bank in
            IsValidLayout layout (size_of (state_at (device_of self.bank) self.world)) }
        ensures { EndsSeated (checked_then (E.accepts engine.now) self.bank) 3 self result }
    {
        self.tail(fuses, engine)
    }
}
