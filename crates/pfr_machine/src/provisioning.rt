// How the platform is provisioned.
ghost use Rattle.std.specs.Prelude.{◌≡◌, ◌≢◌, ◌≤◌, true, IfOk};
ghost use Rattle.pfr_flash.specs.FlashState.{now, size_of};
ghost use Rattle.pfr_flash.specs.Plan.{Follows as FollowsPlan};
ghost use Rattle.pfr_flash.specs.declared.names.Bank.TheVariants.{Bmc};
ghost use Rattle.pfr_flash.specs.declared.names.Device.TheVariants.{Nv};
ghost use Rattle.pfr_fuses.specs.Provisioning.{judge_provision};
ghost use Rattle.pfr_fuses.specs.RootSlot.{IsSlot};
ghost use Rattle.pfr_story.specs.Course.{Follows};
ghost use Rattle.pfr_story.specs.Goes.{Goes};
ghost use Rattle.pfr_story.specs.Plans.{provisioned};
ghost use Rattle.pfr_story.specs.Promises.{sizes_judged};
ghost use Rattle.pfr_story.specs.Standing.{standing_of, Off};
ghost use Rattle.pfr_story.specs.Turn.{provision_course};
ghost use Rattle.pfr_story.specs.World.{IsDark};
ghost use Rattle.pfr_machine.specs.Inside.{IsWhole};
ghost use Rattle.pfr_machine.specs.Provisions.{provision_ops, provision_note};
ghost use Rattle.pfr_machine.specs.Ready.{LeavesWhole, StaysSeated};
ghost use Rattle.pfr_machine.specs.Worlds.{with_state};

use crate::inner::Inner;
use pfr_flash::{Bank, Device, Flash, FlashFail};
use pfr_fuses::{FuseFail, RootSlot, provision};
use pfr_report::{LockWhy, ProvisionWhy, What};
use pfr_story::Stop;

// Provisions a store, and gives what is to be noted.
fn provision_as_noted<F: Flash>(
    nv: &mut F,
    what: &RootSlot,
    bmc_size: u32,
    pch_size: u32,
) -> Result<What, FlashFail>
    requires { size_of (F.device nv.old) ≡ 32768 }
    ensures follows { FollowsPlan (provision_ops what.now (judge_provision (now (F.device nv.old)) what.now bmc_size pch_size))
        (F.device nv.old) (F.device nv.new) result }
    ensures noted { IfOk result (λ note.
        note ≡ provision_note (judge_provision (now (F.device nv.old)) what.now bmc_size pch_size)) }
    ensures spelled { IsSlot what.now }
{
    let why = match provision(nv, what, bmc_size, pch_size) {
        Ok(()) => return Ok(What::Provisioned),
        Err(FuseFail::Flash(fail)) => return Err(fail),
        Err(FuseFail::AlreadyProvisioned) => ProvisionWhy::AlreadyProvisioned,
        Err(FuseFail::LayoutBad(bank, rule)) => ProvisionWhy::LayoutBad(bank, rule),
        Err(FuseFail::NotProvisioned | FuseFail::SlotsSpent) => ProvisionWhy::SlotsSpent,
    };
    Ok(What::ProvisionRefused { why })
}

impl<F: Flash> Inner<F> {
    // Provisions the store, and gives what is to be noted.
    fn provision_store(&mut self, what: &RootSlot) -> Result<What, FlashFail>
        ensures same { self.new ≡ with_state Nv self.new.nv self.old }
        ensures follows { FollowsPlan (provision_ops what.now (sizes_judged what.now self.old)) self.old.nv self.new.nv result }
        ensures noted { IfOk result (λ note. note ≡ provision_note (sizes_judged what.now self.old)) }
        ensures spelled { IsSlot what.now }
    {
        let (bmc, pch) = (self.bmc.size(), self.pch.size());
        provision_as_noted(&mut self.board.nv, what, bmc, pch)
    }

    // Provisions the platform, or notes why it can't be.
    fn try_provision(&mut self, what: &RootSlot) -> Result<(), Stop>
        requires room { 1 ≤ self.old.notes.spare }
        requires on { self.old.nv.powered ≡ true }
        ensures goes { Goes (provisioned what.now) self.old self.new result }
        ensures stays { StaysSeated 1 self.old self.new result }
        ensures spelled { IsSlot what.now }
    {
        match self.provision_store(what) {
            Ok(note) => {
                self.note(note);
                Ok(())
            }
            Err(fail) => Err(Stop {
                device: Device::Nv,
                fail,
            }),
        }
    }

    /// Provisions the platform, whose banks aren't off.
    pub fn provision(mut self, what: &RootSlot) -> Inner<F>
        requires room { 64 ≤ self.notes.spare }
        requires whole { IsWhole self }
        requires some { standing_of Bmc self.notes.list ≢ Off }
        ensures follows { Follows (provision_course what.now) self result }
        ensures leaves { LeavesWhole 64 self result }
        ensures dark { standing_of Bmc result.notes.list ≡ Off → IsDark result }
        ensures spelled { IsSlot what.now }
    {
        match self.try_provision(what) {
            Ok(()) => self,
            Err(stop) => match stop.fail {
                FlashFail::Lost => self.lose(Some(stop.device)),
                FlashFail::Fault => self
                    .lock(Bank::Bmc, LockWhy::StoreFault)
                    .lock(Bank::Pch, LockWhy::StoreFault),
            },
        }
    }
}
