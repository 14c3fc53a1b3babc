// The first provision of a store.
ghost use Rattle.std.specs.Prelude.{◌≡◌, ℕ, OnOk, ◌*◌, ◌+◌, ◌<◌, [], ◌∷◌, Some, None, if◌then◌else◌, IfErr};
ghost use Rattle.pfr_flash.specs.FlashState.{now, size_of};
ghost use Rattle.pfr_flash.specs.Judging.{told_as};
ghost use Rattle.pfr_flash.specs.Layout.{judge_layout};
ghost use Rattle.pfr_flash.specs.Losing.{AddsAtMost, OnlyLoses};
ghost use Rattle.pfr_flash.specs.Moved.{Worked};
ghost use Rattle.pfr_flash.specs.Operation.{Program};
ghost use Rattle.pfr_flash.specs.Plan.{Follows};
ghost use Rattle.pfr_flash.specs.Range.{IsWithin, SameOutside};
ghost use Rattle.pfr_flash.specs.Reading.{EndsAt, failed_by};
ghost use Rattle.pfr_flash.specs.Answer.{Answers, IsFound};
ghost use Rattle.pfr_fuses.specs.Answer.{fuse_failure};
ghost use Rattle.pfr_fuses.specs.RootSlot.{IsSlot};
ghost use Rattle.pfr_fuses.specs.Growth.{Adds, KeepsProvision, NeverGoesBack};
ghost use Rattle.pfr_fuses.specs.Slots.{IsProvisionedBy, is_blank};
ghost use Rattle.pfr_fuses.specs.Provisioning.{CanProvision, FollowsAs, IsProvisionable, IsProvisionedWith, KeepsFuses, ProvisionFails, Provisions, found_first, judge_slots, judge_places, judge_provision, provision_plan};
ghost use Rattle.pfr_fuses.specs.declared.fuse_fail.FuseFail.TheVariants.{LayoutBad};

use crate::fuse_fail::FuseFail;
use crate::root_slot::RootSlot;
use crate::slots::{GATE, SLOT_LEN, SLOTS, is_blank, is_set};
use pfr_flash::{Bank, Flash, FlashFail, Layout};

// the slot that was found before, or this one where it is blank
fn found_first(found: Option<u32>, number: u32, slot: &[u8; SLOT_LEN as usize]) -> Option<u32>
    ensures { result ≡ found_first found (if is_blank slot.now then Some number else None) }
{
    match found {
        Some(first) => Some(first),
        None if is_blank(slot) => Some(number),
        None => None,
    }
}

// the first blank slot, in a store where no slot is set
fn first_blank<F: Flash>(nv: &mut F) -> Result<Option<u32>, FuseFail>
    requires { size_of (F.device nv.old) ≡ 32768 }
    ensures exact { Answers fuse_failure result
        (judge_slots (now (F.device nv.old))) }
    ensures ends { EndsAt (failed_by fuse_failure result) (F.device nv.old) (F.device nv.new) }
{
    let mut found = None;
    for number in 0..SLOTS {
        let mut slot = [0; SLOT_LEN as usize];
        nv.read(SLOT_LEN * number, &mut slot)?;
        if is_set(&slot) {
            return Err(FuseFail::AlreadyProvisioned);
        }
        found = found_first(found, number, &slot);
    }
    Ok(found)
}

fn judge_layout(bank: Bank, layout: &Layout, size: u32) -> Result<(), FuseFail>
    ensures exact { result ≡ told_as (LayoutBad bank) (judge_layout layout.now size) }
    ensures judged { IfErr result (IsFound fuse_failure) }
{
    match layout.judge(size) {
        Ok(()) => Ok(()),
        Err(rule) => Err(FuseFail::LayoutBad(bank, rule)),
    }
}

// both layouts, and then whether there is a slot
#[tactic(auto, unfolding(crate::specs::Provisioning::judge_places))]
fn judge_places(
    what: &RootSlot,
    bmc_size: u32,
    pch_size: u32,
    blank: Option<u32>,
) -> Result<u32, FuseFail>
    ensures exact { result ≡ judge_places what.now bmc_size pch_size blank }
    ensures judged { IfErr result (IsFound fuse_failure) }
{
    judge_layout(Bank::Bmc, &what.bmc, bmc_size)?;
    judge_layout(Bank::Pch, &what.pch, pch_size)?;
    match blank {
        Some(number) => Ok(number),
        None => Err(FuseFail::SlotsSpent),
    }
}

// the slot that is to be provisioned
#[tactic(auto, unfolding(crate::specs::Provisioning::judge_provision))]
fn judge_provision<F: Flash>(
    nv: &mut F,
    what: &RootSlot,
    bmc_size: u32,
    pch_size: u32,
) -> Result<u32, FuseFail>
    requires { size_of (F.device nv.old) ≡ 32768 }
    ensures exact { Answers fuse_failure result
        (judge_provision (now (F.device nv.old)) what.now bmc_size pch_size) }
    ensures ends { EndsAt (failed_by fuse_failure result) (F.device nv.old) (F.device nv.new) }
{
    let blank = first_blank(nv)?;
    judge_places(what, bmc_size, pch_size, blank)
}

// the provision, and then the slot's gate
fn program_slot<F: Flash>(nv: &mut F, number: u32, bytes: &[u8; 72]) -> Result<(), FlashFail>
    requires size { size_of (F.device nv.old) ≡ 32768 }
    requires number { number < 8 }
    ensures { Follows (Program (256 * number) bytes.now ∷ Program (256 * number + 255) (0 ∷ []) ∷ [])
        (F.device nv.old) (F.device nv.new) result }
{
    nv.program(SLOT_LEN * number, bytes)?;
    nv.program(SLOT_LEN * number + GATE as u32, &[0x00])
}

fn provision_slot<F: Flash>(
    nv: &mut F,
    what: &RootSlot,
    bmc_size: u32,
    pch_size: u32,
) -> Result<(), FuseFail>
    requires { size_of (F.device nv.old) ≡ 32768 }
    ensures exact { Provisions what.now (F.device nv.old) (F.device nv.new) result
        (judge_provision (now (F.device nv.old)) what.now bmc_size pch_size) }
    ensures slot { IsSlot what.now }
{
    let bytes = what.to_slot();
    let number = judge_provision(nv, what, bmc_size, pch_size)?;
    program_slot(nv, number, &bytes)?;
    Ok(())
}

/// Provisions a blank store, for banks of these sizes, in its first blank slot.
///
/// A store is provisioned once: it is refused where a slot's gate is set, where a layout doesn't fit its
/// bank, the BMC's first, and where no slot is blank. After a failure of the device the store is provisioned
/// with `what`, or one more slot isn't blank, or all is as before.
pub fn provision<F: Flash>(
    nv: &mut F,
    what: &RootSlot,
    bmc_size: u32,
    pch_size: u32,
) -> Result<(), FuseFail>
    requires { size_of (F.device nv.old) ≡ 32768 }
    ensures exact { Provisions what.now (F.device nv.old) (F.device nv.new) result
        (judge_provision (now (F.device nv.old)) what.now bmc_size pch_size) }
    ensures ok { OnOk result (IsProvisionedWith (now (F.device nv.new)) what.now) }
    // It is done in the first blank slot, in a store where none was set, and for layouts that fit.
    ensures slot { (number : ℕ) → IsProvisionable (now (F.device nv.old)) what.now bmc_size pch_size number →
        FollowsAs (provision_plan number what.now) (F.device nv.old) (F.device nv.new) result
        × OnOk result (IsProvisionedBy (now (F.device nv.new)) number)
        × Adds (IsWithin (256 * number) 256) (F.device nv.old) (F.device nv.new) }
    ensures found { OnOk result (CanProvision (now (F.device nv.old)) what.now bmc_size pch_size) }
    // At a refusal that is no failure of the device nothing changed but the count of bytes that were asked for.
    ensures err { IfErr result (ProvisionFails (F.device nv.old) (F.device nv.new) what.now bmc_size pch_size) }
    ensures fuses { KeepsFuses (now (F.device nv.old)) (now (F.device nv.new)) }
    // No operation touches a byte behind the slots, and there are two at most.
    ensures within { Adds (IsWithin 0 2048) (F.device nv.old) (F.device nv.new) }
    ensures count { AddsAtMost 2 (F.device nv.old) (F.device nv.new) }
    ensures outside { SameOutside 0 2048 (now (F.device nv.old)) (now (F.device nv.new)) }
    // The store only loses bits.
    ensures loses { OnlyLoses 0 32768 (F.device nv.old) (F.device nv.new) }
    ensures grows { NeverGoesBack (F.device nv.old) (F.device nv.new) }
    ensures provision { KeepsProvision (F.device nv.old) (F.device nv.new) }
    ensures worked { Worked (F.device nv.old) (F.device nv.new) }
    ensures spelled { IsSlot what.now }
{
    provision_slot(nv, what, bmc_size, pch_size)
}
