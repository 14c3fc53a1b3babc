// The provision and the fuses of the store, as they are kept.
ghost use Rattle.std.specs.Prelude.{◌≡◌, ◌↔◌, ℕ, ◌<◌, ◌≤◌, List, length, slice_index, IfOk, IfErr, OnOk, OnErr, IsTrue, Ok, Err, max, ◌⊎◌};
ghost use Rattle.pfr_flash.specs.FlashState.{now, size_of};
ghost use Rattle.pfr_flash.specs.FuseRow.{IsCleared};
ghost use Rattle.pfr_flash.specs.Losing.{AddsAtMost, OnlyLoses};
ghost use Rattle.pfr_flash.specs.Plan.{Follows};
ghost use Rattle.pfr_flash.specs.Range.{IsWithin, SameOutside};
ghost use Rattle.pfr_flash.specs.Reading.{EndsAt, failed_by};
ghost use Rattle.pfr_flash.specs.Answer.{Answers};
ghost use Rattle.pfr_fuses.specs.Answer.{fuse_failure};
ghost use Rattle.pfr_fuses.specs.Slots.{IsProvisionedBy, IsUnset, HasBlank, slot_at};
ghost use Rattle.pfr_fuses.specs.FuseMap.{IsSigning, IsFloor, IsCancelled, profile_of, profile_number, floor_at, row_at};
ghost use Rattle.pfr_fuses.specs.FusesState.{floor_of, row_of};
ghost use Rattle.pfr_fuses.specs.RootSlot.{provision_in};
ghost use Rattle.pfr_fuses.specs.FusesOf.{Stands, FloorStands, RowStands, IsRefused, floor_fuses, row_fuses, fuses_of, fuses_with};
ghost use Rattle.pfr_fuses.specs.Changes.{AreRows, IsMigrating, Raises, Cancels, CancelsAtMost, StaysButFloor, StaysButRow, raise_plan, cancellation, migrated, migration, raised, with_cancelled, with_floor, with_row};
ghost use Rattle.pfr_fuses.specs.Growth.{NeverGoesBack, KeepsProvision, Adds};
ghost use Rattle.pfr_fuses.specs.declared.profile.Profile.TheVariants.{One, Two};
ghost use Rattle.pfr_fuses.specs.declared.fuse_fail.FuseFail.TheVariants.{NotProvisioned, SlotsSpent};

use crate::clearing::program_fuses;
use crate::filling::put;
use crate::fuse_fail::FuseFail;
use crate::fuse_rows::{CancelRows, Floors, floor_of};
use crate::profile::Profile;
use crate::root_slot::RootSlot;
use crate::slots::{SLOT_LEN, provisioned_slot};
use pfr_flash::{Bank, ContentType, Flash, FlashFail, FuseRow, array_at, clear_fuse};
use std::marker::Model;

/// What the platform is provisioned with, and the fuses of the store.
#[derive(Drop)]
pub struct Fuses {
    provision: RootSlot,
    profile: Profile,
    floors: Floors,
    rows: CancelRows,
}

impl Model for Fuses {
    ghost use Rattle.pfr_fuses.specs.FusesState.{FusesState};

    ghost Value = { FusesState };

    ghost view = { λ f. record {
      provision = f.provision;
      profile = f.profile;
      bmc_floor = f.floors.bmc;
      pch_floor = f.floors.pch;
      pch_manifest = f.rows.pch_manifest;
      pch_capsule = f.rows.pch_capsule;
      bmc_manifest = f.rows.bmc_manifest;
      bmc_capsule = f.rows.bmc_capsule;
    } };
}

// what the bytes of a slot provision the platform with
fn provision_in(slot: &[u8; SLOT_LEN as usize]) -> RootSlot
    ensures { result ≡ provision_in slot.now }
{
    RootSlot::from_slot(&array_at::<72>(slot, 0))
}

#[tactic(auto, unfolding(crate::specs::FusesOf::fuses_of))]
fn loaded<F: Flash>(nv: &mut F) -> Result<Fuses, FuseFail>
    requires { size_of (F.device nv.old) ≡ 32768 }
    ensures exact { Answers fuse_failure result
        (fuses_of (now (F.device nv.old))) }
    ensures ends { EndsAt (failed_by fuse_failure result) (F.device nv.old) (F.device nv.new) }
{
    let slot = provisioned_slot(nv)?;
    let profile = Profile::read(nv)?;
    let floors = Floors::read(nv, profile)?;
    let rows = CancelRows::read(nv, profile)?;
    Ok(Fuses {
        provision: provision_in(&slot),
        profile,
        floors,
        rows,
    })
}

/// Reads the provision and the fuses from the store, whose 32,768 bytes are of either profile.
pub fn load<F: Flash>(nv: &mut F) -> Result<Fuses, FuseFail>
    requires { size_of (F.device nv.old) ≡ 32768 }
    // What is found stands for the store.
    ensures ok { IfOk result (Stands (now (F.device nv.old))) }
    ensures err { IfErr result (IsRefused (now (F.device nv.old))) }
    // Unless the device fails, a provision is found where there is one, and else it is told whether
    // a slot is left for one.
    ensures only { let store = now (F.device nv.old) in
        (number : ℕ) → IsProvisionedBy store number →
        Answers fuse_failure result
        (Ok (fuses_with store (slot_at store number))) }
    ensures blank { IsUnset (now (F.device nv.old)) → HasBlank (now (F.device nv.old)) →
        Answers fuse_failure result (Err NotProvisioned) }
    ensures spent { IsUnset (now (F.device nv.old)) → ¬ HasBlank (now (F.device nv.old)) →
        Answers fuse_failure result (Err SlotsSpent) }
    ensures exact { Answers fuse_failure result
        (fuses_of (now (F.device nv.old))) }
    // Only bytes are asked for, up to the first read that fails, and no fault of one is passed over.
    ensures ends { EndsAt (failed_by fuse_failure result) (F.device nv.old) (F.device nv.new) }
{
    loaded(nv)
}

impl Fuses {
    /// What the platform is provisioned with.
    pub fn provision(&self) -> &RootSlot
        ensures { result.now ≡ self.now.provision }
    {
        &self.provision
    }

    /// The lowest security version number that the bank still takes, at most 128.
    pub fn floor(&self, bank: Bank) -> u32
        ensures exact { result ≡ floor_of self.now bank }
        ensures stands { (store : List ℕ) → FloorStands store self.now bank → IsFloor store bank result }
    {
        floor_of(self.floors.of(bank))
    }

    /// The fuses of the keys that are cancelled for a signing type, by id.
    pub fn row(&self, ty: ContentType) -> &FuseRow<32>
        requires { IsSigning ty }
        ensures { result.now ≡ row_of self.now ty }
    {
        match ty {
            ContentType::PchManifest => &self.rows.pch_manifest,
            ContentType::PchCapsule => &self.rows.pch_capsule,
            ContentType::BmcManifest => &self.rows.bmc_manifest,
            ContentType::BmcCapsule => &self.rows.bmc_capsule,
            _ => unreachable!(),
        }
    }

    /// Whether the key of this id is cancelled for a signing type.
    pub fn cancelled(&self, ty: ContentType, id: u8) -> bool
        requires { IsSigning ty }
        ensures exact { IsTrue result ↔ IsCleared (row_of self.now ty) id }
        ensures stands { (store : List ℕ) → RowStands store self.now ty →
            (IsTrue result ↔ IsCancelled store ty id) }
    {
        self.row(ty).is_cleared(u32::from(id))
    }

    // the floors, and behind them the cancelled keys
    fn put_fuses(&self, bytes: &mut [u8])
        requires { length bytes.old ≡ 160 }
        ensures bytes { bytes.new ≡ migrated self.now }
        ensures rows { AreRows self.now }
    {
        put(bytes, 0, self.floors.bmc.bytes());
        put(bytes, 16, self.floors.pch.bytes());
        put(bytes, 32, self.rows.pch_manifest.bytes());
        put(bytes, 64, self.rows.pch_capsule.bytes());
        put(bytes, 96, self.rows.bmc_manifest.bytes());
        put(bytes, 128, self.rows.bmc_capsule.bytes());
    }

    fn fuse_bytes(&self) -> [u8; 160]
        ensures bytes { result ≡ migrated self.now }
        ensures rows { AreRows self.now }
    {
        let mut bytes = [0; 160];
        self.put_fuses(&mut bytes);
        bytes
    }

    fn migrate_fuses<F: Flash>(&mut self, nv: &mut F) -> Result<(), FlashFail>
        requires { size_of (F.device nv.old) ≡ 32768 }
        ensures follows { Follows (migration self.old) (F.device nv.old) (F.device nv.new) result }
        ensures ok { OnOk result (self.new ≡ record self.old { profile = Two }) }
        ensures err { OnErr result (self.new ≡ self.old) }
        ensures rows { AreRows self.old }
        ensures bytes { (i : ℕ) → i < 160 → slice_index (migrated self.old) i < 256 }
    {
        program_fuses(nv, &self.fuse_bytes())?;
        self.profile = Profile::Two;
        Ok(())
    }

    /// Moves the fuses of a store of profile 1 to sector 7, where there is room for more, and sets the gate of
    /// profile 2. This takes three operations.
    ///
    /// After `Err` the store is of either profile, with the same floors and cancelled keys.
    pub fn migrate<F: Flash>(&mut self, nv: &mut F) -> Result<(), FlashFail>
        requires size { size_of (F.device nv.old) ≡ 32768 }
        requires profile { self.old.profile ≡ One }
        requires stands { Stands (now (F.device nv.old)) self.old }
        ensures follows { Follows (migration self.old) (F.device nv.old) (F.device nv.new) result }
        ensures kept { OnOk result (self.new ≡ record self.old { profile = Two }) }
        ensures left { OnErr result (self.new ≡ self.old) }
        ensures exact { OnOk result (fuses_of (now (F.device nv.old)) ≡ Ok self.old →
            fuses_of (now (F.device nv.new)) ≡ Ok self.new) }
        ensures ok { OnOk result (Stands (now (F.device nv.new)) self.new) }
        // After `Err` too, all that is kept is what the store says, but for the profile.
        ensures rest { fuses_of (now (F.device nv.old)) ≡ Ok self.old →
            fuses_of (now (F.device nv.new)) ≡ Ok (record self.new { profile = profile_of (now (F.device nv.new)) }) }
        ensures err { OnErr result (Stands (now (F.device nv.new))
            (record self.old { profile = profile_of (now (F.device nv.new)) })) }
        // There are three operations at most, and none touches a byte outside of sector 7 and the profile gate.
        ensures count { AddsAtMost 3 (F.device nv.old) (F.device nv.new) }
        ensures within { Adds IsMigrating (F.device nv.old) (F.device nv.new) }
        // Sector 0 only loses bits.
        ensures loses { OnlyLoses 0 4096 (F.device nv.old) (F.device nv.new) }
        ensures grows { NeverGoesBack (F.device nv.old) (F.device nv.new) }
        ensures provision { KeepsProvision (F.device nv.old) (F.device nv.new) }
    {
        self.migrate_fuses(nv)
    }

    fn raise_fuse<F: Flash>(&mut self, nv: &mut F, bank: Bank, to: u32) -> Result<(), FlashFail>
        requires size { size_of (F.device nv.old) ≡ 32768 }
        requires to { to ≤ 127 }
        ensures follows { Follows (raise_plan (floor_of self.old bank) bank to) (F.device nv.old) (F.device nv.new) result }
        ensures ok { OnOk result (self.new ≡ raised self.old bank to) }
        ensures fuses { OnOk result (Raises self.old bank to self.new) }
        ensures err { OnErr result (self.new ≡ self.old) }
        ensures nothing { to ≤ floor_of self.old bank → (result ≡ Ok tt) × (F.device nv.new ≡ F.device nv.old) × (self.new ≡ self.old) }
    {
        if to <= self.floor(bank) {
            return Ok(());
        }
        clear_fuse(nv, Profile::Two.floor_at(bank), to - 1)?;
        self.floors.clear(bank, to - 1);
        Ok(())
    }

    /// Raises the bank's floor to `to`, in a store of profile 2; a floor that is as high is left alone, without an
    /// operation.
    ///
    /// After `Err` the store's floor is the old one or `to`, and the fuses that are kept have the old one.
    pub fn raise<F: Flash>(&mut self, nv: &mut F, bank: Bank, to: u32) -> Result<(), FlashFail>
        requires size { size_of (F.device nv.old) ≡ 32768 }
        requires profile { profile_of (now (F.device nv.old)) ≡ Two }
        requires to { to ≤ 127 }
        requires stands { FloorStands (now (F.device nv.old)) self.old bank }
        ensures follows { Follows (raise_plan (floor_of self.old bank) bank to) (F.device nv.old) (F.device nv.new) result }
        ensures kept { OnOk result (self.new ≡ raised self.old bank to) }
        ensures floor { OnOk result (floor_of self.new bank ≡ max (floor_of self.old bank) to) }
        ensures nothing { to ≤ floor_of self.old bank → (result ≡ Ok tt) × (F.device nv.new ≡ F.device nv.old) × (self.new ≡ self.old) }
        ensures exact { OnOk result (fuses_of (now (F.device nv.old)) ≡ Ok self.old →
            fuses_of (now (F.device nv.new)) ≡ Ok self.new) }
        ensures ok { OnOk result (FloorStands (now (F.device nv.new)) self.new bank) }
        ensures left { OnErr result (self.new ≡ self.old) }
        ensures err { OnErr result (IsFloor (now (F.device nv.new)) bank (floor_of self.old bank)
            ⊎ IsFloor (now (F.device nv.new)) bank to) }
        // After `Err` too, all else of what is kept is what the store says.
        ensures rest { fuses_of (now (F.device nv.old)) ≡ Ok self.old →
            fuses_of (now (F.device nv.new)) ≡ Ok (with_floor self.new bank (floor_fuses (now (F.device nv.new)) bank)) }
        ensures stays { StaysButFloor bank (now (F.device nv.old)) self.old (now (F.device nv.new)) self.new }
        // There is one operation at most, and it touches no other byte than those of the bank's floor.
        ensures count { AddsAtMost 1 (F.device nv.old) (F.device nv.new) }
        ensures within { Adds (IsWithin (floor_at Two bank) 16) (F.device nv.old) (F.device nv.new) }
        ensures outside { SameOutside (floor_at Two bank) 16 (now (F.device nv.old)) (now (F.device nv.new)) }
        // The store only loses bits.
        ensures loses { OnlyLoses 0 32768 (F.device nv.old) (F.device nv.new) }
        ensures grows { NeverGoesBack (F.device nv.old) (F.device nv.new) }
        ensures provision { KeepsProvision (F.device nv.old) (F.device nv.new) }
    {
        self.raise_fuse(nv, bank, to)
    }

    fn cancel_key<F: Flash>(&mut self, nv: &mut F, ty: ContentType, id: u8) -> Result<(), FlashFail>
        requires size { size_of (F.device nv.old) ≡ 32768 }
        requires signing { IsSigning ty }
        ensures follows { Follows (cancellation ty id) (F.device nv.old) (F.device nv.new) result }
        ensures ok { OnOk result (self.new ≡ with_cancelled self.old ty id) }
        ensures fuses { OnOk result (Cancels self.old ty id self.new) }
        ensures err { OnErr result (self.new ≡ self.old) }
    {
        clear_fuse(nv, Profile::Two.row_at(ty), u32::from(id))?;
        self.rows.clear(ty, id);
        Ok(())
    }

    /// Cancels a key of a signing type, in a store of profile 2.
    ///
    /// After `Err` the key is cancelled in the store or not, and the fuses that are kept don't have it cancelled.
    pub fn cancel<F: Flash>(&mut self, nv: &mut F, ty: ContentType, id: u8) -> Result<(), FlashFail>
        requires size { size_of (F.device nv.old) ≡ 32768 }
        requires profile { profile_of (now (F.device nv.old)) ≡ Two }
        requires signing { IsSigning ty }
        requires unused { ¬ IsCleared (row_of self.old ty) id }
        requires stands { RowStands (now (F.device nv.old)) self.old ty }
        ensures follows { Follows (cancellation ty id) (F.device nv.old) (F.device nv.new) result }
        ensures kept { OnOk result (self.new ≡ with_cancelled self.old ty id) }
        ensures fuses { OnOk result (Cancels self.old ty id self.new) }
        ensures exact { OnOk result (fuses_of (now (F.device nv.old)) ≡ Ok self.old →
            fuses_of (now (F.device nv.new)) ≡ Ok self.new) }
        ensures ok { OnOk result (RowStands (now (F.device nv.new)) self.new ty) }
        ensures done { OnOk result (IsCancelled (now (F.device nv.new)) ty id) }
        ensures left { OnErr result (self.new ≡ self.old) }
        // In the store no other key of the type is cancelled.
        ensures store { CancelsAtMost (now (F.device nv.old)) ty id (now (F.device nv.new)) }
        // After `Err` too, all else of what is kept is what the store says.
        ensures rest { fuses_of (now (F.device nv.old)) ≡ Ok self.old →
            fuses_of (now (F.device nv.new)) ≡ Ok (with_row self.new ty (row_fuses (now (F.device nv.new)) ty)) }
        ensures stays { StaysButRow ty (now (F.device nv.old)) self.old (now (F.device nv.new)) self.new }
        // There is one operation at most, and it touches no other byte than those of the type's row.
        ensures count { AddsAtMost 1 (F.device nv.old) (F.device nv.new) }
        ensures within { Adds (IsWithin (row_at Two ty) 32) (F.device nv.old) (F.device nv.new) }
        ensures outside { SameOutside (row_at Two ty) 32 (now (F.device nv.old)) (now (F.device nv.new)) }
        // The store only loses bits.
        ensures loses { OnlyLoses 0 32768 (F.device nv.old) (F.device nv.new) }
        ensures grows { NeverGoesBack (F.device nv.old) (F.device nv.new) }
        ensures provision { KeepsProvision (F.device nv.old) (F.device nv.new) }
    {
        self.cancel_key(nv, ty, id)
    }

    /// 1, or 2 once the fuses were migrated.
    pub fn profile(&self) -> u8
        ensures { result ≡ profile_number self.now.profile }
    {
        self.profile.number()
    }
}
