// The rows of fuses, read from a store of either profile.
ghost use Rattle.std.specs.Prelude.{◌≡◌, ◌↔◌, ◌⊎◌, ℕ, ◌+◌, ◌<◌, ◌≤◌, IfOk, IfErr, Some};
ghost use Rattle.pfr_flash.specs.Bytes.{bytes_at, continued};
ghost use Rattle.pfr_flash.specs.FlashState.{now, size_of};
ghost use Rattle.pfr_flash.specs.Reading.{EndsAt, failed_by};
ghost use Rattle.pfr_fuses.specs.FuseMap.{IsSigning, profile_of};
ghost use Rattle.pfr_fuses.specs.FusesOf.{floor_fuses, row_fuses};
ghost use Rattle.pfr_fuses.specs.FusesState.{floor_in};
ghost use Rattle.pfr_flash.specs.FuseRow.{IsCleared, with_cleared};
ghost use Rattle.pfr_fuses.specs.FuseRows.{FloorsOf, RowsOf, fuses_of_floor, with_floor_fuses, keys_of_rows, with_keys};

use crate::profile::Profile;
use pfr_flash::{Bank, ContentType, Flash, FlashFail, FuseRow};

// A row of so many bytes at a place, padded with 0xFF: with fuses that are not cleared.
fn read_fuses<F: Flash, const BYTES: usize>(
    nv: &mut F,
    at: u32,
    width: u32,
) -> Result<FuseRow<BYTES>, FlashFail>
    requires within { at + width ≤ size_of (F.device nv.old) }
    requires size { BYTES ≤ 4096 }
    requires width { width ≤ BYTES }
    ensures found { IfOk result
        (λ row. row ≡ continued (bytes_at (now (F.device nv.old)) at width) BYTES) }
    ensures ends { EndsAt (failed_by (λ fail. Some fail) result) (F.device nv.old) (F.device nv.new) }
{
    let mut bytes = [0xFF; BYTES];
    let kept = &mut bytes[..];
    nv.read(at, &mut kept[0..width as usize])?;
    Ok(FuseRow::new(bytes))
}

#[tactic(auto, unfolding(crate::specs::FusesOf::floor_fuses))]
fn read_floor<F: Flash>(nv: &mut F, profile: Profile, bank: Bank) -> Result<FuseRow<16>, FlashFail>
    requires size { size_of (F.device nv.old) ≡ 32768 }
    requires profile { profile ≡ profile_of (now (F.device nv.old)) }
    ensures found { IfOk result (λ row. row ≡ floor_fuses (now (F.device nv.old)) bank) }
    ensures ends { EndsAt (failed_by (λ fail. Some fail) result) (F.device nv.old) (F.device nv.new) }
{
    read_fuses(nv, profile.floor_at(bank), profile.floor_width())
}

#[tactic(auto, unfolding(crate::specs::FusesOf::row_fuses))]
fn read_row<F: Flash>(
    nv: &mut F,
    profile: Profile,
    ty: ContentType,
) -> Result<FuseRow<32>, FlashFail>
    requires size { size_of (F.device nv.old) ≡ 32768 }
    requires profile { profile ≡ profile_of (now (F.device nv.old)) }
    requires signing { IsSigning ty }
    ensures found { IfOk result (λ row. row ≡ row_fuses (now (F.device nv.old)) ty) }
    ensures ends { EndsAt (failed_by (λ fail. Some fail) result) (F.device nv.old) (F.device nv.new) }
{
    read_fuses(nv, profile.row_at(ty), profile.row_width())
}

/// The fuses of both banks' floors.
#[derive(Drop)]
pub struct Floors {
    pub bmc: FuseRow<16>,
    pub pch: FuseRow<16>,
}

/// One plus the number of the highest cleared fuse, or 0.
#[tactic(auto, using(crate::proofs::FloorLemmas::floors))]
pub fn floor_of(row: &FuseRow<16>) -> u32
    ensures { result ≡ floor_in 128 row.now }
{
    match row.highest() {
        Some(bit) => bit + 1,
        None => 0,
    }
}

impl Floors {
    /// The fuses of this bank's floor.
    pub fn of(&self, bank: Bank) -> &FuseRow<16>
        ensures { result.now ≡ fuses_of_floor self.now bank }
    {
        match bank {
            Bank::Bmc => &self.bmc,
            Bank::Pch => &self.pch,
        }
    }

    /// Clears a fuse of this bank's floor.
    pub fn clear(&mut self, bank: Bank, bit: u32)
        requires { bit < 128 }
        ensures kept { self.new ≡ with_floor_fuses self.old bank (with_cleared (fuses_of_floor self.old bank) bit) }
        ensures cleared { (k : ℕ) → k < 128 → (IsCleared (fuses_of_floor self.new bank) k
            ↔ (IsCleared (fuses_of_floor self.old bank) k ⊎ (k ≡ bit))) }
    {
        match bank {
            Bank::Bmc => self.bmc = self.bmc.cleared(bit),
            Bank::Pch => self.pch = self.pch.cleared(bit),
        }
    }

    /// Reads both floors from a store of this profile.
    pub fn read<F: Flash>(nv: &mut F, profile: Profile) -> Result<Floors, FlashFail>
        requires size { size_of (F.device nv.old) ≡ 32768 }
        requires profile { profile ≡ profile_of (now (F.device nv.old)) }
        ensures found { IfOk result (FloorsOf (now (F.device nv.old))) }
        ensures ends { EndsAt (failed_by (λ fail. Some fail) result) (F.device nv.old) (F.device nv.new) }
    {
        let bmc = read_floor(nv, profile, Bank::Bmc)?;
        let pch = read_floor(nv, profile, Bank::Pch)?;
        Ok(Floors { bmc, pch })
    }
}

/// The cancelled keys of each signing type.
#[derive(Drop)]
pub struct CancelRows {
    pub pch_manifest: FuseRow<32>,
    pub pch_capsule: FuseRow<32>,
    pub bmc_manifest: FuseRow<32>,
    pub bmc_capsule: FuseRow<32>,
}

impl CancelRows {
    /// Cancels a key of a signing type.
    pub fn clear(&mut self, ty: ContentType, id: u8)
        requires { IsSigning ty }
        ensures kept { self.new ≡ with_keys self.old ty (with_cleared (keys_of_rows self.old ty) id) }
        ensures cleared { (k : ℕ) → k < 256 → (IsCleared (keys_of_rows self.new ty) k
            ↔ (IsCleared (keys_of_rows self.old ty) k ⊎ (k ≡ id))) }
    {
        let bit = u32::from(id);
        match ty {
            ContentType::PchManifest => self.pch_manifest = self.pch_manifest.cleared(bit),
            ContentType::PchCapsule => self.pch_capsule = self.pch_capsule.cleared(bit),
            ContentType::BmcManifest => self.bmc_manifest = self.bmc_manifest.cleared(bit),
            ContentType::BmcCapsule => self.bmc_capsule = self.bmc_capsule.cleared(bit),
            _ => unreachable!(),
        }
    }

    /// Reads the four rows from a store of this profile.
    pub fn read<F: Flash>(nv: &mut F, profile: Profile) -> Result<CancelRows, FlashFail>
        requires size { size_of (F.device nv.old) ≡ 32768 }
        requires profile { profile ≡ profile_of (now (F.device nv.old)) }
        ensures found { IfOk result (RowsOf (now (F.device nv.old))) }
        ensures ends { EndsAt (failed_by (λ fail. Some fail) result) (F.device nv.old) (F.device nv.new) }
    {
        let pch_manifest = read_row(nv, profile, ContentType::PchManifest)?;
        let pch_capsule = read_row(nv, profile, ContentType::PchCapsule)?;
        let bmc_manifest = read_row(nv, profile, ContentType::BmcManifest)?;
        let bmc_capsule = read_row(nv, profile, ContentType::BmcCapsule)?;
        Ok(CancelRows {
            pch_manifest,
            pch_capsule,
            bmc_manifest,
            bmc_capsule,
        })
    }
}
