// The two profiles of a store: where its fuses lie, and how many there are.
ghost use Rattle.std.specs.Prelude.{◌≡◌, ◌+◌, ◌≤◌, length, IfOk, IfErr, Some};
ghost use Rattle.pfr_flash.specs.FlashState.{now, size_of};
ghost use Rattle.pfr_flash.specs.Reading.{EndsAt, failed_by};
ghost use Rattle.pfr_fuses.specs.FuseMap.{IsSigning, profile_of, profile_number, floor_at, floor_width, row_at, row_width};

use pfr_flash::{Bank, ContentType, Flash, FlashFail};

const PROFILE_GATE: u32 = 0xA00;

/// The profile of a store.
#[derive(Clone, Copy, Debug, PartialEq, Eq)]
pub enum Profile {
    /// The fuses lie in sector 0: 64 a floor and 128 a row.
    One,
    /// The fuses lie in sector 7: 128 a floor and 256 a row.
    Two,
}

impl Profile {
    /// Reads the store's profile from its gate, a byte that is 0xFF until the fuses are migrated.
    #[tactic(auto, unfolding(crate::specs::FuseMap::profile_of))]
    pub fn read<F: Flash>(nv: &mut F) -> Result<Profile, FlashFail>
        requires { size_of (F.device nv.old) ≡ 32768 }
        ensures found { IfOk result (λ profile. profile ≡ profile_of (now (F.device nv.old))) }
        ensures ends { EndsAt (failed_by (λ fail. Some fail) result) (F.device nv.old) (F.device nv.new) }
    {
        let mut gate = [0];
        nv.read(PROFILE_GATE, &mut gate)?;
        if gate[0] == 0xFF {
            Ok(Profile::One)
        } else {
            Ok(Profile::Two)
        }
    }

    /// The profile of a store of these bytes.
    #[tactic(auto, unfolding(crate::specs::FuseMap::profile_of))]
    pub fn of_store(store: &[u8]) -> Profile
        requires { length store.now ≡ 32768 }
        ensures { result ≡ profile_of store.now }
    {
        if store[PROFILE_GATE as usize] == 0xFF {
            Profile::One
        } else {
            Profile::Two
        }
    }

    /// 1 or 2.
    pub fn number(self) -> u8
        ensures { result ≡ profile_number self }
    {
        match self {
            Profile::One => 1,
            Profile::Two => 2,
        }
    }

    /// Where the fuses of a bank's floor lie.
    pub fn floor_at(self, bank: Bank) -> u32
        ensures place { result ≡ floor_at self bank }
        ensures within { result + floor_width self ≤ 32768 }
    {
        match (self, bank) {
            (Profile::One, Bank::Bmc) => 0x800,
            (Profile::One, Bank::Pch) => 0x810,
            (Profile::Two, Bank::Bmc) => 0x7000,
            (Profile::Two, Bank::Pch) => 0x7010,
        }
    }

    /// How many bytes a floor has.
    pub fn floor_width(self) -> u32
        ensures width { result ≡ floor_width self }
        ensures most { result ≤ 16 }
    {
        match self {
            Profile::One => 8,
            Profile::Two => 16,
        }
    }

    /// Where the row of cancelled keys of a signing type lies.
    pub fn row_at(self, ty: ContentType) -> u32
        requires { IsSigning ty }
        ensures place { result ≡ row_at self ty }
        ensures within { result + row_width self ≤ 32768 }
    {
        match (self, ty) {
            (Profile::One, ContentType::PchManifest) => 0x900,
            (Profile::One, ContentType::PchCapsule) => 0x910,
            (Profile::One, ContentType::BmcManifest) => 0x920,
            (Profile::One, ContentType::BmcCapsule) => 0x930,
            (Profile::Two, ContentType::PchManifest) => 0x7020,
            (Profile::Two, ContentType::PchCapsule) => 0x7040,
            (Profile::Two, ContentType::BmcManifest) => 0x7060,
            (Profile::Two, ContentType::BmcCapsule) => 0x7080,
            _ => unreachable!(),
        }
    }

    /// How many bytes a row has.
    pub fn row_width(self) -> u32
        ensures width { result ≡ row_width self }
        ensures most { result ≤ 32 }
    {
        match self {
            Profile::One => 16,
            Profile::Two => 32,
        }
    }
}
