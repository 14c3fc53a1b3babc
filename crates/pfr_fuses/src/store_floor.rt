// The floor of a bank, of a store that is at rest.
ghost use Rattle.std.specs.Prelude.{◌≡◌, length};
ghost use Rattle.pfr_fuses.specs.Floors.{floor_in_store};
ghost use Rattle.pfr_fuses.specs.FuseMap.{IsFloor, profile_of};
ghost use Rattle.pfr_fuses.specs.FusesOf.{floor_fuses};

use crate::fuse_rows::floor_of;
use crate::profile::Profile;
use pfr_flash::{Bank, FuseRow, part};

// The fuses of a floor, in a store of this profile.
#[tactic(auto, unfolding(crate::specs::FusesOf::floor_fuses))]
fn floor_fuses(store: &[u8], profile: Profile, bank: Bank) -> FuseRow<16>
    requires size { length store.now ≡ 32768 }
    requires profile { profile ≡ profile_of store.now }
    ensures { result ≡ floor_fuses store.now bank }
{
    let at = profile.floor_at(bank) as usize;
    let width = profile.floor_width() as usize;
    let mut bytes = [0xFF; 16];
    let kept = &mut bytes[..];
    kept[0..width].copy_from_slice(part(store, at, width));
    FuseRow::new(bytes)
}

/// The floor of a bank that the bytes of a store say, in either profile. The store may be one without a provision.
pub fn floor_in_store(store: &[u8], bank: Bank) -> u32
    requires { length store.now ≡ 32768 }
    ensures exact { result ≡ floor_in_store store.now bank }
    ensures stands { IsFloor store.now bank result }
{
    floor_of(&floor_fuses(store, Profile::of_store(store), bank))
}
