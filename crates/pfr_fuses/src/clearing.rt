// The fuses of a store are moved to sector 7.
ghost use Rattle.std.specs.Prelude.{◌≡◌, ℕ, slice_index, ◌<◌, [], ◌∷◌};
ghost use Rattle.pfr_flash.specs.FlashState.{size_of};
ghost use Rattle.pfr_flash.specs.Plan.{Follows};
ghost use Rattle.pfr_flash.specs.Operation.{Erase, Program};

use pfr_flash::{Flash, FlashFail};

const FUSE_SECTOR: u32 = 7;

const FUSES_AT: u32 = 0x7000;

const PROFILE_GATE: u32 = 0xA00;

/// Writes the fuses to sector 7, and then sets the gate of profile 2.
pub fn program_fuses<F: Flash>(nv: &mut F, fuses: &[u8; 160]) -> Result<(), FlashFail>
    requires { size_of (F.device nv.old) ≡ 32768 }
    ensures follows { Follows (Erase 7 ∷ Program 0x7000 fuses.now ∷ Program 0xA00 (0 ∷ []) ∷ [])
        (F.device nv.old) (F.device nv.new) result }
    ensures bytes { (i : ℕ) → i < 160 → slice_index fuses.now i < 256 }
{
    nv.erase(FUSE_SECTOR)?;
    nv.program(FUSES_AT, fuses)?;
    nv.program(PROFILE_GATE, &[0x00])
}
