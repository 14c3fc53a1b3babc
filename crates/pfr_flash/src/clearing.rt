// A fuse of a row on a device is cleared.
ghost use Rattle.std.specs.Prelude.{◌+◌, ◌/◌, ◌<◌, ◌≤◌};
ghost use Rattle.pfr_flash.specs.FlashState.{size_of};
ghost use Rattle.pfr_flash.specs.FuseRow.{clearing};
ghost use Rattle.pfr_flash.specs.Plan.{Follows};

use crate::flash::{Flash, FlashFail};
use crate::fuse_row::fuse_byte;

/// Clears fuse `bit` of the row that lies from the place `at` on, by one program of one byte.
pub fn clear_fuse<F: Flash>(flash: &mut F, at: u32, bit: u32) -> Result<(), FlashFail>
    requires size { size_of (F.device flash.old) ≤ 67108864 }
    requires within { at + bit / 8 < size_of (F.device flash.old) }
    ensures { Follows (clearing at bit) (F.device flash.old) (F.device flash.new) result }
{
    flash.program(at + bit / 8, &[fuse_byte(bit)])
}
