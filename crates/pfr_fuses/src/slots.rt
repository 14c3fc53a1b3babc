// The search for the slot that provisions the platform.
ghost use Rattle.std.specs.Prelude.{◌≡◌};
ghost use Rattle.pfr_flash.specs.FlashState.{now, size_of};
ghost use Rattle.pfr_flash.specs.Reading.{EndsAt, failed_by};
ghost use Rattle.pfr_flash.specs.Answer.{Answers};
ghost use Rattle.pfr_fuses.specs.Answer.{fuse_failure};
ghost use Rattle.pfr_fuses.specs.Slots.{is_set, is_blank, provisioned_slot};

use crate::fuse_fail::FuseFail;
use pfr_flash::Flash;

/// How many provision slots a store has.
pub const SLOTS: u32 = 8;

/// How many bytes a provision slot has. The last is its gate, which is not 0xFF where the slot is set.
pub const SLOT_LEN: u32 = 256;

/// Where the gate of a slot is.
pub const GATE: usize = 255;

/// Whether the slot's gate is set.
pub fn is_set(slot: &[u8; SLOT_LEN as usize]) -> bool
    ensures { result ≡ is_set slot.now }
{
    slot[GATE] != 0xFF
}

/// Whether each byte of the slot is 0xFF.
pub fn is_blank(slot: &[u8; SLOT_LEN as usize]) -> bool
    ensures { result ≡ is_blank slot.now }
{
    slot.iter().all(|byte| *byte == 0xFF)
}

/// The bytes of the first slot whose gate is set.
pub fn provisioned_slot<F: Flash>(nv: &mut F) -> Result<[u8; SLOT_LEN as usize], FuseFail>
    requires { size_of (F.device nv.old) ≡ 32768 }
    ensures exact { Answers fuse_failure result
        (provisioned_slot (now (F.device nv.old))) }
    ensures ends { EndsAt (failed_by fuse_failure result) (F.device nv.old) (F.device nv.new) }
{
    let mut has_blank = false;
    for number in 0..SLOTS {
        let mut slot = [0; SLOT_LEN as usize];
        nv.read(SLOT_LEN * number, &mut slot)?;
        if is_set(&slot) {
            return Ok(slot);
        }
        has_blank |= is_blank(&slot);
    }
    if has_blank {
        Err(FuseFail::NotProvisioned)
    } else {
        Err(FuseFail::SlotsSpent)
    }
}
