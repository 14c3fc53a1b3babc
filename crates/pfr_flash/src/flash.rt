// A flash device: its bytes are those that it had at first with the operations done since.
ghost use Rattle.std.specs.Prelude.{◌≡◌, ◌+◌, ◌/◌, ◌<◌, ◌≤◌, true, false, length, OnOk};
ghost use Rattle.pfr_flash.specs.Bytes.{bytes_at};
ghost use Rattle.pfr_flash.specs.Operation.{Erase, Program};
ghost use Rattle.pfr_flash.specs.FlashState.{FlashState, now, size_of, op_count_of};
ghost use Rattle.pfr_flash.specs.Flash.{Does, Reads, IsInPage};
ghost use Rattle.pfr_flash.specs.Holding.{HoldsBytes};

use thiserror::Error;

/// Why a call of a flash failed: a fault of the device, or the loss of its power.
#[derive(Clone, Copy, Debug, PartialEq, Eq, Error)]
pub enum FlashFail {
    /// The device has power, but the call failed.
    #[error("the flash failed")]
    Fault,
    /// The device is off: it was off before the call, or lost its power in it. Until `power_up` each read,
    /// erase and program answers this.
    #[error("the flash lost its power")]
    Lost,
}

/// A NOR flash of sectors of 4,096 bytes and pages of 256. Sizes, lengths and places (`at`) are in bytes.
///
/// An erase or a program that fails was either not begun, or was torn part of the way. A device that is off
/// does nothing and answers `Lost` to each read, erase and program.
pub trait Flash: Drop {
    ghost device: { Self → FlashState };

    /// How many bytes the device has.
    fn size(&self) -> u32
        ensures { result ≡ size_of (device self.now) };

    /// Whether the device has power.
    fn powered(&self) -> bool
        ensures { result ≡ (device self.now).powered };

    /// How many erases and programs were done so far, with those that were torn. Reads do not count.
    fn op_count(&self) -> u32
        ensures { result ≡ op_count_of (device self.now) };

    /// Gives the device power. Its bytes stay.
    fn power_up(&mut self)
        ensures { device self.new ≡ record (device self.old) { powered = true } };

    /// Takes the device's power, between calls. Its bytes stay.
    fn power_down(&mut self)
        ensures { device self.new ≡ record (device self.old) { powered = false } };

    /// Fills `into` with the device's bytes from `at` on.
    ///
    /// After `Err` the device's bytes are as they were, and `into` may hold anything.
    fn read(&mut self, at: u32, into: &mut [u8]) -> Result<(), FlashFail>
        requires { at + length into.old ≤ size_of (device self.old) }
        ensures bytes { OnOk result (into.new ≡ bytes_at (now (device self.old)) at (length into.old)) }
        ensures reads { Reads (length into.old) (device self.old) (device self.new) result };

    /// Makes each of the sector's 4,096 bytes 0xFF. Sectors are numbered from 0.
    ///
    /// After `Err` the sector is as it was, or was torn and may hold any bytes. No other sector changes.
    fn erase(&mut self, sector: u32) -> Result<(), FlashFail>
        requires { sector < size_of (device self.old) / 4096 }
        ensures { Does (Erase sector) (device self.old) (device self.new) result };

    /// Programs 1 to 256 bytes, all within one page of 256. As with any NOR flash this only clears bits:
    /// each byte becomes old AND new.
    ///
    /// After `Err` the bits that were to be cleared may each be cleared or not. No other bit changes.
    fn program(&mut self, at: u32, bytes: &[u8]) -> Result<(), FlashFail>
        requires page { IsInPage at (length bytes.now) }
        requires within { at + length bytes.now ≤ size_of (device self.old) }
        ensures { Does (Program at bytes.now) (device self.old) (device self.new) result };

    /// All that a device holds are bytes.
    ghost holds_bytes: { (flash : Self) → HoldsBytes (device flash) };
}
