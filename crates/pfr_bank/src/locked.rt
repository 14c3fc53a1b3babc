// A bank that is locked.
ghost use Rattle.std.specs.Prelude.{◌≡◌, ◌<◌, ◌≤◌, true, false};
ghost use Rattle.pfr_flash.specs.Flash.{with_cut, with_fault};
ghost use Rattle.pfr_flash.specs.FlashState.{op_count_of, size_of};

use crate::held::Held;
use crate::off::Off;
use crate::room::Room;
use pfr_flash::{Bank, Flash, Rigged, Tear};

/// A bank that is kept from running. Its flash has the power that it had when the bank was held, and is lent to nobody.
#[derive(Drop)]
pub struct Locked<F: Flash> {
    pub(crate) flash: F,
    pub(crate) bank: Bank,
    pub(crate) room: Room,
}

impl<F: Flash> Locked<F> {
    /// Holds the bank. The flash stays as it is.
    pub fn hold(self) -> Held<F>
        ensures flash { result.flash ≡ self.flash }
        ensures bank { result.bank ≡ self.bank }
    {
        let bank = self.bank;
        let flash = self.flash;
        let room = self.room;
        Held { flash, bank, room }
    }

    /// Takes the flash's power. The bytes stay.
    pub fn lost(self) -> Off<F>
        ensures down { F.device result.flash ≡ record (F.device self.flash) { powered = false } }
        ensures bank { result.bank ≡ self.bank }
    {
        let bank = self.bank;
        let mut flash = self.flash;
        flash.power_down();
        let room = self.room;
        Off { flash, bank, room }
    }

    /// How many bytes the flash has.
    pub fn size(&self) -> u32
        ensures { result ≡ size_of (F.device self.now.flash) }
    {
        self.flash.size()
    }

    /// How many erases and programs the flash has done.
    pub fn op_count(&self) -> u32
        ensures { result ≡ op_count_of (F.device self.now.flash) }
    {
        self.flash.op_count()
    }

    /// Gives the flash up as it stands.
    pub fn into_flash(self) -> F
        ensures { result ≡ self.flash }
    {
        self.flash
    }
}

impl<F: Rigged> Locked<F> {
    /// Lets the nth erase or program from now on lose the power, and leave the tear.
    pub fn arm_cut(&mut self, nth: u32, tear: &Tear)
        requires nth { 1 ≤ nth }
        requires arms { 0 < (F.device self.old.flash).arms }
        ensures flash { F.device self.new.flash ≡ with_cut (F.device self.old.flash) nth tear.now }
        ensures rest { self.new ≡ record self.old { flash = self.new.flash } }
    {
        self.flash.arm_cut(nth, tear);
    }

    /// Lets the nth erase or program from now on fail, and leave the tear.
    pub fn arm_fault(&mut self, nth: u32, tear: &Tear)
        requires nth { 1 ≤ nth }
        requires arms { 0 < (F.device self.old.flash).arms }
        ensures flash { F.device self.new.flash ≡ with_fault (F.device self.old.flash) nth tear.now }
        ensures rest { self.new ≡ record self.old { flash = self.new.flash } }
    {
        self.flash.arm_fault(nth, tear);
    }

    /// Lets the nth read from now on fail.
    pub fn arm_read_fault(&mut self, nth: u32)
        requires { 1 ≤ nth }
        ensures flash { F.device self.new.flash ≡ record (F.device self.old.flash) { read_due = true } }
        ensures rest { self.new ≡ record self.old { flash = self.new.flash } }
    {
        self.flash.arm_read_fault(nth);
    }

    /// How many cuts and faults can still be armed in the flash.
    pub fn arms_left(&self) -> u32
        ensures { result ≡ (F.device self.now.flash).arms }
    {
        self.flash.arms_left()
    }
}
