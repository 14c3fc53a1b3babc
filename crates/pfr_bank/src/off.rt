// A bank whose flash has no power.
ghost use Rattle.std.specs.Prelude.{◌≡◌, ◌<◌, ◌≤◌, true, false};
ghost use Rattle.pfr_flash.specs.Flash.{with_cut, with_fault};
ghost use Rattle.pfr_flash.specs.FlashState.{op_count_of, size_of};

use crate::held::Held;
use crate::room::Room;
use pfr_flash::{Bank, Flash, Rigged, Tear};

/// A bank that has no power. It owns the bank's flash, and lends it to nobody.
#[derive(Drop)]
pub struct Off<F: Flash> {
    pub(crate) flash: F,
    pub(crate) bank: Bank,
    pub(crate) room: Room,
}

impl<F: Flash> Off<F> {
    /// A bank with this flash. The flash is left as it is: what state its power is in shows at `hold`.
    pub fn new(flash: F, bank: Bank, room: Room) -> Off<F>
        ensures flash { result.flash ≡ flash }
        ensures bank { result.bank ≡ bank }
    {
        Off { flash, bank, room }
    }

    /// Gives the flash power, and holds the bank. The bytes stay.
    pub fn hold(self) -> Held<F>
        ensures up { F.device result.flash ≡ record (F.device self.flash) { powered = true } }
        ensures bank { result.bank ≡ self.bank }
    {
        let bank = self.bank;
        let mut flash = self.flash;
        flash.power_up();
        let room = self.room;
        Held { flash, bank, room }
    }

    /// Takes the flash's power, where it has any. The bytes stay.
    pub fn lost(self) -> Off<F>
        ensures down { F.device result.flash ≡ record (F.device self.flash) { powered = false } }
        ensures bank { result.bank ≡ self.bank }
    {
        let bank = self.bank;
        let mut flash = self.flash;
        flash.power_down();
        let room = self.room;
        Off { flash, bank, room }
    }

    /// How many bytes the flash has.
    pub fn size(&self) -> u32
        ensures { result ≡ size_of (F.device self.now.flash) }
    {
        self.flash.size()
    }

    /// How many erases and programs the flash has done.
    pub fn op_count(&self) -> u32
        ensures { result ≡ op_count_of (F.device self.now.flash) }
    {
        self.flash.op_count()
    }

    /// Gives the flash up as it stands.
    pub fn into_flash(self) -> F
        ensures { result ≡ self.flash }
    {
        self.flash
    }
}

impl<F: Rigged> Off<F> {
    /// Lets the nth erase or program from now on lose the power, and leave the tear.
    pub fn arm_cut(&mut self, nth: u32, tear: &Tear)
        requires nth { 1 ≤ nth }
        requires arms { 0 < (F.device self.old.flash).arms }
        ensures flash { F.device self.new.flash ≡ with_cut (F.device self.old.flash) nth tear.now }
        ensures rest { self.new ≡ record self.old { flash = self.new.flash } }
    {
        self.flash.arm_cut(nth, tear);
    }

    /// Lets the nth erase or program from now on fail, and leave the tear.
    pub fn arm_fault(&mut self, nth: u32, tear: &Tear)
        requires nth { 1 ≤ nth }
        requires arms { 0 < (F.device self.old.flash).arms }
        ensures flash { F.device self.new.flash ≡ with_fault (F.device self.old.flash) nth tear.now }
        ensures rest { self.new ≡ record self.old { flash = self.new.flash } }
    {
        self.flash.arm_fault(nth, tear);
    }

    /// Lets the nth read from now on fail.
    pub fn arm_read_fault(&mut self, nth: u32)
        requires { 1 ≤ nth }
        ensures flash { F.device self.new.flash ≡ record (F.device self.old.flash) { read_due = true } }
        ensures rest { self.new ≡ record self.old { flash = self.new.flash } }
    {
        self.flash.arm_read_fault(nth);
    }

    /// How many cuts and faults can still be armed in the flash.
    pub fn arms_left(&self) -> u32
        ensures { result ≡ (F.device self.now.flash).arms }
    {
        self.flash.arms_left()
    }
}
