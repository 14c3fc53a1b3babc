// A bank whose active image was judged and is trusted.
ghost use Rattle.std.specs.Prelude.{◌≡◌, ◌<◌, ◌≤◌, true, false};
ghost use Rattle.pfr_flash.specs.Flash.{with_cut, with_fault};
ghost use Rattle.pfr_flash.specs.FlashState.{now, op_count_of};
ghost use Rattle.pfr_bank.specs.Spelling.{StillSpells};

use crate::held::Held;
use crate::room::Room;
use crate::running::Running;
use pfr_auth::ActiveFail;
use pfr_flash::{Bank, Flash, Layout, Rigged, Tear};
use std::marker::Model;

/// A bank whose active image is trusted by the manifest that it keeps, with the layout of that judgement. It lends its
/// flash to nobody, so what was found stays true: the image holds the manifest still, and what that says.
#[derive(Drop)]
pub struct Checked<F: Flash> {
    pub(crate) flash: F,
    pub(crate) bank: Bank,
    pub(crate) layout: Layout,
    pub(crate) room: Room,
}

impl<F: Flash> Model for Checked<F> {
    ghost use Rattle.pfr_flash.specs.FlashState.{now};
    ghost use Rattle.pfr_bank.specs.Keeping.{IsKept, manifest_in};
    ghost use Rattle.pfr_bank.specs.Seats.{JudgedState};
    ghost use Rattle.pfr_bank.specs.Spelling.{StillSpells};

    ghost Value = { JudgedState F };

    ghost view = { λ c. record { flash = c.flash; bank = c.bank; manifest = manifest_in c.room; layout = c.layout } };

    ghost invariant = { λ c. StillSpells (now (F.device c.flash)) (manifest_in c.room) c.layout × IsKept c.room };
}

/// A bank whose active image isn't trusted, and the first cause against it.
#[derive(Drop)]
pub struct Unchecked<F: Flash> {
    pub held: Held<F>,
    pub why: ActiveFail,
}

impl<F: Flash> Checked<F> {
    /// Lets the bank run, with writes of its bus disabled. The flash stays as it is.
    pub fn release(self) -> Running<F>
        ensures flash { result.flash ≡ self.flash }
        ensures bank { result.bank ≡ self.bank }
        ensures manifest { result.manifest ≡ self.manifest }
        ensures layout { result.layout ≡ self.layout }
        ensures latch { result.latch ≡ false }
    {
        let bank = self.bank;
        let layout = self.layout;
        let room = self.room;
        let flash = self.flash;
        Running {
            flash,
            bank,
            layout,
            room,
            latch: false,
        }
    }

    /// What was found of the image holds still. This does nothing.
    pub fn known(&self)
        ensures spells { StillSpells (now (F.device self.now.flash)) self.now.manifest self.now.layout }
    {
        let _ = &self.bank;
    }

    /// How many erases and programs the flash has done.
    pub fn op_count(&self) -> u32
        ensures { result ≡ op_count_of (F.device self.now.flash) }
    {
        self.flash.op_count()
    }

    /// Gives the flash up as it stands.
    pub fn into_flash(self) -> F
        ensures { result ≡ self.flash }
    {
        self.flash
    }
}

impl<F: Rigged> Checked<F> {
    /// Lets the nth erase or program from now on lose the power, and leave the tear.
    pub fn arm_cut(&mut self, nth: u32, tear: &Tear)
        requires nth { 1 ≤ nth }
        requires arms { 0 < (F.device self.old.flash).arms }
        ensures flash { F.device self.new.flash ≡ with_cut (F.device self.old.flash) nth tear.now }
        ensures rest { self.new ≡ record self.old { flash = self.new.flash } }
    {
        self.flash.arm_cut(nth, tear);
    }

    /// Lets the nth erase or program from now on fail, and leave the tear.
    pub fn arm_fault(&mut self, nth: u32, tear: &Tear)
        requires nth { 1 ≤ nth }
        requires arms { 0 < (F.device self.old.flash).arms }
        ensures flash { F.device self.new.flash ≡ with_fault (F.device self.old.flash) nth tear.now }
        ensures rest { self.new ≡ record self.old { flash = self.new.flash } }
    {
        self.flash.arm_fault(nth, tear);
    }

    /// Lets the nth read from now on fail.
    pub fn arm_read_fault(&mut self, nth: u32)
        requires { 1 ≤ nth }
        ensures flash { F.device self.new.flash ≡ record (F.device self.old.flash) { read_due = true } }
        ensures rest { self.new ≡ record self.old { flash = self.new.flash } }
    {
        self.flash.arm_read_fault(nth);
    }

    /// How many cuts and faults can still be armed in the flash.
    pub fn arms_left(&self) -> u32
        ensures { result ≡ (F.device self.now.flash).arms }
    {
        self.flash.arms_left()
    }
}
