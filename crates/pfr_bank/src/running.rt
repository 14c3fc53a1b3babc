// A bank that runs.
ghost use Rattle.std.specs.Prelude.{◌≡◌, ◌↔◌, ◌+◌, ◌<◌, ◌≤◌, true, false, [], length, drop, All, Ok};
ghost use Rattle.pfr_flash.specs.Flash.{with_cut, with_fault};
ghost use Rattle.pfr_flash.specs.FlashState.{now, op_count_of, size_of};
ghost use Rattle.pfr_flash.specs.Plan.{Follows};
ghost use Rattle.pfr_flash.specs.Range.{Leaves};
ghost use Rattle.pfr_manifest.specs.Access.{IsWritable};
ghost use Rattle.pfr_auth.specs.Leaving.{LeavesImage};
ghost use Rattle.pfr_filter.specs.Frames.{IsSafePass, Passes, bus_plan, touched, verdict_on};
ghost use Rattle.pfr_filter.specs.declared.verdict.BusOp.{BusOp};
ghost use Rattle.pfr_filter.specs.declared.verdict.Verdict.TheVariants.{Pass};
ghost use Rattle.pfr_bank.specs.Seats.{latch_left};
ghost use Rattle.pfr_bank.specs.Spelling.{StillSpells};

use crate::bus::{carry_out, latched};
use crate::held::Held;
use crate::off::Off;
use crate::room::Room;
use pfr_filter::{Judged, Verdict, judge_counted};
use pfr_flash::{Bank, Flash, FlashFail, Layout, Rigged, Tear};
use pfr_manifest::{Manifest, Steps};
use std::marker::Model;
use std::sync::ledger::Ledger;

/// A bank that runs, with the manifest and the layout that it was judged by, the table of the stretches that its bus may
/// write, and the latch, which tells whether writes are enabled. It lends its flash to nobody, and its bus writes only what the
/// manifest lets it, so the image holds the manifest still, and what that says.
#[derive(Drop)]
pub struct Running<F: Flash> {
    pub(crate) flash: F,
    pub(crate) bank: Bank,
    pub(crate) layout: Layout,
    pub(crate) room: Room,
    pub(crate) latch: bool,
}

impl<F: Flash> Model for Running<F> {
    ghost use Rattle.pfr_flash.specs.FlashState.{now};
    ghost use Rattle.pfr_bank.specs.Keeping.{IsKept, manifest_in};
    ghost use Rattle.pfr_bank.specs.Seats.{RunningState};
    ghost use Rattle.pfr_bank.specs.Spelling.{StillSpells};

    ghost Value = { RunningState F };

    ghost view = { λ r. record { flash = r.flash; bank = r.bank; manifest = manifest_in r.room; layout = r.layout; latch = r.latch } };

    ghost invariant = { λ r. StillSpells (now (F.device r.flash)) (manifest_in r.room) r.layout × IsKept r.room };
}

impl<F: Flash> Running<F> {
    /// The manifest that the bank's image is trusted by.
    pub fn manifest(&self) -> &Manifest
        ensures { result.now ≡ self.now.manifest }
    {
        self.room.manifest()
    }

    /// Holds the bank. The flash stays as it is.
    pub fn hold(self) -> Held<F>
        ensures flash { result.flash ≡ self.flash }
        ensures bank { result.bank ≡ self.bank }
    {
        let bank = self.bank;
        let flash = self.flash;
        let room = self.room;
        Held { flash, bank, room }
    }

    /// Takes the flash's power. The bytes stay.
    pub fn lost(self) -> Off<F>
        ensures down { F.device result.flash ≡ record (F.device self.flash) { powered = false } }
        ensures bank { result.bank ≡ self.bank }
    {
        let bank = self.bank;
        let mut flash = self.flash;
        flash.power_down();
        let room = self.room;
        Off { flash, bank, room }
    }

    /// What was found of the image holds still. This does nothing.
    pub fn known(&self)
        ensures spells { StillSpells (now (F.device self.now.flash)) self.now.manifest self.now.layout }
    {
        let _ = &self.bank;
    }

    /// Judges a frame on the bank's SPI bus, by its manifest and its latch.
    pub fn judge<L: Ledger>(&self, frame: &[u8], steps: &mut Steps<L>) -> Judged
        requires some { 1 ≤ length frame.now }
        requires most { length frame.now ≤ 261 }
        // It passes exactly where the manifest and the latch allow it.
        ensures passes { (op : BusOp) → (result ≡ Pass op)
            ↔ Passes frame.now (IsWritable self.now.manifest self.now.layout) (size_of (F.device self.now.flash)) self.now.latch op }
        // What it asks for, or which cause it is: the first in order.
        ensures exact { result ≡ verdict_on frame.now self.now.manifest self.now.layout (size_of (F.device self.now.flash)) self.now.latch }
        // At most 8 stretches are looked at for a frame that writes one page, and at most 23 for one that writes sixteen.
        ensures cost { steps.new ≤ steps.old + (7 + length (touched frame.now)) }
    {
        judge_counted(
            frame,
            self.room.table(),
            &self.layout,
            self.flash.size(),
            self.latch,
            steps,
        )
    }

    /// Hands a frame that passed to the flash, which does what it asks for. What is read isn't told.
    pub fn bus(&mut self, judged: &Judged) -> Result<(), FlashFail>
        requires { IsSafePass self.old.manifest self.old.layout judged.now }
        // At Ok all that it asks for was done, at Err a front of it, the last operation perhaps torn.
        ensures follows { Follows (bus_plan judged.now) (F.device self.old.flash) (F.device self.new.flash) result }
        // A frame that writes nothing isn't handed to the flash.
        ensures idle { bus_plan judged.now ≡ [] → (result ≡ Ok tt) × (self.new.flash ≡ self.old.flash) }
        ensures latch { self.new.latch ≡ latch_left judged.now self.old.latch result }
        ensures rest { self.new ≡ record self.old { flash = self.new.flash; latch = self.new.latch } }
        // Whatever was cut or torn, no byte of the manifest area or of a static region was touched, and none of the recovery area.
        ensures image { All (LeavesImage self.old.layout self.old.manifest)
            (drop (op_count_of (F.device self.old.flash)) (F.device self.new.flash).ops) }
        ensures recovery { All (Leaves self.old.layout.recovery_at self.old.layout.area_len)
            (drop (op_count_of (F.device self.old.flash)) (F.device self.new.flash).ops) }
    {
        let Verdict::Pass(op) = judged.verdict() else {
            return Ok(());
        };
        carry_out(&mut self.flash, op)?;
        self.latch = latched(op, self.latch);
        Ok(())
    }

    /// How many bytes the flash has.
    pub fn size(&self) -> u32
        ensures { result ≡ size_of (F.device self.now.flash) }
    {
        self.flash.size()
    }

    /// How many erases and programs the flash has done.
    pub fn op_count(&self) -> u32
        ensures { result ≡ op_count_of (F.device self.now.flash) }
    {
        self.flash.op_count()
    }

    /// Gives the flash up as it stands.
    pub fn into_flash(self) -> F
        ensures { result ≡ self.flash }
    {
        self.flash
    }
}

impl<F: Rigged> Running<F> {
    /// Lets the nth erase or program from now on lose the power, and leave the tear.
    pub fn arm_cut(&mut self, nth: u32, tear: &Tear)
        requires nth { 1 ≤ nth }
        requires arms { 0 < (F.device self.old.flash).arms }
        ensures flash { F.device self.new.flash ≡ with_cut (F.device self.old.flash) nth tear.now }
        ensures rest { self.new ≡ record self.old { flash = self.new.flash } }
    {
        self.flash.arm_cut(nth, tear);
    }

    /// Lets the nth erase or program from now on fail, and leave the tear.
    pub fn arm_fault(&mut self, nth: u32, tear: &Tear)
        requires nth { 1 ≤ nth }
        requires arms { 0 < (F.device self.old.flash).arms }
        ensures flash { F.device self.new.flash ≡ with_fault (F.device self.old.flash) nth tear.now }
        ensures rest { self.new ≡ record self.old { flash = self.new.flash } }
    {
        self.flash.arm_fault(nth, tear);
    }

    /// Lets the nth read from now on fail.
    pub fn arm_read_fault(&mut self, nth: u32)
        requires { 1 ≤ nth }
        ensures flash { F.device self.new.flash ≡ record (F.device self.old.flash) { read_due = true } }
        ensures rest { self.new ≡ record self.old { flash = self.new.flash } }
    {
        self.flash.arm_read_fault(nth);
    }

    /// How many cuts and faults can still be armed in the flash.
    pub fn arms_left(&self) -> u32
        ensures { result ≡ (F.device self.now.flash).arms }
    {
        self.flash.arms_left()
    }
}
