// A bank that the controller holds.
ghost use Rattle.std.specs.Prelude.{◌≡◌, ◌<◌, ◌≤◌, ℕ, List, true, false, Ok, IfOk};
ghost use Rattle.std.specs.Borrow.{sem};
ghost use Rattle.pfr_flash.specs.Answer.{Answers};
ghost use Rattle.pfr_flash.specs.Flash.{with_cut, with_fault};
ghost use Rattle.pfr_flash.specs.FlashState.{now, op_count_of, size_of};
ghost use Rattle.pfr_flash.specs.Layout.{IsBankSize, IsValidLayout};
ghost use Rattle.pfr_flash.specs.Reading.{EndsAt, failed_by};
ghost use Rattle.pfr_fuses.specs.RootSlot.{layout_of};
ghost use Rattle.pfr_auth.specs.Answer.{active_failure};
ghost use Rattle.pfr_auth.specs.Judge.{judge_active};
ghost use Rattle.pfr_auth.specs.Lasting.{KeepsTrustedBytes, KeepsTrustedFuses};
ghost use Rattle.pfr_auth.specs.Throughout.{IsTrustedBy};
ghost use Rattle.pfr_auth.specs.Trusted.{IsTrusted, StandFor};
ghost use Rattle.pfr_bank.specs.Checking.{answer_of, bank_left, flash_left};
ghost use Rattle.pfr_bank.specs.Lending.{lends_flash};

use crate::checked::{Checked, Unchecked};
use crate::locked::Locked;
use crate::off::Off;
use crate::room::Room;
use pfr_auth::active;
use pfr_engine::Engine;
use pfr_flash::{Bank, Flash, Layout, Rigged, Tear};
use pfr_fuses::Fuses;

/// A bank that the controller holds: it doesn't run. This state alone lends its flash, and so lets it be written.
#[derive(Drop)]
pub struct Held<F: Flash> {
    pub(crate) flash: F,
    pub(crate) bank: Bank,
    pub(crate) room: Room,
}

impl<F: Flash> Held<F> {
    /// The bank's flash, to be read and written. The bank holds afterwards what the borrower leaves.
    pub fn flash(&mut self) -> &mut F
        ensures* writes_back { sem 𝓛 (lends_flash F.row self.entry result) }
        ensures value { result.now ≡ self.old.flash }
    {
        &mut self.flash
    }

    /// Judges the bank's active image: it is trusted by the manifest that `Checked` keeps, or it is held still, with the
    /// first cause against it. The flash's bytes stay. The layout is the bank's of the provision that `fuses` were read with.
    pub fn check<E: Engine>(
        self,
        layout: &Layout,
        fuses: &Fuses,
        engine: &E,
    ) -> Result<Checked<F>, Unchecked<F>>
        requires size { IsBankSize (size_of (F.device self.flash)) }
        requires layout { layout.now ≡ layout_of fuses.now.provision self.bank }
        requires valid { IsValidLayout layout.now (size_of (F.device self.flash)) }
        // What is checked is trusted, by the manifest kept, with each store that the fuses stand for.
        ensures ok { let image = now (F.device self.flash) in
            IfOk result (λ c. (nv : List ℕ) → StandFor nv fuses.now self.bank → IsTrustedBy c.manifest image nv self.bank (E.accepts engine.now)) }
        // It stays trusted while the bytes stay that its trust rests on.
        ensures lasts { let image = now (F.device self.flash) in
            IfOk result (λ c. (nv later after : List ℕ) → StandFor nv fuses.now self.bank → KeepsTrustedBytes layout.now c.manifest image later → KeepsTrustedFuses self.bank nv after →
            IsTrustedBy c.manifest later after self.bank (E.accepts engine.now)) }
        // What is trusted is checked, unless the device fails.
        ensures only { let image = now (F.device self.flash) in
            (nv : List ℕ) → StandFor nv fuses.now self.bank → (t : IsTrusted image nv self.bank (E.accepts engine.now)) →
            Answers active_failure (answer_of result) (Ok t.manifest) }
        // Which cause it is: the first in order.
        ensures exact { Answers active_failure (answer_of result) (judge_active (now (F.device self.flash)) self.bank fuses.now (E.accepts engine.now)) }
        ensures ends { EndsAt (failed_by active_failure (answer_of result)) (F.device self.flash) (F.device (flash_left result)) }
        ensures bank { bank_left result ≡ self.bank }
        ensures layout { IfOk result (λ c. c.layout ≡ layout.now) }
    {
        let bank = self.bank;
        let mut flash = self.flash;
        let mut room = self.room;
        match active(&mut flash, bank, layout, fuses, engine) {
            Ok(manifest) => {
                let layout = *layout;
                room.keep(manifest);
                Ok(Checked {
                    flash,
                    bank,
                    layout,
                    room,
                })
            }
            Err(why) => {
                let held = Held { flash, bank, room };
                Err(Unchecked { held, why })
            }
        }
    }

    /// Keeps the bank from running. The flash stays as it is.
    pub fn lock(self) -> Locked<F>
        ensures flash { result.flash ≡ self.flash }
        ensures bank { result.bank ≡ self.bank }
    {
        let bank = self.bank;
        let flash = self.flash;
        let room = self.room;
        Locked { flash, bank, room }
    }

    /// Takes the flash's power. The bytes stay.
    pub fn lost(self) -> Off<F>
        ensures down { F.device result.flash ≡ record (F.device self.flash) { powered = false } }
        ensures bank { result.bank ≡ self.bank }
    {
        let bank = self.bank;
        let mut flash = self.flash;
        flash.power_down();
        let room = self.room;
        Off { flash, bank, room }
    }

    /// How many bytes the flash has.
    pub fn size(&self) -> u32
        ensures { result ≡ size_of (F.device self.now.flash) }
    {
        self.flash.size()
    }

    /// How many erases and programs the flash has done.
    pub fn op_count(&self) -> u32
        ensures { result ≡ op_count_of (F.device self.now.flash) }
    {
        self.flash.op_count()
    }

    /// Gives the flash up as it stands.
    pub fn into_flash(self) -> F
        ensures { result ≡ self.flash }
    {
        self.flash
    }
}

impl<F: Rigged> Held<F> {
    /// Lets the nth erase or program from now on lose the power, and leave the tear.
    pub fn arm_cut(&mut self, nth: u32, tear: &Tear)
        requires nth { 1 ≤ nth }
        requires arms { 0 < (F.device self.old.flash).arms }
        ensures flash { F.device self.new.flash ≡ with_cut (F.device self.old.flash) nth tear.now }
        ensures rest { self.new ≡ record self.old { flash = self.new.flash } }
    {
        self.flash.arm_cut(nth, tear);
    }

    /// Lets the nth erase or program from now on fail, and leave the tear.
    pub fn arm_fault(&mut self, nth: u32, tear: &Tear)
        requires nth { 1 ≤ nth }
        requires arms { 0 < (F.device self.old.flash).arms }
        ensures flash { F.device self.new.flash ≡ with_fault (F.device self.old.flash) nth tear.now }
        ensures rest { self.new ≡ record self.old { flash = self.new.flash } }
    {
        self.flash.arm_fault(nth, tear);
    }

    /// Lets the nth read from now on fail.
    pub fn arm_read_fault(&mut self, nth: u32)
        requires { 1 ≤ nth }
        ensures flash { F.device self.new.flash ≡ record (F.device self.old.flash) { read_due = true } }
        ensures rest { self.new ≡ record self.old { flash = self.new.flash } }
    {
        self.flash.arm_read_fault(nth);
    }

    /// How many cuts and faults can still be armed in the flash.
    pub fn arms_left(&self) -> u32
        ensures { result ≡ (F.device self.now.flash).arms }
    {
        self.flash.arms_left()
    }
}
