// A platform none of whose banks is in work.
ghost use Rattle.std.specs.Prelude.{◌≡◌, ◌≤◌, Bool, [], ◌∷◌, true};
ghost use Rattle.pfr_flash.specs.declared.names.Bank.{Bank};
ghost use Rattle.pfr_flash.specs.declared.names.Bank.TheVariants.{Bmc};
ghost use Rattle.pfr_flash.specs.declared.names.Device.TheVariants.{Nv};
ghost use Rattle.pfr_report.specs.Texts.{HasLockText, HasText};
ghost use Rattle.pfr_report.specs.declared.note.What.TheVariants.{Held, Locked, Lost};
ghost use Rattle.pfr_story.specs.Goes.{Ran};
ghost use Rattle.pfr_story.specs.Guards.{latch_after};
ghost use Rattle.pfr_story.specs.Standing as standing;
ghost use Rattle.pfr_story.specs.Standing.{Standing, standing_of, standing_after, standing_by};
ghost use Rattle.pfr_story.specs.Story.{Says, other_bank};
ghost use Rattle.pfr_story.specs.World.{IsDark, counts_in};
ghost use Rattle.pfr_machine.specs.Worlds.{AddsNotes, IsAwake, with_note, with_state};

use crate::board::Board;
use crate::desk::Desk;
use crate::seat::Seat;
use crate::sides::Sides;
use pfr_flash::{Bank, Counts, Device, Flash};
use pfr_report::{LockWhy, What};
use pfr_story::Line;
use std::marker::Model;

/// Both banks, none of which is in work, and what they share.
#[derive(Drop)]
pub struct Inner<F: Flash> {
    pub bmc: Seat<F>,
    pub pch: Seat<F>,
    pub board: Board<F>,
}

impl<F: Flash> Model for Inner<F> {
    ghost use Rattle.pfr_flash.specs.declared.names.Bank.TheVariants.{Bmc};
    ghost use Rattle.pfr_machine.specs.Inside.{AreSeated};
    ghost use Rattle.pfr_machine.specs.Worlds.{flash_in, latch_in, latches_by, sits_in, world_with};
    ghost use Rattle.pfr_story.specs.World.{World};

    ghost Value = { World };

    ghost view = { λ p. world_with (F.device (flash_in p.bmc)) (F.device (flash_in p.pch)) (F.device p.board.nv)
        (latches_by Bmc (latch_in p.bmc) (latch_in p.pch)) p.board };

    ghost invariant = { λ p. AreSeated (sits_in p.bmc) (sits_in p.pch)
        (world_with (F.device (flash_in p.bmc)) (F.device (flash_in p.pch)) (F.device p.board.nv)
        (latches_by Bmc (latch_in p.bmc) (latch_in p.pch)) p.board) };
}

impl<F: Flash> Inner<F> {
    /// How many operations each device has done.
    pub fn counts(&self) -> Counts
        ensures { result ≡ counts_in self.now }
    {
        Counts {
            bmc: self.bmc.op_count(),
            pch: self.pch.op_count(),
            nv: self.board.nv.op_count(),
        }
    }

    /// How the bank stands.
    pub fn line(&self, bank: Bank) -> Line
        ensures { standing_by result ≡ standing_of bank self.now.notes.list }
    {
        match bank {
            Bank::Bmc => self.bmc.line(),
            Bank::Pch => self.pch.line(),
        }
    }

    /// Notes something by which no bank stands otherwise, and no latch moves.
    pub fn note(&mut self, what: What)
        requires room { 1 ≤ self.old.notes.spare }
        requires text { HasText what }
        requires still { (which : Bank) (s : Standing) → standing_after which what s ≡ s }
        requires still_latch { (which : Bank) (latch : Bool) → latch_after which what latch ≡ latch }
        ensures noted { self.new ≡ with_note what self.old }
    {
        self.board.push(what);
    }

    /// Gives the store power.
    pub fn power_store(&mut self)
        ensures up { self.new ≡ with_state Nv (record self.old.nv { powered = true }) self.old }
    {
        self.board.nv.power_up();
    }

    /// Holds the bank, which is in work from here on. Its device and the store get power.
    pub fn hold(self, bank: Bank) -> Desk<F>
        requires room { 1 ≤ self.notes.spare }
        ensures bank { result.bank ≡ bank }
        ensures other { standing_by result.other ≡ standing_of (other_bank bank) self.notes.list }
        ensures ran { Ran (Says (Held bank) ∷ []) self result.world }
        ensures notes { AddsNotes 1 self.notes result.world.notes }
        ensures awake { IsAwake bank result.world }
    {
        let counts = self.counts();
        let Sides {
            bank,
            mine,
            other,
            mut board,
        } = self.sides(bank);
        board.nv.power_up();
        board.push(What::Held { bank, counts });
        Desk {
            bank,
            held: mine.hold(),
            other,
            board,
        }
    }

    /// Locks the bank.
    pub fn lock(self, bank: Bank, why: LockWhy) -> Inner<F>
        requires room { 1 ≤ self.notes.spare }
        requires text { HasLockText why }
        requires on { self.nv.powered ≡ true }
        ensures ran { Ran (Says (Locked bank why) ∷ []) self result }
        ensures notes { AddsNotes 1 self.notes result.notes }
        ensures on { result.nv.powered ≡ true }
    {
        let counts = self.counts();
        let Sides {
            bank,
            mine,
            other,
            mut board,
        } = self.sides(bank);
        board.push(What::Locked { bank, why, counts });
        Sides {
            bank,
            mine: Seat::Locked(mine.hold().lock()),
            other,
            board,
        }
        .inner()
    }

    /// Notes that the power went, with the device that lost it if one did, and takes it from every device.
    pub fn lose(self, device: Option<Device>) -> Inner<F>
        requires room { 1 ≤ self.notes.spare }
        ensures ran { Ran (Says (Lost device) ∷ []) self result }
        ensures dark { IsDark result }
        ensures notes { AddsNotes 1 self.notes result.notes }
    {
        self.sides(Bank::Bmc).lose(device)
    }
}
