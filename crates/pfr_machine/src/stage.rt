// How far a platform is: at its first step it takes the memory that its banks need.
ghost use Rattle.std.specs.Prelude.{◌≡◌, ◌*◌, ◌<◌, ◌≤◌, length, IfErr, IfOk, OnErr, OnOk};
ghost use Rattle.pfr_engine.specs.Acceptance.{Acceptance};
ghost use Rattle.pfr_story.specs.Turn.{next_item};
ghost use Rattle.pfr_machine.specs.Turning.{RestsSo, TurnsIf, TurnsSo};
ghost use Rattle.pfr_report.specs.Texts.{AllText};
ghost use Rattle.pfr_story.specs.Run.{armed, takes_arm};
ghost use Rattle.pfr_story.specs.Standing.{standing_by, standing_of};
ghost use Rattle.pfr_story.specs.World.{AreDevices, state_at};
ghost use Rattle.pfr_machine.specs.Inside.{AreLit, HasSizes, IsWhole};
ghost use Rattle.pfr_machine.specs.Stages.{IsHere, IsReady, world_in};

use crate::arming::arm_device;
use crate::board::Board;
use crate::inner::Inner;
use crate::seat::Seat;
use pfr_bank::{Off, Room};
use pfr_chain::Engine;
use pfr_flash::{Bank, Device, Flash, NoMemory, Rigged, Tear};
use pfr_script::{Arm, Event};
use pfr_story::Line;
use std::alloc::{AllocError, Global};
use std::marker::Model;
use std::mem;

/// A platform that took no step yet.
#[derive(Drop)]
pub struct Fresh<F: Flash> {
    pub bmc: F,
    pub pch: F,
    pub board: Board<F>,
    pub alloc: Global,
}

impl<F: Flash> Model for Fresh<F> {
    ghost use Rattle.std.specs.Prelude.{false};
    ghost use Rattle.pfr_flash.specs.declared.names.Bank.TheVariants.{Bmc, Pch};
    ghost use Rattle.pfr_machine.specs.Inside.{AreSeated};
    ghost use Rattle.pfr_machine.specs.Worlds.{sits_off, latches_by, world_with};
    ghost use Rattle.pfr_story.specs.World.{World};

    ghost Value = { World };

    ghost view = { λ p. world_with (F.device p.bmc) (F.device p.pch) (F.device p.board.nv) (latches_by Bmc false false) p.board };

    ghost invariant = { λ p. AreSeated (sits_off Bmc) (sits_off Pch)
        (world_with (F.device p.bmc) (F.device p.pch) (F.device p.board.nv) (latches_by Bmc false false) p.board) };
}

/// A platform before its first step, behind it, or away while one is done.
#[derive(Drop)]
pub enum Stage<F: Flash> {
    Fresh(Fresh<F>),
    Ready(Inner<F>),
    Away,
}

// Room for both banks.
fn rooms(alloc: Global) -> Result<(Room, Room), AllocError> {
    let bmc = Room::new(alloc)?;
    let pch = Room::new(alloc)?;
    Ok((bmc, pch))
}

impl<F: Flash> Fresh<F> {
    // Takes the memory that the banks need. After want of memory nothing was done.
    fn ready(self) -> Result<Inner<F>, Fresh<F>>
        ensures ok { IfOk result (λ inner. inner ≡ self) }
        ensures err { IfErr result (λ fresh. fresh ≡ self) }
    {
        match rooms(self.alloc) {
            Ok((bmc_room, pch_room)) => {
                let Fresh {
                    bmc,
                    pch,
                    board,
                    alloc: _,
                } = self;
                Ok(Inner {
                    bmc: Seat::Off(Off::new(bmc, Bank::Bmc, bmc_room)),
                    pch: Seat::Off(Off::new(pch, Bank::Pch, pch_room)),
                    board,
                })
            }
            Err(_) => Err(self),
        }
    }
}

impl<F: Flash> Fresh<F> {
    /// What holds of every platform. This does nothing.
    pub fn known(&self)
        ensures bytes { AreDevices self.now }
        ensures texts { AllText self.now.notes.list }
        ensures sizes { HasSizes self.now }
        ensures lit { AreLit self.now }
    {
        let _ = &self.bmc;
    }

    /// How the bank stands.
    pub fn line(&self, _bank: Bank) -> Line
        ensures { standing_by result ≡ standing_of _bank self.now.notes.list }
    {
        let _ = &self.bmc;
        Line::Off
    }
}

impl<F: Rigged> Fresh<F> {
    /// Arms a failure of a device, with this tear where it is a cut or a fault. It is an item of its own.
    pub fn arm(&mut self, arm: &Arm, tear: &Tear)
        requires some { 1 ≤ arm.now.nth }
        requires arms { takes_arm arm.now.what ≤ (state_at arm.now.device self.old).arms }
        requires items { self.old.item < 67108863 }
        ensures { self.new ≡ armed arm.now tear.now self.old }
    {
        match arm.device {
            Device::Bmc => arm_device(&mut self.bmc, arm, tear),
            Device::Pch => arm_device(&mut self.pch, arm, tear),
            Device::Nv => arm_device(&mut self.board.nv, arm, tear),
        }
        self.board.item += 1;
    }
}

impl<F: Flash> Stage<F> {
    // Takes the memory that the banks need, where that wasn't done yet. After want of memory nothing was done.
    #[inline(never)]
    fn ready(&mut self) -> Result<(), NoMemory>
        requires here { IsHere self.old }
        ensures ok { OnOk result (IsReady self.new) }
        ensures here { OnErr result (IsHere self.new) }
        ensures same { world_in self.new ≡ world_in self.old }
    {
        if let Stage::Ready(_) = self {
            return Ok(());
        }
        match mem::replace(self, Stage::Away) {
            Stage::Fresh(fresh) => match fresh.ready() {
                Ok(inner) => {
                    *self = Stage::Ready(inner);
                    Ok(())
                }
                Err(fresh) => {
                    *self = Stage::Fresh(fresh);
                    Err(NoMemory)
                }
            },
            Stage::Ready(_) | Stage::Away => unreachable!(),
        }
    }

    /// Begins the next item, with memory for its notes. After want of memory nothing was done.
    pub fn begin(&mut self) -> Result<(), NoMemory>
        requires here { IsHere self.old }
        requires few { let old = world_in self.old in length old.notes.list ≤ 64 * old.item }
        requires items { (world_in self.old).item < 67108863 }
        ensures ready { OnOk result (IsReady self.new) }
        ensures here { IsHere self.new }
        ensures list { (world_in self.new).notes.list ≡ (world_in self.old).notes.list }
        ensures spare { OnOk result (64 ≤ (world_in self.new).notes.spare) }
        ensures begun { OnOk result (world_in self.new ≡ record (next_item (world_in self.old)) { notes = (world_in self.new).notes }) }
        ensures err { OnErr result (world_in self.new ≡ record (world_in self.old) { notes = (world_in self.new).notes }) }
    {
        self.ready()?;
        match self {
            Stage::Ready(inner) => inner.begin(),
            Stage::Fresh(_) | Stage::Away => unreachable!(),
        }
    }

    /// What holds of every platform. This does nothing.
    pub fn known(&self)
        requires here { IsHere self.now }
        ensures bytes { AreDevices (world_in self.now) }
        ensures texts { AllText (world_in self.now).notes.list }
        ensures sizes { HasSizes (world_in self.now) }
        ensures lit { AreLit (world_in self.now) }
    {
        match self {
            Stage::Fresh(fresh) => fresh.known(),
            Stage::Ready(inner) => inner.known(),
            Stage::Away => unreachable!(),
        }
    }

    // Does an event by which no bank comes into work, and answers true; else does nothing.
    fn pass_by(&mut self, event: &Event) -> bool
        requires ready { IsReady self.old }
        requires room { 64 ≤ (world_in self.old).notes.spare }
        requires whole { IsWhole (world_in self.old) }
        ensures turns { (accepts : Acceptance) → TurnsIf result accepts event.now (world_in self.old) (world_in self.new) }
        ensures ready { IsReady self.new }
    {
        match self {
            Stage::Ready(inner) => inner.pass_by(event),
            Stage::Fresh(_) | Stage::Away => unreachable!(),
        }
    }

    // Does an event with all that the platform is.
    #[inline(never)]
    fn turn_over<E: Engine>(&mut self, event: &Event, engine: &E)
        requires ready { IsReady self.old }
        requires room { 64 ≤ (world_in self.old).notes.spare }
        requires rests { RestsSo (E.accepts engine.now) (world_in self.old) }
        ensures turns { TurnsSo (E.accepts engine.now) event.now (world_in self.old) (world_in self.new) }
        ensures ready { IsReady self.new }
    {
        match mem::replace(self, Stage::Away) {
            Stage::Ready(inner) => *self = Stage::Ready(inner.turn(event, engine)),
            Stage::Fresh(_) | Stage::Away => unreachable!(),
        }
    }

    /// Does an event, as the banks stand.
    pub fn turn<E: Engine>(&mut self, event: &Event, engine: &E)
        requires ready { IsReady self.old }
        requires room { 64 ≤ (world_in self.old).notes.spare }
        requires rests { RestsSo (E.accepts engine.now) (world_in self.old) }
        ensures turns { TurnsSo (E.accepts engine.now) event.now (world_in self.old) (world_in self.new) }
        ensures ready { IsReady self.new }
    {
        if !self.pass_by(event) {
            self.turn_over(event, engine);
        }
    }
}
