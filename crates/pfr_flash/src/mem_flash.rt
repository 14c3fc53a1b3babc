// A flash in memory, which can be armed.
ghost use Rattle.std.specs.Prelude.{◌≡◌, ◌+◌, ◌*◌, ◌/◌, ◌-◌, ◌<◌, ◌≤◌, ◌↔◌, ◌==◌, true, false, [], ◌∷◌, ◌++◌, length, IfOk, OnOk, OnErr, Err, Some, if◌then◌else◌};
ghost use Rattle.pfr_flash.specs.Bytes.{bytes_at};
ghost use Rattle.pfr_flash.specs.Operation.{Erase, Program};
ghost use Rattle.pfr_flash.specs.FlashState.{now, size_of, op_count_of};
ghost use Rattle.pfr_flash.specs.Flash.{Does, IsInPage, Reads, with_cut, with_fault};
ghost use Rattle.pfr_flash.specs.Cells.{cells_now, CellsState};
ghost use Rattle.pfr_flash.specs.Holding.{HoldsBytes};
ghost use Rattle.pfr_flash.specs.Rig.{cells_after, device_of, IsFree, IsKnownOutcome};
ghost use Rattle.pfr_flash.specs.MemFlash.{new_device, IsDeviceLen};

use crate::bytes_of::copy_from;
use crate::cells::Cells;
use crate::flash::{Flash, FlashFail};
use crate::no_memory::NoMemory;
use crate::rig::{Arm, Outcome, Rig, raised};
use crate::rigged::Rigged;
use crate::tear::Tear;
use std::alloc::Global;
use std::marker::Model;

/// A flash in memory.
#[derive(Drop)]
pub struct MemFlash {
    cells: Cells,
    rig: Rig,
    taken: u64,
    read_fault: u32,
    ghost bytes: { HoldsBytes (device_of cells rig taken read_fault) },
}

impl Model for MemFlash {
    ghost use Rattle.pfr_flash.specs.MemFlash.{MemState};

    ghost Value = { MemState };

    ghost use Rattle.pfr_flash.specs.MemFlashInside.{mem_of, IsMem};

    ghost view = { mem_of };

    ghost invariant = { IsMem };
}

impl MemFlash {
    /// A device of these bytes, that is off, with room for so many operations.
    pub fn new(alloc: Global, bytes: Vec<u8>, room: u32) -> Result<MemFlash, NoMemory>
        requires { IsDeviceLen (length bytes.items) }
        ensures device { IfOk result (λ flash. flash.device ≡ new_device bytes.items room) }
        ensures read_fault { IfOk result (λ flash. flash.read_fault ≡ 0) }
    {
        let cells = Cells::new(alloc, bytes, room)?;
        Ok(MemFlash {
            cells,
            rig: Rig {
                powered: false,
                faults: 0,
                losses: 0,
                cut: None,
                fault: None,
            },
            taken: 0,
            read_fault: 0,
        })
    }

    /// The bytes as they are.
    pub fn bytes(&self) -> &[u8]
        ensures { result.now ≡ now self.now.device }
    {
        self.cells.bytes()
    }

    /// The bytes as they are, without a copy.
    pub fn into_bytes(self) -> Vec<u8>
        ensures { result.items ≡ now self.device }
    {
        self.cells.into_bytes()
    }
}

// an erase that ends so
fn erase_at(cells: &mut Cells, sector: u32, outcome: Outcome)
    requires within { 4096 * sector + 4096 ≤ length cells.old.start }
    requires room { IsFree outcome → length cells.old.ops < cells.old.room }
    requires known { IsKnownOutcome (length cells.old.tears) outcome }
    ensures { cells.new ≡ cells_after (Erase sector) cells.old outcome }
{
    match outcome {
        Outcome::Off => {}
        Outcome::Full => {}
        Outcome::Cut(tear) => cells.tear_erase(sector, tear),
        Outcome::Broken(tear) => cells.tear_erase(sector, tear),
        Outcome::Done => cells.erase(sector),
    }
}

// a program that ends so
fn program_at(cells: &mut Cells, at: u32, bytes: &[u8], outcome: Outcome)
    requires page { length bytes.now ≤ 256 }
    requires within { at + length bytes.now ≤ length cells.old.start }
    requires room { IsFree outcome → length cells.old.ops < cells.old.room }
    requires known { IsKnownOutcome (length cells.old.tears) outcome }
    ensures { cells.new ≡ cells_after (Program at bytes.now) cells.old outcome }
{
    match outcome {
        Outcome::Off => {}
        Outcome::Full => {}
        Outcome::Cut(tear) => cells.tear_program(at, bytes, tear),
        Outcome::Broken(tear) => cells.tear_program(at, bytes, tear),
        Outcome::Done => cells.program(at, bytes),
    }
}

impl Flash for MemFlash {
    ghost device = { λ m. m.device };

    ghost holds_bytes = { λ m. m.bytes };

    fn size(&self) -> u32 {
        self.cells.size()
    }

    fn powered(&self) -> bool {
        self.rig.powered
    }

    fn op_count(&self) -> u32 {
        self.cells.op_count()
    }

    fn power_up(&mut self)
        ensures device { self.new.device ≡ record self.old.device { powered = true } }
        ensures read_fault { self.new.read_fault ≡ self.old.read_fault }
    {
        self.rig.powered = true;
    }

    fn power_down(&mut self)
        ensures device { self.new.device ≡ record self.old.device { powered = false } }
        ensures read_fault { self.new.read_fault ≡ self.old.read_fault }
    {
        self.rig.powered = false;
    }

    fn read(&mut self, at: u32, into: &mut [u8]) -> Result<(), FlashFail>
        requires { at + length into.old ≤ size_of self.old.device }
        ensures bytes { OnOk result (into.new ≡ bytes_at (now self.old.device) at (length into.old)) }
        ensures reads { Reads (length into.old) self.old.device self.new.device result }

        // It faults exactly at the read that was armed.
        ensures fault { (result ≡ Err FlashFail.Fault) ↔ ((self.old.device.powered ≡ true) × (self.old.read_fault ≡ 1)) }
        ensures read_fault { self.new.read_fault ≡ (if self.old.device.powered then self.old.read_fault - 1 else self.old.read_fault) }
    {
        self.taken = raised(self.taken, into.len() as u64);
        if !self.rig.powered {
            return Err(FlashFail::Lost);
        }
        let before = self.read_fault;
        self.read_fault = before.saturating_sub(1);
        if before == 1 {
            self.rig.faults = raised(self.rig.faults, 1);
            return Err(FlashFail::Fault);
        }
        copy_from(into, self.cells.bytes(), at as usize);
        Ok(())
    }

    fn erase(&mut self, sector: u32) -> Result<(), FlashFail>
        requires { sector < size_of self.old.device / 4096 }
        ensures does { Does (Erase sector) self.old.device self.new.device result }
        ensures read_fault { self.new.read_fault ≡ self.old.read_fault }
    {
        let count = self.cells.op_count();
        let outcome = self.rig.outcome(count, self.cells.room());
        erase_at(&mut self.cells, sector, outcome);
        self.rig.finish(count as u64 + 1, outcome)
    }

    fn program(&mut self, at: u32, bytes: &[u8]) -> Result<(), FlashFail>
        requires page { IsInPage at (length bytes.now) }
        requires within { at + length bytes.now ≤ size_of self.old.device }
        ensures does { Does (Program at bytes.now) self.old.device self.new.device result }
        ensures read_fault { self.new.read_fault ≡ self.old.read_fault }
    {
        let count = self.cells.op_count();
        let outcome = self.rig.outcome(count, self.cells.room());
        program_at(&mut self.cells, at, bytes, outcome);
        self.rig.finish(count as u64 + 1, outcome)
    }
}

impl Rigged for MemFlash {
    fn arm_cut(&mut self, nth: u32, tear: &Tear)
        requires nth { 1 ≤ nth }
        requires arms { 0 < self.old.device.arms }
        ensures device { self.new.device ≡ with_cut self.old.device nth tear.now }
        ensures read_fault { self.new.read_fault ≡ self.old.read_fault }
    {
        let number = self.cells.op_count() as u64 + nth as u64;
        let place = self.cells.keep(tear);
        self.rig.cut = Some(Arm {
            number,
            tear: place,
        });
    }

    fn arm_fault(&mut self, nth: u32, tear: &Tear)
        requires nth { 1 ≤ nth }
        requires arms { 0 < self.old.device.arms }
        ensures device { self.new.device ≡ with_fault self.old.device nth tear.now }
        ensures read_fault { self.new.read_fault ≡ self.old.read_fault }
    {
        let number = self.cells.op_count() as u64 + nth as u64;
        let place = self.cells.keep(tear);
        self.rig.fault = Some(Arm {
            number,
            tear: place,
        });
    }

    fn arm_read_fault(&mut self, nth: u32)
        requires { 1 ≤ nth }
        ensures device { self.new.device ≡ record self.old.device { read_due = true } }
        ensures read_fault { self.new.read_fault ≡ nth }
    {
        self.read_fault = nth;
    }

    fn arms_left(&self) -> u32 {
        256 - self.cells.tear_count()
    }
}
