// A sink in memory.
ghost use Rattle.std.specs.Prelude.{◌≡◌, ◌≢◌, ℕ, ◌+◌, ◌-◌, ◌<◌, ◌≤◌, ◌⊎◌, ◌↔◌, ◌++◌, List, [], length, true, OnOk, OnErr, IfOk, IsErr, IsTrue};
ghost use Rattle.pfr_flash.specs.FlashState.{raised_by};
ghost use Rattle.pfr_shelf.specs.Pieces.{AppendsPart};

use crate::fault::SinkFail;
use crate::outside::Sink;
use pfr_flash::NoMemory;
use std::alloc::Global;
use std::marker::Model;

/// Output into memory that is reserved at the start. One call can be made to fail.
#[derive(Drop)]
pub struct MemSink {
    bytes: Vec<u8>,
    room: usize,
    // which call from now on fails, or 0
    due: u32,
    faults: u64,
}

impl Model for MemSink {
    ghost use Rattle.std.specs.Prelude.{◌≤◌, vec_len, vec_capacity};
    ghost use Rattle.pfr_shelf.specs.SinkState.{SinkState};

    ghost Value = { SinkState };

    ghost view = { λ s. record { written = s.bytes.items; room = s.room; due = s.due; faults = s.faults } };

    ghost invariant = { λ s. (vec_len s.bytes ≤ s.room) × (s.room ≤ vec_capacity s.bytes) };
}

impl MemSink {
    /// A sink with room for so many bytes, which are reserved.
    pub fn new(alloc: Global, room: u32) -> Result<MemSink, NoMemory>
        ensures { IfOk result (λ sink. sink ≡ record { written = []; room = room; due = 0; faults = 0 }) }
    {
        let room = room as usize;
        match Vec::with_capacity(alloc, room) {
            Ok(bytes) => Ok(MemSink {
                bytes,
                room,
                due: 0,
                faults: 0,
            }),
            Err(_) => Err(NoMemory),
        }
    }

    /// What was written.
    pub fn bytes(&self) -> &[u8]
        ensures { result.now ≡ self.now.written }
    {
        self.bytes.as_slice()
    }

    /// Lets the nth call of `write_all` from now on fail, in place of one that was to fail before.
    pub fn fail_call(&mut self, nth: u32)
        requires { 1 ≤ nth }
        ensures { self.new ≡ record self.old { due = nth } }
    {
        self.due = nth;
    }
}

impl Sink for MemSink {
    ghost tells = { true };

    ghost written = { λ s. s.written };

    ghost faults = { λ s. s.faults };

    fn write_all(&mut self, piece: &[u8]) -> Result<(), SinkFail>
        ensures ok { OnOk result (self.new ≡ record self.old { written = self.old.written ++ piece.now; due = self.old.due - 1 }) }

        // It faults at the call that was to fail, and where the piece passes the room, and nowhere else.
        ensures err { OnErr result (self.new ≡ record self.old { due = self.old.due - 1; faults = raised_by self.old.faults 1 }) }
        ensures part { OnErr result (AppendsPart self.old.written self.new.written piece.now) }
        ensures failed { IsErr result ↔ ((self.old.due ≡ 1) ⊎ (self.old.room < length self.old.written + length piece.now)) }
    {
        let failing = self.due == 1;
        self.due = self.due.saturating_sub(1);
        if failing || piece.len() > self.room - self.bytes.len() {
            self.faults = self.faults.saturating_add(1);
            return Err(SinkFail);
        }
        match self.bytes.extend_from_slice(piece) {
            Ok(()) => Ok(()),
            Err(_) => unreachable!(),
        }
    }
}
