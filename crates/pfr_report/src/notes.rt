// The notes so far, with room for more.
ghost use Rattle.std.specs.Prelude.{◌≡◌, ◌+◌, ◌-◌, ◌<◌, ◌≤◌, [], ◌∷◌, ◌++◌, length, slice_index_or, vec_len, vec_capacity, OnOk};

use crate::note::Note;
use pfr_flash::NoMemory;
use std::alloc::Global;
use std::marker::Model;

/// The notes so far, oldest first, and for how many more memory is reserved.
#[derive(Drop)]
pub struct Notes {
    items: Vec<Note>,
    spare: u32,
}

impl Model for Notes {
    ghost use Rattle.pfr_report.specs.NotesState.{NotesState};

    ghost Value = { NotesState };

    ghost use Rattle.pfr_report.specs.NotesInside.{IsNotes};

    ghost view = { λ n. record { list = n.items.items; spare = n.spare } };

    ghost invariant = { IsNotes };
}

// Room for so many more.
fn reserve(items: &mut Vec<Note>, count: u32) -> Result<(), NoMemory>
    ensures ok { OnOk result (vec_len items.old + count ≤ vec_capacity items.new) }
    ensures err { vec_capacity items.old ≤ vec_capacity items.new }
    ensures same { items.new.items ≡ items.old.items }
{
    items.reserve(count as usize)?;
    Ok(())
}

// A push where there is room, which asks for no memory.
fn push_within(items: &mut Vec<Note>, item: Note)
    requires { vec_len items.old < vec_capacity items.old }
    ensures items { items.new.items ≡ items.old.items ++ item ∷ [] }
    ensures room { vec_capacity items.old ≤ vec_capacity items.new }
{
    let _ = items.push(item);
}

impl Notes {
    /// No notes. This takes no memory.
    pub fn new(alloc: Global) -> Notes
        ensures { result ≡ record { list = []; spare = 0 } }
    {
        Notes {
            items: Vec::new(alloc),
            spare: 0,
        }
    }

    /// How many notes there are.
    pub fn len(&self) -> u32
        ensures { result ≡ length self.now.list }
    {
        self.items.len() as u32
    }

    /// The note of this number, counted from 0, the oldest.
    pub fn get(&self, k: u32) -> &Note
        requires { k < length self.now.list }
        ensures { result.now ≡ slice_index_or self.now.list k result.now }
    {
        &self.items[k as usize]
    }

    /// The notes, oldest first.
    pub fn as_slice(&self) -> &[Note]
        ensures { result.now ≡ self.now.list }
    {
        &self.items
    }

    /// Reserves memory for so many notes more.
    pub fn reserve(&mut self, count: u32) -> Result<(), NoMemory>
        requires { length self.old.list + count ≤ 4294967295 }
        ensures list { self.new.list ≡ self.old.list }
        ensures spare { OnOk result (count ≤ self.new.spare) }
        ensures kept { self.old.spare ≤ self.new.spare }
    {
        reserve(&mut self.items, count)?;
        self.spare = self.spare.max(count);
        Ok(())
    }

    /// Appends the note.
    pub fn push(&mut self, note: Note)
        requires { 0 < self.old.spare }
        ensures list { self.new.list ≡ self.old.list ++ note ∷ [] }
        ensures spare { self.new.spare ≡ self.old.spare - 1 }
    {
        push_within(&mut self.items, note);
        self.spare -= 1;
    }
}
