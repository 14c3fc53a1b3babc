// What both banks share: the store, the notes, and what is counted.
ghost use Rattle.std.specs.Prelude.{◌≡◌, ◌≤◌};
ghost use Rattle.pfr_machine.specs.Worlds.{pushed};

use pfr_flash::Flash;
use pfr_report::{Note, Notes, What};
use pfr_story::Watches;

/// The store, the notes so far, the number of the item that is being done, and what watches over the boots of the banks.
#[derive(Drop)]
pub struct Board<F: Flash> {
    pub nv: F,
    pub notes: Notes,
    pub item: u32,
    pub watches: Watches,
}

impl<F: Flash> Board<F> {
    /// Appends a note of the item that is being done, which moves the watches.
    pub fn push(&mut self, what: What)
        requires room { 1 ≤ self.old.notes.spare }
        ensures noted { self.new ≡ pushed what self.old }
    {
        let item = self.item;
        self.watches.note(&what);
        self.notes.push(Note { item, what });
    }
}
