// The memory of a bank for what it is judged by.
ghost use Rattle.std.specs.Prelude.{◌≡◌, Some, None, IfOk};
ghost use Rattle.pfr_manifest.specs.Stretches.{IsTable, stretches_of};
ghost use Rattle.pfr_bank.specs.Keeping.{IsKept, kept_with, manifest_in};

use pfr_manifest::{Manifest, RegionTable};
use std::alloc::{AllocError, Global};
use std::marker::Model;

/// A manifest, and the table of the stretches that its regions are.
#[derive(Drop)]
pub struct Kept {
    pub(crate) manifest: Manifest,
    pub(crate) table: RegionTable,
}

/// Room for a manifest and its table, which a bank carries on through its states. It is taken once, and then no more.
#[derive(Drop)]
pub struct Room {
    kept: Box<Option<Kept>>,
}

impl Model for Room {
    ghost use Rattle.std.specs.Prelude.{Option};
    ghost use Rattle.pfr_bank.specs.declared.room.Kept.{Kept};

    ghost Value = { Option Kept };

    ghost view = { λ room. room.kept.value };
}

impl Room {
    /// Room that holds nothing yet.
    pub fn new(alloc: Global) -> Result<Room, AllocError>
        ensures { IfOk result (λ room. room ≡ None) }
    {
        let kept = Box::new(alloc, None)?;
        Ok(Room { kept })
    }

    /// Keeps a manifest, and makes its table.
    #[inline(never)]
    pub(crate) fn keep(&mut self, manifest: Manifest)
        requires { IsTable (stretches_of manifest) }
        ensures { self.new ≡ Some (kept_with manifest) }
    {
        let table = RegionTable::new(&manifest);
        *self.kept = Some(Kept { manifest, table });
    }

    /// The manifest that is kept.
    pub(crate) fn manifest(&self) -> &Manifest
        requires { IsKept self.now }
        ensures { result.now ≡ manifest_in self.now }
    {
        match &*self.kept {
            Some(kept) => &kept.manifest,
            None => unreachable!(),
        }
    }

    /// The table that is kept.
    pub(crate) fn table(&self) -> &RegionTable
        requires { IsKept self.now }
        ensures { result.now ≡ stretches_of (manifest_in self.now) }
    {
        match &*self.kept {
            Some(kept) => &kept.table,
            None => unreachable!(),
        }
    }
}
