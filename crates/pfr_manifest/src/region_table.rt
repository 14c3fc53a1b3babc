// The stretches that the filter of the bus looks up.
ghost use Rattle.std.specs.Prelude.{◌≡◌, ◌==◌, ◌&&◌, ℕ, ◌+◌, ◌*◌, ◌<◌, ◌≤◌, nat_lt, length, slice_index_or};
ghost use Rattle.std.specs.Bool.{Decides};
ghost use Rattle.std.specs.List.{list_any};
ghost use Rattle.pfr_flash.specs.declared.layout.Layout.{Layout};
ghost use Rattle.pfr_manifest.specs.Access.{IsWritable};
ghost use Rattle.pfr_manifest.specs.Stretches.{stretches_of, IsTable, lets_write, writable_by};
ghost use Rattle.pfr_manifest.specs.declared.stretch.Stretch.{Stretch};

use crate::manifest::Manifest;
use crate::steps::Steps;
use crate::stretch::Stretch;
use arrayvec::ArrayVec;
use std::marker::Model;
use std::sync::ledger::Ledger;

/// The stretches of a bank that its manifest's regions are, in order and at most 64, seen as a list.
///
/// Only `probe` shows one of them, and it counts that.
#[derive(Drop)]
pub struct RegionTable {
    items: ArrayVec<Stretch, 64>,
}

impl Model for RegionTable {
    ghost use Rattle.std.specs.Prelude.{List};
    ghost use Rattle.pfr_manifest.specs.Stretches.{IsTable};
    ghost use Rattle.pfr_manifest.specs.declared.stretch.Stretch.{Stretch};

    ghost Value = { List Stretch };

    ghost view = { λ table. table.items.items };

    ghost invariant = { λ table. IsTable table.items.items };
}

impl RegionTable {
    /// The stretches of a manifest's regions, which are whole pages, each behind the one before it.
    pub fn new(manifest: &Manifest) -> RegionTable
        requires { IsTable (stretches_of manifest.now) }
        ensures stretches { result ≡ stretches_of manifest.now }
        // They tell which pages the manifest lets the bus write.
        ensures writable { (layout : Layout) (page : ℕ) → Decides (writable_by result layout page) (IsWritable manifest.now layout page) }
    {
        let mut items = ArrayVec::<Stretch, 64>::new();
        for k in 0..manifest.regions.len() {
            items.push(manifest.regions.get(k).stretch());
        }
        RegionTable { items }
    }

    /// How many stretches there are, at most 64.
    pub fn len(&self) -> u32
        ensures value { result ≡ length self.now }
        ensures table { IsTable self.now }
    {
        self.items.len() as u32
    }

    /// Whether there is no stretch.
    pub fn is_empty(&self) -> bool
        ensures { result ≡ (length self.now == 0) }
    {
        self.items.is_empty()
    }

    /// The stretch of this number, counted from 0: one step.
    pub fn probe<L: Ledger>(&self, k: u32, steps: &mut Steps<L>) -> Stretch
        requires { k < length self.now }
        ensures stretch { result ≡ slice_index_or self.now k result }
        ensures one { steps.new ≡ steps.old + 1 }
    {
        steps.tick();
        self.items[k as usize]
    }
}
