// The search of a table by halves. It stands apart from the table, so that it sees no stretch but by `probe`.
ghost use Rattle.std.specs.Prelude.{◌≡◌, ◌&&◌, ℕ, ◌+◌, ◌*◌, ◌<◌, ◌≤◌, nat_lt, length, slice_index_or};
ghost use Rattle.std.specs.List.{list_any};
ghost use Rattle.pfr_manifest.specs.Stretches.{lets_write};
ghost use Rattle.pfr_manifest.specs.declared.stretch.Stretch.{Stretch};

use crate::region_table::RegionTable;
use crate::steps::Steps;
use std::sync::ledger::Ledger;

impl RegionTable {
    /// The number of the first stretch that ends behind a place: as many as there are, where none does. It looks at
    /// one stretch after the other, each time in the middle of those that are left, and so at 7 of 64.
    pub fn first_behind<L: Ledger>(&self, at: u32, steps: &mut Steps<L>) -> u32
        ensures within { result ≤ length self.now }
        ensures below { (k : ℕ) (d : Stretch) → k < result → (slice_index_or self.now k d).end ≤ at }
        ensures behind { (k : ℕ) (d : Stretch) → result ≤ k → k < length self.now → at < (slice_index_or self.now k d).end }
        // Where a page begins there, that stretch tells whether one of them lets the bus write it.
        ensures page { (page : ℕ) (d : Stretch) → 4096 * page ≡ at →
            list_any (lets_write page) self.now ≡ (nat_lt result (length self.now) && lets_write page (slice_index_or self.now result d)) }
        ensures cost { steps.new ≤ steps.old + 7 }
    {
        let mut low = 0;
        let mut high = self.len();
        'halves: while low < high {
            let middle = low + (high - low) / 2;
            if self.probe(middle, steps).end <= at {
                low = middle + 1;
            } else {
                high = middle;
            }
        }
        low
    }
}
