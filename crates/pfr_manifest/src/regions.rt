// The regions of a manifest.
ghost use Rattle.std.specs.Cmp.Lexicographic.{lists_per, pointwise};
ghost use Rattle.pfr_manifest.specs.contracts.region.RegionPartialEq.TheImpl.Laws.{laws-law};
ghost use Rattle.std.specs.Prelude.{◌≡◌, ◌<◌, ◌≤◌, ◌==◌, [], ◌∷◌, ◌++◌, length, slice_index_or};
ghost use Rattle.pfr_manifest.specs.Regions.{last_start, last_end};

use crate::region::Region;
use arrayvec::ArrayVec;
use std::marker::Model;

/// At most 64 regions, seen as a list.
#[derive(Drop)]
pub struct Regions {
    items: ArrayVec<Region, 64>,
}

impl Model for Regions {
    ghost use Rattle.std.specs.Prelude.{List};
    ghost use Rattle.pfr_manifest.specs.declared.region.Region.{Region};

    ghost Value = { List Region };

    ghost view = { λ regions. regions.items.items };
}

impl PartialEq for Regions {
    ghost eq = { pointwise ⟦<Region as PartialEq>⟧.eq };

    ghost laws = { lists_per laws-law };

    fn eq(&self, other: &Regions) -> bool {
        self.items == other.items
    }
}

impl Regions {
    pub(crate) fn new() -> Regions
        ensures { result ≡ [] }
    {
        Regions {
            items: ArrayVec::new(),
        }
    }

    /// How many regions there are, at most 64.
    pub fn len(&self) -> u32
        ensures value { result ≡ length self.now }
        ensures few { result ≤ 64 }
    {
        self.items.len() as u32
    }

    /// Whether there is no region.
    pub fn is_empty(&self) -> bool
        ensures { result ≡ (length self.now == 0) }
    {
        self.items.is_empty()
    }

    /// The region of this number, counted from 0 in the manifest's order.
    pub fn get(&self, k: u32) -> &Region
        requires { k < length self.now }
        ensures { result.now ≡ slice_index_or self.now k result.now }
    {
        &self.items[k as usize]
    }

    pub(crate) fn push(&mut self, region: Region)
        requires { length self.old < 64 }
        ensures { self.new ≡ self.old ++ region ∷ [] }
    {
        self.items.push(region);
    }

    /// Where the last region begins: at 0 where there is none.
    pub(crate) fn last_start(&self) -> u32
        ensures { result ≡ last_start self.now }
    {
        match self.items.last() {
            Some(region) => region.start,
            None => 0,
        }
    }

    /// Where the last region ends: at 0 where there is none.
    pub(crate) fn last_end(&self) -> u32
        ensures { result ≡ last_end self.now }
    {
        match self.items.last() {
            Some(region) => region.end,
            None => 0,
        }
    }
}
