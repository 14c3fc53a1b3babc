// The items of a script, in order.
ghost use Rattle.std.specs.Prelude.{◌≡◌, ◌<◌, [], ◌∷◌, ◌++◌, length, slice_index_or, OnOk, OnErr};

use crate::item::Item;
use std::alloc::{AllocError, Global};
use std::marker::Model;

/// The items of a script in order, at most 65,536, seen as a list.
#[derive(Drop)]
pub struct Items {
    items: Vec<Item>,
}

impl Model for Items {
    ghost use Rattle.std.specs.Prelude.{List};
    ghost use Rattle.pfr_script.specs.declared.item.Item.{Item};
    ghost use Rattle.pfr_script.specs.Arms.{FewItems};

    ghost Value = { List Item };

    ghost view = { λ i. i.items.items };

    ghost invariant = { λ i. FewItems i.items.items };
}

impl Items {
    /// No items. This takes no memory.
    pub(crate) fn new(alloc: Global) -> Items
        ensures { result ≡ [] }
    {
        Items {
            items: Vec::new(alloc),
        }
    }

    /// Appends the item.
    pub(crate) fn push(&mut self, item: Item) -> Result<(), AllocError>
        requires { length self.old < 65536 }
        ensures ok { OnOk result (self.new ≡ self.old ++ item ∷ []) }
        ensures err { OnErr result (self.new ≡ self.old) }
    {
        self.items.push(item)?;
        Ok(())
    }

    /// How many items there are.
    pub fn len(&self) -> u32
        ensures { result ≡ length self.now }
    {
        self.items.len() as u32
    }

    /// The item of this number, counted from 0.
    pub fn get(&self, k: u32) -> &Item
        requires { k < length self.now }
        ensures { result.now ≡ slice_index_or self.now k result.now }
    {
        &self.items[k as usize]
    }
}
