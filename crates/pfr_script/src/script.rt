// A script: its items, and the tears that they name.
ghost use Rattle.std.specs.Prelude.{◌≡◌, ◌+◌, ◌<◌, ◌≤◌, [], true, length, slice_index_or, vec_len, vec_capacity, OnOk, OnErr, IfOk};
ghost use Rattle.pfr_script.specs.Arms.{FewItems, KnownArms, FewArms, FirstEmpty};
ghost use Rattle.pfr_script.specs.Slots.{KnownSlots};
ghost use Rattle.pfr_script.specs.Growing.{no_items, with_item, may_arm, tear_number, with_tear, with_arm};
ghost use Rattle.pfr_script.specs.declared.item.Item.TheVariants as items;

use crate::arm::{Arm, ArmWhat};
use crate::arm_counts::{ArmCounts, is_counted};
use crate::event::Event;
use crate::item::Item;
use crate::items::Items;
use pfr_flash::{Device, Tear};
use std::alloc::{AllocError, Global};
use std::marker::Model;

/// The items of a run and the tears that they name.
#[derive(Drop)]
pub struct Script {
    items: Items,
    tears: Vec<Tear>,
    // the cuts and faults among the items
    arms: ArmCounts,
}

impl Model for Script {
    ghost use Rattle.pfr_script.specs.ScriptState.{ScriptState};
    ghost use Rattle.pfr_script.specs.ScriptInside.{IsScript};

    ghost Value = { ScriptState };

    ghost view = { λ s. record { items = s.items; tears = s.tears.items } };

    ghost invariant = { IsScript };
}

// The number of a tear that comes behind these: without one it is that of the empty tear.
fn tear_number(tears: &[Tear], tear: &Option<Tear>) -> u32
    requires { length tears.now < 4294967296 }
    ensures { result ≡ tear_number (length tears.now) tear.now }
{
    match tear {
        None => 0,
        Some(_) => tears.len() as u32,
    }
}

// Room for one more.
fn reserve(tears: &mut Vec<Tear>) -> Result<(), AllocError>
    ensures room { OnOk result (vec_len tears.new < vec_capacity tears.new) }
    ensures same { tears.new.items ≡ tears.old.items }
{
    tears.reserve(1)?;
    Ok(())
}

// A push where there is room, which asks for no memory.
fn keep(tears: &mut Vec<Tear>, tear: Option<Tear>)
    requires { vec_len tears.old < vec_capacity tears.old }
    ensures { tears.new.items ≡ with_tear tears.old.items tear }
{
    if let Some(tear) = tear {
        let _ = tears.push(tear);
    }
}

impl Script {
    /// A script without items.
    pub(crate) fn new(alloc: Global) -> Result<Script, AllocError>
        ensures { IfOk result (λ script. script ≡ no_items) }
    {
        let mut tears = Vec::new(alloc);
        tears.push(Tear::new(&[]))?;
        Ok(Script {
            items: Items::new(alloc),
            tears,
            arms: ArmCounts {
                bmc: 0,
                pch: 0,
                nv: 0,
            },
        })
    }

    /// Appends an event.
    pub(crate) fn push_event(&mut self, event: Event) -> Result<(), AllocError>
        requires { length self.old.items < 65536 }
        ensures ok { OnOk result (self.new ≡ with_item self.old (items.Event event)) }
        ensures err { OnErr result (self.new ≡ self.old) }
    {
        event.known();
        self.items.push(Item::Event(event))?;
        Ok(())
    }

    /// Whether one more may be armed in the device: it has 256 cuts and faults at most.
    pub(crate) fn may_arm(&self, device: Device, what: ArmWhat) -> bool
        ensures { result ≡ may_arm self.now device what }
    {
        !is_counted(what) || self.arms.count(device) < 256
    }

    /// Appends an arm, and its tear, if it has one.
    pub(crate) fn push_arm(
        &mut self,
        device: Device,
        what: ArmWhat,
        nth: u32,
        tear: Option<Tear>,
    ) -> Result<(), AllocError>
        requires few { length self.old.items < 65536 }
        requires nth { 1 ≤ nth }
        requires arms { may_arm self.old device what ≡ true }
        ensures ok { OnOk result (self.new ≡ with_arm self.old device what nth tear) }
        ensures err { OnErr result (self.new ≡ self.old) }
    {
        reserve(&mut self.tears)?;
        let number = tear_number(&self.tears, &tear);
        self.items.push(Item::Arm(Arm {
            device,
            what,
            nth,
            tear: number,
        }))?;
        keep(&mut self.tears, tear);
        self.arms.add(device, what);
        Ok(())
    }

    /// How many items there are.
    pub(crate) fn len(&self) -> u32
        ensures { result ≡ length self.now.items }
    {
        self.items.len()
    }

    /// The items, in order.
    pub fn items(&self) -> &Items
        ensures items { result.now ≡ self.now.items }
        ensures few { FewItems self.now.items }
        ensures known { KnownArms (length self.now.tears) self.now.items }
        ensures slots { KnownSlots self.now.items }
        ensures arms { FewArms self.now.items }
    {
        &self.items
    }

    /// The tear of this number. The first, of number 0, is empty.
    pub fn tear(&self, k: u32) -> &Tear
        requires { k < length self.now.tears }
        ensures tear { result.now ≡ slice_index_or self.now.tears k [] }
        ensures first { FirstEmpty self.now.tears }
    {
        &self.tears[k as usize]
    }
}
