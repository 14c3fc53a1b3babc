// What a platform is provisioned with.
ghost use Rattle.std.specs.Prelude.{◌≡◌, ◌+◌, ◌≤◌, length};
ghost use Rattle.byteorder.specs.Endian.{little_bytes};
ghost use Rattle.pfr_fuses.specs.RootSlot.{HasFields, IsSlot, layout_at, layout_bytes, slot_bytes, slot_of, layout_of};

use crate::filling::put;
use byteorder::{ByteOrder, LittleEndian};
use pfr_flash::{Bank, Layout, array_at, number_at};

/// The hash of the root key, and the layouts of both banks.
#[derive(Clone, Copy, Debug, PartialEq, Eq)]
pub struct RootSlot {
    /// The SHA-256 hash of the root key.
    pub root: [u8; 32],
    /// The layout of the BMC's bank.
    pub bmc: Layout,
    /// The layout of the PCH's bank.
    pub pch: Layout,
}

// the layout whose five numbers stand at a place
#[tactic(auto, unfolding(crate::specs::RootSlot::layout_at))]
fn layout_at(bytes: &[u8], at: usize) -> Layout
    requires { at + 20 ≤ length bytes.now }
    ensures { result ≡ layout_at bytes.now at }
{
    Layout {
        manifest_at: number_at(bytes, at),
        manifest_len: number_at(bytes, at + 4),
        recovery_at: number_at(bytes, at + 8),
        staging_at: number_at(bytes, at + 12),
        area_len: number_at(bytes, at + 16),
    }
}

// a number in four bytes, the lowest first
fn number_bytes(number: u32) -> [u8; 4]
    ensures { result ≡ little_bytes 4 number }
{
    let mut bytes = [0; 4];
    LittleEndian::write_u32(&mut bytes, number);
    bytes
}

// the layout's five numbers
fn put_layout(bytes: &mut [u8], layout: &Layout)
    requires { length bytes.old ≡ 20 }
    ensures bytes { bytes.new ≡ layout_bytes layout.now }
    ensures fields { HasFields layout.now }
{
    put(bytes, 0, &number_bytes(layout.manifest_at));
    put(bytes, 4, &number_bytes(layout.manifest_len));
    put(bytes, 8, &number_bytes(layout.recovery_at));
    put(bytes, 12, &number_bytes(layout.staging_at));
    put(bytes, 16, &number_bytes(layout.area_len));
}

fn layout_bytes(layout: &Layout) -> [u8; 20]
    ensures bytes { result ≡ layout_bytes layout.now }
    ensures fields { HasFields layout.now }
{
    let mut bytes = [0; 20];
    put_layout(&mut bytes, layout);
    bytes
}

impl RootSlot {
    /// What the bytes of a provision slot before its gate say: the root's 32 bytes, then the
    /// layouts of the BMC's and the PCH's bank, each as five little-endian numbers in the order
    /// of `Layout`.
    #[tactic(auto, unfolding(crate::specs::RootSlot::slot_of))]
    pub fn from_slot(bytes: &[u8; 72]) -> RootSlot
        ensures { result ≡ slot_of bytes.now }
    {
        RootSlot {
            root: array_at::<32>(bytes, 0),
            bmc: layout_at(bytes, 32),
            pch: layout_at(bytes, 52),
        }
    }

    // the root's hash and both layouts
    fn put(&self, bytes: &mut [u8])
        requires { length bytes.old ≡ 72 }
        ensures bytes { bytes.new ≡ slot_bytes self.now }
        ensures slot { IsSlot self.now }
    {
        put(bytes, 0, &self.root);
        put(bytes, 32, &layout_bytes(&self.bmc));
        put(bytes, 52, &layout_bytes(&self.pch));
    }

    /// The bytes of a provision slot before its gate, as `from_slot` reads them.
    pub fn to_slot(&self) -> [u8; 72]
        ensures bytes { result ≡ slot_bytes self.now }
        ensures slot { IsSlot self.now }
    {
        let mut bytes = [0; 72];
        self.put(&mut bytes);
        bytes
    }

    /// Says that this is what a slot holds. It does nothing.
    pub fn known(&self)
        ensures { IsSlot self.now }
    {
        let _ = self.to_slot();
    }

    /// The layout of this bank, as it is provisioned; whether it fits the bank is not judged here.
    pub fn layout(&self, bank: Bank) -> &Layout
        ensures { result.now ≡ layout_of self.now bank }
    {
        match bank {
            Bank::Bmc => &self.bmc,
            Bank::Pch => &self.pch,
        }
    }
}
