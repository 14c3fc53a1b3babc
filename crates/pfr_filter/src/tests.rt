// What some frames come to in a bank with a manifest.
ghost use Rattle.std.specs.Prelude.{◌≡◌, ◌+◌, ◌<◌, ◌≤◌, length};
ghost use Rattle.pfr_flash.specs.FlashState.{size_of};
ghost use Rattle.pfr_flash.specs.Layout.{IsValidLayout};

use crate::{BlockCause, BusOp, Verdict, judge_counted};
use pfr_flash::{Flash, Layout, MemFlash};
use pfr_manifest::{Manifest, RegionTable, Steps};
use std::marker::Brand;
use std::process::Abort;
use std::sync::ledger::{Blank, Ledger};
use std::test::Fail;

// How many bytes the bank has.
const SIZE: u32 = 0x10_0000;

// A manifest: a static region from 0x10000 up to 0x20000, and two that the bus may write, from there up to 0x22000 and up to
// 0x28000. Behind these bytes it is 0xFF, up to 256 bytes.
const MANIFEST: [u8; 152] = [
    0x1d, 0xce, 0xb3, 0x02, 0x03, 0x01, 0x01, 0x00, 0x00, 0x00, 0x00, 0x00, 0x00, 0x00, 0x00, 0x00,
    0x00, 0x00, 0x00, 0x00, 0x00, 0x00, 0x00, 0x00, 0x00, 0x00, 0x00, 0x00, 0x00, 0x01, 0x00, 0x00,
    0x01, 0x01, 0x01, 0x00, 0x00, 0x00, 0x00, 0x00, 0x00, 0x00, 0x01, 0x00, 0x00, 0x00, 0x02, 0x00,
    0xfe, 0x89, 0xf1, 0x08, 0xb4, 0x02, 0x8d, 0xc3, 0x60, 0xcb, 0xe6, 0x9c, 0xe0, 0xcc, 0xbe, 0x4d,
    0x9b, 0xc8, 0xaf, 0x01, 0x23, 0xf7, 0x31, 0x30, 0x4b, 0x77, 0x32, 0x7f, 0xd4, 0x95, 0xa1, 0xf6,
    0x01, 0x0b, 0x00, 0x00, 0x00, 0x00, 0x00, 0x00, 0x00, 0x00, 0x02, 0x00, 0x00, 0x20, 0x02, 0x00,
    0x01, 0x0b, 0x00, 0x00, 0x00, 0x00, 0x00, 0x00, 0x00, 0x20, 0x02, 0x00, 0x00, 0x80, 0x02, 0x00,
    0x02, 0x00, 0x00, 0x00, 0x00, 0x01, 0x00, 0x2e, 0x00, 0x00, 0x01, 0x00, 0x01, 0x00, 0x00, 0x00,
    0x00, 0x00, 0x00, 0x00, 0x00, 0x00, 0x00, 0x00, 0x00, 0x00, 0x00, 0x00, 0x00, 0x00, 0x00, 0x00,
    0x00, 0x00, 0x00, 0x00, 0x00, 0x00, 0x00, 0x00,
];

const LAYOUT: Layout = Layout {
    manifest_at: 0,
    manifest_len: 0x2000,
    recovery_at: 0x4_0000,
    staging_at: 0x8_0000,
    area_len: 0x4_0000,
};

// Wants this verdict on a frame.
fn want<L: Ledger>(
    rt: &impl Abort,
    table: &RegionTable,
    frame: &[u8],
    latch: bool,
    wanted: &Verdict,
    steps: &mut Steps<L>,
) -> Result<(), Fail>
    requires some { 1 ≤ length frame.now }
    requires most { length frame.now ≤ 261 }
{
    let judged = judge_counted(frame, table, &LAYOUT, SIZE, latch, steps);
    assert!(rt; judged.verdict() == wanted, "{frame:?}");
    Ok(())
}

// Frames that pass, and two for which writes would have to be enabled.
fn want_passed<L: Ledger>(
    rt: &impl Abort,
    table: &RegionTable,
    steps: &mut Steps<L>,
) -> Result<(), Fail> {
    let enabled = Verdict::Pass(BusOp::WriteEnable);
    want(rt, table, &[0x06], false, &enabled, steps)?;
    let program = [
        0x02, 0x00, 0x02, 0x20, 0xff, 0x01, 0x02, 0x03, 0x04, 0x05, 0x06, 0x07, 0x08,
    ];
    let mut page = [0xff; 256];
    page[255] = 0x01;
    page[..7].copy_from_slice(&[0x02, 0x03, 0x04, 0x05, 0x06, 0x07, 0x08]);
    let passed = Verdict::Pass(BusOp::Program { at: 0x2_2000, page });
    want(rt, table, &program, true, &passed, steps)?;
    let erased = Verdict::Pass(BusOp::Erase {
        sector: 34,
        count: 1,
    });
    let erase = [0x20, 0x00, 0x02, 0x20, 0x00];
    want(rt, table, &erase, true, &erased, steps)?;
    let closed = Verdict::Block(BlockCause::NoLatch);
    want(rt, table, &program, false, &closed, steps)?;
    want(rt, table, &erase, false, &closed, steps)
}

// Frames that are blocked.
fn want_blocked<L: Ledger>(
    rt: &impl Abort,
    table: &RegionTable,
    steps: &mut Steps<L>,
) -> Result<(), Fail> {
    let cause = Verdict::Block(BlockCause::NotWritable(16));
    want(
        rt,
        table,
        &[0x02, 0x00, 0x01, 0x00, 0xff, 0x01],
        true,
        &cause,
        steps,
    )?;
    want(
        rt,
        table,
        &[0xd8, 0x00, 0x01, 0xf0, 0x00],
        true,
        &cause,
        steps,
    )?;
    let cause = Verdict::Block(BlockCause::NotWritable(40));
    want(
        rt,
        table,
        &[0xd8, 0x00, 0x02, 0x00, 0x00],
        true,
        &cause,
        steps,
    )?;
    let cause = Verdict::Block(BlockCause::ChipErase);
    want(rt, table, &[0xc7], true, &cause, steps)?;
    let cause = Verdict::Block(BlockCause::Range);
    want(
        rt,
        table,
        &[0x03, 0x00, 0x10, 0x00, 0x00],
        true,
        &cause,
        steps,
    )?;
    let cause = Verdict::Block(BlockCause::ShortFrame);
    want(rt, table, &[0x02, 0x00], true, &cause, steps)?;
    let cause = Verdict::Block(BlockCause::Opcode);
    want(rt, table, &[0xab], true, &cause, steps)
}

fn want_all<L: Ledger>(rt: &impl Abort, table: &RegionTable, blank: Blank) -> Result<(), Fail>
    requires name { blank.name ≡ L.name }
    requires parts { blank.parts ≡ L.parts }
    requires some { 0 < blank.parts }
{
    let mut steps = Steps::<L>::new(blank);
    want_passed(rt, table, &mut steps)?;
    want_blocked(rt, table, &mut steps)
}

// Wants it with a count of its own.
fn want_counted(rt: &impl Abort, table: &RegionTable) -> Result<(), Fail> {
    want_all::<Brand>(rt, table, Blank::new(1))
}

// The table of the manifest at a place of a bank.
fn table_at<F: Flash>(flash: &mut F, place: u32, layout: &Layout) -> Option<RegionTable>
    requires within { place + 256 ≤ size_of (F.device flash.old) }
    requires layout { IsValidLayout layout.now (size_of (F.device flash.old)) }
{
    match Manifest::read(flash, place, 256, layout) {
        Ok(manifest) => Some(RegionTable::new(&manifest)),
        Err(_) => None,
    }
}

#[test]
fn frames(rt: HostRuntime) -> Result<(), Fail> {
    let alloc = rt.alloc();
    let bytes = vec![in alloc; 0xff; 1_048_576]?;
    assert_eq!(rt; bytes.len(), 1_048_576);
    let mut flash = MemFlash::new(alloc, bytes, 1)?;
    flash.power_up();
    assert_eq!(rt; flash.size(), SIZE);
    assert!(rt; LAYOUT.judge(SIZE).is_ok());
    flash.program(1024, &MANIFEST)?;
    let table = table_at(&mut flash, 1024, &LAYOUT).ok_or("no manifest")?;
    want_counted(&rt, &table)
}
