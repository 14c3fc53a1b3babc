// Frames are judged.
ghost use Rattle.std.specs.Prelude.{◌≡◌, ◌↔◌, ◌+◌, ◌≤◌, true, length, Ok};
ghost use Rattle.pfr_flash.specs.declared.layout.Layout.{Layout};
ghost use Rattle.pfr_manifest.specs.Stretches.{writable_by};
ghost use Rattle.pfr_filter.specs.Frames.{Passes, judge_spi, touched, verdict_of};
ghost use Rattle.pfr_filter.specs.declared.verdict.BusOp.{BusOp};
ghost use Rattle.pfr_filter.specs.declared.verdict.Verdict.TheVariants.{Pass};

use crate::asking::{address_of, op_of};
use crate::command::{CHIP_ERASE, row_of};
use crate::judged::Judged;
use crate::verdict::{BlockCause, BusOp, Verdict};
use crate::walking::first_closed_of;
use pfr_flash::Layout;
use pfr_manifest::{RegionTable, Steps};
use std::sync::ledger::Ledger;

// What a frame asks for, or the first cause against it.
#[tactic(auto, unfolding(crate::specs::Frames::judge_spi))]
fn judged<L: Ledger>(
    frame: &[u8],
    table: &RegionTable,
    layout: &Layout,
    size: u32,
    latch: bool,
    steps: &mut Steps<L>,
) -> Result<BusOp, BlockCause>
    requires some { 1 ≤ length frame.now }
    requires most { length frame.now ≤ 261 }
    ensures exact { result ≡ judge_spi frame.now (writable_by table.now layout.now) size latch }
    ensures cost { steps.new ≤ steps.old + (7 + length (touched frame.now)) }
{
    if frame[0] == CHIP_ERASE {
        return Err(BlockCause::ChipErase);
    }
    let Some(row) = row_of(frame[0]) else {
        return Err(BlockCause::Opcode);
    };
    if frame.len() < row.needs {
        return Err(BlockCause::ShortFrame);
    }
    if row.addressed && address_of(frame) >= size {
        return Err(BlockCause::Range);
    }
    let op = op_of(row.command, frame);
    if let Some(page) = first_closed_of(&op, table, layout, steps) {
        return Err(BlockCause::NotWritable(page));
    }
    if row.latched && !latch {
        return Err(BlockCause::NoLatch);
    }
    Ok(op)
}

// The verdict of a judgement.
fn verdict_of(judged: Result<BusOp, BlockCause>) -> Verdict
    ensures { result ≡ verdict_of judged }
{
    match judged {
        Ok(op) => Verdict::Pass(op),
        Err(cause) => Verdict::Block(cause),
    }
}

/// Judges a frame on an SPI bus: an opcode, then an address of four bytes where it has one, its highest byte first, then data.
/// Bytes behind those that are needed aren't looked at. `size` is the flash's, in bytes; `latch` tells whether writes are enabled.
///
/// It looks up the first page that would be written among at most 64 stretches by halves, and at one stretch for each page.
pub fn judge_counted<L: Ledger>(
    frame: &[u8],
    table: &RegionTable,
    layout: &Layout,
    size: u32,
    latch: bool,
    steps: &mut Steps<L>,
) -> Judged
    requires some { 1 ≤ length frame.now }
    requires most { length frame.now ≤ 261 }
    // It passes exactly where it is allowed, and then asks for this.
    ensures passes { (op : BusOp) → (result ≡ Pass op) ↔ Passes frame.now (λ page. writable_by table.now layout.now page ≡ true) size latch op }
    // What it asks for, or which cause it is: the first in order.
    ensures exact { result ≡ verdict_of (judge_spi frame.now (writable_by table.now layout.now) size latch) }
    // At most 8 stretches are looked at for a frame that writes one page, and at most 23 for one that writes sixteen.
    ensures cost { steps.new ≤ steps.old + (7 + length (touched frame.now)) }
{
    Judged::new(verdict_of(judged(frame, table, layout, size, latch, steps)))
}
