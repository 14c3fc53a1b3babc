// Which of the pages that a frame would write the bus may not write.
ghost use Rattle.std.specs.Prelude.{◌≡◌, ◌+◌, ◌≤◌, ◌||◌, length};
ghost use Rattle.pfr_flash.specs.declared.layout.Layout.{Layout};
ghost use Rattle.pfr_manifest.specs.Stretches.{is_page_within, lets_write, writable_by};
ghost use Rattle.pfr_filter.specs.Asking.{IsFormed, numbers_from, pages_of};
ghost use Rattle.pfr_filter.specs.Frames.{first_without};
ghost use Rattle.pfr_filter.specs.Walking.{IsFirstBehind};

use crate::verdict::BusOp;
use pfr_flash::Layout;
use pfr_manifest::{RegionTable, Steps, Stretch};
use std::sync::ledger::Ledger;

// Whether a page of 4,096 bytes lies from one place up to another.
fn is_page_within(page: u32, from: u32, upto: u64) -> bool
    ensures { result ≡ is_page_within page from upto }
{
    let at = 4096 * page as u64;
    from as u64 <= at && at + 4096 <= upto
}

// Whether the page lies in the staging area.
fn is_in_staging(page: u32, layout: &Layout) -> bool
    ensures { result ≡ is_page_within page layout.now.staging_at (layout.now.staging_at + layout.now.area_len) }
{
    let upto = layout.staging_at as u64 + layout.area_len as u64;
    is_page_within(page, layout.staging_at, upto)
}

// Whether the stretch lets the bus write the page.
fn lets_write(page: u32, stretch: &Stretch) -> bool
    ensures { result ≡ lets_write page stretch.now }
{
    stretch.writable && is_page_within(page, stretch.start, stretch.end as u64)
}

// Whether the bus may write the page: the stretch lets it, or it lies in the staging area.
fn may_write(page: u32, stretch: &Stretch, layout: &Layout) -> bool
    ensures { result ≡ (lets_write page stretch.now || is_page_within page layout.now.staging_at (layout.now.staging_at + layout.now.area_len)) }
{
    lets_write(page, stretch) || is_in_staging(page, layout)
}

// Whether the bus may write a page, and which stretch is the first behind the begin of the page after it: that behind its
// own, or the next one.
fn look_at<L: Ledger>(
    table: &RegionTable,
    layout: &Layout,
    page: u32,
    number: u32,
    steps: &mut Steps<L>,
) -> (bool, u32)
    requires { IsFirstBehind table.now page number }
    ensures open { result.0 ≡ writable_by table.now layout.now page }
    ensures next { IsFirstBehind table.now (page + 1) result.1 }
    ensures cost { steps.new ≤ steps.old + 1 }
{
    if number >= table.len() {
        return (is_in_staging(page, layout), number);
    }
    let stretch = table.probe(number, steps);
    let open = may_write(page, &stretch, layout);
    if stretch.end as u64 <= 4096 * (page as u64 + 1) {
        return (open, number + 1);
    }
    (open, number)
}

// The first of so many pages from one on that the bus may not write.
fn first_closed<L: Ledger>(
    table: &RegionTable,
    layout: &Layout,
    first: u32,
    count: u32,
    steps: &mut Steps<L>,
) -> Option<u32>
    requires { first + count ≤ 1048576 }
    ensures exact { result ≡ first_without (writable_by table.now layout.now) (numbers_from first count) }
    ensures cost { steps.new ≤ steps.old + (7 + count) }
{
    if count == 0 {
        return None;
    }
    let mut number = table.first_behind(4096 * first, steps);
    for page in first..first + count {
        let (open, next) = look_at(table, layout, page, number, steps);
        if !open {
            return Some(page);
        }
        number = next;
    }
    None
}

/// The first of the pages that it would write which the bus may not write.
#[tactic(auto, unfolding(crate::specs::Frames::first_without))]
pub(crate) fn first_closed_of<L: Ledger>(
    op: &BusOp,
    table: &RegionTable,
    layout: &Layout,
    steps: &mut Steps<L>,
) -> Option<u32>
    requires { IsFormed op.now }
    ensures exact { result ≡ first_without (writable_by table.now layout.now) (pages_of op.now) }
    ensures cost { steps.new ≤ steps.old + (7 + length (pages_of op.now)) }
{
    match op {
        BusOp::Program { at, .. } => first_closed(table, layout, *at / 4096, 1, steps),
        BusOp::Erase { sector, count } => first_closed(table, layout, *sector, *count, steps),
        _ => None,
    }
}
