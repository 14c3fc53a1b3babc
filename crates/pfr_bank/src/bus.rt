// What passed on a bank's bus is done by its flash.
ghost use Rattle.std.specs.Prelude.{◌≡◌, ℕ, ◌+◌, ◌≤◌, [], All, Ok};
ghost use Rattle.pfr_flash.specs.FlashState.{size_of};
ghost use Rattle.pfr_flash.specs.Plan.{Follows};
ghost use Rattle.pfr_flash.specs.Range.{len_of, place_of};
ghost use Rattle.pfr_filter.specs.Asking.{IsFormed, bus_ops, latched};
ghost use Rattle.pfr_filter.specs.declared.verdict.BusOp.TheVariants.{Erase};

use pfr_filter::BusOp;
use pfr_flash::{Flash, FlashFail};

// Erases so many sectors, from this one on, in rising order.
fn erase_sectors<F: Flash>(flash: &mut F, sector: u32, count: u32) -> Result<(), FlashFail>
    requires formed { sector + count ≤ 1048576 }
    requires inside { All (λ op. place_of op + len_of op ≤ size_of (F.device flash.old)) (bus_ops (Erase sector count)) }
    ensures follows { Follows (bus_ops (Erase sector count)) (F.device flash.old) (F.device flash.new) result }
    ensures idle { bus_ops (Erase sector count) ≡ [] → (result ≡ Ok tt) × (flash.new ≡ flash.old) }
{
    for k in 0..count {
        flash.erase(sector + k)?;
    }
    Ok(())
}

/// Lets a flash do what a frame asks for.
pub fn carry_out<F: Flash>(flash: &mut F, op: &BusOp) -> Result<(), FlashFail>
    requires formed { IsFormed op.now }
    requires inside { All (λ done. place_of done + len_of done ≤ size_of (F.device flash.old)) (bus_ops op.now) }
    ensures follows { Follows (bus_ops op.now) (F.device flash.old) (F.device flash.new) result }
    ensures idle { bus_ops op.now ≡ [] → (result ≡ Ok tt) × (flash.new ≡ flash.old) }
{
    match op {
        BusOp::Program { at, page } => flash.program(*at, page),
        BusOp::Erase { sector, count } => erase_sectors(flash, *sector, *count),
        _ => Ok(()),
    }
}

/// Whether writes are enabled once this was done.
pub fn latched(op: &BusOp, latch: bool) -> bool
    ensures { result ≡ latched op.now latch }
{
    match op {
        BusOp::WriteEnable => true,
        BusOp::WriteDisable | BusOp::Program { .. } | BusOp::Erase { .. } => false,
        BusOp::Read | BusOp::Status | BusOp::Id => latch,
    }
}
