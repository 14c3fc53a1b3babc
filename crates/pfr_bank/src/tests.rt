// A bank's power through its states, on a device of one sector.
ghost use Rattle.std.specs.Prelude.{◌≡◌, IfOk};
ghost use Rattle.pfr_flash.specs.FlashState.{size_of};

use crate::off::Off;
use crate::room::Room;
use pfr_flash::{Bank, Flash, FlashFail, MemFlash};
use std::alloc::Global;
use std::process::Abort;
use std::test::Fail;

// a bank without power, whose sector is blank
fn dark(rt: &impl Abort, alloc: Global) -> Result<Off<MemFlash>, Fail>
    ensures { IfOk result (λ off. size_of off.flash.device ≡ 4096) }
{
    let bytes = vec![in alloc; 0xFF; 4096]?;
    assert_eq!(rt; bytes.len(), 4096);
    let flash = MemFlash::new(alloc, bytes, 4)?;
    Ok(Off::new(flash, Bank::Pch, Room::new(alloc)?))
}

#[test]
fn held_and_lost(rt: HostRuntime) -> Result<(), Fail> {
    let mut held = dark(&rt, rt.alloc())?.hold();
    assert_eq!(rt; held.flash().erase(0), Ok(()));
    assert_eq!(rt; held.op_count(), 1);
    let mut flash = held.lost().into_flash();
    assert_eq!(rt; flash.op_count(), 1);
    assert_eq!(rt; flash.erase(0), Err(FlashFail::Lost));
    Ok(())
}

#[test]
fn locked_keeps_its_power(rt: HostRuntime) -> Result<(), Fail> {
    let held = dark(&rt, rt.alloc())?.hold();
    let mut flash = held.lock().into_flash();
    assert_eq!(rt; flash.erase(0), Ok(()));
    assert_eq!(rt; flash.op_count(), 1);
    Ok(())
}

#[test]
fn lost_from_off(rt: HostRuntime) -> Result<(), Fail> {
    let mut flash = dark(&rt, rt.alloc())?.lost().into_flash();
    assert_eq!(rt; flash.erase(0), Err(FlashFail::Lost));
    Ok(())
}
