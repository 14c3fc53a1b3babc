// A page is written on a small device.
ghost use Rattle.std.specs.Prelude.{◌≡◌, IfOk};
ghost use Rattle.pfr_flash.specs.FlashState.{size_of};

use crate::write_page;
use pfr_flash::{Flash, FlashFail, MemFlash, Rigged, Tear};
use std::alloc::Global;
use std::process::Abort;
use std::test::Fail;

// a device of two sectors of zeros that is on
fn zeros(rt: &impl Abort, alloc: Global) -> Result<MemFlash, Fail>
    ensures { IfOk result (λ flash. size_of flash.device ≡ 8192) }
{
    let bytes = vec![in alloc; 0; 8192]?;
    assert_eq!(rt; bytes.len(), 8192);
    let mut flash = MemFlash::new(alloc, bytes, 20)?;
    flash.power_up();
    assert_eq!(rt; flash.size(), 8192);
    Ok(flash)
}

// a page of 0xFF but for a byte of its second piece, one of its fourth, and its last one
fn page() -> [u8; 4096] {
    let mut page = [0xFF; 4096];
    page[256] = 1;
    page[1023] = 2;
    page[4095] = 3;
    page
}

#[test]
fn written(rt: HostRuntime) -> Result<(), Fail> {
    let mut flash = zeros(&rt, rt.alloc())?;
    assert_eq!(rt; write_page(&mut flash, 1, &page()), Ok(()));
    assert_eq!(rt; flash.op_count(), 4);
    let bytes = flash.bytes();
    assert_eq!(rt; bytes.len(), 8192);
    assert_eq!(rt; &bytes[4095..4098], [0, 0xFF, 0xFF].as_slice());
    assert_eq!(rt; &bytes[4351..4354], [0xFF, 1, 0xFF].as_slice());
    assert_eq!(rt; &bytes[5118..5121], [0xFF, 2, 0xFF].as_slice());
    assert_eq!(rt; &bytes[8190..], [0xFF, 3].as_slice());
    Ok(())
}

#[test]
fn torn(rt: HostRuntime) -> Result<(), Fail> {
    let mut flash = zeros(&rt, rt.alloc())?;
    assert_eq!(rt; flash.arms_left(), 256);
    flash.arm_cut(3, &Tear::new(&[0xF0]));
    assert_eq!(rt; write_page(&mut flash, 0, &page()), Err(FlashFail::Lost));
    assert_eq!(rt; flash.op_count(), 3);
    let bytes = flash.bytes();
    assert_eq!(rt; bytes.len(), 8192);
    assert_eq!(rt; &bytes[255..258], [0xFF, 1, 0xFF].as_slice());
    assert_eq!(rt; &bytes[1022..1024], [0xFF, 0xFF].as_slice());
    assert_eq!(rt; &bytes[4095..4097], [0xFF, 0].as_slice());
    Ok(())
}
