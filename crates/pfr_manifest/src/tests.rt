// A manifest with each of its bytes changed, against the table of its rules.
ghost use Rattle.std.specs.Prelude.{◌<◌};

use crate::Manifest;
use crate::first_broken::first_broken;
use pfr_flash::{Flash, Layout, MemFlash};
use std::process::Abort;
use std::test::Fail;

// Where the manifest begins in its bank, and how long it is: it fills a page. Behind these bytes it is 0xFF.
const PLACE: u32 = 1024;

const LENGTH: usize = 256;

// A header, a static region and two others, and a rule.
const BEGIN: [u8; 152] = [
    0x1d, 0xce, 0xb3, 0x02, 0x03, 0x01, 0x01, 0x00, 0x00, 0x00, 0x00, 0x00, 0x00, 0x00, 0x00, 0x00,
    0x00, 0x00, 0x00, 0x00, 0x00, 0x00, 0x00, 0x00, 0x00, 0x00, 0x00, 0x00, 0x00, 0x01, 0x00, 0x00,
    0x01, 0x01, 0x01, 0x00, 0x00, 0x00, 0x00, 0x00, 0x00, 0x00, 0x01, 0x00, 0x00, 0x00, 0x02, 0x00,
    0xfe, 0x89, 0xf1, 0x08, 0xb4, 0x02, 0x8d, 0xc3, 0x60, 0xcb, 0xe6, 0x9c, 0xe0, 0xcc, 0xbe, 0x4d,
    0x9b, 0xc8, 0xaf, 0x01, 0x23, 0xf7, 0x31, 0x30, 0x4b, 0x77, 0x32, 0x7f, 0xd4, 0x95, 0xa1, 0xf6,
    0x01, 0x0b, 0x00, 0x00, 0x00, 0x00, 0x00, 0x00, 0x00, 0x00, 0x02, 0x00, 0x00, 0x20, 0x02, 0x00,
    0x01, 0x0b, 0x00, 0x00, 0x00, 0x00, 0x00, 0x00, 0x00, 0x20, 0x02, 0x00, 0x00, 0x80, 0x02, 0x00,
    0x02, 0x00, 0x00, 0x00, 0x00, 0x01, 0x00, 0x2e, 0x00, 0x00, 0x01, 0x00, 0x01, 0x00, 0x00, 0x00,
    0x00, 0x00, 0x00, 0x00, 0x00, 0x00, 0x00, 0x00, 0x00, 0x00, 0x00, 0x00, 0x00, 0x00, 0x00, 0x00,
    0x00, 0x00, 0x00, 0x00, 0x00, 0x00, 0x00, 0x00,
];

const LAYOUT: Layout = Layout {
    manifest_at: 0,
    manifest_len: 0x2000,
    recovery_at: 0x4_0000,
    staging_at: 0x8_0000,
    area_len: 0x4_0000,
};

// Programs a manifest into a bank, and wants to read the cause that the table has.
fn want_rule(
    rt: &impl Abort,
    flash: &mut MemFlash,
    manifest: &[u8; LENGTH],
    layout: &Layout,
) -> Result<(), Fail> {
    assert_eq!(rt; flash.size(), 1_048_576);
    assert!(rt; layout.judge(1_048_576).is_ok());
    flash.erase(0)?;
    flash.program(PLACE, manifest)?;
    let wanted = first_broken(manifest, layout, 1_048_576);
    let found = match Manifest::read(flash, PLACE, LENGTH as u32, layout) {
        Ok(_) => None,
        Err(cause) => Some(cause),
    };
    assert!(rt; found == wanted, "{found:?}, and not {wanted:?}");
    Ok(())
}

// Wants this of the manifest with other bytes at a place.
fn want_rules(
    rt: &impl Abort,
    flash: &mut MemFlash,
    manifest: &[u8; LENGTH],
    at: usize,
    layout: &Layout,
) -> Result<(), Fail>
    requires { at < 256 }
{
    let byte = manifest[at];
    for other in [0, 0xff, !byte] {
        let mut changed = *manifest;
        changed[at] = other;
        want_rule(rt, flash, &changed, layout)?;
    }
    Ok(())
}

#[test]
fn each_byte_of_the_manifest(rt: HostRuntime) -> Result<(), Fail> {
    let alloc = rt.alloc();
    let bytes = vec![in alloc; 0xff; 1_048_576]?;
    assert_eq!(rt; bytes.len(), 1_048_576);
    let mut flash = MemFlash::new(alloc, bytes, 2048)?;
    flash.power_up();
    assert_eq!(rt; flash.size(), 1_048_576);
    let mut manifest = [0xff; LENGTH];
    manifest[..152].copy_from_slice(&BEGIN);
    want_rule(&rt, &mut flash, &manifest, &LAYOUT)?;
    for at in 0..LENGTH {
        want_rules(&rt, &mut flash, &manifest, at, &LAYOUT)?;
    }
    Ok(())
}
