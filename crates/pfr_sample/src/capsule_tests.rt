// The pages of the small platform's capsule, taken apart.
ghost use Rattle.std.specs.Prelude.{◌≡◌, ◌<◌, IfOk};
ghost use Rattle.pfr_flash.specs.FlashState.{size_of};

use crate::small::{small_image, small_platform};
use pfr_capsule::{Capsule, Pages};
use pfr_engine::ListEngine;
use pfr_flash::{Bank, Flash, MemFlash};
use pfr_fuses::{Fuses, load};
use pfr_tool::{make_bank, make_store};
use std::alloc::Global;
use std::process::Abort;
use std::test::Fail;

// The recovery area, and where the parts of the capsule stand in the bank.
const PLACE: u32 = 0x4_0000;

const AREA: u32 = 0x4_0000;

const ERASE_MAP: u32 = PLACE + 2304 + 128;

const COPY_MAP: u32 = ERASE_MAP + 32;

const PAYLOAD: u32 = COPY_MAP + 32;

fn fuses_in(rt: &impl Abort, alloc: Global, store: Vec<u8>) -> Result<Fuses, Fail> {
    assert_eq!(rt; store.len(), 32_768);
    let mut nv = MemFlash::new(alloc, store, 0)?;
    nv.power_up();
    assert_eq!(rt; nv.size(), 32_768);
    Ok(load(&mut nv)?)
}

// Wants the pages where they are. They have these fields and no other, so nothing of the maps is kept.
fn want_pages(rt: &impl Abort, pages: &Pages) {
    let Pages {
        erase_at,
        copy_at,
        payload_at,
        bits,
        before,
    } = *pages;
    assert_eq!(rt; erase_at, ERASE_MAP);
    assert_eq!(rt; copy_at, COPY_MAP);
    assert_eq!(rt; payload_at, PAYLOAD);
    assert_eq!(rt; bits, 256);
    assert_eq!(rt; before[1], 18);
    assert_eq!(rt; before[4], 0);
}

// The small platform's bank of the BMC, the engine's rows of it, and the platform's store.
#[derive(Drop)]
struct Small {
    bank: Vec<u8>,
    rows: Vec<u8>,
    store: Vec<u8>,
}

fn make_small(alloc: Global) -> Result<Small, Fail> {
    let desc = small_platform(alloc)?;
    let image = small_image(alloc)?;
    let made = make_bank(alloc, &desc, Bank::Bmc, image.as_slice(), &[])?;
    Ok(Small {
        bank: made.flash.into_vec(),
        rows: made.rows.into_vec(),
        store: make_store(alloc, &desc)?.into_vec(),
    })
}

// A bank of the small platform's size with these bytes, that has power and room for so many operations.
fn bank_with(rt: &impl Abort, alloc: Global, bytes: Vec<u8>, room: u32) -> Result<MemFlash, Fail>
    ensures { IfOk result (λ flash. size_of flash.device ≡ 1048576) }
{
    assert_eq!(rt; bytes.len(), 1_048_576);
    let mut flash = MemFlash::new(alloc, bytes, room)?;
    flash.power_up();
    assert_eq!(rt; flash.size(), 1_048_576);
    Ok(flash)
}

// Wants that the capsule in the recovery area of this bank is good, and its pages where they are.
fn want_good(
    rt: &impl Abort,
    alloc: Global,
    bank: Vec<u8>,
    rows: &[u8],
    fuses: &Fuses,
) -> Result<(), Fail> {
    let mut flash = bank_with(rt, alloc, bank, 0)?;
    assert!(rt; rows.len() < 1_048_576);
    let engine = ListEngine::parse(alloc, rows)?;
    let layout = fuses.provision().layout(Bank::Bmc);
    assert!(rt; layout.judge(1_048_576).is_ok());
    let capsule = Capsule::judge(&mut flash, PLACE, AREA, Bank::Bmc, layout, fuses, &engine)?;
    want_pages(rt, capsule.pages());
    Ok(())
}

#[test]
fn pages_of_a_capsule(rt: HostRuntime) -> Result<(), Fail> {
    let alloc = rt.alloc();
    let small = make_small(alloc)?;
    let fuses = fuses_in(&rt, alloc, small.store)?;
    want_good(&rt, alloc, small.bank, &small.rows, &fuses)
}
