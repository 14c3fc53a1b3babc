// The items of a run, done on a platform of what was loaded.
ghost use Rattle.std.specs.Prelude.{◌≡◌, ◌≤◌, ◌<◌, ℕ, length, take, true, IfOk, OnOk, OnErr};
ghost use Rattle.pfr_flash.specs.MemFlash.{new_device};
ghost use Rattle.pfr_engine.specs.Accepting.{acceptance};
ghost use Rattle.pfr_report.specs.Texts.{AllText};
ghost use Rattle.pfr_story.specs.Run.{Did, CanRun};
ghost use Rattle.pfr_machine.specs.Worlds.{SameButRoom};
ghost use Rattle.pfr.specs.Benches.{bank_room};
ghost use Rattle.pfr.specs.Judging.{image_fits};
ghost use Rattle.pfr.specs.Loading.{HasSizes};
ghost use Rattle.pfr.specs.Played.{CanDo, Plays, PlayedFrom, PlayedOf, fresh};
ghost use Rattle.pfr.specs.declared.status.Role.TheVariants as role;

use crate::finished::Bench;
use crate::load::Loaded;
use pfr_chain::ListEngine;
use pfr_flash::{MemFlash, NoMemory};
use pfr_machine::{Parts, Platform};
use pfr_script::{Item, Script};
use std::alloc::Global;

/// What was done of a script: all items, or the first of them, until there was no memory.
#[derive(Drop)]
pub enum Played {
    Whole(Bench),
    Part(Bench),
}

// A bank's device, with room to rewrite each page so many times: by an erase and 16 programs.
fn make_bank(alloc: Global, wear: u32, image: Vec<u8>) -> Result<MemFlash, NoMemory>
    requires wear { wear ≤ 16 }
    requires fits { image_fits role.Bmc (length image.items) ≡ true }
    ensures { IfOk result (λ flash. flash.device ≡ new_device image.items (bank_room wear (length image.items))) }
{
    let pages = image.len() as u32 / 4096;
    MemFlash::new(alloc, image, wear * 17 * pages)
}

// A platform over new devices with these bytes.
fn make_platform(
    alloc: Global,
    wear: u32,
    bmc: Vec<u8>,
    pch: Vec<u8>,
    nv: Vec<u8>,
    engine: ListEngine,
) -> Result<Platform<MemFlash, ListEngine>, NoMemory>
    requires wear { wear ≤ 16 }
    requires bmc { image_fits role.Bmc (length bmc.items) ≡ true }
    requires pch { image_fits role.Bmc (length pch.items) ≡ true }
    requires nv { image_fits role.Nv (length nv.items) ≡ true }
    ensures { IfOk result (λ platform. platform ≡ record { world = fresh wear bmc.items pch.items nv.items; engine = engine }) }
{
    let bmc = make_bank(alloc, wear, bmc)?;
    let pch = make_bank(alloc, wear, pch)?;
    let nv = MemFlash::new(alloc, nv, 65_536)?;
    Ok(Platform::new(alloc, bmc, pch, nv, engine))
}

// Does one item. After want of memory nothing was done.
fn do_item(
    platform: &mut Platform<MemFlash, ListEngine>,
    script: &Script,
    item: &Item,
) -> Result<(), NoMemory>
    requires items { platform.old.world.item < 67108863 }
    requires can { CanDo (length script.now.tears) item.now platform.old.world }
    ensures ok { OnOk result (Did (acceptance platform.old.engine) script.now.tears item.now platform.old.world platform.new.world) }
    ensures engine { platform.new.engine ≡ platform.old.engine }
    ensures texts { AllText platform.old.world.notes.list → AllText platform.new.world.notes.list }
    ensures err { OnErr result (SameButRoom platform.old platform.new) }
{
    match item {
        Item::Event(event) => platform.step(event),
        Item::Arm(arm) => {
            platform.arm(arm, script.tear(arm.tear));
            Ok(())
        }
    }
}

// Does the items in order, until there is no memory.
fn play(platform: &mut Platform<MemFlash, ListEngine>, script: &Script) -> Result<(), NoMemory>
    requires can { CanRun (length script.now.tears) script.now.items platform.old.world }
    requires texts { AllText platform.old.world.notes.list }
    ensures ok { OnOk result (Plays script.now script.now.items platform.old platform.new.world) }
    ensures err { OnErr result ((count : ℕ) × Plays script.now (take count script.now.items) platform.old platform.new.world) }
    ensures engine { platform.new.engine ≡ platform.old.engine }
    ensures texts { AllText platform.new.world.notes.list }
{
    let items = script.items();
    for k in 0..items.len() {
        do_item(platform, script, items.get(k))?;
    }
    Ok(())
}

// Does the items of a script, and takes the platform apart.
fn perform(platform: Platform<MemFlash, ListEngine>, script: Script) -> Played
    requires can { CanRun (length script.tears) script.items platform.world }
    requires texts { AllText platform.world.notes.list }
    ensures { PlayedFrom platform script result }
{
    let mut platform = platform;
    let played = play(&mut platform, &script);
    let Parts {
        bmc,
        pch,
        nv,
        notes,
        engine,
    } = platform.into_parts();
    let bench = Bench {
        bmc,
        pch,
        nv,
        notes,
        engine,
        script,
    };
    match played {
        Ok(()) => Played::Whole(bench),
        Err(_) => Played::Part(bench),
    }
}

/// Makes the devices and the platform of what was loaded, and does the script's items.
pub fn attempt(alloc: Global, wear: u32, loaded: Loaded) -> Result<Played, NoMemory>
    requires wear { wear ≤ 16 }
    requires sizes { HasSizes loaded }
    ensures { IfOk result (PlayedOf wear loaded) }
{
    let Loaded {
        bmc,
        pch,
        nv,
        engine,
        script,
    } = loaded;
    let platform = make_platform(alloc, wear, bmc, pch, nv, engine)?;
    Ok(perform(platform, script))
}
