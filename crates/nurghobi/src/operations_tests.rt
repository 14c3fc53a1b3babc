// How many operations a run does, and what a device does when it has no room left.
ghost use Rattle.std.specs.Prelude.{◌<◌};

use crate::fixtures::{RUN, blank_shelf, word_list};
use pfr::{Status, pfr};
use pfr_flash::{Flash, FlashFail, MemFlash};
use pfr_shelf::MemSink;
use std::alloc::Global;
use std::test::Fail;

// A slot for two banks of 64 KiB.
const SLOT: &str =
    "111111111111111111111111111111111111111111111111111111111111111100000000001000000010000000400000003000000000000000100000001000000040000000300000";

// Scripts over a blank platform, and the operations on the store. Two fill a slot, and three move the fuses.
const SCRIPTS: &[(&str, u32)] = &[
    ("", 0),
    ("power\npower\n", 0),
    ("power\nprovision SLOT\n", 2),
    ("power\nprovision SLOT\npower\nprovision SLOT\npower\n", 5),
    ("power\ncut nv 1 -\nprovision SLOT\n", 1),
    ("power\nfault nv 2 00\nprovision SLOT\npower\n", 5),
    ("power\nprovision SLOT\ncut nv 3 -\npower\npower\n", 8),
];

// How many operations a run of the script did on the BMC's bank, the PCH's and the store; none where it isn't done.
fn counts_of(alloc: Global, words: &Vec<String>, script: &str) -> Result<Option<[u32; 3]>, Fail> {
    let mut shelf = blank_shelf(alloc, script)?;
    let mut out = MemSink::new(alloc, 65_536)?;
    let finished = pfr(alloc, words, &mut shelf, &mut out);
    match finished.bench {
        Some(bench) if finished.status == Status::Done => Ok(Some([
            bench.bmc.op_count(),
            bench.pch.op_count(),
            bench.nv.op_count(),
        ])),
        _ => Ok(None),
    }
}

// The banks are blank, and nothing is done on them.
#[test]
fn counts_of_operations(rt: HostRuntime) -> Result<(), Fail> {
    let alloc = rt.alloc();
    let words = word_list(alloc, RUN)?;
    for (script, count) in SCRIPTS {
        let script = script.replace(alloc, "SLOT", SLOT)?;
        let counts = counts_of(alloc, &words, script.as_str())?;
        assert_eq!(&rt; counts, Some([0, 0, *count]));
    }
    Ok(())
}

#[test]
fn device_room(rt: HostRuntime) -> Result<(), Fail> {
    let alloc = rt.alloc();
    let blank = vec![in alloc; 0xff; 4096]?;
    let bytes = Vec::from_slice(alloc, &blank)?;
    assert_eq!(rt; bytes.len(), 4096);
    let mut flash = MemFlash::new(alloc, bytes, 1)?;
    assert_eq!(rt; flash.size(), 4096);
    assert_eq!(rt; flash.erase(0), Err(FlashFail::Lost));
    flash.power_up();
    assert_eq!(rt; flash.erase(0), Ok(()));
    assert_eq!(rt; flash.erase(0), Err(FlashFail::Fault));
    assert_eq!(rt; flash.op_count(), 1);
    assert!(rt; flash.bytes() == blank.as_slice());
    Ok(())
}
