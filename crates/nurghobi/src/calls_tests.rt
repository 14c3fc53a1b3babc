// Calls of the shelf and of the sink that fail in turn: how each command ends, and what it has stored by then.
ghost use Rattle.std.specs.Prelude.{◌<◌};

use crate::fixtures::{RUN, blank_shelf, word_list};
use pfr::pfr;
use pfr_sample::{small_image, small_text};
use pfr_shelf::{MemShelf, MemSink, Shelf};
use std::alloc::Global;
use std::process::Abort;
use std::test::Fail;

const REPORT: &str =
    "1 power\n1 bmc held\n1 bmc locked unprovisioned\n1 pch held\n1 pch locked unprovisioned\n";

const CHECK: &[&str] = &["check", "bmc", "pch", "nv", "engine"];

const MAKE: &[&str] = &["make", "description", "made"];

const PROVISION: &[&str] = &["provision", "description", "made.nv"];

const CERT: &[&str] = &["cert", "description", "bmc-manifest", "5", "made"];

// What each command stores, in order.
const MADE: &[&str] = &[
    "made.bmc",
    "made.pch",
    "made.bmc.capsule",
    "made.pch.capsule",
    "made.engine",
];

const STORE: &[&str] = &["made.nv"];

const CERTIFICATE: &[&str] = &["made.cert", "made.cert.engine"];

// Which calls of the shelf and of the sink fail, the exit code, what is written, the error line behind it, and how many
// files were stored.
type Call = (u32, u32, u8, &'static str, &'static str, usize);

// The last call of each command that fails is one that it doesn't make.
const RUNS: &[Call] = &[
    (1, 99, 4, "", "error: cannot read bmc\n", 0),
    (2, 99, 4, "", "error: cannot read pch\n", 0),
    (3, 99, 4, "", "error: cannot read nv\n", 0),
    (4, 99, 4, "", "error: cannot read engine\n", 0),
    (5, 99, 4, "", "error: cannot read script\n", 0),
    (99, 1, 5, "", "", 0),
    (6, 99, 6, REPORT, "error: cannot store bmc\n", 0),
    (7, 99, 6, REPORT, "error: cannot store pch\n", 0),
    (8, 99, 6, REPORT, "error: cannot store nv\n", 0),
    (9, 99, 0, REPORT, "", 0),
];

const CHECKS: &[Call] = &[
    (1, 99, 4, "", "error: cannot read bmc\n", 0),
    (4, 99, 4, "", "error: cannot read engine\n", 0),
    (4, 1, 4, "", "", 0),
    (99, 1, 5, "", "", 0),
    (5, 99, 0, "bmc unprovisioned\n", "pch unprovisioned\n", 0),
];

const MAKES: &[Call] = &[
    (1, 99, 4, "", "error: cannot read description\n", 0),
    (2, 99, 4, "", "error: cannot read bmc-image\n", 0),
    (3, 99, 4, "", "error: cannot read bmc-staged\n", 0),
    (4, 99, 4, "", "error: cannot read pch-image\n", 0),
    (5, 99, 4, "", "error: cannot read pch-staged\n", 0),
    (5, 1, 4, "", "", 0),
    (6, 99, 6, "", "error: cannot store bmc\n", 0),
    (7, 99, 6, "", "error: cannot store pch\n", 1),
    (8, 99, 6, "", "error: cannot store bmc-capsule\n", 2),
    (9, 99, 6, "", "error: cannot store pch-capsule\n", 3),
    (10, 99, 6, "", "error: cannot store engine\n", 4),
    (11, 1, 0, "", "", 5),
];

const PROVISIONS: &[Call] = &[
    (1, 99, 4, "", "error: cannot read description\n", 0),
    (2, 99, 6, "", "error: cannot store nv\n", 0),
    (3, 1, 0, "", "", 1),
];

const CERTS: &[Call] = &[
    (1, 99, 4, "", "error: cannot read description\n", 0),
    (2, 99, 6, "", "error: cannot store cert\n", 0),
    (3, 99, 6, "", "error: cannot store engine\n", 1),
    (4, 1, 0, "", "", 2),
];

// The words of each command, its calls, and what it stores.
const COMMANDS: &[(&[&str], &[Call], &[&str])] = &[
    (RUN, RUNS, &[]),
    (CHECK, CHECKS, &[]),
    (MAKE, MAKES, MADE),
    (PROVISION, PROVISIONS, STORE),
    (CERT, CERTS, CERTIFICATE),
];

// A blank platform, and what the small one is made of.
fn all_files(alloc: Global, image: &[u8]) -> Result<MemShelf, Fail> {
    let mut shelf = blank_shelf(alloc, "power\n")?;
    shelf.put("description", small_text(alloc)?.as_bytes())?;
    shelf.put("bmc.image", image)?;
    shelf.put("bmc.staged", b"one")?;
    shelf.put("pch.image", image)?;
    shelf.put("pch.staged", b"two")?;
    Ok(shelf)
}

// Wants that a shelf has the first so many of these files, and none of the others.
fn want_files(
    rt: &impl Abort,
    alloc: Global,
    shelf: &mut MemShelf,
    names: &[&str],
    count: usize,
) -> Result<(), Fail> {
    for (number, name) in names.iter().enumerate() {
        let file = shelf.load(alloc, name, 1_048_576);
        assert_eq!(rt; file.is_ok(), number < count, "{name}");
    }
    Ok(())
}

// What a command left.
#[derive(Drop)]
struct Ended {
    code: u8,
    has_bench: bool,
    out: MemSink,
    shelf: MemShelf,
}

// Does what the words ask for, where this call of the shelf fails and this one of the sink.
fn end(
    alloc: Global,
    words: &Vec<String>,
    image: &[u8],
    shelf_call: u32,
    sink_call: u32,
) -> Result<Ended, Fail>
    requires shelf { 0 < shelf_call }
    requires sink { 0 < sink_call }
{
    let mut shelf = all_files(alloc, image)?;
    let mut out = MemSink::new(alloc, 65_536)?;
    shelf.fail_call(shelf_call);
    out.fail_call(sink_call);
    let finished = pfr(alloc, words, &mut shelf, &mut out);
    Ok(Ended {
        code: finished.status.code(),
        has_bench: finished.bench.is_some(),
        out,
        shelf,
    })
}

// Wants that the report was written, and the error line behind it.
fn want_written(
    rt: &impl Abort,
    alloc: Global,
    written: &[u8],
    report: &str,
    line: &str,
) -> Result<(), Fail> {
    let wanted = format!(in alloc; "{}{}", report, line)?;
    assert!(rt; written == wanted.as_bytes(), "{line}");
    Ok(())
}

// Does what the words ask for with these failures. There is a bench where a run's files were all loaded.
fn want_call(
    rt: &impl Abort,
    alloc: Global,
    words: &Vec<String>,
    image: &[u8],
    call: &Call,
    names: &[&str],
) -> Result<(), Fail> {
    let (shelf_call, sink_call, code, report, line, count) = *call;
    assert!(rt; shelf_call > 0);
    assert!(rt; sink_call > 0);
    let mut ended = end(alloc, words, image, shelf_call, sink_call)?;
    assert_eq!(rt; ended.code, code);
    assert_eq!(rt; ended.has_bench, words.len() == 6 && code != 4);
    want_written(rt, alloc, ended.out.bytes(), report, line)?;
    ended.shelf.fail_call(99);
    want_files(rt, alloc, &mut ended.shelf, names, count)
}

// Does it with each of these failures.
fn want_calls(
    rt: &impl Abort,
    alloc: Global,
    words: &[&str],
    calls: &[Call],
    names: &[&str],
) -> Result<(), Fail> {
    let image = small_image(alloc)?;
    let list = word_list(alloc, words)?;
    for call in calls {
        want_call(rt, alloc, &list, image.as_slice(), call, names)?;
    }
    Ok(())
}

#[test]
fn failing_calls(rt: HostRuntime) -> Result<(), Fail> {
    for (words, calls, names) in COMMANDS {
        want_calls(&rt, rt.alloc(), words, calls, names)?;
    }
    Ok(())
}
