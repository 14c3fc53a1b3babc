// The stores of a file, and of files that were made.
ghost use Rattle.std.specs.Prelude.{◌≡◌, ◌++◌, [], ◌∷◌, map, string_bytes, true, IfErr, IfOk};
ghost use Rattle.pfr_shelf.specs.Files.{SameBut};
ghost use Rattle.pfr.specs.Faults.{GoesFaultless};
ghost use Rattle.pfr.specs.MakesInside.{Stores, stored_under};
ghost use Rattle.pfr.specs.Storing.{RefusesStore};

use crate::status::{Role, Status};
use pfr_flash::NoMemory;
use pfr_shelf::{Shelf, ShelfFail};
use std::alloc::Global;

/// A file to be stored: what it is for, what its name ends with, and its bytes.
#[derive(Clone, Copy)]
pub struct Output<'a> {
    pub role: Role,
    pub suffix: &'a str,
    pub bytes: &'a [u8],
}

/// Stores the bytes under the name.
pub fn store_file<S: Shelf>(
    shelf: &mut S,
    role: Role,
    name: &str,
    bytes: &[u8],
) -> Result<(), Status>
    ensures stores { Stores S.tells S.files S.faults S.failed shelf.old shelf.new
        (record { role = role; name = name.now; bytes = bytes.now } ∷ []) result }
    ensures others { S.tells ≡ true → SameBut name.now (S.files shelf.old) (S.files shelf.new) }
    ensures err { IfErr result (RefusesStore role name.now (S.faults shelf.old) (S.faults shelf.new) (S.failed shelf.new)) }
    ensures faultless { GoesFaultless result (S.faults shelf.old) (S.faults shelf.new) }
{
    match shelf.store(name, bytes) {
        Ok(()) => Ok(()),
        Err(ShelfFail::Failed) => Err(Status::StoreFault { file: role }),
        Err(ShelfFail::NoMemory) => Err(Status::NoMemory),
        Err(ShelfFail::TooLong) => unreachable!(),
    }
}

fn name_of(alloc: Global, prefix: &str, suffix: &str) -> Result<String, NoMemory>
    ensures { IfOk result (λ name. string_bytes name ≡ prefix.now ++ suffix.now) }
{
    let mut name = String::from_str(alloc, prefix)?;
    name.push_str(suffix)?;
    Ok(name)
}

// Stores an output under its name.
fn store_output<S: Shelf>(
    alloc: Global,
    shelf: &mut S,
    prefix: &str,
    output: &Output<'_>,
) -> Result<(), Status>
    ensures stores { Stores S.tells S.files S.faults S.failed shelf.old shelf.new
        (stored_under prefix.now output.now ∷ []) result }
    ensures faultless { GoesFaultless result (S.faults shelf.old) (S.faults shelf.new) }
{
    match name_of(alloc, prefix, output.suffix) {
        Ok(name) => store_file(shelf, output.role, name.as_str(), output.bytes),
        Err(_) => Err(Status::NoMemory),
    }
}

/// Stores the outputs one after another, each under the prefix and its suffix.
pub fn store_outputs<S: Shelf>(
    alloc: Global,
    shelf: &mut S,
    prefix: &str,
    outputs: &[Output<'_>],
) -> Result<(), Status>
    ensures stores { Stores S.tells S.files S.faults S.failed shelf.old shelf.new
        (map (stored_under prefix.now) outputs.now) result }
    ensures faultless { GoesFaultless result (S.faults shelf.old) (S.faults shelf.new) }
{
    for output in outputs {
        store_output(alloc, shelf, prefix, output)?;
    }
    Ok(())
}
