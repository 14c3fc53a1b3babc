// The stores of a run's images.
ghost use Rattle.std.specs.Prelude.{◌≡◌, ◌≤◌, true, IfErr, OnOk};
ghost use Rattle.pfr.specs.Faults.{GoesFaultless};
ghost use Rattle.pfr.specs.Storing.{RefusesImages, with_images};

use crate::finished::Bench;
use crate::outputs::store_file;
use crate::status::{Role, Status};
use crate::words::RunRequest;
use pfr_shelf::Shelf;

/// Stores the bytes of the devices under their names: the BMC's, then the PCH's, then the store's.
pub fn store_images<S: Shelf>(
    request: &RunRequest<'_>,
    bench: &Bench,
    shelf: &mut S,
) -> Result<(), Status>
    ensures stored { OnOk result (S.tells ≡ true → S.files shelf.new ≡ with_images (S.files shelf.old) request.now bench.now) }
    ensures err { IfErr result (RefusesImages S.tells (S.files shelf.old) (S.files shelf.new) (S.faults shelf.old) (S.faults shelf.new)
        (S.failed shelf.new) request.now bench.now) }
    ensures later { S.faults shelf.old ≤ S.faults shelf.new }
    ensures faultless { GoesFaultless result (S.faults shelf.old) (S.faults shelf.new) }
{
    store_file(shelf, Role::Bmc, request.bmc, bench.bmc.bytes())?;
    store_file(shelf, Role::Pch, request.pch, bench.pch.bytes())?;
    store_file(shelf, Role::Nv, request.nv, bench.nv.bytes())?;
    Ok(())
}
