// The commands `make`, `provision` and `cert`.
ghost use Rattle.std.specs.Prelude.{◌≡◌, ◌≤◌, ◌∷◌, [], true, IfOk, IfErr, OnOk};
ghost use Rattle.pfr_made.specs.Judge.{Judged};
ghost use Rattle.pfr.specs.Faults.{GoesFaultless, IsFaultless};
ghost use Rattle.pfr.specs.Makes.{MakesFor, shelf_alone};
ghost use Rattle.pfr.specs.MakesInside.{AreMade, Prepares, judged_both, Stores, stored_of_cert, stored_of_made, stored_of_store};
ghost use Rattle.pfr.specs.Making.{cert_names, cert_rows, cert_stores, make_names, make_rows, make_stores, provision_names, provision_rows, provision_stores};

use crate::making_words::{CertRequest, MakeRequest, ProvisionRequest};
use crate::outputs::{Output, store_file, store_outputs};
use crate::sources::{BothSources, load_both, load_description, refusal_of};
use crate::status::{Role, Status};
use pfr_description::{DescFail, Description};
use pfr_flash::{Bank, Bytes};
use pfr_shelf::Shelf;
use pfr_tool::{Made, MadeCert, make_bank, make_cert, make_store};
use std::alloc::Global;

/// What is made of both banks, and the engine's rows of their signatures, the BMC's first.
#[derive(Drop)]
pub struct MadeFiles {
    pub bmc: Made,
    pub pch: Made,
    pub engine: Vec<u8>,
}

// Makes both banks.
fn make_both(
    alloc: Global,
    desc: &Description,
    sources: &BothSources,
) -> Result<MadeFiles, DescFail>
    ensures made { IfOk result (AreMade desc.now sources.now) }
    ensures judged { Judged result (judged_both desc.now sources.now) }
{
    let bmc = make_bank(
        alloc,
        desc,
        Bank::Bmc,
        &sources.bmc.image,
        &sources.bmc.staged,
    )?;
    let pch = make_bank(
        alloc,
        desc,
        Bank::Pch,
        &sources.pch.image,
        &sources.pch.staged,
    )?;
    let mut engine = Vec::from_slice(alloc, bmc.rows.as_slice())?;
    engine.extend_from_slice(pch.rows.as_slice())?;
    Ok(MadeFiles { bmc, pch, engine })
}

// Loads the files of both banks, and makes what is stored of them.
fn prepare_both<S: Shelf>(
    alloc: Global,
    request: &MakeRequest<'_>,
    shelf: &mut S,
) -> Result<MadeFiles, Status>
    ensures prepared { Prepares S.tells S.files S.faults S.failed shelf.old shelf.new (make_rows request.now) result }
    ensures stores { IfOk result (λ made. S.tells ≡ true → stored_of_made request.now made ≡ make_stores request.now (S.files shelf.old)) }
    ensures faultless { GoesFaultless result (S.faults shelf.old) (S.faults shelf.new) }
{
    let desc = load_description(alloc, shelf, request.description)?;
    let sources = load_both(alloc, shelf, &desc)?;
    match make_both(alloc, &desc, &sources) {
        Ok(made) => Ok(made),
        Err(fail) => Err(refusal_of(fail)),
    }
}

fn store_both<S: Shelf>(
    alloc: Global,
    request: &MakeRequest<'_>,
    made: &MadeFiles,
    shelf: &mut S,
) -> Result<(), Status>
    ensures stores { Stores S.tells S.files S.faults S.failed shelf.old shelf.new (stored_of_made request.now made.now) result }
    ensures faultless { GoesFaultless result (S.faults shelf.old) (S.faults shelf.new) }
{
    let outputs = [
        Output {
            role: Role::Bmc,
            suffix: ".bmc",
            bytes: made.bmc.flash.as_slice(),
        },
        Output {
            role: Role::Pch,
            suffix: ".pch",
            bytes: made.pch.flash.as_slice(),
        },
        Output {
            role: Role::BmcCapsule,
            suffix: ".bmc.capsule",
            bytes: made.bmc.capsule.as_slice(),
        },
        Output {
            role: Role::PchCapsule,
            suffix: ".pch.capsule",
            bytes: made.pch.capsule.as_slice(),
        },
        Output {
            role: Role::Engine,
            suffix: ".engine",
            bytes: made.engine.as_slice(),
        },
    ];
    store_outputs(alloc, shelf, request.prefix, &outputs)
}

/// Makes the images and the capsules of a platform, and the engine's rows of their signatures.
pub fn make<S: Shelf>(alloc: Global, request: &MakeRequest<'_>, shelf: &mut S) -> Status
    ensures cause { MakesFor S.tells (shelf_alone S.files S.faults S.failed shelf.old) (shelf_alone S.files S.faults S.failed shelf.new)
        (make_rows request.now) (make_names request.now) (make_stores request.now) result }
    ensures later { S.faults shelf.old ≤ S.faults shelf.new }
    ensures faultless { IsFaultless result (S.faults shelf.old) (S.faults shelf.new) }
{
    let made = match prepare_both(alloc, request, shelf) {
        Ok(made) => made,
        Err(status) => return status,
    };
    match store_both(alloc, request, &made, shelf) {
        Ok(()) => Status::Done,
        Err(status) => status,
    }
}

// Loads the description, and makes the store.
fn prepare_store<S: Shelf>(
    alloc: Global,
    request: &ProvisionRequest<'_>,
    shelf: &mut S,
) -> Result<Bytes, Status>
    ensures prepared { Prepares S.tells S.files S.faults S.failed shelf.old shelf.new (provision_rows request.now) result }
    ensures stores { IfOk result (λ store. S.tells ≡ true → stored_of_store request.now store ≡ provision_stores request.now (S.files shelf.old)) }
    ensures faultless { GoesFaultless result (S.faults shelf.old) (S.faults shelf.new) }
{
    let desc = load_description(alloc, shelf, request.description)?;
    match make_store(alloc, &desc) {
        Ok(store) => Ok(store),
        Err(fail) => Err(refusal_of(fail)),
    }
}

/// Makes the store of a provisioned platform.
pub fn provision<S: Shelf>(alloc: Global, request: &ProvisionRequest<'_>, shelf: &mut S) -> Status
    ensures cause { MakesFor S.tells (shelf_alone S.files S.faults S.failed shelf.old) (shelf_alone S.files S.faults S.failed shelf.new)
        (provision_rows request.now) (provision_names request.now) (provision_stores request.now) result }
    ensures later { S.faults shelf.old ≤ S.faults shelf.new }
    ensures faultless { IsFaultless result (S.faults shelf.old) (S.faults shelf.new) }
{
    let store = match prepare_store(alloc, request, shelf) {
        Ok(store) => store,
        Err(status) => return status,
    };
    match store_file(shelf, Role::Nv, request.nv, store.as_slice()) {
        Ok(()) => Status::Done,
        Err(status) => status,
    }
}

// Loads the description, and makes the certificate.
fn prepare_cert<S: Shelf>(
    alloc: Global,
    request: &CertRequest<'_>,
    shelf: &mut S,
) -> Result<MadeCert, Status>
    ensures prepared { Prepares S.tells S.files S.faults S.failed shelf.old shelf.new (cert_rows request.now) result }
    ensures stores { IfOk result (λ made. S.tells ≡ true → stored_of_cert request.now made ≡ cert_stores request.now (S.files shelf.old)) }
    ensures faultless { GoesFaultless result (S.faults shelf.old) (S.faults shelf.new) }
{
    let desc = load_description(alloc, shelf, request.description)?;
    match make_cert(alloc, &desc, request.ty, request.id) {
        Ok(made) => Ok(made),
        Err(_) => Err(Status::NoMemory),
    }
}

fn store_cert<S: Shelf>(
    alloc: Global,
    request: &CertRequest<'_>,
    made: &MadeCert,
    shelf: &mut S,
) -> Result<(), Status>
    ensures stores { Stores S.tells S.files S.faults S.failed shelf.old shelf.new (stored_of_cert request.now made.now) result }
    ensures faultless { GoesFaultless result (S.faults shelf.old) (S.faults shelf.new) }
{
    let outputs = [
        Output {
            role: Role::Cert,
            suffix: ".cert",
            bytes: made.cert.as_slice(),
        },
        Output {
            role: Role::Engine,
            suffix: ".cert.engine",
            bytes: made.rows.as_slice(),
        },
    ];
    store_outputs(alloc, shelf, request.prefix, &outputs)
}

/// Makes a certificate that cancels a key, and the engine's row of its signature.
pub fn cert<S: Shelf>(alloc: Global, request: &CertRequest<'_>, shelf: &mut S) -> Status
    ensures cause { MakesFor S.tells (shelf_alone S.files S.faults S.failed shelf.old) (shelf_alone S.files S.faults S.failed shelf.new)
        (cert_rows request.now) (cert_names request.now) (cert_stores request.now) result }
    ensures later { S.faults shelf.old ≤ S.faults shelf.new }
    ensures faultless { IsFaultless result (S.faults shelf.old) (S.faults shelf.new) }
{
    let made = match prepare_cert(alloc, request, shelf) {
        Ok(made) => made,
        Err(status) => return status,
    };
    match store_cert(alloc, request, &made, shelf) {
        Ok(()) => Status::Done,
        Err(status) => status,
    }
}
