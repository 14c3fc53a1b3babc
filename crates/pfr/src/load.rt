// The files of a command, each judged before the next is loaded.
ghost use Rattle.std.specs.Prelude.{◌≡◌, ◌∷◌, [], ◌≤◌, ◌%◌, List, ℕ, length, true, Some, IfOk, IfErr, IsTrue};
ghost use Rattle.pfr_flash.specs.FlashState.{Rose};
ghost use Rattle.pfr.specs.Faults.{GoesFaultless};
ghost use Rattle.pfr.specs.Judging.{Judge, Loads, HoldsRows, HoldsScript, RefusesFor, check_rows, engine_row, finding, image_fits, image_row, limit_of, run_rows, script_row};
ghost use Rattle.pfr.specs.Loading.{AreLoaded, HaveSizes, IsLoaded, HasSizes};

use crate::status::{Role, Status, Why};
use crate::words::{CheckRequest, RunRequest};
use pfr_chain::{EngineFail, ListEngine};
use pfr_script::{Script, ScriptFail, parse};
use pfr_shelf::{Shelf, ShelfFail};
use std::alloc::Global;

/// The images of a platform, and the engine that judges them.
#[derive(Drop)]
pub struct Images {
    pub bmc: Vec<u8>,
    pub pch: Vec<u8>,
    pub nv: Vec<u8>,
    pub engine: ListEngine,
}

/// What a run's files say.
#[derive(Drop)]
pub struct Loaded {
    pub bmc: Vec<u8>,
    pub pch: Vec<u8>,
    pub nv: Vec<u8>,
    pub engine: ListEngine,
    pub script: Script,
}

/// The bytes of a file, within its limit. At an `Err` the status has its cause, whatever else the file is judged by.
pub fn load<S: Shelf>(
    alloc: Global,
    shelf: &mut S,
    role: Role,
    name: &str,
) -> Result<Vec<u8>, Status>
    ensures stays { S.tells ≡ true → S.files shelf.new ≡ S.files shelf.old }
    ensures bytes { IfOk result (λ bytes. S.tells ≡ true → S.files shelf.old name.now ≡ Some bytes.items) }
    ensures short { IfOk result (λ bytes. length bytes.items ≤ limit_of role) }
    ensures err { IfErr result (λ status. (judge : Judge) →
        RefusesFor S.tells (record { role = role; name = name.now; finding = finding role judge (S.files shelf.old name.now) } ∷ [])
        (S.faults shelf.old) (S.faults shelf.new) (S.failed shelf.new) status) }
    ensures later { S.faults shelf.old ≤ S.faults shelf.new }
    ensures faultless { GoesFaultless result (S.faults shelf.old) (S.faults shelf.new) }
{
    match shelf.load(alloc, name, role.limit()) {
        Ok(bytes) => Ok(bytes),
        Err(ShelfFail::Failed) => Err(Status::ReadFault { file: role }),
        Err(ShelfFail::TooLong) => Err(Status::TooLong { file: role }),
        Err(ShelfFail::NoMemory) => Err(Status::NoMemory),
    }
}

impl Role {
    // Whether an image may have so many bytes.
    fn fits(&self, size: usize) -> bool
        ensures { result ≡ image_fits self.now size }
    {
        match self {
            Role::Nv => size == 32_768,
            _ => size % 65_536 == 0 && size >= 65_536 && size <= 67_108_864,
        }
    }
}

fn load_image<S: Shelf>(
    alloc: Global,
    shelf: &mut S,
    role: Role,
    name: &str,
) -> Result<Vec<u8>, Status>
    ensures loads { Loads S.tells S.files S.faults S.failed shelf.old shelf.new
        (λ files. image_row role name.now files ∷ []) result }
    ensures bytes { IfOk result (λ bytes. S.tells ≡ true → S.files shelf.old name.now ≡ Some bytes.items) }
    ensures fits { IfOk result (λ bytes. image_fits role (length bytes.items) ≡ true) }
    ensures faultless { GoesFaultless result (S.faults shelf.old) (S.faults shelf.new) }
{
    let bytes = load(alloc, shelf, role, name)?;
    if !role.fits(bytes.len()) {
        return Err(Status::BadInput {
            file: role,
            place: bytes.len() as u32,
            why: Why::Size,
        });
    }
    Ok(bytes)
}

fn load_engine<S: Shelf>(alloc: Global, shelf: &mut S, name: &str) -> Result<ListEngine, Status>
    ensures loads { Loads S.tells S.files S.faults S.failed shelf.old shelf.new
        (λ files. engine_row name.now files ∷ []) result }
    ensures engine { IfOk result (λ engine. S.tells ≡ true → HoldsRows (S.files shelf.old) name.now engine) }
    ensures faultless { GoesFaultless result (S.faults shelf.old) (S.faults shelf.new) }
{
    let bytes = load(alloc, shelf, Role::Engine, name)?;
    match ListEngine::parse(alloc, bytes.as_slice()) {
        Ok(engine) => Ok(engine),
        Err(EngineFail::Text { line, why }) => Err(Status::BadInput {
            file: Role::Engine,
            place: line,
            why: Why::Engine(why),
        }),
        Err(EngineFail::NoMemory) => Err(Status::NoMemory),
    }
}

fn load_script<S: Shelf>(alloc: Global, shelf: &mut S, name: &str) -> Result<Script, Status>
    ensures loads { Loads S.tells S.files S.faults S.failed shelf.old shelf.new
        (λ files. script_row name.now files ∷ []) result }
    ensures script { IfOk result (λ script. S.tells ≡ true → HoldsScript (S.files shelf.old) name.now script) }
    ensures faultless { GoesFaultless result (S.faults shelf.old) (S.faults shelf.new) }
{
    let bytes = load(alloc, shelf, Role::Script, name)?;
    match parse(alloc, bytes.as_slice()) {
        Ok(script) => Ok(script),
        Err(ScriptFail::Text { line, why }) => Err(Status::BadInput {
            file: Role::Script,
            place: line,
            why: Why::Script(why),
        }),
        Err(ScriptFail::NoMemory) => Err(Status::NoMemory),
    }
}

/// Loads the images of a platform and its engine in the order of the words. At an `Err` the status has its cause.
pub fn load_images<S: Shelf>(
    alloc: Global,
    shelf: &mut S,
    request: &CheckRequest<'_>,
) -> Result<Images, Status>
    ensures loads { Loads S.tells S.files S.faults S.failed shelf.old shelf.new (check_rows request.now) result }
    ensures loaded { IfOk result (λ images. S.tells ≡ true → AreLoaded (S.files shelf.old) request.now images) }
    ensures sizes { IfOk result HaveSizes }
    ensures faultless { GoesFaultless result (S.faults shelf.old) (S.faults shelf.new) }
{
    let bmc = load_image(alloc, shelf, Role::Bmc, request.bmc)?;
    let pch = load_image(alloc, shelf, Role::Pch, request.pch)?;
    let nv = load_image(alloc, shelf, Role::Nv, request.nv)?;
    let engine = load_engine(alloc, shelf, request.engine)?;
    Ok(Images {
        bmc,
        pch,
        nv,
        engine,
    })
}

/// Loads the files of a run in the order of its words. At an `Err` the status has its cause.
pub fn load_files<S: Shelf>(
    alloc: Global,
    shelf: &mut S,
    request: &RunRequest<'_>,
) -> Result<Loaded, Status>
    ensures loads { Loads S.tells S.files S.faults S.failed shelf.old shelf.new (run_rows request.now) result }
    ensures loaded { IfOk result (λ loaded. S.tells ≡ true → IsLoaded (S.files shelf.old) request.now loaded) }
    ensures sizes { IfOk result HasSizes }
    ensures faultless { GoesFaultless result (S.faults shelf.old) (S.faults shelf.new) }
{
    let names = request.images();
    let Images {
        bmc,
        pch,
        nv,
        engine,
    } = load_images(alloc, shelf, &names)?;
    let script = load_script(alloc, shelf, request.script)?;
    Ok(Loaded {
        bmc,
        pch,
        nv,
        engine,
        script,
    })
}
