// The files that a description stands in and that it names.
ghost use Rattle.std.specs.Prelude.{◌≡◌, ◌∷◌, [], ◌++◌, ◌≤◌, true, Some, option_map, IfOk};
ghost use Rattle.pfr_description.specs.Banks.{bank_of};
ghost use Rattle.pfr_flash.specs.declared.names.Bank.TheVariants as bank;
ghost use Rattle.pfr.specs.Faults.{GoesFaultless};
ghost use Rattle.pfr.specs.Judging.{Loads};
ghost use Rattle.pfr.specs.Making.{bank_rows, description_row, image_in, image_role, plain_row, staged_bytes, staged_in, staged_role, staged_rows};
ghost use Rattle.pfr.specs.MakesInside.{AreSources, IsReadFrom, refusal_of};

use crate::load::load;
use crate::status::{Role, Status, Why};
use pfr_description::{DescFail, Description, read_description};
use pfr_flash::Bank;
use pfr_shelf::Shelf;
use std::alloc::Global;

/// What the files of a bank hold. Without a staged file nothing is staged.
#[derive(Drop)]
pub struct Sources {
    pub image: Vec<u8>,
    pub staged: Vec<u8>,
}

/// What the files of both banks hold.
#[derive(Drop)]
pub struct BothSources {
    pub bmc: Sources,
    pub pch: Sources,
}

/// How a cause against a description is told.
pub fn refusal_of(fail: DescFail) -> Status
    ensures { result ≡ refusal_of fail }
{
    match fail {
        DescFail::Why(why) => Status::BadInput {
            file: Role::Description,
            place: 0,
            why: Why::Description(why),
        },
        DescFail::NoMemory => Status::NoMemory,
    }
}

/// Loads a description.
pub fn load_description<S: Shelf>(
    alloc: Global,
    shelf: &mut S,
    name: &str,
) -> Result<Description, Status>
    ensures loads { Loads S.tells S.files S.faults S.failed shelf.old shelf.new
        (λ files. description_row name.now files ∷ []) result }
    ensures read { IfOk result (IsReadFrom S.tells (S.files shelf.old name.now)) }
    ensures faultless { GoesFaultless result (S.faults shelf.old) (S.faults shelf.new) }
{
    let bytes = load(alloc, shelf, Role::Description, name)?;
    match read_description(alloc, bytes.as_slice()) {
        Ok(description) => Ok(description),
        Err(fail) => Err(refusal_of(fail)),
    }
}

// A file that has no rule but its limit.
fn load_plain<S: Shelf>(
    alloc: Global,
    shelf: &mut S,
    role: Role,
    name: &str,
) -> Result<Vec<u8>, Status>
    ensures loads { Loads S.tells S.files S.faults S.failed shelf.old shelf.new
        (λ files. plain_row role name.now files ∷ []) result }
    ensures bytes { IfOk result (λ bytes. S.tells ≡ true → S.files shelf.old name.now ≡ Some bytes.items) }
    ensures faultless { GoesFaultless result (S.faults shelf.old) (S.faults shelf.new) }
{
    load(alloc, shelf, role, name)
}

// A file that need not be named.
fn load_staged<S: Shelf>(
    alloc: Global,
    shelf: &mut S,
    role: Role,
    name: Option<&str>,
) -> Result<Vec<u8>, Status>
    ensures loads { Loads S.tells S.files S.faults S.failed shelf.old shelf.new
        (staged_rows role (option_map (λ name. name.now) name.entry)) result }
    ensures bytes { IfOk result (λ bytes. S.tells ≡ true →
        bytes.items ≡ staged_bytes (S.files shelf.old) (option_map (λ name. name.now) name.entry)) }
    ensures faultless { GoesFaultless result (S.faults shelf.old) (S.faults shelf.new) }
{
    match name {
        Some(name) => load_plain(alloc, shelf, role, name),
        None => Ok(Vec::new(alloc)),
    }
}

fn image_role(bank: Bank) -> Role
    ensures { result ≡ image_role bank }
{
    match bank {
        Bank::Bmc => Role::BmcImage,
        Bank::Pch => Role::PchImage,
    }
}

fn staged_role(bank: Bank) -> Role
    ensures { result ≡ staged_role bank }
{
    match bank {
        Bank::Bmc => Role::BmcStaged,
        Bank::Pch => Role::PchStaged,
    }
}

// The files of a bank.
fn load_sources<S: Shelf>(
    alloc: Global,
    shelf: &mut S,
    desc: &Description,
    bank: Bank,
) -> Result<Sources, Status>
    ensures loads { Loads S.tells S.files S.faults S.failed shelf.old shelf.new
        (bank_rows bank (bank_of desc.now bank)) result }
    ensures image { IfOk result (λ sources. S.tells ≡ true →
        sources.image.items ≡ image_in (S.files shelf.old) (bank_of desc.now bank)) }
    ensures staged { IfOk result (λ sources. S.tells ≡ true →
        sources.staged.items ≡ staged_in (S.files shelf.old) (bank_of desc.now bank)) }
    ensures faultless { GoesFaultless result (S.faults shelf.old) (S.faults shelf.new) }
{
    let image = load_plain(alloc, shelf, image_role(bank), desc.image(bank))?;
    let staged = load_staged(alloc, shelf, staged_role(bank), desc.staged(bank))?;
    Ok(Sources { image, staged })
}

/// Loads the files that a description names: the BMC's image and what is staged in its bank, and then the PCH's.
pub fn load_both<S: Shelf>(
    alloc: Global,
    shelf: &mut S,
    desc: &Description,
) -> Result<BothSources, Status>
    ensures loads { Loads S.tells S.files S.faults S.failed shelf.old shelf.new
        (λ files. bank_rows bank.Bmc (bank_of desc.now bank.Bmc) files ++ bank_rows bank.Pch (bank_of desc.now bank.Pch) files) result }
    ensures sources { IfOk result (λ both. S.tells ≡ true → AreSources (S.files shelf.old) desc.now both) }
    ensures faultless { GoesFaultless result (S.faults shelf.old) (S.faults shelf.new) }
{
    let bmc = load_sources(alloc, shelf, desc, Bank::Bmc)?;
    let pch = load_sources(alloc, shelf, desc, Bank::Pch)?;
    Ok(BothSources { bmc, pch })
}
