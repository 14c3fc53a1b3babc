// The command `check`.
ghost use Rattle.std.specs.Prelude.{◌≡◌, ◌≤◌, ◌++◌, length, true, IfOk};
ghost use Rattle.pfr_flash.specs.FlashState.{now, size_of};
ghost use Rattle.pfr_flash.specs.Layout.{IsBankSize};
ghost use Rattle.pfr_flash.specs.MemFlash.{IsDeviceLen};
ghost use Rattle.pfr_flash.specs.declared.names.Bank.TheVariants as bank;
ghost use Rattle.pfr_engine.specs.Accepting.{acceptance};
ghost use Rattle.pfr_machine.specs.Verdicts.{verdict_of};
ghost use Rattle.pfr_report.specs.Verdicts.{verdict_text, HasCauses};
ghost use Rattle.pfr_shelf.specs.Pieces.{Writes};
ghost use Rattle.pfr.specs.Checks.{CheckOutput, ChecksFor};
ghost use Rattle.pfr.specs.ChecksInside.{AreVerdictsOf, CanBeRead, HaveCauses, Holds};
ghost use Rattle.pfr.specs.Faults.{IsFaultless};
ghost use Rattle.pfr.specs.Loading.{HaveSizes};
ghost use Rattle.pfr.specs.Runs.{outside};

use crate::load::{Images, load_images};
use crate::status::Status;
use crate::words::CheckRequest;
use pfr_chain::ListEngine;
use pfr_flash::{Bank, Flash, MemFlash, NoMemory};
use pfr_machine::verdict;
use pfr_report::{BankVerdict, write_verdict};
use pfr_shelf::{Shelf, Sink, SinkFail};
use std::alloc::Global;

/// The verdicts of both banks.
#[derive(Drop)]
pub struct Verdicts {
    pub bmc: BankVerdict,
    pub pch: BankVerdict,
}

// A device that is only read: it has power, and no room for an operation.
fn make_device(alloc: Global, image: Vec<u8>) -> Result<MemFlash, NoMemory>
    requires { IsDeviceLen (length image.items) }
    ensures { IfOk result (λ flash. Holds image.items flash.device) }
{
    let mut flash = MemFlash::new(alloc, image, 0)?;
    flash.power_up();
    Ok(flash)
}

// The verdict of a bank. No read fails, as both devices have power and no fault is armed.
fn judge(flash: &mut MemFlash, nv: &mut MemFlash, bank: Bank, engine: &ListEngine) -> BankVerdict
    requires flash { CanBeRead flash.old.device }
    requires nv { CanBeRead nv.old.device }
    requires size { IsBankSize (size_of flash.old.device) }
    requires store { size_of nv.old.device ≡ 32768 }
    ensures exact { result ≡ verdict_of bank (now flash.old.device) (now nv.old.device) (acceptance engine.now) }
    ensures causes { HasCauses result }
    ensures read { CanBeRead nv.new.device }
    ensures size { size_of nv.new.device ≡ size_of nv.old.device }
    ensures content { now nv.new.device ≡ now nv.old.device }
{
    match verdict(flash, nv, bank, engine) {
        Ok(verdict) => verdict,
        Err(_) => unreachable!(),
    }
}

fn judge_banks(alloc: Global, images: Images) -> Result<Verdicts, NoMemory>
    requires { HaveSizes images }
    ensures { IfOk result (AreVerdictsOf images) }
{
    let mut bmc = make_device(alloc, images.bmc)?;
    let mut pch = make_device(alloc, images.pch)?;
    let mut nv = make_device(alloc, images.nv)?;
    let engine = images.engine;
    Ok(Verdicts {
        bmc: judge(&mut bmc, &mut nv, Bank::Bmc, &engine),
        pch: judge(&mut pch, &mut nv, Bank::Pch, &engine),
    })
}

fn write_verdicts<K: Sink>(verdicts: &Verdicts, out: &mut K) -> Result<(), SinkFail>
    requires { HaveCauses verdicts.now }
    ensures { Writes K.tells K.written K.faults out.old out.new
        (verdict_text bank.Bmc verdicts.now.bmc ++ verdict_text bank.Pch verdicts.now.pch) result }
{
    write_verdict(Bank::Bmc, &verdicts.bmc, out)?;
    write_verdict(Bank::Pch, &verdicts.pch, out)
}

/// Loads the files, judges both banks and writes their verdicts. Nothing is stored.
pub fn check<S: Shelf, K: Sink>(
    alloc: Global,
    request: &CheckRequest<'_>,
    shelf: &mut S,
    out: &mut K,
) -> Status
    ensures cause { ChecksFor S.tells (outside S.files S.faults S.failed K.written K.faults shelf.old out.old)
        (outside S.files S.faults S.failed K.written K.faults shelf.new out.new) request.now result }
    ensures files { S.tells ≡ true → S.files shelf.new ≡ S.files shelf.old }
    ensures output { CheckOutput S.tells K.tells (outside S.files S.faults S.failed K.written K.faults shelf.old out.old)
        (outside S.files S.faults S.failed K.written K.faults shelf.new out.new) request.now result }
    ensures shelf_later { S.faults shelf.old ≤ S.faults shelf.new }
    ensures sink_later { K.faults out.old ≤ K.faults out.new }
    ensures faultless { IsFaultless result (S.faults shelf.old) (S.faults shelf.new) }
{
    let images = match load_images(alloc, shelf, request) {
        Ok(images) => images,
        Err(status) => return status,
    };
    match judge_banks(alloc, images) {
        Ok(verdicts) => match write_verdicts(&verdicts, out) {
            Ok(()) => Status::Done,
            Err(_) => Status::WriteFault,
        },
        Err(_) => Status::NoMemory,
    }
}
