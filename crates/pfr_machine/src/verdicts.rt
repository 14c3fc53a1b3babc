// What is found of a bank and its images, without a change of any of them.
ghost use Rattle.std.specs.Prelude.{◌≡◌, ◌↔◌, ℕ, List, IsTrue, Some, Ok, IfOk, IfErr};
ghost use Rattle.pfr_flash.specs.Answer.{IsFound};
ghost use Rattle.pfr_auth.specs.Answer.{active_failure};
ghost use Rattle.pfr_flash.specs.FlashState.{now, size_of};
ghost use Rattle.pfr_flash.specs.Layout.{IsBankSize, IsValidLayout};
ghost use Rattle.pfr_flash.specs.Reading.{EndsAt, failed_by};
ghost use Rattle.pfr_fuses.specs.FuseMap.{IsFloor};
ghost use Rattle.pfr_fuses.specs.FusesOf.{fuses_of};
ghost use Rattle.pfr_fuses.specs.RootSlot.{layout_of};
ghost use Rattle.pfr_capsule.specs.Answer.{capsule_failure};
ghost use Rattle.pfr_auth.specs.Areas.{judge_area};
ghost use Rattle.pfr_auth.specs.Judge.{judge_active};
ghost use Rattle.pfr_report.specs.Verdicts.{HasCauses};
ghost use Rattle.pfr_report.specs.declared.verdict.Standing.TheVariants.{Ready};
ghost use Rattle.pfr_machine.specs.Verdicts.{EndsEither, IsVerdict, job_told, ready, svn_of_capsule, svn_of_image, untold, verdict_of, verdict_with};
ghost use Rattle.pfr_machine.specs.VerdictsInside.{AreOne, Brings, IsBorneOut, IsGoodIn, IsSound, standing_without, tells};

use crate::judging::read_fuses;
use pfr_auth::{ActiveFail, Area, active, capsule_at};
use pfr_capsule::{Capsule, CapsuleFail};
use pfr_chain::{ChainFail, Engine};
use pfr_flash::{Bank, Flash, FlashFail, Layout};
use pfr_fuses::{FuseFail, Fuses};
use pfr_jobs::{JobLog, OpenJob};
use pfr_manifest::Manifest;
use pfr_report::{BankVerdict, Standing};

// The verdict of a bank that isn't ready.
fn untold(standing: Standing) -> BankVerdict
    ensures found { result ≡ untold standing }
    ensures causes { HasCauses result }
{
    BankVerdict {
        standing,
        floor: 0,
        job: OpenJob::None,
        active: Err(ActiveFail::Chain(ChainFail::ShortBlock)),
        recovery: Err(CapsuleFail::Chain(ChainFail::ShortBlock)),
        staging: Err(CapsuleFail::Chain(ChainFail::ShortBlock)),
        same_manifest: false,
    }
}

// How a bank stands where the platform isn't provisioned.
fn standing_without(why: FuseFail) -> Standing
    ensures { result ≡ standing_without why }
{
    match why {
        FuseFail::SlotsSpent => Standing::SlotsSpent,
        FuseFail::NotProvisioned
        | FuseFail::AlreadyProvisioned
        | FuseFail::LayoutBad(_, _)
        | FuseFail::Flash(_) => Standing::Unprovisioned,
    }
}

fn svn_of_image(image: &Result<Manifest, ActiveFail>) -> Result<u8, ActiveFail>
    ensures { result ≡ svn_of_image image.now }
{
    match image {
        Ok(manifest) => Ok(manifest.svn),
        Err(why) => Err(*why),
    }
}

fn svn_of_capsule(found: &Result<Capsule, CapsuleFail>) -> Result<u8, CapsuleFail>
    ensures { result ≡ svn_of_capsule found.now }
{
    match found {
        Ok(capsule) => Ok(capsule.manifest().svn),
        Err(why) => Err(*why),
    }
}

// Whether a capsule is good, and has this manifest.
fn brings(found: &Result<Capsule, CapsuleFail>, manifest: &Manifest) -> bool
    ensures { IsTrue result ↔ Brings manifest.now found.now }
{
    match found {
        Ok(capsule) => capsule.manifest().is_same(manifest),
        Err(_) => false,
    }
}

// Whether an image is trusted, and a capsule is good and has the image's manifest.
fn share_manifest(
    image: &Result<Manifest, ActiveFail>,
    found: &Result<Capsule, CapsuleFail>,
) -> bool
    ensures { IsTrue result ↔ AreOne image.now found.now }
{
    match image {
        Ok(manifest) => brings(found, manifest),
        Err(_) => false,
    }
}

// The verdict of a bank that is ready, by what is judged of its images.
fn told(
    floor: u32,
    image: &Result<Manifest, ActiveFail>,
    recovery: &Result<Capsule, CapsuleFail>,
    staging: &Result<Capsule, CapsuleFail>,
) -> BankVerdict
    requires image { IfErr image.now (IsFound active_failure) }
    requires recovery { IfErr recovery.now (IsFound capsule_failure) }
    requires staging { IfErr staging.now (IsFound capsule_failure) }
    ensures tells { result ≡ tells floor image.now recovery.now staging.now result.same_manifest }
    ensures same { IsTrue result.same_manifest ↔ AreOne image.now staging.now }
    ensures causes { HasCauses result }
{
    BankVerdict {
        standing: Standing::Ready,
        floor,
        job: OpenJob::None,
        active: svn_of_image(image),
        recovery: svn_of_capsule(recovery),
        staging: svn_of_capsule(staging),
        same_manifest: share_manifest(image, staging),
    }
}

// The active image of a bank whose layout is valid.
fn judge_image<F: Flash, E: Engine>(
    flash: &mut F,
    bank: Bank,
    layout: &Layout,
    fuses: &Fuses,
    engine: &E,
) -> Result<Result<Manifest, ActiveFail>, FlashFail>
    requires size { IsBankSize (size_of (F.device flash.old)) }
    requires layout { layout.now ≡ layout_of fuses.now.provision bank }
    requires valid { IsValidLayout layout.now (size_of (F.device flash.old)) }
    ensures found { IfOk result (λ image. image ≡ judge_active (now (F.device flash.old)) bank fuses.now (E.accepts engine.now)) }
    ensures cause { IfOk result (λ image. IfErr image (IsFound active_failure)) }
    ensures trusted { IfOk result (λ image. IfOk image (IsBorneOut bank (now (F.device flash.old)) fuses.now (E.accepts engine.now))) }
    ensures ends { EndsAt (failed_by (λ fail. Some fail) result) (F.device flash.old) (F.device flash.new) }
{
    match active(flash, bank, layout, fuses, engine) {
        Ok(manifest) => Ok(Ok(manifest)),
        Err(why) => match why.failure() {
            Some(fail) => Err(fail),
            None => Ok(Err(why)),
        },
    }
}

// The capsule in an area of a bank whose layout is valid.
fn judge_area<F: Flash, E: Engine>(
    flash: &mut F,
    area: Area,
    bank: Bank,
    layout: &Layout,
    fuses: &Fuses,
    engine: &E,
) -> Result<Result<Capsule, CapsuleFail>, FlashFail>
    requires size { IsBankSize (size_of (F.device flash.old)) }
    requires layout { layout.now ≡ layout_of fuses.now.provision bank }
    requires valid { IsValidLayout layout.now (size_of (F.device flash.old)) }
    ensures found { IfOk result (λ found. found ≡ judge_area area bank (now (F.device flash.old)) fuses.now (E.accepts engine.now)) }
    ensures cause { IfOk result (λ found. IfErr found (IsFound capsule_failure)) }
    ensures good { IfOk result (λ found. IfOk found (IsGoodIn area bank (now (F.device flash.old)) fuses.now (E.accepts engine.now))) }
    ensures ends { EndsAt (failed_by (λ fail. Some fail) result) (F.device flash.old) (F.device flash.new) }
{
    match capsule_at(flash, area, bank, layout, fuses, engine) {
        Ok(capsule) => Ok(Ok(capsule)),
        Err(why) => match why.failure() {
            Some(fail) => Err(fail),
            None => Ok(Err(why)),
        },
    }
}

// The verdict of a bank whose layout is valid.
fn judge_images<F: Flash, E: Engine>(
    flash: &mut F,
    bank: Bank,
    layout: &Layout,
    fuses: &Fuses,
    engine: &E,
) -> Result<BankVerdict, FlashFail>
    requires size { IsBankSize (size_of (F.device flash.old)) }
    requires layout { layout.now ≡ layout_of fuses.now.provision bank }
    requires valid { IsValidLayout layout.now (size_of (F.device flash.old)) }
    ensures found { IfOk result (λ verdict. (nv : List ℕ) → fuses_of nv ≡ Ok fuses.now →
        verdict ≡ ready bank (now (F.device flash.old)) fuses.now (E.accepts engine.now)) }
    ensures sound { IfOk result (λ verdict. (nv : List ℕ) → fuses_of nv ≡ Ok fuses.now →
        IsSound verdict bank (now (F.device flash.old)) nv (E.accepts engine.now)) }
    ensures causes { IfOk result HasCauses }
    ensures ends { EndsAt (failed_by (λ fail. Some fail) result) (F.device flash.old) (F.device flash.new) }
{
    let image = judge_image(flash, bank, layout, fuses, engine)?;
    let recovery = judge_area(flash, Area::Recovery, bank, layout, fuses, engine)?;
    let staging = judge_area(flash, Area::Staging, bank, layout, fuses, engine)?;
    Ok(told(fuses.floor(bank), &image, &recovery, &staging))
}

// The verdict of a bank of a platform that is provisioned.
fn judge_provisioned<F: Flash, E: Engine>(
    flash: &mut F,
    bank: Bank,
    fuses: &Fuses,
    engine: &E,
) -> Result<BankVerdict, FlashFail>
    requires size { IsBankSize (size_of (F.device flash.old)) }
    ensures found { IfOk result (λ verdict. (nv : List ℕ) → fuses_of nv ≡ Ok fuses.now →
        verdict ≡ verdict_with bank (now (F.device flash.old)) (E.accepts engine.now) (Ok fuses.now)) }
    ensures sound { IfOk result (λ verdict. (nv : List ℕ) → fuses_of nv ≡ Ok fuses.now →
        IsSound verdict bank (now (F.device flash.old)) nv (E.accepts engine.now)) }
    ensures causes { IfOk result HasCauses }
    ensures ends { EndsAt (failed_by (λ fail. Some fail) result) (F.device flash.old) (F.device flash.new) }
{
    let layout = fuses.provision().layout(bank);
    match layout.judge(flash.size()) {
        Err(rule) => Ok(untold(Standing::LayoutBad(rule))),
        Ok(()) => judge_images(flash, bank, layout, fuses, engine),
    }
}

// The verdict of a bank, by what the store provisions the platform with.
fn judge_with<F: Flash, E: Engine>(
    flash: &mut F,
    bank: Bank,
    found: &Result<Fuses, FuseFail>,
    engine: &E,
) -> Result<BankVerdict, FlashFail>
    requires size { IsBankSize (size_of (F.device flash.old)) }
    ensures found { IfOk result (λ verdict. (nv : List ℕ) → fuses_of nv ≡ found.now →
        verdict ≡ verdict_with bank (now (F.device flash.old)) (E.accepts engine.now) found.now) }
    ensures sound { IfOk result (λ verdict. (nv : List ℕ) → fuses_of nv ≡ found.now →
        IsSound verdict bank (now (F.device flash.old)) nv (E.accepts engine.now)) }
    ensures causes { IfOk result HasCauses }
    ensures ends { EndsAt (failed_by (λ fail. Some fail) result) (F.device flash.old) (F.device flash.new) }
{
    match found {
        Ok(fuses) => judge_provisioned(flash, bank, fuses, engine),
        Err(why) => Ok(untold(standing_without(*why))),
    }
}

// A verdict with what the bank's log has open, where the bank is ready.
fn tell_job(verdict: BankVerdict, job: OpenJob) -> BankVerdict
    ensures told { result ≡ job_told verdict.standing job verdict }
    ensures causes { HasCauses verdict → HasCauses result }
{
    match verdict.standing {
        Standing::Ready => BankVerdict { job, ..verdict },
        Standing::Unprovisioned | Standing::SlotsSpent | Standing::LayoutBad(_) => verdict,
    }
}

/// The verdict of a bank, by its flash and the store. Neither of them is changed.
pub fn verdict<F: Flash, E: Engine>(
    flash: &mut F,
    nv: &mut F,
    bank: Bank,
    engine: &E,
) -> Result<BankVerdict, FlashFail>
    requires size { IsBankSize (size_of (F.device flash.old)) }
    requires store { size_of (F.device nv.old) ≡ 32768 }
    // It tells exactly what is so.
    ensures means { IfOk result (λ verdict. IsVerdict verdict bank (now (F.device flash.old)) (now (F.device nv.old)) (E.accepts engine.now)) }
    ensures floor { IfOk result (λ verdict. verdict.standing ≡ Ready → IsFloor (now (F.device nv.old)) bank verdict.floor) }
    // Which causes it has: the first in order, and none is a failed device.
    ensures exact { IfOk result (λ found. found ≡ verdict_of bank (now (F.device flash.old)) (now (F.device nv.old)) (E.accepts engine.now)) }
    ensures causes { IfOk result HasCauses }
    // Neither device is changed; where one fails, one read of it did and no other.
    ensures ends { EndsEither result (F.device flash.old) (F.device flash.new) (F.device nv.old) (F.device nv.new) }
{
    let found = read_fuses(nv)?;
    let log = JobLog::load(nv, bank)?;
    let verdict = judge_with(flash, bank, &found, engine)?;
    Ok(tell_job(verdict, log.job()))
}
