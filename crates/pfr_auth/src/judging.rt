// The judgement of a bank's active image.
ghost use Rattle.std.specs.Prelude.{◌≡◌, All, IfOk};
ghost use Rattle.pfr_flash.specs.FlashState.{now, size_of};
ghost use Rattle.pfr_flash.specs.Layout.{IsValidLayout};
ghost use Rattle.pfr_flash.specs.Reading.{EndsAt, failed_by};
ghost use Rattle.pfr_fuses.specs.RootSlot.{layout_of};
ghost use Rattle.pfr_manifest.specs.Regions.{IsRegion};
ghost use Rattle.pfr_flash.specs.Answer.{Answers};
ghost use Rattle.pfr_auth.specs.Answer.{active_failure};
ghost use Rattle.pfr_auth.specs.Judge.{judge_signed, judge_active};

use crate::fail::ActiveFail;
use crate::hashes::check_regions;
use pfr_chain::{Engine, verify};
use pfr_flash::{Bank, Flash, Layout};
use pfr_fuses::Fuses;
use pfr_manifest::Manifest;

/// The manifest that is signed in the bank's manifest area.
#[tactic(auto, using(pfr_flash::proofs::EndsLemmas::then_ends))]
fn signed_manifest<F: Flash, E: Engine>(
    flash: &mut F,
    bank: Bank,
    layout: &Layout,
    fuses: &Fuses,
    engine: &E,
) -> Result<Manifest, ActiveFail>
    requires layout { layout.now ≡ layout_of fuses.now.provision bank }
    requires valid { IsValidLayout layout.now (size_of (F.device flash.old)) }
    ensures exact { Answers active_failure result (judge_signed (now (F.device flash.old)) bank fuses.now (E.accepts engine.now)) }
    ensures regions { IfOk result (λ m. All (IsRegion layout.now (size_of (F.device flash.old))) m.regions) }
    ensures ends { EndsAt (failed_by active_failure result) (F.device flash.old) (F.device flash.new) }
{
    let ty = bank.manifest_type();
    let provision = fuses.provision();
    let cancelled = fuses.row(ty);
    let chain = verify(
        flash,
        layout.manifest_at,
        layout.manifest_len,
        ty,
        &provision.root,
        cancelled,
        engine,
    )?;
    Ok(Manifest::read(flash, chain.content_at, chain.length, layout)?)
}

/// The manifest of the bank's active image, as the judgement alone.
#[tactic(auto, using(pfr_flash::proofs::EndsLemmas::then_ends), unfolding(crate::specs::Judge::judge_active))]
pub fn judged<F: Flash, E: Engine>(
    flash: &mut F,
    bank: Bank,
    layout: &Layout,
    fuses: &Fuses,
    engine: &E,
) -> Result<Manifest, ActiveFail>
    requires layout { layout.now ≡ layout_of fuses.now.provision bank }
    requires valid { IsValidLayout layout.now (size_of (F.device flash.old)) }
    ensures exact { Answers active_failure result (judge_active (now (F.device flash.old)) bank fuses.now (E.accepts engine.now)) }
    ensures ends { EndsAt (failed_by active_failure result) (F.device flash.old) (F.device flash.new) }
{
    let manifest = signed_manifest(flash, bank, layout, fuses, engine)?;
    if u32::from(manifest.svn) < fuses.floor(bank) {
        return Err(ActiveFail::SvnFloor);
    }
    check_regions(flash, &manifest.regions)?;
    Ok(manifest)
}
