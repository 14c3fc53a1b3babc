// What is signed in a capsule: its body, and at the body's head the manifest.
ghost use Rattle.std.specs.Prelude.{◌≡◌, ◌+◌, ◌^◌, ◌<◌, ◌≤◌, IfOk};
ghost use Rattle.pfr_flash.specs.FlashState.{now, size_of};
ghost use Rattle.pfr_flash.specs.Layout.{IsValidLayout};
ghost use Rattle.pfr_flash.specs.Reading.{EndsAt, failed_by};
ghost use Rattle.pfr_manifest.specs.Regions.{IsRegion};
ghost use Rattle.pfr_flash.specs.Answer.{Answers};
ghost use Rattle.pfr_capsule.specs.Answer.{capsule_failure};
ghost use Rattle.pfr_capsule.specs.Signed.{IsSigned, IsCapsuleChain, IsInnerChain, end_of, key_of};
ghost use Rattle.pfr_capsule.specs.SignedJudge.{judge_capsule_chain, judge_inner_chain, judge_signed};

use crate::fail::CapsuleFail;
use pfr_chain::{Chain, Engine, verify};
use pfr_flash::{Bank, Flash, Layout};
use pfr_fuses::Fuses;
use pfr_manifest::Manifest;

/// The chains of a capsule and of its manifest, and the manifest.
#[derive(Drop)]
pub struct Signed {
    pub capsule: Chain,
    pub inner: Chain,
    pub manifest: Manifest,
}

// the chain of a capsule at a place within a length
#[tactic(auto, unfolding(crate::specs::SignedJudge::judge_capsule_chain))]
fn capsule_chain<F: Flash, E: Engine>(
    flash: &mut F,
    place: u32,
    len: u32,
    bank: Bank,
    fuses: &Fuses,
    engine: &E,
) -> Result<Chain, CapsuleFail>
    requires { place + len ≤ size_of (F.device flash.old) }
    ensures ok { IfOk result (IsCapsuleChain (now (F.device flash.old)) place len bank fuses.now (E.accepts engine.now)) }
    ensures within { IfOk result (λ chain. end_of chain ≤ place + len) }
    ensures exact { Answers capsule_failure result (judge_capsule_chain (now (F.device flash.old)) place len bank fuses.now (E.accepts engine.now)) }
    ensures ends { EndsAt (failed_by capsule_failure result) (F.device flash.old) (F.device flash.new) }
{
    let ty = bank.capsule_type();
    let root = &fuses.provision().root;
    let cancelled = fuses.row(bank.capsule_type());
    verify(flash, place, len, ty, root, cancelled, engine).map_err(CapsuleFail::Chain)
}

// the chain of the manifest in a capsule
#[tactic(auto, unfolding(crate::specs::SignedJudge::judge_inner_chain))]
fn inner_chain<F: Flash, E: Engine>(
    flash: &mut F,
    bank: Bank,
    layout: &Layout,
    fuses: &Fuses,
    engine: &E,
    capsule: &Chain,
) -> Result<Chain, CapsuleFail>
    requires { end_of capsule.now ≤ size_of (F.device flash.old) }
    ensures ok { IfOk result (IsInnerChain (now (F.device flash.old)) bank layout.now fuses.now (E.accepts engine.now) capsule.now) }
    ensures within { IfOk result (λ chain. end_of chain ≤ end_of capsule.now) }
    ensures exact { Answers capsule_failure result (judge_inner_chain (now (F.device flash.old)) bank layout.now fuses.now (E.accepts engine.now) capsule.now) }
    ensures ends { EndsAt (failed_by capsule_failure result) (F.device flash.old) (F.device flash.new) }
{
    let ty = bank.manifest_type();
    let len = capsule.length.min(layout.manifest_len);
    let root = &fuses.provision().root;
    let cancelled = fuses.row(bank.manifest_type());
    verify(flash, capsule.content_at, len, ty, root, cancelled, engine).map_err(
        CapsuleFail::ManifestChain,
    )
}

/// Where a signed content ends.
pub fn end_of(chain: &Chain) -> u32
    requires { end_of chain.now < 2 ^ 32 }
    ensures { result ≡ end_of chain.now }
{
    chain.content_at + chain.length
}

/// The id of the key that signed a capsule or a manifest.
pub fn key_of(chain: &Chain) -> u8
    ensures { result ≡ key_of chain.now }
{
    chain.key.unwrap_or(0)
}

/// What is signed in the capsule at a place within a length.
#[tactic(auto, using(pfr_flash::proofs::EndsLemmas::then_ends), unfolding(crate::specs::SignedJudge::judge_signed))]
pub fn signed_at<F: Flash, E: Engine>(
    flash: &mut F,
    place: u32,
    len: u32,
    bank: Bank,
    layout: &Layout,
    fuses: &Fuses,
    engine: &E,
) -> Result<Signed, CapsuleFail>
    requires inside { place + len ≤ size_of (F.device flash.old) }
    requires valid { IsValidLayout layout.now (size_of (F.device flash.old)) }
    ensures ok { IfOk result (IsSigned (now (F.device flash.old)) place len bank layout.now fuses.now (E.accepts engine.now)) }
    ensures exact { Answers capsule_failure result (judge_signed (now (F.device flash.old)) place len bank layout.now fuses.now (E.accepts engine.now)) }
    ensures within { IfOk result (λ signed. end_of signed.capsule ≤ place + len) }
    ensures inner { IfOk result (λ signed. end_of signed.inner ≤ end_of signed.capsule) }
    ensures ends { EndsAt (failed_by capsule_failure result) (F.device flash.old) (F.device flash.new) }
{
    let capsule = capsule_chain(flash, place, len, bank, fuses, engine)?;
    let inner = inner_chain(flash, bank, layout, fuses, engine, &capsule)?;
    let manifest = Manifest::read(flash, inner.content_at, inner.length, layout)?;
    if u32::from(manifest.svn) < fuses.floor(bank) {
        return Err(CapsuleFail::SvnFloor);
    }
    Ok(Signed {
        capsule,
        inner,
        manifest,
    })
}
