// The hashes of a manifest's regions.
ghost use Rattle.std.specs.Prelude.{◌≡◌, ◌≤◌, All, IfOk, Some};
ghost use Rattle.pfr_flash.specs.FlashState.{now, size_of};
ghost use Rattle.pfr_flash.specs.Reading.{EndsAt, failed_by};
ghost use Rattle.pfr_flash.specs.Answer.{Answers};
ghost use Rattle.pfr_auth.specs.Answer.{active_failure};
ghost use Rattle.pfr_auth.specs.Judge.{is_hashed, judge_regions};
ghost use Rattle.pfr_manifest.specs.Regions.{LiesInside};

use crate::fail::ActiveFail;
use pfr_chain::{digest256_at, digest384_at};
use pfr_flash::{Flash, FlashFail};
use pfr_manifest::{Region, RegionHash, Regions};

/// Whether the region's bytes have its hash. Without a hash any bytes will do.
#[tactic(auto, unfolding(crate::specs::Judge::is_hashed))]
fn is_hashed<F: Flash>(flash: &mut F, region: &Region) -> Result<bool, FlashFail>
    requires { LiesInside (size_of (F.device flash.old)) region.now.start region.now.end }
    ensures exact { IfOk result (λ matches. matches ≡ is_hashed (now (F.device flash.old)) region.now) }
    ensures ends { EndsAt (failed_by (λ fail. Some fail) result) (F.device flash.old) (F.device flash.new) }
{
    let len = region.end - region.start;
    match region.hash {
        RegionHash::None => Ok(true),
        RegionHash::Sha256(digest) => Ok(digest256_at(flash, region.start, len)? == digest),
        RegionHash::Sha384(digest) => Ok(digest384_at(flash, region.start, len)? == digest),
    }
}

/// Compares the hashes of the regions, in order.
#[tactic(auto, using(pfr_flash::proofs::EndsLemmas::then_ends))]
pub fn check_regions<F: Flash>(flash: &mut F, regions: &Regions) -> Result<(), ActiveFail>
    requires { All (λ region. LiesInside (size_of (F.device flash.old)) region.start region.end) regions.now }
    ensures exact { Answers active_failure result (judge_regions (now (F.device flash.old)) 0 regions.now) }
    ensures ends { EndsAt (failed_by active_failure result) (F.device flash.old) (F.device flash.new) }
{
    for k in 0..regions.len() {
        if !is_hashed(flash, regions.get(k))? {
            return Err(ActiveFail::RegionHash(k));
        }
    }
    Ok(())
}
