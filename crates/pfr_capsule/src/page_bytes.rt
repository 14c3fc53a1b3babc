// The bytes that the pages of a capsule give, and the hashes of regions over them.
ghost use Rattle.std.specs.Prelude.{◌≡◌, ℕ, ◌+◌, ◌*◌, ◌≤◌, ◌++◌, List, All, OnOk, IfOk, IfErr};
ghost use Rattle.pfr_flash.specs.Bytes.{blank};
ghost use Rattle.pfr_flash.specs.FlashState.{now, size_of};
ghost use Rattle.pfr_flash.specs.Reading.{EndsAt, failed_by};
ghost use Rattle.pfr_capsule.specs.PageBytes.{EndsInMap, page_bytes, region_bytes, is_coherent, incoherent_region};
ghost use Rattle.pfr_capsule.specs.Pages.{HasIndex, IsPayloadInside};

use crate::pages::{PAGE, Page, Pages};
use pfr_flash::{Flash, FlashFail};
use pfr_manifest::{Region, RegionHash, Regions};
use sha2::{Digest, Sha256, Sha384};

/// The bytes of a page that was erased.
#[tactic(auto, unfolding(pfr_flash::specs::Bytes::blank))]
fn blank_page() -> [u8; PAGE as usize]
    ensures { result ≡ blank }
{
    [0xff; PAGE as usize]
}

// adds what a page gives to the hasher's message
fn feed_page<F: Flash, H: Digest>(
    flash: &mut F,
    page: Page,
    hasher: &mut H,
) -> Result<(), FlashFail>
    requires { IsPayloadInside (size_of (F.device flash.old)) page }
    ensures fed { (m : List ℕ) → H.holds hasher.old m → OnOk result (H.holds hasher.new (m ++ page_bytes (now (F.device flash.old)) page)) }
    ensures ends { EndsAt (failed_by (λ fail. Some fail) result) (F.device flash.old) (F.device flash.new) }
{
    let mut bytes = blank_page();
    match page {
        Page::Keep => return Ok(()),
        Page::Blank => {}
        Page::Copy(at) => flash.read(at, &mut bytes)?,
    }
    hasher.update(&bytes);
    Ok(())
}

// adds what the pages of a region give to the hasher's message
#[tactic(auto, using(pfr_flash::proofs::EndsLemmas::then_ends))]
fn feed_region<F: Flash, H: Digest>(
    flash: &mut F,
    pages: &Pages,
    region: &Region,
    hasher: &mut H,
) -> Result<(), FlashFail>
    requires size { size_of (F.device flash.old) ≤ 67108864 }
    requires index { HasIndex (now (F.device flash.old)) pages.now }
    requires inside { EndsInMap pages.now region.now }
    ensures fed { (m : List ℕ) → H.holds hasher.old m → OnOk result (H.holds hasher.new (m ++ region_bytes (now (F.device flash.old)) pages.now region.now)) }
    ensures ends { EndsAt (failed_by (λ fail. Some fail) result) (F.device flash.old) (F.device flash.new) }
{
    for n in region.start / PAGE..region.end / PAGE {
        let page = pages.page(flash, n)?;
        feed_page(flash, page, hasher)?;
    }
    Ok(())
}

/// Whether what the pages give for the region has its hash. Without a hash any bytes will do.
#[tactic(auto, unfolding(crate::specs::PageBytes::is_coherent))]
fn is_coherent<F: Flash>(flash: &mut F, pages: &Pages, region: &Region) -> Result<bool, FlashFail>
    requires size { size_of (F.device flash.old) ≤ 67108864 }
    requires index { HasIndex (now (F.device flash.old)) pages.now }
    requires inside { EndsInMap pages.now region.now }
    ensures exact { IfOk result (λ matches. matches ≡ is_coherent (now (F.device flash.old)) pages.now region.now) }
    ensures ends { EndsAt (failed_by (λ fail. Some fail) result) (F.device flash.old) (F.device flash.new) }
{
    match region.hash {
        RegionHash::None => Ok(true),
        RegionHash::Sha256(digest) => {
            let mut hasher = Sha256::new();
            feed_region(flash, pages, region, &mut hasher)?;
            Ok(hasher.finalize() == digest)
        }
        RegionHash::Sha384(digest) => {
            let mut hasher = Sha384::new();
            feed_region(flash, pages, region, &mut hasher)?;
            Ok(hasher.finalize() == digest)
        }
    }
}

/// The number of the first static region for which the pages give bytes that don't have its hash.
#[tactic(auto, using(pfr_flash::proofs::EndsLemmas::then_ends))]
pub fn incoherent_region<F: Flash>(
    flash: &mut F,
    pages: &Pages,
    regions: &Regions,
) -> Result<Option<u32>, FlashFail>
    requires size { size_of (F.device flash.old) ≤ 67108864 }
    requires index { HasIndex (now (F.device flash.old)) pages.now }
    requires inside { All (EndsInMap pages.now) regions.now }
    ensures exact { IfOk result (λ found. found ≡ incoherent_region (now (F.device flash.old)) pages.now regions.now) }
    ensures ends { EndsAt (failed_by (λ fail. Some fail) result) (F.device flash.old) (F.device flash.new) }
{
    for k in 0..regions.len() {
        if !is_coherent(flash, pages, regions.get(k))? {
            return Ok(Some(k));
        }
    }
    Ok(None)
}
