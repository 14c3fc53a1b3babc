// The regions of a bank, in its image.
ghost use Rattle.std.specs.Prelude.{◌≡◌, ℕ, List, length};
ghost use Rattle.pfr_manifest.specs.Spelling.{hash_info};
ghost use Rattle.pfr_made.specs.Images.{is_blank, blanked};
ghost use Rattle.pfr_made.specs.Manifests.{hash_of};
ghost use Rattle.pfr_made.specs.Pages.{has_bit, has_byte};
ghost use Rattle.pfr_made.specs.Entries.{stretch_of};
ghost use Rattle.pfr_manifest.specs.Hashes.{bytes_between};
ghost use Rattle.pfr_manifest.specs.Regions.{LiesInside};

use pfr_description::{HashKind, PageUse, RegionDescription};
use pfr_made::PageMap;
use pfr_manifest::Stretch;

/// Whether a page of this use has its bit in a map of the capsule.
pub fn is_in(pages: PageUse, map: PageMap) -> bool
    ensures { result ≡ has_bit map pages }
{
    match map {
        PageMap::Erase => pages != PageUse::Keep,
        PageMap::Copy => pages == PageUse::Copy,
    }
}

/// Whether a byte lies in the region.
pub fn has_byte(region: &RegionDescription, at: u32) -> bool
    ensures { result ≡ has_byte region.now at }
{
    region.start <= at && at < region.end
}

/// Where it lies, and whether the bank's bus may write it.
pub fn stretch_of(region: &RegionDescription) -> Stretch
    ensures { result ≡ stretch_of region.now }
{
    Stretch {
        start: region.start,
        end: region.end,
        writable: (region.mask >> 1) & 1 == 1,
    }
}

/// The region's bytes.
pub fn bytes_in<'a>(region: &RegionDescription, image: &'a [u8]) -> &'a [u8]
    requires { LiesInside (length image.now) region.now.start region.now.end }
    ensures { result.now ≡ bytes_between image.now region.now.start region.now.end }
{
    &image[region.start as usize..region.end as usize]
}

/// Makes the region 0xFF.
pub fn blank_in(region: &RegionDescription, image: &mut [u8])
    requires { LiesInside (length image.old) region.now.start region.now.end }
    ensures { image.new ≡ blanked region.now image.old }
{
    image[region.start as usize..region.end as usize].fill(0xFF);
}

/// Whether its digest is that of blank pages.
pub fn is_blank(region: &RegionDescription) -> bool
    ensures { result ≡ is_blank region.now }
{
    region.hash.is_some() && region.pages == PageUse::Erase
}

/// The number that a manifest has for the digest's kind.
pub fn hash_info(region: &RegionDescription) -> u16
    ensures { (bytes : List ℕ) → result ≡ hash_info (hash_of region.now.hash bytes) }
{
    match region.hash {
        None => 0,
        Some(HashKind::Sha256) => 1,
        Some(HashKind::Sha384) => 2,
    }
}
