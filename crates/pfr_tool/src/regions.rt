// Judges what a manifest would have of a description.
ghost use Rattle.std.specs.Prelude.{◌≡◌, OnOk};
ghost use Rattle.std.specs.List.{All};
ghost use Rattle.pfr_made.specs.Entries.{judge_next, judge_regions, judge_entries};
ghost use Rattle.pfr_manifest.specs.Regions.{LiesInside};

use crate::region::stretch_of;
use pfr_description::{BankDescription, RegionDescription};
use pfr_flash::Layout;
use pfr_manifest::ManifestFail;

/// How many regions and how many rules a manifest may have.
const MOST: usize = 64;

const GREATEST_SVN: u8 = 127;

// region k, behind a region from one place to another
#[tactic(auto, unfolding(pfr_made::specs::Entries::judge_next))]
fn check_region(
    k: usize,
    region: &RegionDescription,
    last: (u32, u32),
    layout: &Layout,
    size: u32,
) -> Result<(), ManifestFail>
    ensures { result ≡ judge_next k region.now last.0 last.1 layout.now size }
{
    if k >= MOST {
        return Err(ManifestFail::TooMany);
    }
    let has_hash = region.hash.is_some();
    stretch_of(region).judge(k as u32, has_hash, last, layout, size)
}

fn check_regions(
    regions: &[RegionDescription],
    layout: &Layout,
    size: u32,
) -> Result<(), ManifestFail>
    ensures { result ≡ judge_regions 0 0 0 regions.now layout.now size }
{
    let mut last = (0, 0);
    for (k, region) in regions.iter().enumerate() {
        check_region(k, region, last, layout, size)?;
        last = (region.start, region.end);
    }
    Ok(())
}

/// Whether a manifest may have what the description gives a bank.
#[tactic(auto, unfolding(pfr_made::specs::Entries::judge_entries))]
pub fn check_entries(part: &BankDescription) -> Result<(), ManifestFail>
    ensures exact { result ≡ judge_entries part.now }
    ensures inside { OnOk result (All (λ region. LiesInside part.now.size region.start region.end) part.now.regions) }
{
    if part.svn > GREATEST_SVN {
        return Err(ManifestFail::Svn);
    }
    check_regions(&part.regions, &part.layout, part.size)?;
    if part.smbus.len() > MOST {
        return Err(ManifestFail::TooMany);
    }
    Ok(())
}
