// Which pages a job takes.
ghost use Rattle.std.specs.Prelude.{◌≡◌, ◌+◌, ◌<◌, ◌≤◌, ◌&&◌, filter};
ghost use Rattle.pfr_capsule.specs.Maps.{has_page, in_some_region};
ghost use Rattle.pfr_copy.specs.Applying.{IsActive};
ghost use Rattle.pfr_rebuilt.specs.ActiveCopying.{is_taken};
ghost use Rattle.pfr_rebuilt.specs.Copying.{holds_text};

use pfr_jobs::JobKind;
use pfr_manifest::{Region, Regions};

/// How many bytes a page has.
pub const PAGE: u32 = 4096;

/// Whether page `n` holds a byte of an area of so many bytes at a place.
pub fn holds_text(at: u32, len: u32, n: u32) -> bool
    requires area { at + len ≤ 67108864 }
    requires page { n < 16384 }
    ensures { result ≡ holds_text at len n }
{
    at <= PAGE * n && PAGE * n < at + len
}

// Whether the page lies in the region.
fn has_page(region: &Region, n: u32) -> bool
    requires { n < 16384 }
    ensures { result ≡ has_page region.now n }
{
    region.start <= PAGE * n && PAGE * n < region.end
}

// Whether the job writes the pages of the region.
fn is_taken(kind: JobKind, region: &Region) -> bool
    requires { IsActive kind }
    ensures { result ≡ is_taken kind region.now }
{
    match kind {
        JobKind::ActiveFromRecovery { level } => region.is_restored(level),
        JobKind::ActiveFromStaging { dynamic } => region.is_static() || dynamic,
        JobKind::RecoveryFromStaging => false,
    }
}

// Whether the page lies in the region, and the job writes it.
fn takes_page(kind: JobKind, region: &Region, n: u32) -> bool
    requires kind { IsActive kind }
    requires page { n < 16384 }
    ensures { result ≡ (is_taken kind region.now && has_page region.now n) }
{
    is_taken(kind, region) && has_page(region, n)
}

/// Whether page `n` lies in a region whose pages the job writes.
pub fn in_taken_region(kind: JobKind, regions: &Regions, n: u32) -> bool
    requires kind { IsActive kind }
    requires page { n < 16384 }
    ensures { result ≡ in_some_region (filter (λ region. is_taken kind region) regions.now) n }
{
    for k in 0..regions.len() {
        if takes_page(kind, regions.get(k), n) {
            return true;
        }
    }
    false
}
