// The maps of a capsule: the pages that are erased, and those that are copied.
ghost use Rattle.std.specs.Prelude.{◌≡◌, ℕ, ◌*◌, ◌<◌, ◌≤◌, ◌&&◌, not, length, slice_index, is_some};
ghost use Rattle.pfr_capsule.specs.Maps.{map_bit, count_before, has_page, in_some_region, kept_page, is_uncovered, unerased_copy, page_outside, uncovered_region};
ghost use Rattle.pfr_capsule.specs.Pages.{indexed};

use pfr_manifest::{Region, Regions};

/// Whether page `n` has its bit.
#[tactic(auto, unfolding(crate::specs::Maps::map_bit))]
pub fn has_bit(map: &[u8], n: u32) -> bool
    requires { n < 8 * length map.now }
    ensures { result ≡ map_bit map.now n }
{
    (map[(n / 8) as usize] >> (7 - n % 8)) & 1 == 1
}

/// How many of the first `n` pages have their bit.
pub fn count_before(map: &[u8], n: u32) -> u32
    requires { n ≤ 8 * length map.now }
    ensures { result ≡ count_before map.now n }
{
    let mut count = 0;
    for byte in &map[0..(n / 8) as usize] {
        count += byte.count_ones();
    }
    if n % 8 > 0 {
        count += (map[(n / 8) as usize] >> (8 - n % 8)).count_ones();
    }
    count
}

/// For each stretch of 64 pages, how many pages before it are copied: 0 for one that lies past the map's bits.
pub fn index(copy: &[u8], bits: u32) -> [u16; 256]
    requires few { bits ≤ 16384 }
    requires inside { bits ≤ 8 * length copy.now }
    ensures each { (i : ℕ) → i < 256 → slice_index result i ≡ indexed copy.now bits i }
    ensures long { length result ≡ 256 }
{
    let mut before = [0; 256];
    let mut count: u16 = 0;
    for n in 0..bits {
        if n % 64 == 0 {
            before[(n / 64) as usize] = count;
        }
        if has_bit(copy, n) {
            count += 1;
        }
    }
    before
}

/// The least page that is to be copied and not erased.
#[tactic(auto, unfolding(crate::specs::Maps::unerased_copy))]
pub fn unerased_copy(erase: &[u8], copy: &[u8], bits: u32) -> Option<u32>
    requires erase { bits ≤ 8 * length erase.now }
    requires copy { bits ≤ 8 * length copy.now }
    ensures { result ≡ unerased_copy erase.now copy.now bits }
{
    for n in 0..bits {
        if has_bit(copy, n) && !has_bit(erase, n) {
            return Some(n);
        }
    }
    None
}

/// Whether the page lies in the region.
fn has_page(region: &Region, n: u32) -> bool
    requires { n < 16384 }
    ensures { result ≡ has_page region.now n }
{
    let at = n * 4096;
    region.start <= at && at < region.end
}

/// Whether the page lies in one of the regions.
fn in_some_region(regions: &Regions, n: u32) -> bool
    requires { n < 16384 }
    ensures { result ≡ in_some_region regions.now n }
{
    for k in 0..regions.len() {
        if has_page(regions.get(k), n) {
            return true;
        }
    }
    false
}

/// The least page that is to be erased and lies in no region.
#[tactic(auto, unfolding(crate::specs::Maps::page_outside))]
pub fn page_outside(erase: &[u8], regions: &Regions, bits: u32) -> Option<u32>
    requires few { bits ≤ 16384 }
    requires inside { bits ≤ 8 * length erase.now }
    ensures { result ≡ page_outside erase.now regions.now bits }
{
    for n in 0..bits {
        if has_bit(erase, n) && !in_some_region(regions, n) {
            return Some(n);
        }
    }
    None
}

/// The least page of the region that is not to be erased.
#[tactic(auto, unfolding(crate::specs::Maps::kept_page))]
fn kept_page(erase: &[u8], bits: u32, region: &Region) -> Option<u32>
    requires few { bits ≤ 16384 }
    requires inside { bits ≤ 8 * length erase.now }
    ensures { result ≡ kept_page erase.now bits region.now }
{
    for n in 0..bits {
        if has_page(region, n) && !has_bit(erase, n) {
            return Some(n);
        }
    }
    None
}

/// Whether the region is static and has a page that is not to be erased.
fn is_uncovered(erase: &[u8], bits: u32, region: &Region) -> bool
    requires few { bits ≤ 16384 }
    requires inside { bits ≤ 8 * length erase.now }
    ensures { result ≡ is_uncovered erase.now bits region.now }
{
    region.is_static() && kept_page(erase, bits, region).is_some()
}

/// The number of the first static region with a page that is not to be erased.
pub fn uncovered_region(erase: &[u8], regions: &Regions, bits: u32) -> Option<u32>
    requires few { bits ≤ 16384 }
    requires inside { bits ≤ 8 * length erase.now }
    ensures { result ≡ uncovered_region erase.now regions.now bits }
{
    for k in 0..regions.len() {
        if is_uncovered(erase, bits, regions.get(k)) {
            return Some(k);
        }
    }
    None
}
