// What a capsule does with a bank's pages.
ghost use Rattle.std.specs.Prelude.{◌≡◌, ◌+◌, ◌*◌, ◌/◌, ◌%◌, ◌≤◌, ◌<◌, ◌^◌, ◌++◌, length, vec_len, OnOk, IfOk};
ghost use Rattle.pfr_made.specs.Pages.{bits_of, map_bytes, page_payload, payload_of, use_of};

use crate::region::{has_byte, is_in};
use pfr_description::{BankDescription, PageUse, RegionDescription};
use pfr_flash::NoMemory;
use pfr_made::PageMap;
use std::alloc::Global;

/// The size of a page in bytes.
pub const PAGE: u32 = 4096;

// what a capsule does with a page
fn use_of(regions: &[RegionDescription], page: u32) -> PageUse
    requires { page * 4096 < 2 ^ 32 }
    ensures { result ≡ use_of regions.now page }
{
    for region in regions {
        if has_byte(region, PAGE * page) {
            return region.pages;
        }
    }
    PageUse::Keep
}

// the bits of eight pages, that of the first the highest
#[tactic(auto, using(crate::proofs::PageSteps::bits_small), unfolding(pfr_made::specs::Pages::bits_of))]
fn map_byte(part: &BankDescription, map: PageMap, first: u32) -> u8
    requires { first * 4096 + 32768 ≤ 2 ^ 32 }
    ensures { result ≡ bits_of part.now map first 8 }
{
    let mut bits = 0;
    for page in 0..8 {
        bits = bits * 2 + u8::from(is_in(use_of(&part.regions, first + page), map));
    }
    bits
}

/// Appends a map of all pages.
#[tactic(auto, unfolding(pfr_made::specs::Pages::map_bytes))]
pub fn push_map(body: &mut Vec<u8>, part: &BankDescription, map: PageMap) -> Result<(), NoMemory>
    requires { part.now.size < 2 ^ 32 }
    ensures { OnOk result (body.new.items ≡ body.old.items ++ map_bytes part.now map (part.now.size / 4096 / 8)) }
{
    for eight in 0..part.size / PAGE / 8 {
        body.push(map_byte(part, map, 8 * eight))?;
    }
    Ok(())
}

// appends what the capsule brings for a page
fn push_page(
    payload: &mut Vec<u8>,
    part: &BankDescription,
    image: &[u8],
    page: u32,
) -> Result<(), NoMemory>
    requires inside { page * 4096 + 4096 ≤ length image.now }
    requires small { page * 4096 < 2 ^ 32 }
    ensures bytes { OnOk result (payload.new.items ≡ payload.old.items ++ page_payload part.now image.now page) }
    ensures len { OnOk result (vec_len payload.new ≤ vec_len payload.old + 4096) }
{
    if is_in(use_of(&part.regions, page), PageMap::Copy) {
        let at = (PAGE * page) as usize;
        payload.extend_from_slice(&image[at..at + 4096])?;
    }
    Ok(())
}

/// The pages that the capsule brings.
#[tactic(auto, unfolding(pfr_made::specs::Pages::payload_of))]
pub fn payload_of(alloc: Global, part: &BankDescription, image: &[u8]) -> Result<Vec<u8>, NoMemory>
    requires { length image.now ≡ part.now.size }
    ensures bytes { IfOk result (λ payload. payload.items ≡ payload_of part.now image.now (part.now.size / 4096)) }
    ensures short { IfOk result (λ payload. vec_len payload ≤ part.now.size) }
{
    let mut payload = Vec::new(alloc);
    for page in 0..part.size / PAGE {
        push_page(&mut payload, part, image, page)?;
    }
    Ok(payload)
}
