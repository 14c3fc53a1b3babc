// The update capsules of banks.
ghost use Rattle.std.specs.Prelude.{◌≡◌, ◌<◌, ◌≤◌, ◌^◌, ◌++◌, length, vec_len, OnOk, IfOk};
ghost use Rattle.pfr_description.specs.Banks.{bank_of};
ghost use Rattle.pfr_made.specs.Capsules.{page_header, pages_bytes, capsule_body, signed_capsule, capsule_rows};
ghost use Rattle.pfr_made.specs.Images.{signed_manifest};
ghost use Rattle.pfr_made.specs.Judge.{Judged, fit_capsule};

use crate::block::{BLOCK, Signed, sign_content};
use crate::pages::{PAGE, payload_of, push_map};
use crate::writing::{pad, push_number};
use pfr_description::{BankDescription, DescFail, DescWhy, Description, FitPart};
use pfr_flash::{Bank, NoMemory};
use pfr_made::PageMap;
use std::alloc::Global;

const PAGE_HEADER: usize = 128;

// the header of the pages
#[tactic(auto, unfolding(pfr_made::specs::Capsules::page_header))]
fn page_header(alloc: Global, map_bits: u32, payload_len: u32) -> Result<Vec<u8>, NoMemory>
    ensures { IfOk result (λ header. header.items ≡ page_header map_bits payload_len) }
{
    let mut header = Vec::new(alloc);
    push_number(&mut header, 0x5F50_4243)?;
    push_number(&mut header, 2)?;
    push_number(&mut header, PAGE)?;
    push_number(&mut header, 1)?;
    push_number(&mut header, 0xFF)?;
    push_number(&mut header, map_bits)?;
    push_number(&mut header, payload_len)?;
    pad(&mut header, PAGE_HEADER)?;
    Ok(header)
}

// appends the header, the maps and the payload
#[tactic(auto, unfolding(pfr_made::specs::Capsules::pages_bytes))]
fn push_pages(
    alloc: Global,
    body: &mut Vec<u8>,
    part: &BankDescription,
    image: &[u8],
) -> Result<(), NoMemory>
    requires { length image.now ≡ part.now.size }
    ensures { OnOk result (body.new.items ≡ body.old.items ++ pages_bytes part.now image.now) }
{
    let payload = payload_of(alloc, part, image)?;
    let header = page_header(alloc, part.size / PAGE, payload.len() as u32)?;
    body.extend_from_slice(&header)?;
    push_map(body, part, PageMap::Erase)?;
    push_map(body, part, PageMap::Copy)?;
    body.extend_from_slice(&payload)?;
    Ok(())
}

// what the capsule's block signs
#[tactic(auto, unfolding(pfr_made::specs::Capsules::capsule_body))]
fn capsule_body(
    alloc: Global,
    desc: &Description,
    bank: Bank,
    manifest: &[u8],
    image: &[u8],
) -> Result<Vec<u8>, NoMemory>
    requires image { length image.now ≡ (bank_of desc.now bank).size }
    requires manifest { manifest.now ≡ signed_manifest desc.now bank image.now }
    ensures { IfOk result (λ body. body.items ≡ capsule_body desc.now bank image.now) }
{
    let mut body = Vec::from_slice(alloc, manifest)?;
    push_pages(alloc, &mut body, desc.bank(bank), image)?;
    Ok(body)
}

/// The capsule of a bank with this signed manifest and active image.
#[tactic(auto, unfolding(pfr_made::specs::Capsules::signed_capsule, pfr_made::specs::Capsules::capsule_rows, pfr_made::specs::Judge::fit_capsule))]
pub fn signed_capsule(
    alloc: Global,
    desc: &Description,
    bank: Bank,
    manifest: &[u8],
    image: &[u8],
) -> Result<Signed, DescFail>
    requires image { length image.now ≡ (bank_of desc.now bank).size }
    requires manifest { manifest.now ≡ signed_manifest desc.now bank image.now }
    ensures bytes { IfOk result (λ signed. signed.bytes.items ≡ signed_capsule desc.now bank image.now) }
    ensures rows { IfOk result (λ signed. signed.rows.items ≡ capsule_rows desc.now bank image.now) }
    ensures fits { IfOk result (λ signed. vec_len signed.bytes ≤ (bank_of desc.now bank).layout.area_len) }
    ensures judged { Judged result (fit_capsule bank desc.now image.now) }
{
    let part = desc.bank(bank);
    let body = capsule_body(alloc, desc, bank, manifest, image)?;
    if BLOCK + body.len() > part.layout.area_len as usize {
        return Err(DescFail::Why(DescWhy::Fit(bank, FitPart::Capsule)));
    }
    let signed = sign_content(alloc, desc, &part.capsule_key, bank.capsule_type(), &body)?;
    Ok(signed)
}
