// The manifests of banks.
ghost use Rattle.std.specs.Prelude.{◌≡◌, ◌+◌, ◌<◌, ◌≤◌, ◌^◌, ◌++◌, [], length, map, vec_len, OnOk, IfOk};
ghost use Rattle.std.specs.List.{All, flat_map};
ghost use Rattle.pfr_manifest.specs.Spelling.{digest_of, header_bytes, region_bytes, rule_bytes};
ghost use Rattle.pfr_description.specs.Banks.{bank_of};
ghost use Rattle.pfr_made.specs.Manifests.{hash_of, region_of, rule_of, entry_bytes, manifest_with, text_of};
ghost use Rattle.pfr_made.specs.Judge.{Judged, fit_manifest};
ghost use Rattle.pfr_made.specs.Images.{signed_manifest, manifest_rows};
ghost use Rattle.pfr_manifest.specs.Regions.{LiesInside};

use crate::block::{BLOCK, Signed, sign_content};
use crate::region::{bytes_in, hash_info};
use crate::writing::{fill_up, push_number, push_short, push_zeros};
use pfr_description::{
    BankDescription, DescFail, DescWhy, Description, FitPart, HashKind, RegionDescription,
    SmbusDescription,
};
use pfr_flash::{Bank, NoMemory};
use sha2::{Digest, Sha256, Sha384};
use std::alloc::Global;

const HEADER: usize = 32;

// appends the digest of these bytes
fn push_digest(entries: &mut Vec<u8>, hash: Option<HashKind>, bytes: &[u8]) -> Result<(), NoMemory>
    ensures { OnOk result (entries.new.items ≡ entries.old.items ++ digest_of (hash_of hash bytes.now)) }
{
    match hash {
        None => {}
        Some(HashKind::Sha256) => entries.extend_from_slice(&Sha256::digest(bytes))?,
        Some(HashKind::Sha384) => entries.extend_from_slice(&Sha384::digest(bytes))?,
    }
    Ok(())
}

// appends the definition of a region of this image
#[tactic(auto, unfolding(pfr_manifest::specs::Spelling::region_bytes, pfr_made::specs::Manifests::region_of, pfr_made::specs::Fields::number_bytes))]
fn push_region(
    entries: &mut Vec<u8>,
    region: &RegionDescription,
    image: &[u8],
) -> Result<(), NoMemory>
    requires { LiesInside (length image.now) region.now.start region.now.end }
    ensures { OnOk result (entries.new.items ≡ entries.old.items ++ region_bytes (region_of image.now region.now)) }
{
    entries.extend_from_slice(&[1, region.mask])?;
    push_short(entries, hash_info(region))?;
    push_zeros(entries, 4)?;
    push_number(entries, region.start)?;
    push_number(entries, region.end)?;
    push_digest(entries, region.hash, bytes_in(region, image))
}

fn push_regions(
    entries: &mut Vec<u8>,
    regions: &[RegionDescription],
    image: &[u8],
) -> Result<(), NoMemory>
    requires { All (λ region. LiesInside (length image.now) region.start region.end) regions.now }
    ensures { OnOk result (entries.new.items ≡ entries.old.items ++ flat_map region_bytes (map (region_of image.now) regions.now)) }
{
    for region in regions {
        push_region(entries, region, image)?;
    }
    Ok(())
}

// appends the definition of a rule
#[tactic(auto, unfolding(pfr_manifest::specs::Spelling::rule_bytes, pfr_made::specs::Manifests::rule_of))]
fn push_rule(entries: &mut Vec<u8>, rule: &SmbusDescription) -> Result<(), NoMemory>
    ensures { OnOk result (entries.new.items ≡ entries.old.items ++ rule_bytes (rule_of rule.now)) }
{
    entries.push(2)?;
    push_zeros(entries, 4)?;
    entries.extend_from_slice(&[rule.bus, rule.rule, rule.address])?;
    entries.extend_from_slice(&rule.commands)?;
    Ok(())
}

fn push_rules(entries: &mut Vec<u8>, rules: &[SmbusDescription]) -> Result<(), NoMemory>
    ensures { OnOk result (entries.new.items ≡ entries.old.items ++ flat_map rule_bytes (map rule_of rules.now)) }
{
    for rule in rules {
        push_rule(entries, rule)?;
    }
    Ok(())
}

#[tactic(auto, unfolding(pfr_manifest::specs::Spelling::header_bytes, pfr_made::specs::Fields::number_bytes))]
fn push_header(manifest: &mut Vec<u8>, part: &BankDescription, length: u32) -> Result<(), NoMemory>
    ensures bytes { OnOk result (manifest.new.items ≡ manifest.old.items ++ header_bytes (manifest_with part.now length [] [])) }
    ensures len { OnOk result (vec_len manifest.new ≡ vec_len manifest.old + 32) }
{
    push_number(manifest, 0x02B3_CE1D)?;
    manifest.extend_from_slice(&[part.svn, part.bkc])?;
    manifest.extend_from_slice(&part.revision)?;
    push_zeros(manifest, 4)?;
    manifest.extend_from_slice(&part.oem)?;
    push_number(manifest, length)
}

// the definitions of the regions, then of the rules
#[tactic(auto, unfolding(pfr_made::specs::Manifests::entry_bytes))]
fn entries_of(alloc: Global, part: &BankDescription, image: &[u8]) -> Result<Vec<u8>, NoMemory>
    requires { All (λ region. LiesInside (length image.now) region.start region.end) part.now.regions }
    ensures { IfOk result (λ entries. entries.items ≡ entry_bytes part.now image.now) }
{
    let mut entries = Vec::new(alloc);
    push_regions(&mut entries, &part.regions, image)?;
    push_rules(&mut entries, &part.smbus)?;
    Ok(entries)
}

// the manifest of a bank with this active image
#[tactic(auto, using(crate::proofs::Texts::text_made), unfolding(pfr_made::specs::Judge::fit_manifest))]
fn manifest_of(
    alloc: Global,
    bank: Bank,
    part: &BankDescription,
    image: &[u8],
) -> Result<Vec<u8>, DescFail>
    requires { All (λ region. LiesInside (length image.now) region.start region.end) part.now.regions }
    ensures bytes { IfOk result (λ manifest. manifest.items ≡ text_of part.now image.now) }
    ensures fits { IfOk result (λ manifest. 1024 + vec_len manifest ≤ part.now.layout.manifest_len) }
    ensures short { IfOk result (λ manifest. 1024 + vec_len manifest < 2 ^ 32) }
    ensures judged { Judged result (fit_manifest bank part.now image.now) }
{
    let entries = entries_of(alloc, part, image)?;
    let used = HEADER + entries.len();
    let length = used + (128 - used % 128) % 128;
    if BLOCK + length > part.layout.manifest_len as usize {
        return Err(DescFail::Why(DescWhy::Fit(bank, FitPart::Manifest)));
    }
    let mut manifest = Vec::new(alloc);
    push_header(&mut manifest, part, length as u32)?;
    manifest.extend_from_slice(&entries)?;
    fill_up(&mut manifest, length)?;
    Ok(manifest)
}

/// The signed manifest of a bank with this active image.
#[tactic(auto, unfolding(pfr_made::specs::Images::signed_manifest, pfr_made::specs::Images::manifest_rows))]
pub fn signed_manifest(
    alloc: Global,
    desc: &Description,
    bank: Bank,
    image: &[u8],
) -> Result<Signed, DescFail>
    requires { All (λ region. LiesInside (length image.now) region.start region.end) (bank_of desc.now bank).regions }
    ensures bytes { IfOk result (λ signed. signed.bytes.items ≡ signed_manifest desc.now bank image.now) }
    ensures rows { IfOk result (λ signed. signed.rows.items ≡ manifest_rows desc.now bank image.now) }
    ensures fits { IfOk result (λ signed. vec_len signed.bytes ≤ (bank_of desc.now bank).layout.manifest_len) }
    ensures short { IfOk result (λ signed. vec_len signed.bytes < 2 ^ 32) }
    ensures judged { Judged result (fit_manifest bank (bank_of desc.now bank) image.now) }
{
    let part = desc.bank(bank);
    let manifest = manifest_of(alloc, bank, part, image)?;
    let signed = sign_content(
        alloc,
        desc,
        &part.manifest_key,
        bank.manifest_type(),
        &manifest,
    )?;
    Ok(signed)
}
