// The judgement of a capsule.
ghost use Rattle.std.specs.Prelude.{◌≡◌, ◌+◌, ◌*◌, ◌/◌, ◌%◌, ◌≤◌, length, All, IfOk, OnOk, IfErr};
ghost use Rattle.pfr_flash.specs.FlashState.{now, size_of};
ghost use Rattle.pfr_flash.specs.Layout.{IsBankSize, IsValidLayout};
ghost use Rattle.pfr_flash.specs.Reading.{EndsAt, failed_by};
ghost use Rattle.pfr_manifest.specs.Regions.{IsRegion};
ghost use Rattle.pfr_flash.specs.Answer.{Answers, IsFound};
ghost use Rattle.pfr_capsule.specs.Answer.{capsule_failure};
ghost use Rattle.pfr_capsule.specs.Judge.{judge_numbers, judge_header, judge_maps, judge_pages, judge_capsule};
ghost use Rattle.pfr_capsule.specs.Maps.{count_before};
ghost use Rattle.pfr_capsule.specs.Pages.{HasIndex};

use crate::capsule::Capsule;
use crate::fail::CapsuleFail;
use crate::maps::{count_before, index, page_outside, uncovered_region, unerased_copy};
use crate::page_bytes::incoherent_region;
use crate::page_header::{HEADER, PageHeader};
use crate::pages::{PAGE, Pages};
use crate::signed::{Signed, end_of, key_of, signed_at};
use crate::span::Span;
use pfr_chain::{Engine, digest256_at};
use pfr_flash::{Bank, Flash, Layout};
use pfr_fuses::Fuses;
use pfr_manifest::Regions;

/// The most bytes that a map has.
const LONGEST_MAP: usize = 2048;

/// The numbers of a header at a place, for a body that ends there, in a bank of this size.
#[tactic(auto, unfolding(crate::specs::Judge::judge_numbers))]
fn check_numbers(header: &PageHeader, at: u32, end: u32, size: u32) -> Result<(), CapsuleFail>
    ensures exact { result ≡ judge_numbers header.now at end size }
    ensures bits { OnOk result (header.now.map_bits ≡ size / 4096) }
    ensures fills { OnOk result (at + 128 + header.now.map_bits / 8 + header.now.map_bits / 8 + header.now.payload_len ≡ end) }
    ensures found { IfErr result (IsFound capsule_failure) }
{
    let maps = u64::from(header.map_bits / 8) + u64::from(header.map_bits / 8);
    let filled = u64::from(at) + HEADER as u64 + maps + u64::from(header.payload_len);
    if !header.has_constants() {
        return Err(CapsuleFail::PbcHeader);
    }
    if header.map_bits != size / PAGE {
        return Err(CapsuleFail::MapBits);
    }
    if filled != u64::from(end) {
        return Err(CapsuleFail::BodyLength);
    }
    Ok(())
}

/// The page-block header at a place, for a body that ends there.
#[tactic(auto, using(pfr_flash::proofs::EndsLemmas::then_ends), unfolding(crate::specs::Judge::judge_header))]
fn header_at<F: Flash>(flash: &mut F, at: u32, end: u32) -> Result<PageHeader, CapsuleFail>
    requires begins { at ≤ end }
    requires ends { end ≤ size_of (F.device flash.old) }
    ensures exact { Answers capsule_failure result (judge_header (now (F.device flash.old)) at end) }
    ensures bits { IfOk result (λ header. header.map_bits ≡ size_of (F.device flash.old) / 4096) }
    ensures fills { IfOk result (λ header. at + 128 + header.map_bits / 8 + header.map_bits / 8 + header.payload_len ≡ end) }
    ensures ends { EndsAt (failed_by capsule_failure result) (F.device flash.old) (F.device flash.new) }
{
    let size = flash.size();
    if end - at < HEADER as u32 {
        return Err(CapsuleFail::PbcHeader);
    }
    let mut bytes = [0; HEADER];
    flash.read(at, &mut bytes)?;
    let header = PageHeader::read(&bytes);
    check_numbers(&header, at, end, size)?;
    Ok(header)
}

/// Both maps, of so many pages, for a payload of this length and the regions.
#[tactic(auto, unfolding(crate::specs::Judge::judge_maps))]
fn check_maps(
    erase: &[u8],
    copy: &[u8],
    bits: u32,
    payload_len: u32,
    regions: &Regions,
) -> Result<(), CapsuleFail>
    requires few { bits ≤ 16384 }
    requires erase { bits ≤ 8 * length erase.now }
    requires copy { bits ≤ 8 * length copy.now }
    ensures exact { result ≡ judge_maps erase.now copy.now bits payload_len regions.now }
    ensures payload { OnOk result (payload_len ≡ 4096 * count_before copy.now bits) }
    ensures found { IfErr result (IsFound capsule_failure) }
{
    if let Some(page) = unerased_copy(erase, copy, bits) {
        return Err(CapsuleFail::CopyNotErase(page));
    }
    if let Some(page) = page_outside(erase, regions, bits) {
        return Err(CapsuleFail::PageOutside(page));
    }
    if payload_len != PAGE * count_before(copy, bits) {
        return Err(CapsuleFail::PayloadLength);
    }
    if let Some(k) = uncovered_region(erase, regions, bits) {
        return Err(CapsuleFail::StaticNotCovered(k));
    }
    Ok(())
}

/// The pages whose maps and payload stand from a place on, as the header in front of it says.
#[tactic(auto, using(pfr_flash::proofs::EndsLemmas::then_ends), unfolding(crate::specs::Judge::judge_pages))]
fn pages_at<F: Flash>(
    flash: &mut F,
    at: u32,
    header: &PageHeader,
    regions: &Regions,
) -> Result<Pages, CapsuleFail>
    requires few { header.now.map_bits ≤ 16384 }
    requires whole { header.now.map_bits % 16 ≡ 0 }
    requires inside { at + header.now.map_bits / 8 + header.now.map_bits / 8 + header.now.payload_len ≤ size_of (F.device flash.old) }
    ensures exact { Answers capsule_failure result (judge_pages (now (F.device flash.old)) at header.now regions.now) }
    ensures index { IfOk result (HasIndex (now (F.device flash.old))) }
    ensures bits { IfOk result (λ pages. pages.bits ≡ header.now.map_bits) }
    ensures ends { EndsAt (failed_by capsule_failure result) (F.device flash.old) (F.device flash.new) }
{
    // Places in a flash fit a u32, as its size does.
    let _size = flash.size();
    let bits = header.map_bits;
    let bytes = bits / 8;
    let copy_at = at + bytes;
    let mut erase = [0; LONGEST_MAP];
    let mut copy = [0; LONGEST_MAP];
    let erase = &mut erase[..bytes as usize];
    let copy = &mut copy[..bytes as usize];
    flash.read(at, erase)?;
    flash.read(copy_at, copy)?;
    check_maps(erase, copy, bits, header.payload_len, regions)?;
    Ok(Pages {
        erase_at: at,
        copy_at,
        payload_at: copy_at + bytes,
        bits,
        before: index(copy, bits),
    })
}

/// The capsule at a place within a length, as the judgement alone.
#[tactic(auto, using(pfr_flash::proofs::EndsLemmas::then_ends), unfolding(crate::specs::Judge::judge_capsule))]
pub fn judged<F: Flash, E: Engine>(
    flash: &mut F,
    place: u32,
    len: u32,
    bank: Bank,
    layout: &Layout,
    fuses: &Fuses,
    engine: &E,
) -> Result<Capsule, CapsuleFail>
    requires size { IsBankSize (size_of (F.device flash.old)) }
    requires inside { place + len ≤ size_of (F.device flash.old) }
    requires valid { IsValidLayout layout.now (size_of (F.device flash.old)) }
    ensures exact { Answers capsule_failure result
        (judge_capsule (now (F.device flash.old)) place len bank layout.now fuses.now (E.accepts engine.now)) }
    ensures pages { IfOk result (λ c. HasIndex (now (F.device flash.old)) c.pages) }
    ensures regions { IfOk result (λ c. All (IsRegion layout.now (size_of (F.device flash.old))) c.manifest.regions) }
    ensures ends { EndsAt (failed_by capsule_failure result) (F.device flash.old) (F.device flash.new) }
{
    let signed = signed_at(flash, place, len, bank, layout, fuses, engine)?;
    let at = end_of(&signed.inner);
    let end = end_of(&signed.capsule);
    let header = header_at(flash, at, end)?;
    let pages = pages_at(flash, at + HEADER as u32, &header, &signed.manifest.regions)?;
    if let Some(k) = incoherent_region(flash, &pages, &signed.manifest.regions)? {
        return Err(CapsuleFail::Incoherent(k));
    }
    let size = end - place;
    let digest = digest256_at(flash, place, size)?;
    Ok(Capsule {
        size,
        digest,
        capsule_key: key_of(&signed.capsule),
        manifest_key: key_of(&signed.inner),
        signed_manifest: Span {
            at: signed.capsule.content_at,
            len: at - signed.capsule.content_at,
        },
        pages,
        manifest: signed.manifest,
    })
}
