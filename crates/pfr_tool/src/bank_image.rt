// A bank's image, and its capsule.
ghost use Rattle.std.specs.Prelude.{◌≡◌, ◌↔◌, ◌≤◌, length, vec_len, IsOk, OnOk, IfOk};
ghost use Rattle.pfr_description.specs.Banks.{bank_of};
ghost use Rattle.pfr_made.specs.Trust.{IsWorthy};
ghost use Rattle.pfr_flash.specs.Layout.{IsValidLayout};
ghost use Rattle.pfr_made.specs.Capsules.{signed_capsule};
ghost use Rattle.pfr_made.specs.Images.{active_of, signed_manifest};
ghost use Rattle.pfr_flash.specs.Judging.{told_as};
ghost use Rattle.pfr_made.specs.Judge.{IsPlaced, Judged, judge_image, require_fit};
ghost use Rattle.pfr_made.specs.Made.{active_image, with_areas, flash_of, rows_of, judge_given, judge_fits, judge_bank};
ghost use Rattle.pfr_made.specs.Entries.{judge_entries};
ghost use Rattle.pfr_manifest.specs.Regions.{LiesInside};
ghost use Rattle.std.specs.List.{All};

use crate::capsule::signed_capsule;
use crate::manifest::signed_manifest;
use crate::place::check_place;
use crate::region::{blank_in, is_blank};
use crate::regions::check_entries;
use crate::writing::put_area;
use pfr_description::{
    BankDescription, DescFail, DescWhy, Description, FitPart, RegionDescription,
};
use pfr_flash::{Bank, Bytes, Layout, NoMemory};
use std::alloc::Global;

/// What is made of a bank's description.
#[derive(Drop)]
pub struct Made {
    /// The bank's image, as long as the bank.
    pub flash: Bytes,
    pub capsule: Bytes,
    /// The engine's rows of the signatures: of the manifest's key and block, then of the capsule's.
    pub rows: Bytes,
}

// makes the regions blank whose digest is that of blank pages
fn blank_regions(image: &mut [u8], regions: &[RegionDescription])
    requires { All (λ region. LiesInside (length image.old) region.start region.end) regions.now }
    ensures { image.new ≡ active_of regions.now image.old }
{
    for region in regions {
        if is_blank(region) {
            blank_in(region, image);
        }
    }
}

// the image with what the description makes blank
fn active_image(alloc: Global, part: &BankDescription, image: &[u8]) -> Result<Vec<u8>, NoMemory>
    requires { All (λ region. LiesInside (length image.now) region.start region.end) part.now.regions }
    ensures bytes { IfOk result (λ active. active.items ≡ active_of part.now.regions image.now) }
    ensures len { IfOk result (λ active. vec_len active ≡ length image.now) }
{
    let mut active = Vec::from_slice(alloc, image)?;
    blank_regions(&mut active, &part.regions);
    Ok(active)
}

// The bank's size and layout, and the image's length.
#[tactic(auto, unfolding(pfr_made::specs::Judge::judge_image))]
fn check_image(desc: &Description, bank: Bank, image: &[u8]) -> Result<(), DescWhy>
    ensures exact { result ≡ judge_image bank (bank_of desc.now bank) image.now }
    ensures ok { IsOk result ↔ (IsPlaced (bank_of desc.now bank) × (length image.now ≡ (bank_of desc.now bank).size)) }
{
    check_place(desc, bank)?;
    if image.len() != desc.bank(bank).size as usize {
        return Err(DescWhy::Fit(bank, FitPart::Image));
    }
    Ok(())
}

// What a manifest would have of the description.
fn check_manifest(bank: Bank, part: &BankDescription) -> Result<(), DescWhy>
    ensures exact { result ≡ told_as (DescWhy.Manifest bank) (judge_entries part.now) }
    ensures inside { OnOk result (All (λ region. LiesInside part.now.size region.start region.end) part.now.regions) }
{
    match check_entries(part) {
        Ok(()) => Ok(()),
        Err(cause) => Err(DescWhy::Manifest(bank, cause)),
    }
}

// What is judged before anything is made.
#[tactic(auto, unfolding(pfr_made::specs::Made::judge_given))]
fn check_given(desc: &Description, bank: Bank, image: &[u8]) -> Result<(), DescWhy>
    ensures exact { result ≡ judge_given desc.now bank image.now }
    ensures placed { OnOk result (IsPlaced (bank_of desc.now bank) × (length image.now ≡ (bank_of desc.now bank).size)) }
    ensures inside { OnOk result (All (λ region. LiesInside (length image.now) region.start region.end) (bank_of desc.now bank).regions) }
    ensures judged { (why : DescWhy) → judge_image bank (bank_of desc.now bank) image.now ≡ Err why → result ≡ Err why }
{
    check_image(desc, bank, image)?;
    check_manifest(bank, desc.bank(bank))
}

fn check_staged(bank: Bank, layout: &Layout, staged: &[u8]) -> Result<(), DescWhy>
    ensures { result ≡ require_fit bank FitPart.Staged (length staged.now) layout.now.area_len }
{
    if staged.len() > layout.area_len as usize {
        return Err(DescWhy::Fit(bank, FitPart::Staged));
    }
    Ok(())
}

// puts what was made into the areas of the image
#[tactic(auto, unfolding(pfr_made::specs::Made::with_areas))]
fn put_areas(image: &mut [u8], layout: &Layout, manifest: &[u8], capsule: &[u8], staged: &[u8])
    requires layout { IsValidLayout layout.now (length image.old) }
    requires manifest { length manifest.now ≤ layout.now.manifest_len }
    requires capsule { length capsule.now ≤ layout.now.area_len }
    requires staged { length staged.now ≤ layout.now.area_len }
    ensures bytes { image.new ≡ with_areas image.old layout.now manifest.now capsule.now staged.now }
    ensures len { length image.new ≡ length image.old }
{
    put_area(image, layout.manifest_at, layout.manifest_len, manifest);
    put_area(image, layout.recovery_at, layout.area_len, capsule);
    put_area(image, layout.staging_at, layout.area_len, staged);
}

/// A bank's active image, its signed manifest, its capsule, and the rows of both.
#[derive(Drop)]
struct Parts {
    active: Vec<u8>,
    manifest: Vec<u8>,
    capsule: Vec<u8>,
    rows: Vec<u8>,
}

// makes the parts of the image, where they and the staged file lie in their areas
#[tactic(auto, unfolding(pfr_made::specs::Made::judge_fits, pfr_made::specs::Made::rows_of))]
fn make_parts(
    alloc: Global,
    desc: &Description,
    bank: Bank,
    image: &[u8],
    staged: &[u8],
) -> Result<Parts, DescFail>
    requires size { length image.now ≡ (bank_of desc.now bank).size }
    requires inside { All (λ region. LiesInside (length image.now) region.start region.end) (bank_of desc.now bank).regions }
    ensures active { IfOk result (λ parts. parts.active.items ≡ active_image desc.now bank image.now) }
    ensures len { IfOk result (λ parts. vec_len parts.active ≡ length image.now) }
    ensures manifest { IfOk result (λ parts. parts.manifest.items ≡ signed_manifest desc.now bank (active_image desc.now bank image.now)) }
    ensures manifest_fits { IfOk result (λ parts. vec_len parts.manifest ≤ (bank_of desc.now bank).layout.manifest_len) }
    ensures capsule { IfOk result (λ parts. parts.capsule.items ≡ signed_capsule desc.now bank (active_image desc.now bank image.now)) }
    ensures capsule_fits { IfOk result (λ parts. vec_len parts.capsule ≤ (bank_of desc.now bank).layout.area_len) }
    ensures rows { IfOk result (λ parts. parts.rows.items ≡ rows_of desc.now bank (active_image desc.now bank image.now)) }
    ensures staged_fits { OnOk result (length staged.now ≤ (bank_of desc.now bank).layout.area_len) }
    ensures judged { Judged result (judge_fits desc.now bank (active_image desc.now bank image.now) staged.now) }
{
    let part = desc.bank(bank);
    let active = active_image(alloc, part, image)?;
    let manifest = signed_manifest(alloc, desc, bank, &active)?;
    let capsule = signed_capsule(alloc, desc, bank, &manifest.bytes, &active)?;
    check_staged(bank, &part.layout, staged)?;
    let mut rows = manifest.rows;
    rows.extend_from_slice(&capsule.rows)?;
    Ok(Parts {
        active,
        manifest: manifest.bytes,
        capsule: capsule.bytes,
        rows,
    })
}

// the bank's image, with its parts in it
#[tactic(auto, unfolding(pfr_made::specs::Made::flash_of))]
fn make_image(
    alloc: Global,
    desc: &Description,
    bank: Bank,
    image: &[u8],
    staged: &[u8],
) -> Result<Made, DescFail>
    ensures flash { IfOk result (λ made. made.flash ≡ flash_of desc.now bank image.now staged.now) }
    ensures capsule { IfOk result (λ made. made.capsule ≡ signed_capsule desc.now bank (active_image desc.now bank image.now)) }
    ensures rows { IfOk result (λ made. made.rows ≡ rows_of desc.now bank (active_image desc.now bank image.now)) }
    ensures size { IfOk result (λ made. length made.flash ≡ (bank_of desc.now bank).size) }
    ensures fits { IfOk result (λ made. length made.capsule ≤ (bank_of desc.now bank).layout.area_len) }
    ensures placed { OnOk result (IsPlaced (bank_of desc.now bank) × (length image.now ≡ (bank_of desc.now bank).size)) }
    ensures place { (why : DescWhy) → judge_image bank (bank_of desc.now bank) image.now ≡ Err why → result ≡ Err (DescFail.Why why) }
    ensures judged { Judged result (judge_bank desc.now bank image.now staged.now) }
{
    check_given(desc, bank, image)?;
    let parts = make_parts(alloc, desc, bank, image, staged)?;
    let layout = &desc.bank(bank).layout;
    let mut flash = parts.active;
    put_areas(&mut flash, layout, &parts.manifest, &parts.capsule, staged);
    Ok(Made {
        flash: Bytes::new(flash),
        capsule: Bytes::new(parts.capsule),
        rows: Bytes::new(parts.rows),
    })
}

/// Makes a bank's image and its capsule of what it holds and what is staged.
///
/// The image has the bank's size in bytes, and the staged file fits in its area. The signatures are marks that protect
/// nothing: an engine takes them by the rows. `Err(Why(why))` names the first rule that is broken, in the order size,
/// layout, image, the manifest's rules, and then whether manifest, capsule and staged file fit in their areas.
#[tactic(auto, using(pfr_made::proofs::WorthMade::worthy_made))]
pub fn make_bank(
    alloc: Global,
    desc: &Description,
    bank: Bank,
    image: &[u8],
    staged: &[u8],
) -> Result<Made, DescFail>
    ensures flash { IfOk result (λ made. made.flash ≡ flash_of desc.now bank image.now staged.now) }
    ensures capsule { IfOk result (λ made. made.capsule ≡ signed_capsule desc.now bank (active_image desc.now bank image.now)) }
    ensures rows { IfOk result (λ made. made.rows ≡ rows_of desc.now bank (active_image desc.now bank image.now)) }
    ensures size { IfOk result (λ made. length made.flash ≡ (bank_of desc.now bank).size) }
    ensures fits { IfOk result (λ made. length made.capsule ≤ (bank_of desc.now bank).layout.area_len) }
    // What is wrong with the bank's place or the image's length is answered first.
    ensures placed { OnOk result (IsPlaced (bank_of desc.now bank) × (length image.now ≡ (bank_of desc.now bank).size)) }
    ensures place { (why : DescWhy) → judge_image bank (bank_of desc.now bank) image.now ≡ Err why → result ≡ Err (DescFail.Why why) }
    // The rule that is named is the first in order.
    ensures judged { Judged result (judge_bank desc.now bank image.now staged.now) }

    // With the store of the same description it is trusted by any engine that accepts the rows, and its recovery area is good.
    ensures worth { IfOk result (λ made. IsWorthy desc.now bank made.flash made.rows) }
{
    desc.sound();
    make_image(alloc, desc, bank, image, staged)
}
