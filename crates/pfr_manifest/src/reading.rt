// Reading a manifest from a flash.
ghost use Rattle.std.specs.Prelude.{◌≡◌, ◌+◌, ◌<◌, ◌≤◌, take, drop, IfOk, OnOk};
ghost use Rattle.pfr_flash.specs.Bytes.{bytes_at};
ghost use Rattle.pfr_flash.specs.FlashState.{now, size_of};
ghost use Rattle.pfr_flash.specs.Reading.{EndsAt, failed_by};
ghost use Rattle.pfr_flash.specs.Answer.{Answers};
ghost use Rattle.pfr_manifest.specs.Answer.{manifest_failure};
ghost use Rattle.pfr_manifest.specs.Judge.{HasNoEntries, HasRoom, turns_left, judge_header, judge_entry, judge_tail, judge_entries, judge_manifest};

use crate::entry::{Entry, LONGEST, RULE, check_tail};
use crate::fail::ManifestFail;
use crate::manifest::{HEADER, Manifest, read_header};
use pfr_flash::{Flash, Layout};

/// The header of a content of so many bytes.
#[tactic(auto, unfolding(crate::specs::Judge::judge_header))]
fn header_at<F: Flash>(flash: &mut F, place: u32, size: u32) -> Result<Manifest, ManifestFail>
    requires { place + size ≤ size_of (F.device flash.old) }
    ensures exact { Answers manifest_failure result (judge_header (take 32 (bytes_at (now (F.device flash.old)) place size)) size) }
    ensures empty { IfOk result HasNoEntries }
    ensures some { OnOk result (32 ≤ size) }
    ensures ends { EndsAt (failed_by manifest_failure result) (F.device flash.old) (F.device flash.new) }
{
    if (size as usize) < HEADER {
        return Err(ManifestFail::Magic);
    }
    let mut header = [0; HEADER];
    flash.read(place, &mut header)?;
    read_header(&header, size)
}

/// The entry at a place of a flash, which is `at` in the manifest, with so many bytes left.
fn entry_at<F: Flash>(
    flash: &mut F,
    place: u32,
    left: u32,
    at: u32,
    manifest: &Manifest,
    layout: &Layout,
    bank: u32,
) -> Result<Entry, ManifestFail>
    requires some { 0 < left }
    requires within { place + left ≤ size_of (F.device flash.old) }
    ensures exact { Answers manifest_failure result (judge_entry (take 64 (bytes_at (now (F.device flash.old)) place left)) at manifest.now layout.now bank) }
    ensures room { IfOk result (λ entry. HasRoom entry left manifest.now) }
    ensures ends { EndsAt (failed_by manifest_failure result) (F.device flash.old) (F.device flash.new) }
{
    let mut piece = [0; LONGEST];
    let count = left.min(LONGEST as u32);
    let piece = &mut piece[..count as usize];
    flash.read(place, piece)?;
    Entry::read(piece, at, manifest, layout, bank)
}

/// The tail at a place of a flash.
#[tactic(auto, unfolding(crate::specs::Judge::judge_tail))]
fn tail_at<F: Flash>(flash: &mut F, place: u32, left: u32) -> Result<(), ManifestFail>
    requires { place + left ≤ size_of (F.device flash.old) }
    ensures exact { Answers manifest_failure result (judge_tail (bytes_at (now (F.device flash.old)) place left)) }
    ensures ends { EndsAt (failed_by manifest_failure result) (F.device flash.old) (F.device flash.new) }
{
    if left >= 128 {
        return Err(ManifestFail::Tail);
    }
    let mut tail = [0; 128];
    let tail = &mut tail[..left as usize];
    flash.read(place, tail)?;
    check_tail(tail)
}

/// The entries behind a header, with what stands in it.
#[tactic(auto, using(pfr_flash::proofs::EndsLemmas::then_ends))]
fn entries_at<F: Flash>(
    flash: &mut F,
    place: u32,
    size: u32,
    layout: &Layout,
    bank: u32,
    mut manifest: Manifest,
) -> Result<Manifest, ManifestFail>
    requires within { place + size ≤ size_of (F.device flash.old) }
    requires bank { bank ≡ size_of (F.device flash.old) }
    requires some { 32 ≤ size }
    requires empty { HasNoEntries manifest }
    ensures exact { Answers manifest_failure result (judge_entries (turns_left manifest) (drop 32 (bytes_at (now (F.device flash.old)) place size)) 32 manifest layout.now bank) }
    ensures ends { EndsAt (failed_by manifest_failure result) (F.device flash.old) (F.device flash.new) }
{
    let mut at = HEADER as u32;
    'entries: while at < size {
        match entry_at(flash, place + at, size - at, at, &manifest, layout, bank)? {
            Entry::Tail => {
                tail_at(flash, place + at, size - at)?;
                return Ok(manifest);
            }
            Entry::Region(region) => {
                at += region.definition_len();
                manifest.regions.push(region);
            }
            Entry::Rule(rule) => {
                at += RULE as u32;
                manifest.rules.push(rule);
            }
        }
    }
    Ok(manifest)
}

/// The manifest at a place, or the first cause against it.
#[tactic(auto, using(pfr_flash::proofs::EndsLemmas::then_ends), unfolding(crate::specs::Judge::judge_manifest))]
pub fn judged<F: Flash>(
    flash: &mut F,
    place: u32,
    size: u32,
    layout: &Layout,
) -> Result<Manifest, ManifestFail>
    requires { place + size ≤ size_of (F.device flash.old) }
    ensures exact { Answers manifest_failure result (judge_manifest (bytes_at (now (F.device flash.old)) place size) layout.now (size_of (F.device flash.old))) }
    ensures ends { EndsAt (failed_by manifest_failure result) (F.device flash.old) (F.device flash.new) }
{
    let bank = flash.size();
    let header = header_at(flash, place, size)?;
    entries_at(flash, place, size, layout, bank, header)
}
