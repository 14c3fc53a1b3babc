// What may stand at a place behind a manifest's header.
ghost use Rattle.std.specs.Prelude.{◌≡◌, ◌<◌, ◌≤◌, length, IfOk, IfErr};
ghost use Rattle.pfr_flash.specs.Answer.{IsFound};
ghost use Rattle.pfr_manifest.specs.Answer.{manifest_failure};
ghost use Rattle.pfr_manifest.specs.Judge.{HasRoom, region_len, region_size, hash_at, region_at, rule_at, judge_definition, judge_region, judge_rule, judge_entry, judge_tail};

use crate::fail::ManifestFail;
use crate::manifest::Manifest;
use crate::region::{Region, RegionHash};
use crate::regions::Regions;
use crate::rule::Rule;
use pfr_flash::{Layout, array_at, number_at, short_number_at};

/// The longest definition.
pub const LONGEST: usize = 64;

/// How long the definition of a rule is.
pub const RULE: usize = 40;

/// How many definitions there may be of each type.
const MOST: u32 = 64;

/// An entry of a manifest, or what follows the last one.
#[derive(Clone, Copy)]
pub enum Entry {
    Tail,
    Region(Region),
    Rule(Rule),
}

/// How long a region's definition is, by its hash info.
#[tactic(auto, unfolding(crate::specs::Judge::region_size))]
fn region_size(entry: &[u8]) -> usize
    requires { 16 ≤ length entry.now }
    ensures { result ≡ region_size entry.now }
{
    match short_number_at(entry, 2) {
        1 => 48,
        2 => 64,
        _ => 16,
    }
}

/// The hash of a region's definition.
#[tactic(auto, unfolding(crate::specs::Judge::region_size, crate::specs::Judge::hash_at))]
fn hash_of(entry: &[u8]) -> Option<RegionHash>
    requires some { 16 ≤ length entry.now }
    requires whole { region_size entry.now ≤ length entry.now }
    ensures { result ≡ hash_at entry.now }
{
    match short_number_at(entry, 2) {
        0 => Some(RegionHash::None),
        1 => Some(RegionHash::Sha256(array_at(entry, 16))),
        2 => Some(RegionHash::Sha384(array_at(entry, 16))),
        _ => None,
    }
}

#[tactic(auto, unfolding(crate::specs::Judge::region_at))]
fn region_of(entry: &[u8], hash: RegionHash) -> Region
    requires { 16 ≤ length entry.now }
    ensures { result ≡ region_at entry.now hash }
{
    Region {
        mask: entry[1],
        reserved: array_at(entry, 4),
        start: number_at(entry, 8),
        end: number_at(entry, 12),
        hash,
    }
}

#[tactic(auto, unfolding(crate::specs::Judge::rule_at))]
fn rule_of(entry: &[u8]) -> Rule
    requires { 40 ≤ length entry.now }
    ensures { result ≡ rule_at entry.now }
{
    Rule {
        reserved: array_at(entry, 1),
        bus: entry[5],
        rule: entry[6],
        address: entry[7],
        commands: array_at(entry, 8),
    }
}

/// The definition of a region at a place, behind the entries that were read.
#[tactic(auto, unfolding(crate::specs::Judge::judge_definition, crate::specs::Judge::region_size, crate::specs::Judge::hash_at, crate::specs::Judge::region_at))]
fn definition(entry: &[u8], place: u32, manifest: &Manifest) -> Result<Region, ManifestFail>
    ensures exact { result ≡ judge_definition entry.now place manifest.now }
    ensures room { IfOk result (λ region. (region_len region ≤ length entry.now) × (length manifest.now.regions < 64)) }
    ensures found { IfErr result (IsFound manifest_failure) }
{
    if !manifest.rules.is_empty() || entry.len() < 16 || entry.len() < region_size(entry) {
        return Err(ManifestFail::EntryType(place));
    }
    let k = manifest.regions.len();
    if k >= MOST {
        return Err(ManifestFail::TooMany);
    }
    let hash = hash_of(entry).ok_or(ManifestFail::HashInfo(k))?;
    Ok(region_of(entry, hash))
}

/// The numbers of a region, behind other regions.
#[tactic(auto, unfolding(crate::specs::Judge::judge_stretch))]
fn check_region(
    region: &Region,
    before: &Regions,
    layout: &Layout,
    bank: u32,
) -> Result<(), ManifestFail>
    ensures exact { result ≡ judge_region region.now before.now layout.now bank }
    ensures found { IfErr result (IsFound manifest_failure) }
{
    let last = (before.last_start(), before.last_end());
    region
        .stretch()
        .judge(before.len(), region.is_static(), last, layout, bank)
}

/// The definition of a rule at a place, behind the entries that were read.
#[tactic(auto, unfolding(crate::specs::Judge::judge_rule))]
fn rule_definition(entry: &[u8], place: u32, manifest: &Manifest) -> Result<Rule, ManifestFail>
    ensures exact { result ≡ judge_rule entry.now place manifest.now }
    ensures room { IfOk result (λ rule. (40 ≤ length entry.now) × (length manifest.now.rules < 64)) }
    ensures found { IfErr result (IsFound manifest_failure) }
{
    if entry.len() < RULE {
        return Err(ManifestFail::EntryType(place));
    }
    if manifest.rules.len() >= MOST {
        return Err(ManifestFail::TooMany);
    }
    Ok(rule_of(entry))
}

impl Entry {
    /// The entry at a place, given as its first 64 bytes or those that there are.
    #[tactic(auto, unfolding(crate::specs::Judge::judge_entry))]
    pub fn read(
        entry: &[u8],
        place: u32,
        manifest: &Manifest,
        layout: &Layout,
        bank: u32,
    ) -> Result<Entry, ManifestFail>
        requires { 0 < length entry.now }
        ensures exact { result ≡ judge_entry entry.now place manifest.now layout.now bank }
        ensures room { IfOk result (λ found. HasRoom found (length entry.now) manifest.now) }
        ensures found { IfErr result (IsFound manifest_failure) }
    {
        match entry[0] {
            0xFF => Ok(Entry::Tail),
            1 => {
                let region = definition(entry, place, manifest)?;
                check_region(&region, &manifest.regions, layout, bank)?;
                Ok(Entry::Region(region))
            }
            2 => Ok(Entry::Rule(rule_definition(entry, place, manifest)?)),
            _ => Err(ManifestFail::EntryType(place)),
        }
    }
}

/// What stands behind the entries.
#[tactic(auto, unfolding(crate::specs::Judge::judge_tail))]
pub fn check_tail(tail: &[u8]) -> Result<(), ManifestFail>
    ensures exact { result ≡ judge_tail tail.now }
    ensures found { IfErr result (IsFound manifest_failure) }
{
    if tail.len() >= 128 || !tail.iter().all(|byte| *byte == 0xFF) {
        return Err(ManifestFail::Tail);
    }
    Ok(())
}
