// The rules of a manifest as their table has them, in its order. Nothing here is shared with the reader.
ghost use Rattle.std.specs.Prelude.{◌≤◌, ◌<◌, ◌+◌, ◌^◌, length};

use crate::ManifestFail;
use byteorder::{ByteOrder, LittleEndian};
use pfr_flash::Layout;

// What was met in front of an entry.
#[derive(Drop)]
struct Met {
    regions: u32,
    rules: u32,
    start: u64,
    end: u64,
}

// the number in the four bytes at a place
fn word(bytes: &[u8], at: usize) -> u64
    requires { at + 4 ≤ length bytes.now }
{
    u64::from(LittleEndian::read_u32(&bytes[at..at + 4]))
}

fn header_rule(bytes: &[u8]) -> Result<(), ManifestFail> {
    if bytes.len() < 32 || bytes[..4] != [0x1d, 0xce, 0xb3, 0x02] {
        return Err(ManifestFail::Magic);
    }
    if bytes[4] > 127 {
        return Err(ManifestFail::Svn);
    }
    let length = word(bytes, 28);
    if length != bytes.len() as u64 || length == 0 || length % 128 != 0 {
        return Err(ManifestFail::Length);
    }
    Ok(())
}

// whether a range shares a byte with an area
fn meets(start: u64, end: u64, at: u32, len: u32) -> bool {
    let first = u64::from(at);
    let behind = first + u64::from(len);
    start < behind && first < end
}

// the numbers of a region behind others
fn range_rule(
    start: u64,
    end: u64,
    met: &Met,
    layout: &Layout,
    bank: u64,
) -> Result<(), ManifestFail> {
    let k = met.regions;
    if start % 4096 != 0 || end % 4096 != 0 {
        return Err(ManifestFail::Align(k));
    }
    if start >= end
        || end > bank
        || meets(start, end, layout.manifest_at, layout.manifest_len)
        || meets(start, end, layout.recovery_at, layout.area_len)
        || meets(start, end, layout.staging_at, layout.area_len)
    {
        return Err(ManifestFail::Range(k));
    }
    if start < met.start {
        return Err(ManifestFail::Order(k));
    }
    if start < met.end {
        return Err(ManifestFail::Overlap(k));
    }
    Ok(())
}

// how long a region's definition is that begins here
fn region_size(entry: &[u8]) -> usize {
    match entry.get(2..4) {
        Some([1, 0]) => 48,
        Some([2, 0]) => 64,
        _ => 16,
    }
}

// the definition of a region at a place, and how long it is
fn region_rule(
    entry: &[u8],
    place: u32,
    met: &mut Met,
    layout: &Layout,
    bank: u64,
) -> Result<usize, ManifestFail> {
    let size = region_size(entry);
    if entry.len() < 16 || entry.len() < size || met.rules > 0 {
        return Err(ManifestFail::EntryType(place));
    }
    if met.regions == 64 {
        return Err(ManifestFail::TooMany);
    }
    let k = met.regions;
    if entry[2] > 2 || entry[3] != 0 {
        return Err(ManifestFail::HashInfo(k));
    }
    if size > 16 && entry[1] & 2 != 0 {
        return Err(ManifestFail::WritableHashed(k));
    }
    let start = word(entry, 8);
    let end = word(entry, 12);
    range_rule(start, end, met, layout, bank)?;
    met.start = start;
    met.end = end;
    met.regions = k.saturating_add(1);
    Ok(size)
}

// the definition of a rule at a place, and how long it is
fn smbus_rule(entry: &[u8], place: u32, met: &mut Met) -> Result<usize, ManifestFail> {
    if entry.len() < 40 {
        return Err(ManifestFail::EntryType(place));
    }
    if met.rules == 64 {
        return Err(ManifestFail::TooMany);
    }
    met.rules = met.rules.saturating_add(1);
    Ok(40)
}

// the entry at a place with all that is behind it, and how long it is
fn entry_rule(
    entry: &[u8],
    place: u32,
    met: &mut Met,
    layout: &Layout,
    bank: u64,
) -> Result<usize, ManifestFail> {
    match entry.first() {
        Some(1) => region_rule(entry, place, met, layout, bank),
        Some(2) => smbus_rule(entry, place, met),
        Some(0xff) => {
            if entry.len() >= 128 || !entry.iter().all(|byte| *byte == 0xff) {
                return Err(ManifestFail::Tail);
            }
            Ok(entry.len())
        }
        _ => Err(ManifestFail::EntryType(place)),
    }
}

fn entries_rule(bytes: &[u8], layout: &Layout, bank: u64) -> Result<(), ManifestFail>
    requires { length bytes.now < 2 ^ 32 }
{
    let mut met = Met {
        regions: 0,
        rules: 0,
        start: 0,
        end: 0,
    };
    let mut next = 32;
    for place in 32..bytes.len() {
        if place == next {
            let entry = &bytes[place..];
            let size = entry_rule(entry, place as u32, &mut met, layout, bank)?;
            next = place.saturating_add(size);
        }
    }
    Ok(())
}

// The first rule that a signed content breaks in a bank of this size, or none.
pub fn first_broken(bytes: &[u8], layout: &Layout, bank: u64) -> Option<ManifestFail>
    requires { length bytes.now < 2 ^ 32 }
{
    match header_rule(bytes) {
        Err(cause) => Some(cause),
        Ok(()) => match entries_rule(bytes, layout, bank) {
            Err(cause) => Some(cause),
            Ok(()) => None,
        },
    }
}
