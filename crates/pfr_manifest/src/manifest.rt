// A bank's manifest.
ghost use Rattle.std.specs.Prelude.{◌≡◌, ◌+◌, ◌≤◌, length, Ok, IfOk, OnOk, IfErr, IsTrue, ◌↔◌, ℕ};
ghost use Rattle.pfr_flash.specs.Bytes.{bytes_at};
ghost use Rattle.pfr_flash.specs.FlashState.{now, size_of};
ghost use Rattle.pfr_flash.specs.Layout.{IsValidLayout};
ghost use Rattle.pfr_flash.specs.Reading.{EndsAt, failed_by};
ghost use Rattle.pfr_flash.specs.Answer.{IsFound, Answers};
ghost use Rattle.pfr_manifest.specs.Answer.{manifest_failure};
ghost use Rattle.pfr_manifest.specs.Judge.{HasNoEntries, header_at, judge_header, judge_manifest};
ghost use Rattle.pfr_manifest.specs.Manifest.{IsManifestOf};
ghost use Rattle.pfr_flash.specs.declared.layout.Layout.{Layout};
ghost use Rattle.pfr_manifest.specs.Spelling.{manifest_bytes};
ghost use Rattle.pfr_manifest.specs.declared.manifest.Manifest.{Manifest};

use crate::fail::ManifestFail;
use crate::reading::judged;
use crate::regions::Regions;
use crate::rules::Rules;
use pfr_flash::{Flash, Layout, array_at, number_at};

/// How long a header is.
pub const HEADER: usize = 32;

/// A bank's manifest: its regions, and its SMBus rules. `length` is that of its text.
#[derive(PartialEq, Drop)]
pub struct Manifest {
    pub svn: u8,
    pub bkc: u8,
    pub revision: [u8; 2],
    pub reserved: [u8; 4],
    pub oem: [u8; 16],
    pub length: u32,
    pub regions: Regions,
    pub rules: Rules,
}

/// The manifest that a header spells, still without entries.
fn header_of(bytes: &[u8; HEADER]) -> Manifest
    ensures { result ≡ header_at bytes.now }
{
    Manifest {
        svn: bytes[4],
        bkc: bytes[5],
        revision: array_at(bytes, 6),
        reserved: array_at(bytes, 8),
        oem: array_at(bytes, 12),
        length: number_at(bytes, 28),
        regions: Regions::new(),
        rules: Rules::new(),
    }
}

/// The header of a manifest that has so many bytes, at least 32.
#[tactic(auto, unfolding(crate::specs::Judge::judge_header))]
pub fn read_header(header: &[u8; HEADER], count: u32) -> Result<Manifest, ManifestFail>
    requires { 32 ≤ count }
    ensures exact { result ≡ judge_header header.now count }
    ensures empty { IfOk result HasNoEntries }
    ensures found { IfErr result (IsFound manifest_failure) }
{
    if number_at(header, 0) != 0x02B3_CE1D {
        return Err(ManifestFail::Magic);
    }
    if header[4] > 127 {
        return Err(ManifestFail::Svn);
    }
    let length = number_at(header, 28);
    if length != count || length == 0 || length % 128 != 0 {
        return Err(ManifestFail::Length);
    }
    Ok(header_of(header))
}

impl Manifest {
    /// Reads the manifest at a place of a bank's flash. The place and the size in bytes are those of the signed
    /// content, and the layout is the bank's.
    pub fn read<F: Flash>(
        flash: &mut F,
        place: u32,
        size: u32,
        layout: &Layout,
    ) -> Result<Manifest, ManifestFail>
        requires within { place + size ≤ size_of (F.device flash.old) }
        requires layout { IsValidLayout layout.now (size_of (F.device flash.old)) }
        // What is read is what the bytes spell.
        ensures ok { IfOk result (λ m. IsManifestOf (bytes_at (now (F.device flash.old)) place size) m layout.now (size_of (F.device flash.old))) }
        // What the bytes spell is read, unless the device fails.
        ensures only { (m : Manifest) → IsManifestOf (bytes_at (now (F.device flash.old)) place size) m layout.now (size_of (F.device flash.old)) →
            Answers manifest_failure result (Ok m) }
        // Which cause it is: the first in order.
        ensures exact { Answers manifest_failure result
            (judge_manifest (bytes_at (now (F.device flash.old)) place size) layout.now (size_of (F.device flash.old))) }
        ensures ends { EndsAt (failed_by manifest_failure result) (F.device flash.old) (F.device flash.new) }
    {
        judged(flash, place, size, layout)
    }

    /// Whether the other one is the same manifest.
    #[tactic(auto, using(crate::proofs::SameLemmas::same_manifest))]
    pub fn is_same(&self, other: &Manifest) -> bool
        ensures same { IsTrue result ↔ self.now ≡ other.now }
        // Two manifests of a bank are the same exactly where the same bytes spell them.
        ensures texts { (layout : Layout) (size : ℕ) → IsManifestOf (manifest_bytes self.now) self.now layout size → IsManifestOf (manifest_bytes other.now) other.now layout size →
            (IsTrue result ↔ manifest_bytes self.now ≡ manifest_bytes other.now) }
    {
        self == other
    }
}
