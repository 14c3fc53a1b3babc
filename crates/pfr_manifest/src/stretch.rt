// A stretch of a bank.
ghost use Rattle.std.specs.Prelude.{◌≡◌};
ghost use Rattle.pfr_manifest.specs.Judge.{is_clear_of, is_clear, judge_stretch};

use crate::fail::ManifestFail;
use pfr_flash::Layout;

/// A stretch of a bank, from `start` up to `end`, and whether the bank's bus may write it.
#[derive(Clone, Copy, Debug, Default, PartialEq, Eq)]
pub struct Stretch {
    pub start: u32,
    pub end: u32,
    pub writable: bool,
}

impl Stretch {
    /// Whether it shares no byte with an area.
    fn is_clear_of(&self, at: u32, len: u32) -> bool
        ensures { result ≡ is_clear_of self.now at len }
    {
        self.end <= at || at as u64 + len as u64 <= self.start as u64
    }

    /// Whether it shares no byte with the areas of a layout.
    fn is_clear(&self, layout: &Layout) -> bool
        ensures { result ≡ is_clear self.now layout.now }
    {
        self.is_clear_of(layout.manifest_at, layout.manifest_len)
            && self.is_clear_of(layout.recovery_at, layout.area_len)
            && self.is_clear_of(layout.staging_at, layout.area_len)
    }

    /// Judges whether region `k` of a bank of this layout and this size may be here, with a hash or without one,
    /// behind a region from one place up to another.
    #[tactic(auto, unfolding(crate::specs::Judge::judge_stretch))]
    pub fn judge(
        &self,
        k: u32,
        has_hash: bool,
        last: (u32, u32),
        layout: &Layout,
        bank: u32,
    ) -> Result<(), ManifestFail>
        ensures { result ≡ judge_stretch self.now k has_hash last.0 last.1 layout.now bank }
    {
        if has_hash && self.writable {
            return Err(ManifestFail::WritableHashed(k));
        }
        if self.start % 4096 != 0 || self.end % 4096 != 0 {
            return Err(ManifestFail::Align(k));
        }
        if self.start >= self.end || self.end > bank || !self.is_clear(layout) {
            return Err(ManifestFail::Range(k));
        }
        if self.start < last.0 {
            return Err(ManifestFail::Order(k));
        }
        if self.start < last.1 {
            return Err(ManifestFail::Overlap(k));
        }
        Ok(())
    }
}
