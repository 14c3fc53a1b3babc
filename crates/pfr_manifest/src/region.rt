// A region of a bank.
ghost use Rattle.std.specs.Prelude.{◌≡◌, ◌==◌, ◌+◌, ◌≤◌};
ghost use Rattle.std.specs.Int.{bit_at};

use crate::stretch::Stretch;

/// The hash that a region's bytes are to have. A region with a hash is static.
#[derive(Clone, Copy, Debug, PartialEq, Eq)]
pub enum RegionHash {
    None,
    Sha256([u8; 32]),
    Sha384([u8; 48]),
}

impl Default for RegionHash {
    fn default() -> RegionHash {
        RegionHash::None
    }
}

/// A region of a bank, from `start` up to `end`.
///
/// Bit 1 of the mask lets the bank's bus write it, and the bits 2 to 4 say at which levels it is restored.
#[derive(Clone, Copy, Debug, Default, PartialEq, Eq)]
pub struct Region {
    pub mask: u8,
    pub reserved: [u8; 4],
    pub start: u32,
    pub end: u32,
    pub hash: RegionHash,
}

// Whether a mask has the bit behind this one.
fn has_next_bit(mask: u8, bit: u8) -> bool
    ensures { result ≡ (bit_at mask (bit + 1) == 1) }
{
    bit < 7 && (mask >> (bit + 1)) & 1 == 1
}

impl Region {
    ghost use Rattle.pfr_manifest.specs.Regions.{is_static, is_writable};
    ghost use Rattle.pfr_manifest.specs.Access.{is_restored};
    ghost use Rattle.pfr_manifest.specs.Stretches.{stretch_of};
    ghost use Rattle.pfr_manifest.specs.Judge.{region_len};

    /// Whether it has a hash.
    pub fn is_static(&self) -> bool
        ensures { result ≡ is_static self.now }
    {
        match self.hash {
            RegionHash::None => false,
            _ => true,
        }
    }

    /// Whether the bank's bus may write it.
    pub fn is_writable(&self) -> bool
        ensures { result ≡ is_writable self.now }
    {
        (self.mask >> 1) & 1 == 1
    }

    /// Whether a restore of this level takes it. There are levels 1 to 3; of any other from 7 on no mask has the bit.
    pub fn is_restored(&self, level: u8) -> bool
        ensures { result ≡ is_restored level self.now }
    {
        self.is_static() || has_next_bit(self.mask, level)
    }

    /// Its place, and whether the bank's bus may write it.
    pub fn stretch(&self) -> Stretch
        ensures { result ≡ stretch_of self.now }
    {
        Stretch {
            start: self.start,
            end: self.end,
            writable: self.is_writable(),
        }
    }

    /// How long its definition is.
    pub(crate) fn definition_len(&self) -> u32
        ensures value { result ≡ region_len self.now }
        ensures some { 16 ≤ result }
        ensures most { result ≤ 64 }
    {
        match self.hash {
            RegionHash::None => 16,
            RegionHash::Sha256(_) => 48,
            RegionHash::Sha384(_) => 64,
        }
    }
}
