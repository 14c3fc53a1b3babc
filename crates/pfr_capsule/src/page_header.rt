// The page-block header of a capsule.
ghost use Rattle.std.specs.Prelude.{◌≡◌};
ghost use Rattle.pfr_capsule.specs.PageHeader.{page_header_of, has_constants};

use pfr_flash::number_at;

/// How many bytes a header has.
pub const HEADER: usize = 128;

/// What a header says, number by number. `payload_len` is in bytes.
#[derive(Clone, Copy, Debug)]
pub struct PageHeader {
    pub magic: u32,
    pub version: u32,
    pub page_size: u32,
    pub pattern_size: u32,
    pub pattern: u32,
    pub map_bits: u32,
    pub payload_len: u32,
}

impl PageHeader {
    /// What the bytes of a header say.
    #[tactic(auto, unfolding(crate::specs::PageHeader::page_header_of))]
    pub fn read(bytes: &[u8; HEADER]) -> PageHeader
        ensures { result ≡ page_header_of bytes.now }
    {
        PageHeader {
            magic: number_at(bytes, 0),
            version: number_at(bytes, 4),
            page_size: number_at(bytes, 8),
            pattern_size: number_at(bytes, 12),
            pattern: number_at(bytes, 16),
            map_bits: number_at(bytes, 20),
            payload_len: number_at(bytes, 24),
        }
    }

    /// Whether the five numbers that don't vary are right.
    pub fn has_constants(&self) -> bool
        ensures { result ≡ has_constants self.now }
    {
        self.magic == 0x5F50_4243
            && self.version == 2
            && self.page_size == 4096
            && self.pattern_size == 1
            && self.pattern == 0xFF
    }
}
