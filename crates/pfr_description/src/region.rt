// The regions that a manifest defines.

/// The digest that a manifest has of a region.
#[derive(Clone, Copy, Debug, PartialEq, Eq)]
pub enum HashKind {
    Sha256,
    Sha384,
}

/// What a capsule does with a region's pages.
#[derive(Clone, Copy, Debug, PartialEq, Eq)]
pub enum PageUse {
    /// Brings the image's bytes.
    Copy,
    /// Leaves them blank.
    Erase,
    /// Leaves them as they are.
    Keep,
}

/// A region of a bank. Its end is exclusive.
#[derive(Clone, Copy, Debug, PartialEq, Eq)]
pub struct RegionDescription {
    /// The place of its first byte.
    pub start: u32,
    /// The place behind its last byte.
    pub end: u32,
    /// What may happen to it: bit 1 lets the bank's bus write it, bits 2 to 4 let it be restored at levels 1 to 3.
    pub mask: u8,
    /// Its digest's kind, where the manifest has one.
    pub hash: Option<HashKind>,
    /// What a capsule does with its pages.
    pub pages: PageUse,
}
