// A bank's size, and what its manifest begins with.

/// A bank's size in bytes, and the fields of its manifest's header.
#[derive(Clone, Copy, Debug, PartialEq, Eq)]
pub struct Identity {
    pub size: u32,
    pub svn: u8,
    pub bkc: u8,
    pub revision: [u8; 2],
    pub oem: [u8; 16],
}
