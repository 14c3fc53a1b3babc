// A range of a flash.

/// So many bytes of a flash, from a place on.
#[derive(Clone, Copy, Debug, PartialEq, Eq)]
pub struct Span {
    /// The place of the first byte.
    pub at: u32,
    /// How many bytes.
    pub len: u32,
}
