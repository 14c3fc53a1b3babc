// The bytes of a bus transaction.
ghost use Rattle.std.specs.Prelude.{◌≡◌, ◌≤◌, length};

use std::marker::Model;

/// 1 to 261 bytes, seen as a list.
#[derive(Drop)]
pub struct Frame {
    bytes: [u8; 261],
    len: usize,
}

impl Model for Frame {
    ghost use Rattle.std.specs.Prelude.{ℕ, ◌≤◌, List, take};

    ghost Value = { List ℕ };

    ghost view = { λ f. take f.len f.bytes };

    ghost invariant = { λ f. (1 ≤ f.len) × (f.len ≤ 261) };
}

impl Frame {
    /// A frame of these bytes. This takes no memory.
    pub fn new(bytes: &[u8]) -> Frame
        requires some { 1 ≤ length bytes.now }
        requires most { length bytes.now ≤ 261 }
        ensures { result ≡ bytes.now }
    {
        let mut copy = [0; 261];
        copy[..bytes.len()].copy_from_slice(bytes);
        Frame {
            bytes: copy,
            len: bytes.len(),
        }
    }

    /// The bytes, borrowed.
    pub fn as_slice(&self) -> &[u8]
        ensures bytes { result.now ≡ self.now }
        ensures some { 1 ≤ length self.now }
        ensures most { length self.now ≤ 261 }
    {
        &self.bytes[..self.len]
    }
}
