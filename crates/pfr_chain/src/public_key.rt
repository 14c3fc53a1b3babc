// A key as an entry of form 1 has it.
ghost use Rattle.std.specs.Prelude.{◌≡◌, ◌+◌, ◌≤◌, length};
ghost use Rattle.pfr_chain.specs.Keys.{public_key_at};

use pfr_flash::{array_at, number_at};

/// A key and what it may sign, as the root entry and the key entry have it.
#[derive(Clone, Copy, Debug)]
pub struct PublicKey {
    pub magic: u32,
    pub curve: u32,
    pub permissions: u32,
    pub key_id: u32,
    pub x: [u8; 48],
    pub y: [u8; 48],
}

impl PublicKey {
    /// The key that an entry at a place of a block has.
    #[tactic(auto, unfolding(crate::specs::Keys::public_key_at))]
    pub fn read(bytes: &[u8], at: usize) -> PublicKey
        requires { at + 112 ≤ length bytes.now }
        ensures { result ≡ public_key_at bytes.now at }
    {
        PublicKey {
            magic: number_at(bytes, at),
            curve: number_at(bytes, at + 4),
            permissions: number_at(bytes, at + 8),
            key_id: number_at(bytes, at + 12),
            x: array_at(bytes, at + 16),
            y: array_at(bytes, at + 64),
        }
    }
}
