// A signature as an entry of form 1 has it.
ghost use Rattle.std.specs.Prelude.{◌≡◌, ◌+◌, ◌≤◌, length};
ghost use Rattle.pfr_chain.specs.Keys.{signature_at, digest_on, ask_of};

use crate::public_key::PublicKey;
use pfr_engine::{Ask, Curve, Digest};
use pfr_flash::{array_at, number_at};
use sha2::{Digest as _, Sha256, Sha384};

/// A signature, and the magic of its curve.
#[derive(Clone, Copy, Debug)]
pub struct Signature {
    pub magic: u32,
    pub r: [u8; 48],
    pub s: [u8; 48],
}

impl Signature {
    /// The signature that an entry at a place of a block has.
    #[tactic(auto, unfolding(crate::specs::Keys::signature_at))]
    pub fn read(bytes: &[u8], at: usize) -> Signature
        requires { at + 100 ≤ length bytes.now }
        ensures { result ≡ signature_at bytes.now at }
    {
        Signature {
            magic: number_at(bytes, at),
            r: array_at(bytes, at + 4),
            s: array_at(bytes, at + 52),
        }
    }

    /// What an engine is asked: whether this is the key's signature of a message.
    pub fn ask(&self, curve: Curve, key: &PublicKey, message: &[u8]) -> Ask
        ensures { result ≡ ask_of curve key.now message.now self.now }
    {
        Ask {
            curve,
            x: key.x,
            y: key.y,
            digest: digest_on(curve, message),
            r: self.r,
            s: self.s,
        }
    }
}

/// The digest that is signed on a curve: SHA-256 on P-256, SHA-384 on P-384.
pub fn digest_on(curve: Curve, message: &[u8]) -> Digest
    ensures { result ≡ digest_on curve message.now }
{
    match curve {
        Curve::C256 => Digest::D256(Sha256::digest(message)),
        Curve::C384 => Digest::D384(Sha384::digest(message)),
    }
}
