// The marks that stand in the place of signatures. They protect nothing.
ghost use Rattle.std.specs.Prelude.{◌≡◌};
ghost use Rattle.pfr_engine.specs.Curves.{curve_of};
ghost use Rattle.pfr_made.specs.Marks.{number_of_curve, digest_bytes, mark_of, marks_of};

use pfr_chain::{Ask, Curve, Digest, digest_on};
use pfr_description::PublicKey;
use sha2::{Digest as _, Sha384};

const MARK_R: u8 = b'R';

const MARK_S: u8 = b'S';

/// The number of a curve.
pub fn curve_number(curve: Curve) -> u32
    ensures known { curve_of result ≡ Some curve }
    ensures number { result ≡ number_of_curve curve }
{
    match curve {
        Curve::C256 => 0xC7B8_8C74,
        Curve::C384 => 0x08F0_7B47,
    }
}

/// The digest's bytes.
pub fn digest_bytes(digest: &Digest) -> &[u8]
    ensures { result.now ≡ digest_bytes digest.now }
{
    match digest {
        Digest::D256(bytes) => bytes,
        Digest::D384(bytes) => bytes,
    }
}

// a key's mark on a digest
#[tactic(auto, unfolding(pfr_made::specs::Marks::mark_of))]
fn mark(letter: u8, key: &PublicKey, digest: &Digest) -> [u8; 48]
    ensures { result ≡ mark_of letter key.now digest.now }
{
    Sha384::new()
        .chain_update([letter])
        .chain_update(key.x)
        .chain_update(key.y)
        .chain_update(digest_bytes(digest))
        .finalize()
}

/// A key's marks on a message, as an engine is asked about them.
pub fn sign(curve: Curve, key: &PublicKey, message: &[u8]) -> Ask
    ensures { result ≡ marks_of curve key.now message.now }
{
    let digest = digest_on(curve, message);
    Ask {
        curve,
        x: key.x,
        y: key.y,
        digest,
        r: mark(MARK_R, key, &digest),
        s: mark(MARK_S, key, &digest),
    }
}
