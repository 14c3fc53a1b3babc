// Engines, which say which signatures are right, and what they are asked.
ghost use Rattle.std.specs.Prelude.{◌≡◌};
ghost use Rattle.pfr_engine.specs.Curves.{curve_of, signature_magic};
ghost use Rattle.pfr_engine.specs.Acceptance.{Acceptance};

/// An elliptic curve, of 256 or of 384 bits.
#[derive(Clone, Copy, Debug, PartialEq, Eq)]
pub enum Curve {
    C256,
    C384,
}

/// The digest of a message: SHA-256 where the curve has 256 bits, SHA-384 where it has 384.
#[derive(Clone, Copy, Debug, PartialEq, Eq)]
pub enum Digest {
    D256([u8; 32]),
    D384([u8; 48]),
}

/// A digest and its signature, the numbers R and S, under the public key with the coordinates X
/// and Y. A number has 48 bytes on either curve.
#[derive(Clone, Copy, Debug, PartialEq, Eq)]
pub struct Ask {
    pub curve: Curve,
    pub x: [u8; 48],
    pub y: [u8; 48],
    pub digest: Digest,
    pub r: [u8; 48],
    pub s: [u8; 48],
}

/// Says which signatures are right. It does no input or output, and has no faults.
pub trait Engine {
    ghost accepts: { Self → Acceptance };

    /// Whether a signature of a digest on an elliptic curve is right.
    fn check(&self, ask: &Ask) -> bool
        ensures { result ≡ (accepts self.now).ask ask.now };

    /// Whether a signature of a message, in a scheme that is named by its number, is right. The
    /// message is the signed bytes themselves.
    fn check_long(&self, scheme: u32, key: &[u8], message: &[u8], signature: &[u8]) -> bool
        ensures { result ≡ (accepts self.now).long scheme key.now message.now signature.now };
}

/// The curve of a number.
pub fn curve_from(number: u32) -> Option<Curve>
    ensures { result ≡ curve_of number }
{
    match number {
        0xC7B8_8C74 => Some(Curve::C256),
        0x08F0_7B47 => Some(Curve::C384),
        _ => None,
    }
}

impl Curve {
    /// The magic of a signature on the curve.
    pub fn signature_magic(self) -> u32
        ensures { result ≡ signature_magic self }
    {
        match self {
            Curve::C256 => 0xDE64_437D,
            Curve::C384 => 0xEA2A_50E9,
        }
    }
}
