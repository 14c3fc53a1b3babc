// Public keys, and what they may sign.

/// The coordinates of a public key. A number has 48 bytes on either curve.
#[derive(Clone, Copy, Debug, PartialEq, Eq)]
pub struct PublicKey {
    pub x: [u8; 48],
    pub y: [u8; 48],
}

/// A key that the root signs, its id, and its permissions, a bit for each type of content.
#[derive(Clone, Copy, Debug, PartialEq, Eq)]
pub struct KeyDescription {
    pub id: u8,
    pub permissions: u32,
    pub key: PublicKey,
}
