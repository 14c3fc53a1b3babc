// What a certificate says.

use pfr_flash::ContentType;

/// A certificate that was read: the key of this id signs no more of this type, which is a manifest's or a capsule's.
#[derive(Clone, Copy, Debug, PartialEq, Eq)]
pub struct Cert {
    pub ty: ContentType,
    pub id: u8,
}
