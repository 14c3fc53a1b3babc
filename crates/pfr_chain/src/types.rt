// What a type of content asks of its block.
ghost use Rattle.std.specs.Prelude.{◌≡◌};
ghost use Rattle.pfr_chain.specs.Types.{number_of, type_of, permission_of, is_certificate};

use pfr_flash::ContentType;

/// The number that Block 0 has for the type.
pub fn type_number(ty: ContentType) -> u32
    ensures { result ≡ number_of ty }
{
    match ty {
        ContentType::PchManifest => 1,
        ContentType::PchCapsule => 2,
        ContentType::BmcManifest => 3,
        ContentType::BmcCapsule => 4,
        ContentType::Controller => 5,
        ContentType::PchManifestCancel => 0x101,
        ContentType::PchCapsuleCancel => 0x102,
        ContentType::BmcManifestCancel => 0x103,
        ContentType::BmcCapsuleCancel => 0x104,
    }
}

/// The type of a number.
#[tactic(auto, unfolding(crate::specs::Types::type_of))]
pub fn type_from(number: u32) -> Option<ContentType>
    ensures { result ≡ type_of number }
{
    match number {
        1 => Some(ContentType::PchManifest),
        2 => Some(ContentType::PchCapsule),
        3 => Some(ContentType::BmcManifest),
        4 => Some(ContentType::BmcCapsule),
        5 => Some(ContentType::Controller),
        0x101 => Some(ContentType::PchManifestCancel),
        0x102 => Some(ContentType::PchCapsuleCancel),
        0x103 => Some(ContentType::BmcManifestCancel),
        0x104 => Some(ContentType::BmcCapsuleCancel),
        _ => None,
    }
}

/// Whether it is a certificate, which has no key entry.
pub fn cancels(ty: ContentType) -> bool
    ensures { result ≡ is_certificate ty }
{
    match ty {
        ContentType::PchManifest
        | ContentType::PchCapsule
        | ContentType::BmcManifest
        | ContentType::BmcCapsule
        | ContentType::Controller => false,
        _ => true,
    }
}

/// The bit of a key's permissions that lets it sign the type.
pub fn permission_bit(ty: ContentType) -> u32
    ensures { result ≡ permission_of ty }
{
    match ty {
        ContentType::PchManifest | ContentType::PchManifestCancel => 0,
        ContentType::PchCapsule | ContentType::PchCapsuleCancel => 1,
        ContentType::BmcManifest | ContentType::BmcManifestCancel => 2,
        ContentType::BmcCapsule | ContentType::BmcCapsuleCancel => 3,
        ContentType::Controller => 4,
    }
}
