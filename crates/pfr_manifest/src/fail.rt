// Why bytes are no manifest.
ghost use Rattle.std.specs.Prelude.{◌≡◌};
ghost use Rattle.pfr_manifest.specs.declared.fail.ManifestFail.TheVariants as causes;

use pfr_flash::FlashFail;

/// Why bytes are no manifest: the first rule that they break. Regions are counted from 0.
#[derive(Clone, Copy, Debug, PartialEq, Eq)]
pub enum ManifestFail {
    /// There is no header, or it begins with another magic.
    Magic,
    /// The security version number is over 127.
    Svn,
    /// The length is not that of the content, is 0, or is not a multiple of 128.
    Length,
    /// At this place, from the manifest's begin on, stands no entry, a cut one, or a region behind a rule.
    EntryType(u32),
    /// There is a 65th region or a 65th rule.
    TooMany,
    /// The kind of the region's hash is not known.
    HashInfo(u32),
    /// The region has a hash and may be written.
    WritableHashed(u32),
    /// The region begins or ends at no multiple of 4,096.
    Align(u32),
    /// The region is empty, passes the bank's end, or shares a byte with an area of the layout.
    Range(u32),
    /// The region begins before the one in front of it.
    Order(u32),
    /// The region shares a byte with the one in front of it.
    Overlap(u32),
    /// Something else than fewer than 128 bytes of 0xFF stands behind the entries.
    Tail,
    /// The flash failed.
    Flash(FlashFail),
}

impl From<FlashFail> for ManifestFail {
    ghost from_gives = { λ f e. e ≡ causes.Flash f };

    fn from(fail: FlashFail) -> ManifestFail {
        ManifestFail::Flash(fail)
    }
}
