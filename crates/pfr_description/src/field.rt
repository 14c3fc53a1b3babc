// The keys of a description.
ghost use Rattle.std.specs.Prelude.{◌≡◌};
ghost use Rattle.pfr_description.specs.Keys.{name_of};

/// A key of a description's tables.
#[derive(Clone, Copy, Debug, PartialEq, Eq)]
pub enum Field {
    Curve,
    Form,
    Root,
    X,
    Y,
    Bmc,
    Pch,
    Image,
    Size,
    Svn,
    Bkc,
    Revision,
    Oem,
    ManifestAt,
    ManifestLen,
    RecoveryAt,
    StagingAt,
    AreaLen,
    ManifestKey,
    CapsuleKey,
    Id,
    Permissions,
    Staged,
    Regions,
    Start,
    End,
    Mask,
    Hash,
    Pages,
    Smbus,
    Bus,
    Rule,
    Address,
    Commands,
}

impl Field {
    /// How the key is written.
    pub fn name(self) -> &'static str
        ensures { result.now ≡ name_of self }
    {
        match self {
            Field::Curve => "curve",
            Field::Form => "form",
            Field::Root => "root",
            Field::X => "x",
            Field::Y => "y",
            Field::Bmc => "bmc",
            Field::Pch => "pch",
            Field::Image => "image",
            Field::Size => "size",
            Field::Svn => "svn",
            Field::Bkc => "bkc",
            Field::Revision => "revision",
            Field::Oem => "oem",
            Field::ManifestAt => "manifest_at",
            Field::ManifestLen => "manifest_len",
            Field::RecoveryAt => "recovery_at",
            Field::StagingAt => "staging_at",
            Field::AreaLen => "area_len",
            Field::ManifestKey => "manifest_key",
            Field::CapsuleKey => "capsule_key",
            Field::Id => "id",
            Field::Permissions => "permissions",
            Field::Staged => "staged",
            Field::Regions => "regions",
            Field::Start => "start",
            Field::End => "end",
            Field::Mask => "mask",
            Field::Hash => "hash",
            Field::Pages => "pages",
            Field::Smbus => "smbus",
            Field::Bus => "bus",
            Field::Rule => "rule",
            Field::Address => "address",
            Field::Commands => "commands",
        }
    }
}
