// Why no image is made of a description.
ghost use Rattle.std.specs.Prelude.{◌≡◌};
ghost use Rattle.pfr_description.specs.declared.fail.DescFail.TheVariants.{NoMemory, Why};

use crate::field::Field;
use pfr_flash::{Bank, LayoutRule, NoMemory};
use pfr_manifest::ManifestFail;
use std::alloc::{AllocError, AllocFailed};

/// What does not fit.
#[derive(Clone, Copy, Debug, PartialEq, Eq)]
pub enum FitPart {
    /// The size is no bank's: a multiple of 65,536 up to 67,108,864.
    Size,
    /// The image's length is not the bank's size.
    Image,
    /// The signed manifest is too long for its area.
    Manifest,
    /// The capsule is too long for its area.
    Capsule,
    /// The staged file is too long for its area.
    Staged,
}

/// The rule that a description breaks.
#[derive(Clone, Copy, Debug, PartialEq, Eq)]
pub enum DescWhy {
    /// The text is not UTF-8, or no TOML document.
    Toml,
    /// The key is not there. Without a bank it stands in no bank's table.
    Missing(Option<Bank>, Field),
    /// The key's value is of another type.
    Kind(Option<Bank>, Field),
    /// The key's value is not allowed.
    Value(Option<Bank>, Field),
    /// A table has a key that no description has there.
    Extra(Option<Bank>),
    Layout(Bank, LayoutRule),
    /// A manifest may not have what the description gives the bank.
    Manifest(Bank, ManifestFail),
    Fit(Bank, FitPart),
}

/// Why no image is made of a description.
#[derive(Clone, Copy, Debug, PartialEq, Eq)]
pub enum DescFail {
    Why(DescWhy),
    NoMemory,
}

impl From<DescWhy> for DescFail {
    ghost from_gives = { λ why fail. fail ≡ Why why };

    fn from(why: DescWhy) -> DescFail {
        DescFail::Why(why)
    }
}

impl From<NoMemory> for DescFail {
    ghost from_gives = { λ _ fail. fail ≡ NoMemory };

    fn from(_: NoMemory) -> DescFail {
        DescFail::NoMemory
    }
}

impl From<AllocError> for DescFail {
    ghost from_gives = { λ _ fail. fail ≡ NoMemory };

    fn from(_: AllocError) -> DescFail {
        DescFail::NoMemory
    }
}

impl<T: Drop> From<AllocFailed<T>> for DescFail {
    ghost from_gives = { λ _ fail. fail ≡ NoMemory };

    fn from(_: AllocFailed<T>) -> DescFail {
        DescFail::NoMemory
    }
}
