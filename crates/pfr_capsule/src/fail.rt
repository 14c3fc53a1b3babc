// Why a capsule isn't taken.
ghost use Rattle.std.specs.Prelude.{◌≡◌};
ghost use Rattle.pfr_capsule.specs.Answer.{capsule_failure};
ghost use Rattle.pfr_capsule.specs.declared.fail.CapsuleFail.TheVariants as causes;

use pfr_chain::ChainFail;
use pfr_flash::FlashFail;
use pfr_manifest::ManifestFail;

/// Why bytes are no capsule of a bank: the first cause in this order, or the failure of the device. Pages and regions
/// are counted from 0.
#[derive(Clone, Copy, Debug, PartialEq, Eq)]
pub enum CapsuleFail {
    /// There is no signed capsule.
    Chain(ChainFail),
    /// There is no signed manifest at the head of the capsule's body.
    ManifestChain(ChainFail),
    /// What is signed there is no manifest of the bank.
    Manifest(ManifestFail),
    /// The security version number is below the bank's floor.
    SvnFloor,
    /// There is no page-block header behind the manifest, or one of its five constants differs.
    PbcHeader,
    /// The maps don't have the bank's number of pages.
    MapBits,
    /// The body is longer or shorter than its parts.
    BodyLength,
    /// The page is to be copied and not to be erased.
    CopyNotErase(u32),
    /// The page is to be erased and lies in no region.
    PageOutside(u32),
    /// The payload isn't as long as the pages that are to be copied.
    PayloadLength,
    /// A page of the static region is not to be erased.
    StaticNotCovered(u32),
    /// The static region's bytes, as the pages give them, don't have its hash.
    Incoherent(u32),
    /// The flash failed.
    Flash(FlashFail),
}

impl CapsuleFail {
    /// The device's failure, where that is the cause.
    pub fn failure(&self) -> Option<FlashFail>
        ensures { result ≡ capsule_failure self.now }
    {
        match self {
            CapsuleFail::Flash(fail)
            | CapsuleFail::Chain(ChainFail::Flash(fail))
            | CapsuleFail::ManifestChain(ChainFail::Flash(fail))
            | CapsuleFail::Manifest(ManifestFail::Flash(fail)) => Some(*fail),
            _ => None,
        }
    }
}

impl From<ManifestFail> for CapsuleFail {
    ghost from_gives = { λ f e. e ≡ causes.Manifest f };

    fn from(fail: ManifestFail) -> CapsuleFail {
        CapsuleFail::Manifest(fail)
    }
}

impl From<FlashFail> for CapsuleFail {
    ghost from_gives = { λ f e. e ≡ causes.Flash f };

    fn from(fail: FlashFail) -> CapsuleFail {
        CapsuleFail::Flash(fail)
    }
}
