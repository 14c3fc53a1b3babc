// Why an active image isn't trusted.
ghost use Rattle.std.specs.Prelude.{◌≡◌};
ghost use Rattle.pfr_auth.specs.Answer.{active_failure};
ghost use Rattle.pfr_auth.specs.declared.fail.ActiveFail.TheVariants as causes;

use pfr_chain::ChainFail;
use pfr_flash::FlashFail;
use pfr_manifest::ManifestFail;

/// Why an active image isn't trusted: the first cause in this order, or the failure of the device. Regions are counted
/// from 0.
#[derive(Clone, Copy, Debug, PartialEq, Eq)]
pub enum ActiveFail {
    /// The manifest area holds no signed manifest.
    Chain(ChainFail),
    /// What is signed is no manifest of the bank.
    Manifest(ManifestFail),
    /// The security version number is below the bank's floor.
    SvnFloor,
    /// The bytes of the region, the first such one, don't have its hash.
    RegionHash(u32),
    /// The flash failed.
    Flash(FlashFail),
}

impl ActiveFail {
    /// The device's failure, where that is the cause.
    pub fn failure(&self) -> Option<FlashFail>
        ensures { result ≡ active_failure self.now }
    {
        match self {
            ActiveFail::Flash(fail)
            | ActiveFail::Chain(ChainFail::Flash(fail))
            | ActiveFail::Manifest(ManifestFail::Flash(fail)) => Some(*fail),
            _ => None,
        }
    }
}

impl From<ChainFail> for ActiveFail {
    ghost from_gives = { λ f e. e ≡ causes.Chain f };

    fn from(fail: ChainFail) -> ActiveFail {
        ActiveFail::Chain(fail)
    }
}

impl From<ManifestFail> for ActiveFail {
    ghost from_gives = { λ f e. e ≡ causes.Manifest f };

    fn from(fail: ManifestFail) -> ActiveFail {
        ActiveFail::Manifest(fail)
    }
}

impl From<FlashFail> for ActiveFail {
    ghost from_gives = { λ f e. e ≡ causes.Flash f };

    fn from(fail: FlashFail) -> ActiveFail {
        ActiveFail::Flash(fail)
    }
}
