// Why a call on the store's fuses is refused.
ghost use Rattle.std.specs.Prelude.{◌≡◌};
ghost use Rattle.pfr_fuses.specs.declared.fuse_fail.FuseFail.TheVariants as causes;

use pfr_flash::{Bank, FlashFail, LayoutRule};

/// Why a call on the store's provision and fuses is refused.
#[derive(Clone, Copy, Debug, PartialEq, Eq)]
pub enum FuseFail {
    /// No slot provisions the platform, and one is blank yet.
    NotProvisioned,
    /// No slot provisions the platform, and none is blank.
    SlotsSpent,
    /// The platform is provisioned, which is done once.
    AlreadyProvisioned,
    /// The layout of a bank breaks a rule.
    LayoutBad(Bank, LayoutRule),
    /// A call of the device failed.
    Flash(FlashFail),
}

impl From<FlashFail> for FuseFail {
    ghost from_gives = { λ f e. e ≡ causes.Flash f };

    fn from(fail: FlashFail) -> FuseFail {
        FuseFail::Flash(fail)
    }
}
