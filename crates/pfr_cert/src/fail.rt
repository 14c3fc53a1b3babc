// Why a certificate isn't taken.
ghost use Rattle.std.specs.Prelude.{◌≡◌};
ghost use Rattle.pfr_cert.specs.Answer.{cert_failure};
ghost use Rattle.pfr_cert.specs.declared.fail.CertFail.TheVariants as causes;

use pfr_chain::ChainFail;
use pfr_flash::FlashFail;

/// Why bytes are no certificate for a bank, or the key of one isn't cancelled: the first cause in this order, or the
/// failure of a device.
#[derive(Clone, Copy, Debug, PartialEq, Eq)]
pub enum CertFail {
    /// There is no signed certificate, or the bank's flash failed.
    Chain(ChainFail),
    /// One of the bytes behind the key's id isn't 0.
    Body,
    /// The key's id is over 255.
    KeyId,
    /// The key signs for the other bank.
    OtherBank,
    /// The good capsule in the recovery area is signed by the key.
    KeyInUse,
    /// The key is cancelled already.
    AlreadyCancelled,
    /// The store failed.
    Flash(FlashFail),
}

impl CertFail {
    /// The device's failure, where that is the cause.
    pub fn failure(&self) -> Option<FlashFail>
        ensures { result ≡ cert_failure self.now }
    {
        match self {
            CertFail::Flash(fail) | CertFail::Chain(ChainFail::Flash(fail)) => Some(*fail),
            _ => None,
        }
    }
}

impl From<FlashFail> for CertFail {
    ghost from_gives = { λ f e. e ≡ causes.Flash f };

    fn from(fail: FlashFail) -> CertFail {
        CertFail::Flash(fail)
    }
}
