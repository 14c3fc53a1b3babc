// Why a signature block is refused.
ghost use Rattle.std.specs.Prelude.{◌≡◌};
ghost use Rattle.pfr_chain.specs.declared.fail.ChainFail.TheVariants as causes;

use pfr_flash::FlashFail;

/// Why a block is no signature chain: the first cause in this order, where `BlockLength` is of form 2 alone,
/// or the failure of the device.
#[derive(Clone, Copy, Debug, PartialEq, Eq)]
pub enum ChainFail {
    ShortBlock,
    Block0Magic,
    WrongType,
    BlockLength,
    Length,
    Digest256,
    Digest384,
    Block1Magic,
    RootEntry,
    RootHash,
    KeyEntry,
    KeyId,
    Permission,
    Cancelled,
    KeySignature,
    Block0Entry,
    Block0Signature,
    Flash(FlashFail),
}

impl From<FlashFail> for ChainFail {
    ghost from_gives = { λ f e. e ≡ causes.Flash f };

    fn from(fail: FlashFail) -> ChainFail {
        ChainFail::Flash(fail)
    }
}
