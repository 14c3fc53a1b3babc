// The text of a cause, and the number in it.
ghost use Rattle.std.specs.Prelude.{◌≡◌, [], codes, None, Some};
ghost use Rattle.pfr_flash.specs.Answer.{IsFound};
ghost use Rattle.pfr_auth.specs.Answer.{active_failure};
ghost use Rattle.pfr_capsule.specs.Answer.{capsule_failure};
ghost use Rattle.pfr_report.specs.Words.{active_kind, active_word, active_number, block_number, block_word, capsule_kind, capsule_word, capsule_number, colon, digits, manifest_number, manifest_word};

use crate::cause_words::{block_word, chain_word, manifest_number, manifest_word};
use itoa::Buffer;
use pfr_auth::ActiveFail;
use pfr_capsule::CapsuleFail;
use pfr_filter::BlockCause;
use pfr_manifest::ManifestFail;

/// A cause as a report writes it: what it is a cause of with a colon, or nothing; its word; and the page, region or place
/// that it names, behind another colon.
#[derive(Clone, Copy)]
pub struct Cause {
    pub kind: &'static [u8],
    pub word: &'static [u8],
    pub number: Option<u32>,
}

// A word alone.
fn plain(word: &'static [u8]) -> Cause
    ensures kind { result.kind.now ≡ [] }
    ensures word { result.word.now ≡ word.now }
    ensures number { result.number ≡ None }
{
    Cause {
        kind: b"",
        word,
        number: None,
    }
}

// A word and the number behind it.
fn numbered(word: &'static [u8], number: u32) -> Cause
    ensures kind { result.kind.now ≡ [] }
    ensures word { result.word.now ≡ word.now }
    ensures number { result.number ≡ Some number }
{
    Cause {
        kind: b"",
        word,
        number: Some(number),
    }
}

impl Cause {
    /// What is between its word and its number.
    pub fn colon(&self) -> &'static [u8]
        ensures { result.now ≡ colon self.now.number }
    {
        match self.number {
            None => b"",
            Some(_) => b":",
        }
    }

    /// Its number's digits, or nothing.
    pub fn digits<'a>(&self, buffer: &'a mut Buffer) -> &'a [u8]
        ensures { result.now ≡ digits self.now.number }
    {
        match self.number {
            None => b"",
            Some(number) => buffer.format(number).as_bytes(),
        }
    }
}

/// What a manifest that is refused is refused for.
pub fn manifest_cause(why: ManifestFail) -> Cause
    ensures kind { result.kind.now ≡ codes "manifest:" }
    ensures word { result.word.now ≡ manifest_word why }
    ensures number { result.number ≡ manifest_number why }
{
    Cause {
        kind: b"manifest:",
        word: manifest_word(why),
        number: manifest_number(why),
    }
}

/// The cause of an active image that isn't trusted.
pub fn active_cause(why: ActiveFail) -> Cause
    requires { IsFound active_failure why }
    ensures kind { result.kind.now ≡ active_kind why }
    ensures word { result.word.now ≡ active_word why }
    ensures number { result.number ≡ active_number why }
{
    match why {
        ActiveFail::Chain(cause) => Cause {
            kind: b"chain:",
            word: chain_word(cause),
            number: None,
        },
        ActiveFail::Manifest(cause) => manifest_cause(cause),
        ActiveFail::SvnFloor => plain(b"svn-floor"),
        ActiveFail::RegionHash(region) => numbered(b"region-hash", region),
        ActiveFail::Flash(_) => unreachable!(),
    }
}

/// The cause of a capsule that isn't good.
pub fn capsule_cause(why: CapsuleFail) -> Cause
    requires { IsFound capsule_failure why }
    ensures kind { result.kind.now ≡ capsule_kind why }
    ensures word { result.word.now ≡ capsule_word why }
    ensures number { result.number ≡ capsule_number why }
{
    match why {
        CapsuleFail::Chain(cause) => Cause {
            kind: b"chain:",
            word: chain_word(cause),
            number: None,
        },
        CapsuleFail::ManifestChain(cause) => Cause {
            kind: b"manifest-chain:",
            word: chain_word(cause),
            number: None,
        },
        CapsuleFail::Manifest(cause) => manifest_cause(cause),
        CapsuleFail::SvnFloor => plain(b"svn-floor"),
        CapsuleFail::PbcHeader => plain(b"pbc-header"),
        CapsuleFail::MapBits => plain(b"map-bits"),
        CapsuleFail::BodyLength => plain(b"body-length"),
        CapsuleFail::CopyNotErase(page) => numbered(b"copy-not-erase", page),
        CapsuleFail::PageOutside(page) => numbered(b"page-outside", page),
        CapsuleFail::PayloadLength => plain(b"payload-length"),
        CapsuleFail::StaticNotCovered(region) => numbered(b"static-not-covered", region),
        CapsuleFail::Incoherent(region) => numbered(b"incoherent", region),
        CapsuleFail::Flash(_) => unreachable!(),
    }
}

/// The cause for which a frame on an SPI bus is blocked.
pub fn block_cause(why: BlockCause) -> Cause
    ensures kind { result.kind.now ≡ [] }
    ensures word { result.word.now ≡ block_word why }
    ensures number { result.number ≡ block_number why }
{
    let word = block_word(why);
    match why {
        BlockCause::NotWritable(page) => numbered(word, page),
        _ => plain(word),
    }
}
