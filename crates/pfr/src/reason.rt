// What an error's line says of the rule that a file breaks.
ghost use Rattle.std.specs.Prelude.{◌≡◌, ◌++◌, codes, Some};
ghost use Rattle.pfr_description.specs.Keys.{name_of};
ghost use Rattle.pfr.specs.DescriptionLines.{description_text, in_bank, part_word};
ghost use Rattle.pfr.specs.Lines.{why_text};
ghost use Rattle.pfr.specs.Reasons.{reason_text};

use crate::status::Why;
use pfr_description::{DescWhy, Field, FitPart};
use pfr_flash::Bank;
use pfr_report::{Cause, manifest_cause, rule_word};

/// The bank in whose table the rule is broken with a space behind it, or nothing, and the cause.
#[derive(Clone, Copy)]
pub struct Reason {
    pub bank: &'static [u8],
    pub cause: Cause,
}

fn in_bank(bank: Option<Bank>) -> &'static [u8]
    ensures { result.now ≡ in_bank bank }
{
    match bank {
        None => b"",
        Some(Bank::Bmc) => b"bmc ",
        Some(Bank::Pch) => b"pch ",
    }
}

fn part_word(part: FitPart) -> &'static [u8]
    ensures { result.now ≡ part_word part }
{
    match part {
        FitPart::Size => b"size",
        FitPart::Image => b"image",
        FitPart::Manifest => b"manifest",
        FitPart::Capsule => b"capsule",
        FitPart::Staged => b"staged",
    }
}

// Two words, without a number.
fn two(bank: Option<Bank>, kind: &'static [u8], word: &'static [u8]) -> Reason
    ensures { reason_text result ≡ in_bank bank ++ (kind.now ++ word.now) }
{
    Reason {
        bank: in_bank(bank),
        cause: Cause {
            kind,
            word,
            number: None,
        },
    }
}

// What is wrong with a key.
fn of_key(bank: Option<Bank>, kind: &'static [u8], key: Field) -> Reason
    ensures { reason_text result ≡ in_bank bank ++ (kind.now ++ name_of key) }
{
    two(bank, kind, key.name().as_bytes())
}

fn of_description(why: DescWhy) -> Reason
    ensures { reason_text result ≡ description_text why }
{
    match why {
        DescWhy::Toml => two(None, b"", b"toml"),
        DescWhy::Missing(bank, key) => of_key(bank, b"missing ", key),
        DescWhy::Kind(bank, key) => of_key(bank, b"kind ", key),
        DescWhy::Value(bank, key) => of_key(bank, b"value ", key),
        DescWhy::Extra(bank) => two(bank, b"", b"extra"),
        DescWhy::Layout(bank, rule) => two(Some(bank), b"layout ", rule_word(rule)),
        DescWhy::Manifest(bank, cause) => Reason {
            bank: in_bank(Some(bank)),
            cause: manifest_cause(cause),
        },
        DescWhy::Fit(bank, part) => two(Some(bank), b"fit ", part_word(part)),
    }
}

/// What the line says of this rule.
pub fn reason_of(why: Why) -> Reason
    ensures { reason_text result ≡ why_text why }
{
    match why {
        Why::Size => two(None, b"", b"size"),
        Why::Engine(cause) => two(None, b"", cause.word().as_bytes()),
        Why::Script(cause) => two(None, b"", cause.word().as_bytes()),
        Why::Description(cause) => of_description(cause),
    }
}
