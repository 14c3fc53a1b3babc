// The words of a line, and the lines of a text.
ghost use Rattle.std.specs.Prelude.{◌≡◌, ◌==◌, ◌<◌, [], ◌∷◌, length, position, MatchOption, MatchResult, IfSome};
ghost use Rattle.std.specs.Option.{option_copied};
ghost use Rattle.pfr_engine.specs.Words.{words_in};
ghost use Rattle.pfr_script.specs.Words.{pieces, words_behind, next_word, no_word, one_word, two_words, three_words, bank_of, bank_and_word, pass_of, intent_of, device_of};

use crate::event::Intent;
use crate::script_why::ScriptWhy;
use pfr_flash::{Bank, Device};

fn place_of(text: &[u8], separator: u8) -> Option<usize>
    ensures { result ≡ position (λ byte. byte == separator) text.now }
{
    text.iter().position(|byte| *byte == separator)
}

/// What stands before the first separator, and what stands behind it.
pub fn split_first(text: &[u8], separator: u8) -> Option<(&[u8], &[u8])>
    ensures pieces { MatchOption result (pieces separator text.now ≡ text.now ∷ []) (λ parts. pieces separator text.now ≡ parts.0.now ∷ pieces separator parts.1.now) }
    ensures shorter { IfSome result (λ parts. length parts.1.now < length text.now) }
{
    let end = place_of(text, separator)?;
    Some((&text[0..end], &text[end + 1..]))
}

/// The first word of a text, and what stands behind its space, if there is one.
pub fn first_word(text: &[u8]) -> (&[u8], Option<&[u8]>)
    ensures { words_in text.now ≡ result.0.now ∷ words_behind (option_copied result.1) }
{
    match split_first(text, b' ') {
        Some((word, rest)) => (word, Some(rest)),
        None => (text, None),
    }
}

/// The next word, which isn't empty, and what stands behind it.
fn next_word(rest: Option<&[u8]>) -> Result<(&[u8], Option<&[u8]>), ScriptWhy>
    ensures { MatchResult result
        (λ parts. next_word (words_behind (option_copied rest.entry)) ≡ Ok (parts.0.now, words_behind (option_copied parts.1)))
        (λ why. next_word (words_behind (option_copied rest.entry)) ≡ Err why) }
{
    let text = rest.ok_or(ScriptWhy::Word)?;
    let (word, rest) = first_word(text);
    if word.is_empty() {
        return Err(ScriptWhy::Word);
    }
    Ok((word, rest))
}

/// Whether the line ends here.
pub fn no_word(rest: Option<&[u8]>) -> Result<(), ScriptWhy>
    ensures { result ≡ no_word (words_behind (option_copied rest.entry)) }
{
    match rest {
        None => Ok(()),
        Some(_) => Err(ScriptWhy::Word),
    }
}

/// The one word that is left.
#[tactic(auto, unfolding(crate::specs::Words::one_word))]
pub fn one_word(rest: Option<&[u8]>) -> Result<&[u8], ScriptWhy>
    ensures { MatchResult result
        (λ word. one_word (words_behind (option_copied rest.entry)) ≡ Ok word.now)
        (λ why. one_word (words_behind (option_copied rest.entry)) ≡ Err why) }
{
    let (word, rest) = next_word(rest)?;
    no_word(rest)?;
    Ok(word)
}

/// The two words that are left.
#[tactic(auto, unfolding(crate::specs::Words::two_words))]
pub fn two_words(rest: Option<&[u8]>) -> Result<(&[u8], &[u8]), ScriptWhy>
    ensures { MatchResult result
        (λ words. two_words (words_behind (option_copied rest.entry)) ≡ Ok (words.0.now, words.1.now))
        (λ why. two_words (words_behind (option_copied rest.entry)) ≡ Err why) }
{
    let (first, rest) = next_word(rest)?;
    let second = one_word(rest)?;
    Ok((first, second))
}

/// The three words that are left.
#[tactic(auto, unfolding(crate::specs::Words::three_words))]
pub fn three_words(rest: Option<&[u8]>) -> Result<(&[u8], &[u8], &[u8]), ScriptWhy>
    ensures { MatchResult result
        (λ words. three_words (words_behind (option_copied rest.entry)) ≡ Ok (words.0.now, words.1.now, words.2.now))
        (λ why. three_words (words_behind (option_copied rest.entry)) ≡ Err why) }
{
    let (first, rest) = next_word(rest)?;
    let (second, third) = two_words(rest)?;
    Ok((first, second, third))
}

/// The bank of a name.
fn bank_of(word: &[u8]) -> Option<Bank>
    ensures { result ≡ bank_of word.now }
{
    if word == b"bmc".as_slice() {
        Some(Bank::Bmc)
    } else if word == b"pch".as_slice() {
        Some(Bank::Pch)
    } else {
        None
    }
}

/// The bank and the word behind it that are left.
#[tactic(auto, unfolding(crate::specs::Words::bank_and_word))]
pub fn bank_and_word(rest: Option<&[u8]>) -> Result<(Bank, &[u8]), ScriptWhy>
    ensures { MatchResult result
        (λ parts. bank_and_word (words_behind (option_copied rest.entry)) ≡ Ok (parts.0, parts.1.now))
        (λ why. bank_and_word (words_behind (option_copied rest.entry)) ≡ Err why) }
{
    let (bank, word) = two_words(rest)?;
    let bank = bank_of(bank).ok_or(ScriptWhy::Word)?;
    Ok((bank, word))
}

/// Whether a boot passed, by its word.
pub fn pass_of(word: &[u8]) -> Option<bool>
    ensures { result ≡ pass_of word.now }
{
    if word == b"pass".as_slice() {
        Some(true)
    } else if word == b"fail".as_slice() {
        Some(false)
    } else {
        None
    }
}

/// The intent of a name.
pub fn intent_of(word: &[u8]) -> Option<Intent>
    ensures { result ≡ intent_of word.now }
{
    if word == b"active".as_slice() {
        Some(Intent::Active)
    } else if word == b"full".as_slice() {
        Some(Intent::Full)
    } else if word == b"recovery".as_slice() {
        Some(Intent::Recovery)
    } else if word == b"cert".as_slice() {
        Some(Intent::Cert)
    } else {
        None
    }
}

/// The device of a name.
pub fn device_of(word: &[u8]) -> Option<Device>
    ensures { result ≡ device_of word.now }
{
    if word == b"bmc".as_slice() {
        Some(Device::Bmc)
    } else if word == b"pch".as_slice() {
        Some(Device::Pch)
    } else if word == b"nv".as_slice() {
        Some(Device::Nv)
    } else {
        None
    }
}
