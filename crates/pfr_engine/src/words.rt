// The words of a line, and the bytes that they spell.
ghost use Rattle.std.specs.Prelude.{◌≡◌, ◌<◌, ◌^◌, map, take, IfOk};
ghost use Rattle.std.specs.List.{list_all};
ghost use Rattle.hex.specs.Hex.{is_hex_digit};
ghost use Rattle.pfr_engine.specs.Words.{words_in, is_word, are_words, are_hex, bytes_of, long_bytes_of};
ghost use Rattle.pfr_engine.specs.Rows.{at_line, Gives};

use crate::engine_fail::EngineFail;
use crate::engine_why::EngineWhy;
use hex::{FromHex, FromHexError};
use std::alloc::{AllocError, Global};

/// The first words of a line, at most so many.
pub fn first_words(alloc: Global, text: &[u8], most: usize) -> Result<Vec<&[u8]>, AllocError>
    ensures { IfOk result (λ words. map (λ word. word.now) words.items ≡ take most (words_in text.now)) }
{
    text.split(|byte| *byte == b' ').take(most).collect(alloc)
}

fn is_word(word: &[u8]) -> bool
    ensures { result ≡ is_word word.now }
{
    !word.is_empty()
}

fn all_words(words: &[&[u8]]) -> bool
    ensures { result ≡ list_all (λ word. is_word word.now) words.now }
{
    words.iter().all(|word| is_word(word))
}

/// Whether these are so many words, none of them empty.
pub fn are_words(words: &[&[u8]], count: usize) -> bool
    ensures { result ≡ are_words count (map (λ word. word.now) words.now) }
{
    words.len() == count && all_words(words)
}

fn is_hex(word: &[u8]) -> bool
    ensures { result ≡ list_all is_hex_digit word.now }
{
    word.iter().all(|digit| digit.is_ascii_hexdigit())
}

fn all_hex(words: &[&[u8]]) -> bool
    ensures { result ≡ list_all (λ word. list_all is_hex_digit word.now) words.now }
{
    words.iter().all(|word| is_hex(word))
}

/// Whether all digits are hex digits, of either case.
pub fn are_hex(words: &[&[u8]]) -> bool
    ensures { result ≡ are_hex (map (λ word. word.now) words.now) }
{
    all_hex(words)
}

/// The bytes of a word of `2 * N` digits.
#[tactic(auto, unfolding(crate::specs::Words::bytes_of))]
pub fn bytes_of<const N: usize>(word: &[u8]) -> Result<[u8; N], EngineWhy>
    ensures { result ≡ bytes_of N word.now }
{
    match <[u8; N] as FromHex>::from_hex(word) {
        Ok(bytes) => Ok(bytes),
        Err(_) => Err(EngineWhy::Length),
    }
}

/// The bytes of a word of 8 digits to `2 * most`, a multiple of 8.
#[tactic(auto, unfolding(crate::specs::Words::long_bytes_of))]
pub fn long_bytes_of(
    alloc: Global,
    line: u32,
    word: &[u8],
    most: usize,
) -> Result<Vec<u8>, EngineFail>
    requires { most < 2 ^ 32 }
    ensures { Gives (λ bytes. bytes.items) result (at_line line (long_bytes_of most word.now)) }
{
    let why = EngineWhy::Length;
    if word.len() < 8 || word.len() > 2 * most || word.len() % 8 != 0 {
        return Err(EngineFail::Text { line, why });
    }
    match hex::decode(alloc, word) {
        Ok(bytes) => Ok(bytes),
        Err(FromHexError::OutOfMemory) => Err(EngineFail::NoMemory),
        Err(_) => Err(EngineFail::Text { line, why }),
    }
}
