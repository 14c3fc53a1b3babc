// Bytes that hex digits spell.
ghost use Rattle.std.specs.Prelude.{◌≡◌, ◌≤◌, length};
ghost use Rattle.std.specs.List.{list_all};
ghost use Rattle.hex.specs.Hex.{decode_of, is_hex_digit};
ghost use Rattle.pfr_script.specs.Hex.{decoded, is_hex, judge_frame, judge_slot, judge_tear};

use crate::frame::Frame;
use crate::script_why::ScriptWhy;
use hex::{FromHex, decode_to_slice};
use pfr_flash::Tear;

fn are_hex_digits(word: &[u8]) -> bool
    ensures { result ≡ list_all is_hex_digit word.now }
{
    word.iter().all(|digit| digit.is_ascii_hexdigit())
}

/// Whether these are hex digits of either case, and even in number.
fn is_hex(word: &[u8]) -> bool
    ensures { result ≡ is_hex word.now }
{
    word.len() % 2 == 0 && are_hex_digits(word)
}

/// The 72 bytes of a provision slot before its gate.
#[tactic(auto, unfolding(crate::specs::Hex::judge_slot))]
pub fn read_slot(word: &[u8]) -> Result<[u8; 72], ScriptWhy>
    ensures { result ≡ judge_slot word.now }
{
    if !is_hex(word) {
        return Err(ScriptWhy::Hex);
    }
    match <[u8; 72] as FromHex>::from_hex(word) {
        Ok(bytes) => Ok(bytes),
        Err(_) => Err(ScriptWhy::Length),
    }
}

fn frame_of(word: &[u8]) -> Result<Frame, ScriptWhy>
    requires some { 2 ≤ length word.now }
    requires most { length word.now ≤ 522 }
    ensures { result ≡ decoded (decode_of word.now) }
{
    let mut bytes = [0; 261];
    let count = word.len() / 2;
    match decode_to_slice(word, &mut bytes[0..count]) {
        Ok(()) => Ok(Frame::new(&bytes[0..count])),
        Err(_) => Err(ScriptWhy::Hex),
    }
}

/// A frame of 1 byte at least and of so many at most.
#[tactic(auto, unfolding(crate::specs::Hex::judge_frame))]
pub fn read_frame(word: &[u8], most: usize) -> Result<Frame, ScriptWhy>
    requires { most ≤ 261 }
    ensures { result ≡ judge_frame most word.now }
{
    if !is_hex(word) {
        return Err(ScriptWhy::Hex);
    }
    let count = word.len() / 2;
    if count == 0 || count > most {
        return Err(ScriptWhy::Length);
    }
    frame_of(word)
}

fn tear_of(word: &[u8]) -> Result<Tear, ScriptWhy>
    requires { length word.now ≤ 8192 }
    ensures { result ≡ decoded (decode_of word.now) }
{
    let mut bytes = [0; 4096];
    let count = word.len() / 2;
    match decode_to_slice(word, &mut bytes[0..count]) {
        Ok(()) => Ok(Tear::new(&bytes[0..count])),
        Err(_) => Err(ScriptWhy::Hex),
    }
}

/// A tear of at most 4,096 bytes, or none, where the word is `-`.
#[tactic(auto, unfolding(crate::specs::Hex::judge_tear))]
pub fn read_tear(word: &[u8]) -> Result<Option<Tear>, ScriptWhy>
    ensures { result ≡ judge_tear word.now }
{
    if word == b"-".as_slice() {
        return Ok(None);
    }
    if !is_hex(word) {
        return Err(ScriptWhy::Hex);
    }
    if word.len() > 8192 {
        return Err(ScriptWhy::Length);
    }
    Ok(Some(tear_of(word)?))
}
