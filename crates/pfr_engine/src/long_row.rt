// Rows of form 2.
ghost use Rattle.std.specs.Prelude.{◌≡◌, map};
ghost use Rattle.pfr_engine.specs.Accepting.{same_long};
ghost use Rattle.pfr_engine.specs.LongRow.{long_ask_of, long_ask_of_list, judge_long};
ghost use Rattle.pfr_engine.specs.Rows.{at_line, Answers};

use crate::engine_fail::{EngineFail, at_line};
use crate::engine_why::EngineWhy;
use crate::words::{are_hex, are_words, bytes_of, long_bytes_of};
use std::alloc::Global;
use std::marker::Model;

/// A scheme, a key, the SHA-384 of a message, and its signature.
#[derive(Drop)]
pub struct LongRow {
    scheme: u32,
    key: Vec<u8>,
    digest: [u8; 48],
    signature: Vec<u8>,
}

impl Model for LongRow {
    ghost use Rattle.pfr_engine.specs.LongAsk.{LongAsk};

    ghost Value = { LongAsk };

    ghost view = { λ row. record { scheme = row.scheme; key = row.key.items; digest = row.digest; signature = row.signature.items } };
}

impl LongRow {
    /// Whether the row has this scheme, key, digest and signature.
    #[tactic(auto, unfolding(crate::specs::Accepting::same_long))]
    pub fn is_of(&self, scheme: u32, key: &[u8], digest: &[u8; 48], signature: &[u8]) -> bool
        ensures { result ≡ same_long self.now (record { scheme = scheme; key = key.now; digest = digest.now; signature = signature.now }) }
    {
        self.scheme == scheme
            && self.key.as_slice() == key
            && self.digest == *digest
            && self.signature.as_slice() == signature
    }
}

#[tactic(auto, unfolding(crate::specs::LongRow::long_ask_of))]
fn long_ask_of(
    alloc: Global,
    line: u32,
    scheme: &[u8],
    key: &[u8],
    digest: &[u8],
    signature: &[u8],
) -> Result<LongRow, EngineFail>
    ensures { Answers result (at_line line (long_ask_of scheme.now key.now digest.now signature.now)) }
{
    let number = at_line(line, bytes_of::<4>(scheme))?;
    let key = long_bytes_of(alloc, line, key, 256)?;
    let digest = at_line(line, bytes_of::<48>(digest))?;
    let signature = long_bytes_of(alloc, line, signature, 8000)?;
    Ok(LongRow {
        scheme: u32::from_be_bytes(number),
        key,
        digest,
        signature,
    })
}

fn long_ask_of_list(alloc: Global, line: u32, words: &[&[u8]]) -> Result<LongRow, EngineFail>
    ensures { Answers result (at_line line (long_ask_of_list (map (λ word. word.now) words.now))) }
{
    match words {
        [scheme, key, digest, signature] => {
            long_ask_of(alloc, line, scheme, key, digest, signature)
        }
        _ => Err(EngineFail::Text {
            line,
            why: EngineWhy::Words,
        }),
    }
}

/// What four words say: scheme, key, the SHA-384 of the message, and signature.
#[tactic(auto, unfolding(crate::specs::LongRow::judge_long))]
pub fn read_long(alloc: Global, line: u32, words: &[&[u8]]) -> Result<LongRow, EngineFail>
    ensures { Answers result (at_line line (judge_long (map (λ word. word.now) words.now))) }
{
    if !are_words(words, 4) {
        return Err(EngineFail::Text {
            line,
            why: EngineWhy::Words,
        });
    }
    if !are_hex(words) {
        return Err(EngineFail::Text {
            line,
            why: EngineWhy::Hex,
        });
    }
    long_ask_of_list(alloc, line, words)
}
