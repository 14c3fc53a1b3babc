// The rows by which an engine accepts signatures.
ghost use Rattle.std.specs.Prelude.{◌≡◌, ◌++◌, codes, OnOk};
ghost use Rattle.hex.specs.Hex.{encode_lower};
ghost use Rattle.pfr_made.specs.Rows.{word, row_of, long_row_of};

use crate::marks::{curve_number, digest_bytes};
use pfr_chain::Ask;
use pfr_flash::NoMemory;
use std::alloc::Global;

fn push_digits(alloc: Global, rows: &mut Vec<u8>, bytes: &[u8]) -> Result<(), NoMemory>
    ensures { OnOk result (rows.new.items ≡ rows.old.items ++ encode_lower bytes.now) }
{
    let digits = hex::encode(alloc, bytes)?;
    rows.extend_from_slice(digits.as_bytes())?;
    Ok(())
}

// appends a word of hex digits, and what ends it
#[tactic(auto, unfolding(pfr_made::specs::Rows::word))]
fn push_word(alloc: Global, rows: &mut Vec<u8>, bytes: &[u8], end: u8) -> Result<(), NoMemory>
    ensures { OnOk result (rows.new.items ≡ rows.old.items ++ word bytes.now end) }
{
    push_digits(alloc, rows, bytes)?;
    rows.push(end)?;
    Ok(())
}

/// Appends the row of a signature.
#[tactic(auto, unfolding(pfr_made::specs::Rows::row_of))]
pub fn push_row(alloc: Global, rows: &mut Vec<u8>, ask: &Ask) -> Result<(), NoMemory>
    ensures { OnOk result (rows.new.items ≡ rows.old.items ++ row_of ask.now) }
{
    push_word(alloc, rows, &curve_number(ask.curve).to_be_bytes(), b' ')?;
    push_word(alloc, rows, &ask.x, b' ')?;
    push_word(alloc, rows, &ask.y, b' ')?;
    push_word(alloc, rows, digest_bytes(&ask.digest), b' ')?;
    push_word(alloc, rows, &ask.r, b' ')?;
    push_word(alloc, rows, &ask.s, b'\n')
}

// one word of two parts
#[tactic(auto, using(crate::proofs::Digits::word_of_pair))]
fn push_pair(
    alloc: Global,
    rows: &mut Vec<u8>,
    first: &[u8; 48],
    second: &[u8; 48],
    end: u8,
) -> Result<(), NoMemory>
    ensures { OnOk result (rows.new.items ≡ rows.old.items ++ word (first.now ++ second.now) end) }
{
    push_digits(alloc, rows, first)?;
    push_word(alloc, rows, second, end)
}

/// Appends the long row of a signature: the key is X then Y, the signature R then S.
#[tactic(auto, unfolding(pfr_made::specs::Rows::long_row_of))]
pub fn push_long_row(
    alloc: Global,
    rows: &mut Vec<u8>,
    scheme: u32,
    marks: &Ask,
) -> Result<(), NoMemory>
    ensures { OnOk result (rows.new.items ≡ rows.old.items ++ long_row_of scheme marks.now) }
{
    rows.extend_from_slice(b"long ")?;
    push_word(alloc, rows, &scheme.to_be_bytes(), b' ')?;
    push_pair(alloc, rows, &marks.x, &marks.y, b' ')?;
    push_word(alloc, rows, digest_bytes(&marks.digest), b' ')?;
    push_pair(alloc, rows, &marks.r, &marks.s, b'\n')
}
