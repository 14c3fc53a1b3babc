// Reads what stands at the keys of a description's tables.
ghost use Rattle.std.specs.Prelude.{◌≡◌, ◌≤◌, MatchResult, IfOk, IfSome, string_bytes};
ghost use Rattle.toml.specs.View.{view, table_view};
ghost use Rattle.pfr_description.specs.Keys.{within, value_in, number_in, text_in, table_in, bytes_in, is_one_of, extra_in};
ghost use Rattle.std.specs.List.{list_all};
ghost use Rattle.std.specs.Map.{keys_of};

use crate::fail::DescWhy;
use crate::field::Field;
use pfr_flash::Bank;
use toml::{Table, Value};

/// The value at a key.
pub fn value_at(table: &Table, bank: Option<Bank>, key: Field) -> Result<&Value, DescWhy>
    ensures { MatchResult result (λ value. value_in bank key (table_view table.now) ≡ Ok (view value.now)) (λ why. value_in bank key (table_view table.now) ≡ Err why) }
{
    match table.get(key.name()) {
        Some(value) => Ok(value),
        None => Err(DescWhy::Missing(bank, key)),
    }
}

// the number, where it is at most this
fn within(number: i64, most: u32) -> Option<u32>
    ensures exact { result ≡ within most number }
    ensures most { IfSome result (λ small. small ≤ most) }
{
    if number < 0 || number > i64::from(most) {
        return None;
    }
    Some(number as u32)
}

/// The integer at a key, from 0 to the greatest that is allowed.
pub fn number_at(table: &Table, bank: Option<Bank>, key: Field, most: u32) -> Result<u32, DescWhy>
    ensures exact { result ≡ number_in bank key most (table_view table.now) }
    ensures most { IfOk result (λ number. number ≤ most) }
{
    let value = value_at(table, bank, key)?;
    let number = value.as_integer().ok_or(DescWhy::Kind(bank, key))?;
    within(number, most).ok_or(DescWhy::Value(bank, key))
}

/// The string at a key.
pub fn text_at(table: &Table, bank: Option<Bank>, key: Field) -> Result<&str, DescWhy>
    ensures { MatchResult result (λ text. text_in bank key (table_view table.now) ≡ Ok text.now) (λ why. text_in bank key (table_view table.now) ≡ Err why) }
{
    let value = value_at(table, bank, key)?;
    match value.as_str() {
        Some(text) => Ok(text),
        None => Err(DescWhy::Kind(bank, key)),
    }
}

/// The table at a key.
pub fn table_at(table: &Table, bank: Option<Bank>, key: Field) -> Result<&Table, DescWhy>
    ensures { MatchResult result (λ inner. table_in bank key (table_view table.now) ≡ Ok (table_view inner.now)) (λ why. table_in bank key (table_view table.now) ≡ Err why) }
{
    let value = value_at(table, bank, key)?;
    match value.as_table() {
        Some(inner) => Ok(inner),
        None => Err(DescWhy::Kind(bank, key)),
    }
}

/// The bytes that the hex digits at a key spell, just as many as asked for.
pub fn bytes_at<const N: usize>(
    table: &Table,
    bank: Option<Bank>,
    key: Field,
) -> Result<[u8; N], DescWhy>
    ensures { result ≡ bytes_in bank key N (table_view table.now) }
{
    let text = text_at(table, bank, key)?;
    let mut bytes = [0; N];
    match hex::decode_to_slice(text, &mut bytes) {
        Ok(()) => Ok(bytes),
        Err(_) => Err(DescWhy::Value(bank, key)),
    }
}

// whether a text is one of these keys
fn is_one_of(text: &str, keys: &[Field]) -> bool
    ensures { result ≡ is_one_of keys.now text.now }
{
    keys.iter().any(|key| key.name() == text)
}

// whether a table has no other keys
fn only_has(table: &Table, allowed: &[Field]) -> bool
    ensures { result ≡ list_all (λ key. is_one_of allowed.now (string_bytes key)) (keys_of table.now.entries) }
{
    table.keys().all(|key| is_one_of(key.as_str(), allowed))
}

/// Whether a table has no other keys than these.
pub fn check_extra(table: &Table, bank: Option<Bank>, allowed: &[Field]) -> Result<(), DescWhy>
    ensures { result ≡ extra_in bank allowed.now (table_view table.now) }
{
    if only_has(table, allowed) {
        Ok(())
    } else {
        Err(DescWhy::Extra(bank))
    }
}
