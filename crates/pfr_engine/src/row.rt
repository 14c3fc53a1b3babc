// Rows of either form.
ghost use Rattle.std.specs.Prelude.{◌≡◌};
ghost use Rattle.std.specs.List.{list_any};
ghost use Rattle.pfr_engine.specs.Accepting.{is_short_of, is_long_of};

use crate::engine::Ask;
use crate::long_row::LongRow;

/// What one line of an engine's text says.
#[derive(Drop)]
pub enum Row {
    Short(Ask),
    Long(LongRow),
}

impl Row {
    /// Whether the row is this question of form 1.
    fn is_short_of(&self, ask: &Ask) -> bool
        ensures { result ≡ is_short_of ask.now self.now }
    {
        match self {
            Row::Short(row) => row == ask,
            Row::Long(_) => false,
        }
    }

    /// Whether the row is long and has this scheme, key, digest and signature.
    fn is_long_of(&self, scheme: u32, key: &[u8], digest: &[u8; 48], signature: &[u8]) -> bool
        ensures { result ≡ is_long_of (record { scheme = scheme; key = key.now; digest = digest.now; signature = signature.now }) self.now }
    {
        match self {
            Row::Short(_) => false,
            Row::Long(row) => row.is_of(scheme, key, digest, signature),
        }
    }
}

/// Whether a row is this question of form 1.
pub fn has_short(rows: &[Row], ask: &Ask) -> bool
    ensures { result ≡ list_any (is_short_of ask.now) rows.now }
{
    rows.iter().any(|row| row.is_short_of(ask))
}

/// Whether a long row has this scheme, key, digest and signature.
pub fn has_long(rows: &[Row], scheme: u32, key: &[u8], digest: &[u8; 48], signature: &[u8]) -> bool
    ensures { result ≡ list_any (is_long_of (record { scheme = scheme; key = key.now; digest = digest.now; signature = signature.now })) rows.now }
{
    rows.iter()
        .any(|row| row.is_long_of(scheme, key, digest, signature))
}
