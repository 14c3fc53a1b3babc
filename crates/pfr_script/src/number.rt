// Decimal numbers.
ghost use Rattle.std.specs.Prelude.{◌≡◌, ◌≤◌, IfOk};
ghost use Rattle.std.specs.List.{list_all};
ghost use Rattle.std.specs.Char.{is_ascii_digit};
ghost use Rattle.pfr_script.specs.Numbers.{begins_above_zero, judge_number};

use crate::script_why::ScriptWhy;

fn are_digits(word: &[u8]) -> bool
    ensures { result ≡ list_all is_ascii_digit word.now }
{
    word.iter().all(|digit| digit.is_ascii_digit())
}

fn begins_above_zero(word: &[u8]) -> bool
    ensures { result ≡ begins_above_zero word.now }
{
    match word {
        [first, ..] => *first > b'0',
        [] => false,
    }
}

/// The number that a word spells, from 1 to 4,294,967,295 and without leading zeros.
#[tactic(auto, unfolding(crate::specs::Numbers::judge_number))]
pub fn read_number(word: &[u8]) -> Result<u32, ScriptWhy>
    ensures exact { result ≡ judge_number 4294967295 word.now }
    ensures some { IfOk result (λ number. 1 ≤ number) }
{
    if !are_digits(word) || !begins_above_zero(word) {
        return Err(ScriptWhy::Number);
    }
    let Ok(digits) = str::from_utf8(word) else {
        return Err(ScriptWhy::Number);
    };
    match digits.parse() {
        Ok(number) => Ok(number),
        Err(_) => Err(ScriptWhy::Number),
    }
}

/// The ticks that a word spells, from 1 to 65,535 and without leading zeros.
pub fn read_ticks(word: &[u8]) -> Result<u16, ScriptWhy>
    ensures { result ≡ judge_number 65535 word.now }
{
    let number = read_number(word)?;
    match u16::try_from(number) {
        Ok(ticks) => Ok(ticks),
        Err(_) => Err(ScriptWhy::Number),
    }
}
