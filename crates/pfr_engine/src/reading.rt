// Reads the rows of a text.
ghost use Rattle.std.specs.Prelude.{◌≡◌, ◌-◌, ◌^◌, ◌<◌, ◌≤◌, ◌==◌, length, position, [], ◌∷◌, vec_len, MatchOption, IfSome, IfOk};
ghost use Rattle.pfr_engine.specs.Words.{words_in};
ghost use Rattle.pfr_engine.specs.ShortRow.{judge_short};
ghost use Rattle.pfr_engine.specs.LongRow.{judge_long};
ghost use Rattle.pfr_engine.specs.Rows.{Answers, Gives, at_line, judge_row, judge_line, lines_in, judge_text};

use crate::engine::Ask;
use crate::engine_fail::{EngineFail, at_line};
use crate::engine_why::EngineWhy;
use crate::long_row::{LongRow, read_long};
use crate::row::Row;
use crate::short_row::read_short;
use crate::words::first_words;
use std::alloc::Global;

#[tactic(auto, using(crate::proofs::WordLemmas::short_front))]
fn short_row(alloc: Global, line: u32, text: &[u8]) -> Result<Ask, EngineFail>
    ensures { Answers result (at_line line (judge_short (words_in text.now))) }
{
    let words = first_words(alloc, text, 7)?;
    at_line(line, read_short(&words))
}

#[tactic(auto, using(crate::proofs::WordLemmas::long_front))]
fn long_row(alloc: Global, line: u32, text: &[u8]) -> Result<LongRow, EngineFail>
    ensures { Answers result (at_line line (judge_long (words_in text.now))) }
{
    let words = first_words(alloc, text, 5)?;
    read_long(alloc, line, &words)
}

#[tactic(auto, unfolding(crate::specs::Rows::judge_row))]
fn row_of(alloc: Global, line: u32, text: &[u8]) -> Result<Row, EngineFail>
    ensures { Answers result (at_line line (judge_row text.now)) }
{
    match text.strip_prefix(b"long ") {
        Some(rest) => Ok(Row::Long(long_row(alloc, line, rest)?)),
        None => Ok(Row::Short(short_row(alloc, line, text)?)),
    }
}

#[tactic(auto, unfolding(crate::specs::Rows::judge_line))]
fn line_row(alloc: Global, line: u32, text: &[u8]) -> Result<Row, EngineFail>
    ensures exact { Answers result (judge_line line text.now) }
    ensures few { IfOk result (λ _. line ≤ 4096) }
{
    if line > 4096 {
        return Err(EngineFail::Text {
            line,
            why: EngineWhy::TooMany,
        });
    }
    row_of(alloc, line, text)
}

fn newline_at(text: &[u8]) -> Option<usize>
    ensures { result ≡ position (λ byte. byte == 10) text.now }
{
    text.iter().position(|byte| *byte == b'\n')
}

/// The first line of a text, without its newline, and what stands behind it.
fn split_line(text: &[u8]) -> Option<(&[u8], &[u8])>
    ensures lines { MatchOption result (lines_in text.now ≡ text.now ∷ []) (λ parts. lines_in text.now ≡ parts.0.now ∷ lines_in parts.1.now) }
    ensures shorter { IfSome result (λ parts. length parts.1.now < length text.now) }
{
    let end = newline_at(text)?;
    Some((&text[0..end], &text[end + 1..]))
}

/// The rows of a text, each a line with a newline at its end.
#[tactic(auto, unfolding(crate::specs::Rows::judge_text))]
pub fn read_rows(alloc: Global, text: &[u8]) -> Result<Vec<Row>, EngineFail>
    requires { length text.now < 2 ^ 32 - 1 }
    ensures exact { Gives (λ rows. rows.items) result (judge_text text.now) }
    ensures few { IfOk result (λ rows. vec_len rows ≤ 4096) }
{
    let mut rows = Vec::new(alloc);
    let mut rest = text;
    let mut line = 1;
    'lines: while let Some((first, others)) = split_line(rest) {
        let row = line_row(alloc, line, first)?;
        rows.push(row)?;
        rest = others;
        line += 1;
    }
    if !rest.is_empty() {
        return Err(EngineFail::Text {
            line,
            why: EngineWhy::Newline,
        });
    }
    Ok(rows)
}
