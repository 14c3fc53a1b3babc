// Reads a script from its text.
ghost use Rattle.std.specs.Prelude.{◌≡◌, ◌↔◌, ℕ, ◌<◌, ◌≤◌, List, length, Ok};
ghost use Rattle.pfr_script.specs.Grammar.{Says};
ghost use Rattle.pfr_script.specs.Line.{IsNumbered, judge_first};
ghost use Rattle.pfr_script.specs.declared.line.Line.{Line};
ghost use Rattle.pfr_flash.specs.Answer.{Answers};
ghost use Rattle.pfr_script.specs.Reading.{Becomes, memory_failure, added, at_line, is_no_item, judge_line, judge_script};

use crate::line::Line;
use crate::line_word::read_line;
use crate::script::Script;
use crate::script_fail::{ScriptFail, at_line};
use crate::script_why::ScriptWhy;
use crate::words::split_first;
use std::alloc::Global;

// An empty line and one that begins with `#` are no items.
fn is_no_item(text: &[u8]) -> bool
    ensures { result ≡ is_no_item text.now }
{
    match text {
        [] => true,
        [first, ..] => *first == b'#',
    }
}

// Appends what a line says.
fn add_line(script: &mut Script, number: u32, line: Line) -> Result<(), ScriptFail>
    requires few { length script.old.items < 65536 }
    requires numbered { IsNumbered line }
    ensures { Becomes script.new result (at_line number (added script.old line)) }
{
    match line {
        Line::Happens(event) => {
            script.push_event(event)?;
            Ok(())
        }
        Line::Arms {
            device,
            what,
            nth,
            tear,
        } => {
            if !script.may_arm(device, what) {
                return Err(ScriptFail::Text {
                    line: number,
                    why: ScriptWhy::TooManyArms,
                });
            }
            script.push_arm(device, what, nth, tear)?;
            Ok(())
        }
    }
}

// Appends what the line of this number says, if it is an item.
#[tactic(auto, unfolding(crate::specs::Reading::judge_line))]
fn read_item(script: &mut Script, number: u32, text: &[u8]) -> Result<(), ScriptFail>
    ensures { Becomes script.new result (at_line number (judge_line script.old text.now)) }
{
    if is_no_item(text) {
        return Ok(());
    }
    if script.len() >= 65536 {
        return Err(ScriptFail::Text {
            line: number,
            why: ScriptWhy::TooMany,
        });
    }
    let line = at_line(number, read_line(text))?;
    add_line(script, number, line)
}

// Reads a script line by line.
#[tactic(auto, unfolding(crate::specs::Reading::judge_script))]
fn read_lines(alloc: Global, text: &[u8]) -> Result<Script, ScriptFail>
    requires { length text.now ≤ 4294967294 }
    ensures exact { Answers memory_failure result (judge_script text.now) }
{
    let mut script = Script::new(alloc)?;
    let mut rest = text;
    let mut line = 1;
    'lines: while let Some((first, others)) = split_first(rest, b'\n') {
        read_item(&mut script, line, first)?;
        rest = others;
        line += 1;
    }
    read_item(&mut script, line, rest)?;
    Ok(script)
}

/// Reads a script: one line is one item. An empty line and one that begins with `#` are none, and
/// the last line may lack its newline.
///
/// A line is `power`, `off`, `tick <n>`, `boot <bank> pass`, `boot <bank> fail`,
/// `spi <bank> <hex>` with 1 to 261 bytes, `smbus <bank> <hex>` with 1 to 35,
/// `update <bank> active`, `update <bank> full`, `update <bank> recovery`, `update <bank> cert`,
/// `provision <hex>` with a slot's 72 bytes before its gate, `cut <device> <n> <tear>`,
/// `fault <device> <n> <tear>` or `readfault <device> <n>`, with single spaces between its words. A
/// bank is `bmc` or `pch`, and a device is a bank or `nv`. `n` is decimal without leading zeros, from
/// 1 to 65,535 for ticks and to 4,294,967,295 elsewhere. A tear is `-` or hex of at most 4,096 bytes.
/// Hex has digits of either case.
///
/// # Errors
///
/// The first thing that is wrong with the first bad line, or want of memory.
pub fn parse(alloc: Global, text: &[u8]) -> Result<Script, ScriptFail>
    requires { length text.now ≤ 4294967294 }
    ensures exact { Answers memory_failure result (judge_script text.now) }
    // The judgement takes the words of a line for just what they spell.
    ensures spelled { (words : List (List ℕ)) (line : Line) → (judge_first words ≡ Ok line) ↔ Says line words }
{
    read_lines(alloc, text)
}
