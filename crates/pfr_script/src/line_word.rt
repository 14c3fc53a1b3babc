// Reads what a line says, word by word.
ghost use Rattle.std.specs.Prelude.{◌≡◌, ◌↔◌, ◌≤◌, IfOk};
ghost use Rattle.std.specs.Option.{option_copied};
ghost use Rattle.pfr_engine.specs.Words.{words_in};
ghost use Rattle.pfr_script.specs.Words.{words_behind};
ghost use Rattle.pfr_script.specs.Grammar.{Says};
ghost use Rattle.pfr_script.specs.Line.{IsNumbered, judge_alone, judge_boot, judge_frame_line, judge_provision, judge_smbus, judge_spi, judge_tick, judge_torn, judge_read_fault, judge_update, judge_words, judge_first};

use crate::arm::ArmWhat;
use crate::event::Event;
use crate::frame::Frame;
use crate::hex_word::{read_frame, read_slot, read_tear};
use crate::line::Line;
use crate::number::{read_number, read_ticks};
use crate::script_why::ScriptWhy;
use crate::words::{
    bank_and_word, device_of, first_word, intent_of, no_word, one_word, pass_of, three_words,
    two_words,
};
use pfr_flash::Bank;
use pfr_fuses::RootSlot;

// An event whose word stands alone.
#[inline(never)]
fn read_alone(event: Event, rest: Option<&[u8]>) -> Result<Line, ScriptWhy>
    ensures exact { result ≡ judge_alone event (words_behind (option_copied rest.entry)) }
    ensures numbered { IfOk result IsNumbered }
{
    no_word(rest)?;
    Ok(Line::Happens(event))
}

// `tick <n>`
#[tactic(auto, unfolding(crate::specs::Line::judge_tick))]
#[inline(never)]
fn read_tick(rest: Option<&[u8]>) -> Result<Line, ScriptWhy>
    ensures exact { result ≡ judge_tick (words_behind (option_copied rest.entry)) }
    ensures numbered { IfOk result IsNumbered }
{
    let word = one_word(rest)?;
    let ticks = read_ticks(word)?;
    Ok(Line::Happens(Event::Tick(ticks)))
}

// `boot <bank> pass` or `boot <bank> fail`
#[tactic(auto, unfolding(crate::specs::Line::judge_boot))]
#[inline(never)]
fn read_boot(rest: Option<&[u8]>) -> Result<Line, ScriptWhy>
    ensures exact { result ≡ judge_boot (words_behind (option_copied rest.entry)) }
    ensures numbered { IfOk result IsNumbered }
{
    let (bank, pass) = bank_and_word(rest)?;
    let pass = pass_of(pass).ok_or(ScriptWhy::Word)?;
    Ok(Line::Happens(Event::Boot { bank, pass }))
}

// The bank and the frame behind `spi` or `smbus`.
#[tactic(auto, unfolding(crate::specs::Line::judge_frame_line))]
fn read_frame_line(rest: Option<&[u8]>, most: usize) -> Result<(Bank, Frame), ScriptWhy>
    requires { most ≤ 261 }
    ensures { result ≡ judge_frame_line most (words_behind (option_copied rest.entry)) }
{
    let (bank, frame) = bank_and_word(rest)?;
    let frame = read_frame(frame, most)?;
    Ok((bank, frame))
}

// `spi <bank> <hex>`
#[tactic(auto, unfolding(crate::specs::Line::judge_spi))]
#[inline(never)]
fn read_spi(rest: Option<&[u8]>) -> Result<Line, ScriptWhy>
    ensures exact { result ≡ judge_spi (words_behind (option_copied rest.entry)) }
    ensures numbered { IfOk result IsNumbered }
{
    let (bank, frame) = read_frame_line(rest, 261)?;
    Ok(Line::Happens(Event::Spi { bank, frame }))
}

// `smbus <bank> <hex>`
#[tactic(auto, unfolding(crate::specs::Line::judge_smbus))]
#[inline(never)]
fn read_smbus(rest: Option<&[u8]>) -> Result<Line, ScriptWhy>
    ensures exact { result ≡ judge_smbus (words_behind (option_copied rest.entry)) }
    ensures numbered { IfOk result IsNumbered }
{
    let (bank, frame) = read_frame_line(rest, 35)?;
    Ok(Line::Happens(Event::Smbus { bank, frame }))
}

// `update <bank> <intent>`
#[tactic(auto, unfolding(crate::specs::Line::judge_update))]
fn read_update(rest: Option<&[u8]>) -> Result<Line, ScriptWhy>
    ensures exact { result ≡ judge_update (words_behind (option_copied rest.entry)) }
    ensures numbered { IfOk result IsNumbered }
{
    let (bank, intent) = bank_and_word(rest)?;
    let intent = intent_of(intent).ok_or(ScriptWhy::Word)?;
    Ok(Line::Happens(Event::Update { bank, intent }))
}

// `provision <hex>`
#[tactic(auto, unfolding(crate::specs::Line::judge_provision))]
#[inline(never)]
fn read_provision(rest: Option<&[u8]>) -> Result<Line, ScriptWhy>
    ensures exact { result ≡ judge_provision (words_behind (option_copied rest.entry)) }
    ensures numbered { IfOk result IsNumbered }
{
    let word = one_word(rest)?;
    let slot = read_slot(word)?;
    Ok(Line::Happens(Event::Provision(RootSlot::from_slot(&slot))))
}

// `cut <device> <n> <tear>`, or the same for a fault
#[tactic(auto, unfolding(crate::specs::Line::judge_torn))]
fn read_torn(what: ArmWhat, rest: Option<&[u8]>) -> Result<Line, ScriptWhy>
    ensures exact { result ≡ judge_torn what (words_behind (option_copied rest.entry)) }
    ensures numbered { IfOk result IsNumbered }
{
    let (device, nth, tear) = three_words(rest)?;
    let device = device_of(device).ok_or(ScriptWhy::Word)?;
    let nth = read_number(nth)?;
    let tear = read_tear(tear)?;
    Ok(Line::Arms {
        device,
        what,
        nth,
        tear,
    })
}

// `readfault <device> <n>`
#[tactic(auto, unfolding(crate::specs::Line::judge_read_fault))]
#[inline(never)]
fn read_read_fault(rest: Option<&[u8]>) -> Result<Line, ScriptWhy>
    ensures exact { result ≡ judge_read_fault (words_behind (option_copied rest.entry)) }
    ensures numbered { IfOk result IsNumbered }
{
    let (device, nth) = two_words(rest)?;
    let device = device_of(device).ok_or(ScriptWhy::Word)?;
    let nth = read_number(nth)?;
    Ok(Line::Arms {
        device,
        what: ArmWhat::ReadFault,
        nth,
        tear: None,
    })
}

#[tactic(auto, unfolding(crate::specs::Line::judge_words))]
#[inline(never)]
fn read_words(word: &[u8], rest: Option<&[u8]>) -> Result<Line, ScriptWhy>
    ensures exact { result ≡ judge_words word.now (words_behind (option_copied rest.entry)) }
    ensures numbered { IfOk result IsNumbered }
{
    if word == b"power".as_slice() {
        read_alone(Event::Power, rest)
    } else if word == b"off".as_slice() {
        read_alone(Event::Off, rest)
    } else if word == b"tick".as_slice() {
        read_tick(rest)
    } else if word == b"boot".as_slice() {
        read_boot(rest)
    } else if word == b"spi".as_slice() {
        read_spi(rest)
    } else if word == b"smbus".as_slice() {
        read_smbus(rest)
    } else if word == b"update".as_slice() {
        read_update(rest)
    } else if word == b"provision".as_slice() {
        read_provision(rest)
    } else if word == b"cut".as_slice() {
        read_torn(ArmWhat::Cut, rest)
    } else if word == b"fault".as_slice() {
        read_torn(ArmWhat::Fault, rest)
    } else if word == b"readfault".as_slice() {
        read_read_fault(rest)
    } else {
        Err(ScriptWhy::Word)
    }
}

/// What a line says, by its first word.
pub fn read_line(text: &[u8]) -> Result<Line, ScriptWhy>
    ensures exact { result ≡ judge_first (words_in text.now) }
    ensures numbered { IfOk result IsNumbered }
    ensures spelled { (line : Line) → (result ≡ Ok line) ↔ Says line (words_in text.now) }
{
    let (word, rest) = first_word(text);
    read_words(word, rest)
}
