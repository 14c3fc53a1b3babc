//! Reads the words behind the name of a command with clap.
#![tactic(auto)]

ghost use Rattle.std.specs.Prelude.{◌≡◌, ◌≤◌, ◌↔◌, List, length, map, string_bytes, true, IfOk, IfSome, IsSome};
ghost use Rattle.std.specs.List.{list_all};
ghost use Rattle.clap.specs.Words.{app_of};
ghost use Rattle.pfr_args.specs.Plain.{is_plain};
ghost use Rattle.pfr_args.specs.RunApp.{app_for};

use clap::error::ErrorKind;
use clap::{Arg, ArgAction, Command};
use pfr_flash::NoMemory;
use std::alloc::{AllocError, Global};

// A command that takes from `least` to `most` words, and has neither a help word nor a version word.
fn command_of<'a>(
    alloc: Global,
    name: &'a str,
    least: usize,
    most: usize,
) -> Result<Command<'a>, AllocError>
    requires { least ≤ most }
    ensures { IfOk result (λ command. app_of command ≡ app_for name.entry.now least most) }
{
    let words = Arg::new(alloc, "words")
        .action(ArgAction::Set)
        .num_args(least..=most)
        .required(true);
    let bare = Command::new(alloc, name);
    let whole = bare.no_binary_name(true);
    let helpless = whole.disable_help_flag(true);
    let plain = helpless.disable_version_flag(true);
    let command = plain.arg(words)?;
    Ok(command)
}

/// The words behind the name of a command, if they are from `least` to `most`.
///
/// Their meaning is the caller's: no word is an option, since none begins with a dash.
pub fn read_args<'a>(
    alloc: Global,
    name: &'a str,
    least: usize,
    most: usize,
    words: &'a [String],
) -> Result<Option<Vec<&'a str>>, NoMemory>
    requires some { 1 ≤ least }
    requires order { least ≤ most }
    requires several { 2 ≤ most }
    requires plain { list_all is_plain (map (λ word. string_bytes word) words.now) ≡ true }
    ensures count { IfOk result (λ taken. IsSome taken ↔ ((least ≤ length words.entry.now) × (length words.entry.now ≤ most))) }
    ensures words { IfOk result (λ taken. IfSome taken (λ args.
        map (λ arg. arg.now) args.items ≡ map (λ word. string_bytes word) words.entry.now)) }
{
    let command = match command_of(alloc, name, least, most) {
        Ok(command) => command,
        Err(_) => return Err(NoMemory),
    };
    match command.try_get_matches_from(words) {
        Ok(matches) => match matches.get_strs("words") {
            Some(args) => match Vec::from_slice(alloc, args) {
                Ok(args) => Ok(Some(args)),
                Err(_) => Err(NoMemory),
            },
            None => Ok(None),
        },
        Err(error) => match error.kind() {
            ErrorKind::OutOfMemory => Err(NoMemory),
            _ => Ok(None),
        },
    }
}
