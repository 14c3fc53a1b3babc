// The words of the command line.
ghost use Rattle.std.specs.Prelude.{◌≡◌, ◌≤◌, nat_le, true, Some, None, map, option_map, string_bytes, IfOk, IfSome, if◌then◌else◌};
ghost use Rattle.std.specs.Char.{is_ascii_digit};
ghost use Rattle.std.specs.List.{list_all};
ghost use Rattle.pfr_args.specs.Plain.{is_plain};
ghost use Rattle.pfr.specs.Commands.{check_request, command_of, is_numeral, run_request, shape_of, wear_in, wear_of};
ghost use Rattle.pfr.specs.Request.{images_of};
ghost use Rattle.pfr.specs.declared.words.Command.TheVariants.{Run, Check};

use crate::making_words::{
    CertRequest, MakeRequest, ProvisionRequest, read_cert, read_make, read_provision,
};
use pfr_args::read_args;
use pfr_flash::NoMemory;
use std::alloc::Global;
use std::marker::Model;

/// What `run` is asked for.
#[derive(Drop)]
pub struct RunRequest<'a> {
    pub bmc: &'a str,
    pub pch: &'a str,
    pub nv: &'a str,
    pub engine: &'a str,
    pub script: &'a str,
    /// How often each page of a bank can be rewritten, at most 16.
    pub wear: u32,
}

impl<'a> Model for RunRequest<'a> {
    ghost use Rattle.std.specs.Prelude.{◌≤◌};
    ghost use Rattle.pfr.specs.Request.{RunRequest};

    ghost Value = { RunRequest };

    ghost view = { λ w. record { bmc = w.bmc.now; pch = w.pch.now; nv = w.nv.now; engine = w.engine.now; script = w.script.now; wear = w.wear } };

    ghost invariant = { λ w. w.wear ≤ 16 };
}

/// What `check` is asked for.
#[derive(Drop)]
pub struct CheckRequest<'a> {
    pub bmc: &'a str,
    pub pch: &'a str,
    pub nv: &'a str,
    pub engine: &'a str,
}

impl<'a> Model for CheckRequest<'a> {
    ghost use Rattle.pfr.specs.Request.{CheckRequest};

    ghost Value = { CheckRequest };

    ghost view = { λ w. record { bmc = w.bmc.now; pch = w.pch.now; nv = w.nv.now; engine = w.engine.now } };
}

impl<'a> RunRequest<'a> {
    /// The names of its images and of its engine, which a check of the same platform has too.
    pub fn images(&self) -> CheckRequest<'a>
        ensures { result ≡ images_of self.now }
    {
        CheckRequest {
            bmc: self.bmc,
            pch: self.pch,
            nv: self.nv,
            engine: self.engine,
        }
    }
}

/// What the words ask for.
#[derive(Drop)]
pub enum Command<'a> {
    Run(RunRequest<'a>),
    Check(CheckRequest<'a>),
    Make(MakeRequest<'a>),
    Provision(ProvisionRequest<'a>),
    Cert(CertRequest<'a>),
}

// Whether a word may stand in a command: it is not empty, and does not begin with a dash.
fn is_plain(word: &String) -> bool
    ensures { result ≡ is_plain (string_bytes word.now) }
{
    match word.as_bytes() {
        [] => false,
        [first, ..] => *first != b'-',
    }
}

fn are_plain(words: &[String]) -> bool
    ensures { result ≡ list_all is_plain (map (λ word. string_bytes word) words.now) }
{
    for word in words {
        if !is_plain(word) {
            return false;
        }
    }
    true
}

/// Whether a word is decimal digits; one without a byte is too.
pub fn are_digits(word: &[u8]) -> bool
    ensures { result ≡ list_all is_ascii_digit word.now }
{
    word.iter().all(|digit| digit.is_ascii_digit())
}

// Whether a word is decimal digits, the first of which is no zero.
fn is_numeral(word: &[u8]) -> bool
    ensures { result ≡ is_numeral word.now }
{
    match word {
        [] => false,
        [first, ..] => are_digits(word) && *first != b'0',
    }
}

// A wear of 1 to 16.
fn wear_of(word: &str) -> Option<u32>
    ensures exact { result ≡ wear_of word.now }
    ensures most { IfSome result (λ wear. wear ≤ 16) }
{
    if !is_numeral(word.as_bytes()) {
        return None;
    }
    match word.parse() {
        Ok(wear) => within(wear),
        Err(_) => None,
    }
}

// A wear that is at most 16.
fn within(wear: u32) -> Option<u32>
    ensures exact { result ≡ (if nat_le wear 16 then Some wear else None) }
    ensures most { IfSome result (λ wear. wear ≤ 16) }
{
    if wear <= 16 { Some(wear) } else { None }
}

// The wear behind the names, which need not be given.
fn wear_in(words: &[&str]) -> Option<u32>
    ensures exact { result ≡ wear_in (map (λ word. word.now) words.now) }
    ensures most { IfSome result (λ wear. wear ≤ 16) }
{
    match words {
        [] => Some(8),
        [word] => wear_of(word),
        _ => None,
    }
}

// What `run` with these words is asked for.
fn run_of<'a>(words: &[&'a str]) -> Option<Command<'a>>
    ensures { result ≡ option_map (λ request. Run request) (run_request (map (λ word. word.now) words.now)) }
{
    match words {
        [bmc, pch, nv, engine, script, rest @ ..] => match wear_in(rest) {
            Some(wear) => Some(Command::Run(RunRequest {
                bmc,
                pch,
                nv,
                engine,
                script,
                wear,
            })),
            None => None,
        },
        _ => None,
    }
}

// What `check` with these words is asked for.
fn check_of<'a>(words: &[&'a str]) -> Option<Command<'a>>
    ensures { result ≡ option_map (λ request. Check request) (check_request (map (λ word. word.now) words.now)) }
{
    match words {
        [bmc, pch, nv, engine] => Some(Command::Check(CheckRequest {
            bmc,
            pch,
            nv,
            engine,
        })),
        _ => None,
    }
}

// The words behind `run`.
fn read_run<'a>(alloc: Global, words: &'a [String]) -> Result<Option<Command<'a>>, NoMemory>
    requires { list_all is_plain (map (λ word. string_bytes word) words.now) ≡ true }
    ensures { IfOk result (λ command. command ≡
        option_map (λ request. Run request) (run_request (map (λ word. string_bytes word) words.entry.now))) }
{
    match read_args(alloc, "run", 5, 6, words)? {
        Some(args) => Ok(run_of(args.as_slice())),
        None => Ok(None),
    }
}

// The words behind `check`.
fn read_check<'a>(alloc: Global, words: &'a [String]) -> Result<Option<Command<'a>>, NoMemory>
    requires { list_all is_plain (map (λ word. string_bytes word) words.now) ≡ true }
    ensures { IfOk result (λ command. command ≡
        option_map (λ request. Check request) (check_request (map (λ word. string_bytes word) words.entry.now))) }
{
    match read_args(alloc, "check", 4, 4, words)? {
        Some(args) => Ok(check_of(args.as_slice())),
        None => Ok(None),
    }
}

// The command of words that are plain.
fn read_plain<'a>(alloc: Global, words: &'a [String]) -> Result<Option<Command<'a>>, NoMemory>
    requires { list_all is_plain (map (λ word. string_bytes word) words.now) ≡ true }
    ensures { IfOk result (λ command. command ≡ shape_of (map (λ word. string_bytes word) words.entry.now)) }
{
    match words {
        [name, rest @ ..] if name.as_str() == "run" => read_run(alloc, rest),
        [name, rest @ ..] if name.as_str() == "check" => read_check(alloc, rest),
        [name, rest @ ..] if name.as_str() == "make" => read_make(alloc, rest),
        [name, rest @ ..] if name.as_str() == "provision" => read_provision(alloc, rest),
        [name, rest @ ..] if name.as_str() == "cert" => read_cert(alloc, rest),
        _ => Ok(None),
    }
}

/// The command that the words are, if they are one.
pub fn read_words<'a>(
    alloc: Global,
    words: &'a Vec<String>,
) -> Result<Option<Command<'a>>, NoMemory>
    ensures { IfOk result (λ command. command ≡ command_of (map (λ word. string_bytes word) words.entry.now.items)) }
{
    if !are_plain(words.as_slice()) {
        return Ok(None);
    }
    read_plain(alloc, words.as_slice())
}
