// What the commands that make files are asked for.
ghost use Rattle.std.specs.Prelude.{◌≡◌, true, map, option_map, string_bytes, IfOk, IfSome};
ghost use Rattle.std.specs.List.{list_all};
ghost use Rattle.pfr_args.specs.Plain.{is_plain};
ghost use Rattle.pfr_fuses.specs.FuseMap.{IsSigning};
ghost use Rattle.pfr.specs.Commands.{cert_request, id_of, is_decimal, make_request, provision_request, type_named};
ghost use Rattle.pfr.specs.declared.words.Command.TheVariants.{Cert, Make, Provision};

use crate::words::{Command, are_digits};
use pfr_args::read_args;
use pfr_flash::{ContentType, NoMemory};
use std::alloc::Global;
use std::marker::Model;

/// What `make` is asked for: the name of a description, and what the names of the files begin with that it stores.
#[derive(Drop)]
pub struct MakeRequest<'a> {
    pub description: &'a str,
    pub prefix: &'a str,
}

impl<'a> Model for MakeRequest<'a> {
    ghost use Rattle.pfr.specs.Request.{MakeRequest};

    ghost Value = { MakeRequest };

    ghost view = { λ w. record { description = w.description.now; prefix = w.prefix.now } };
}

/// What `provision` is asked for: the names of a description and of the store.
#[derive(Drop)]
pub struct ProvisionRequest<'a> {
    pub description: &'a str,
    pub nv: &'a str,
}

impl<'a> Model for ProvisionRequest<'a> {
    ghost use Rattle.pfr.specs.Request.{ProvisionRequest};

    ghost Value = { ProvisionRequest };

    ghost view = { λ w. record { description = w.description.now; nv = w.nv.now } };
}

/// What `cert` is asked for: the name of a description, which key is cancelled for which signing type, and what the
/// names of the files begin with that it stores.
#[derive(Drop)]
pub struct CertRequest<'a> {
    pub description: &'a str,
    pub ty: ContentType,
    pub id: u8,
    pub prefix: &'a str,
}

impl<'a> Model for CertRequest<'a> {
    ghost use Rattle.pfr_fuses.specs.FuseMap.{IsSigning};
    ghost use Rattle.pfr.specs.Request.{CertRequest};

    ghost Value = { CertRequest };

    ghost view = { λ w. record { description = w.description.now; type = w.ty; id = w.id; prefix = w.prefix.now } };

    ghost invariant = { λ w. IsSigning w.ty };
}

// The signing type of this name.
fn type_named(word: &str) -> Option<ContentType>
    ensures exact { result ≡ type_named word.now }
    ensures signing { IfSome result IsSigning }
{
    match word {
        "bmc-manifest" => Some(ContentType::BmcManifest),
        "bmc-capsule" => Some(ContentType::BmcCapsule),
        "pch-manifest" => Some(ContentType::PchManifest),
        "pch-capsule" => Some(ContentType::PchCapsule),
        _ => None,
    }
}

// Whether a word is decimal digits, without zeros before them.
fn is_decimal(word: &[u8]) -> bool
    ensures { result ≡ is_decimal word.now }
{
    match word {
        [] => false,
        [digit] => digit.is_ascii_digit(),
        [first, ..] => are_digits(word) && *first != b'0',
    }
}

// The id of a key.
fn id_of(word: &str) -> Option<u8>
    ensures { result ≡ id_of word.now }
{
    if !is_decimal(word.as_bytes()) {
        return None;
    }
    match word.parse() {
        Ok(id) => Some(id),
        Err(_) => None,
    }
}

// What `make` with these words is asked for.
fn make_of<'a>(words: &[&'a str]) -> Option<Command<'a>>
    ensures { result ≡ option_map (λ request. Make request) (make_request (map (λ word. word.now) words.now)) }
{
    match words {
        [description, prefix] => Some(Command::Make(MakeRequest {
            description,
            prefix,
        })),
        _ => None,
    }
}

// What `provision` with these words is asked for.
fn provision_of<'a>(words: &[&'a str]) -> Option<Command<'a>>
    ensures { result ≡ option_map (λ request. Provision request) (provision_request (map (λ word. word.now) words.now)) }
{
    match words {
        [description, nv] => Some(Command::Provision(ProvisionRequest { description, nv })),
        _ => None,
    }
}

// What `cert` with these words is asked for.
fn cert_of<'a>(words: &[&'a str]) -> Option<Command<'a>>
    ensures { result ≡ option_map (λ request. Cert request) (cert_request (map (λ word. word.now) words.now)) }
{
    match words {
        [description, ty, id, prefix] => match (type_named(ty), id_of(id)) {
            (Some(ty), Some(id)) => Some(Command::Cert(CertRequest {
                description,
                ty,
                id,
                prefix,
            })),
            _ => None,
        },
        _ => None,
    }
}

/// The words behind `make`.
pub fn read_make<'a>(alloc: Global, words: &'a [String]) -> Result<Option<Command<'a>>, NoMemory>
    requires { list_all is_plain (map (λ word. string_bytes word) words.now) ≡ true }
    ensures { IfOk result (λ command. command ≡
        option_map (λ request. Make request) (make_request (map (λ word. string_bytes word) words.entry.now))) }
{
    match read_args(alloc, "make", 2, 2, words)? {
        Some(args) => Ok(make_of(args.as_slice())),
        None => Ok(None),
    }
}

/// The words behind `provision`.
pub fn read_provision<'a>(
    alloc: Global,
    words: &'a [String],
) -> Result<Option<Command<'a>>, NoMemory>
    requires { list_all is_plain (map (λ word. string_bytes word) words.now) ≡ true }
    ensures { IfOk result (λ command. command ≡
        option_map (λ request. Provision request) (provision_request (map (λ word. string_bytes word) words.entry.now))) }
{
    match read_args(alloc, "provision", 2, 2, words)? {
        Some(args) => Ok(provision_of(args.as_slice())),
        None => Ok(None),
    }
}

/// The words behind `cert`.
pub fn read_cert<'a>(alloc: Global, words: &'a [String]) -> Result<Option<Command<'a>>, NoMemory>
    requires { list_all is_plain (map (λ word. string_bytes word) words.now) ≡ true }
    ensures { IfOk result (λ command. command ≡
        option_map (λ request. Cert request) (cert_request (map (λ word. string_bytes word) words.entry.now))) }
{
    match read_args(alloc, "cert", 4, 4, words)? {
        Some(args) => Ok(cert_of(args.as_slice())),
        None => Ok(None),
    }
}
