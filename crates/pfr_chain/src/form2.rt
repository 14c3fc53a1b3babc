// Block 1 of form 2, whose keys and signatures have lengths of their own.
ghost use Rattle.std.specs.Prelude.{◌≡◌, ◌+◌, ◌≤◌, length, IsTrue, IfOk, IfErr};
ghost use Rattle.pfr_flash.specs.Answer.{IsFound};
ghost use Rattle.pfr_chain.specs.Answer.{chain_failure};
ghost use Rattle.pfr_flash.specs.Numbers.{number_at};
ghost use Rattle.pfr_chain.specs.Form2.{key_of, key_end, signature_of, signature_end, scheme_of, root_hash};
ghost use Rattle.pfr_chain.specs.Form2Judge.{is_key_length, has_signature, is_root_entry, judge_long_root, judge_long_key, judge_long_entry, judge_long_signatures, judge_form2};

use crate::block0::BLOCK0;
use crate::fail::ChainFail;
use crate::form1::{ANY, check_use};
use crate::types::cancels;
use pfr_engine::Engine;
use pfr_flash::{ContentType, FuseRow, number_at, part};
use sha2::{Digest, Sha256};

const ROOT_AT: usize = 144;

const SCHEME_AT: usize = 156;

/// A key's id, and where its entry ends.
#[derive(Clone, Copy, Debug)]
pub struct KeyPlace {
    pub id: u8,
    pub end: usize,
}

// where the key of an entry ends
fn key_end(block: &[u8], at: usize) -> usize
    requires place { at ≤ 8320 }
    requires within { at + 20 ≤ length block.now }
    ensures { result ≡ key_end block.now at }
{
    at + 20 + number_at(block, at + 16) as usize
}

// the key of an entry
fn key_of(block: &[u8], at: usize) -> &[u8]
    requires place { at ≤ 8320 }
    requires within { key_end block.now at ≤ length block.now }
    ensures { result.now ≡ key_of block.now at }
{
    part(block, at + 20, number_at(block, at + 16) as usize)
}

// where the signature at a place ends
fn signature_end(block: &[u8], at: usize) -> usize
    requires place { at ≤ 8320 }
    requires within { at + 4 ≤ length block.now }
    ensures { result ≡ signature_end block.now at }
{
    at + 4 + number_at(block, at) as usize
}

// the signature at a place
fn signature_of(block: &[u8], at: usize) -> &[u8]
    requires place { at ≤ 8320 }
    requires within { signature_end block.now at ≤ length block.now }
    ensures { result.now ≡ signature_of block.now at }
{
    part(block, at + 4, number_at(block, at) as usize)
}

fn is_key_length(count: u32) -> bool
    ensures exact { result ≡ is_key_length count }
    ensures most { IsTrue result → count ≤ 256 }
{
    count >= 4 && count <= 256 && count % 4 == 0
}

/// Whether a signature with its length stands at a place, within the block.
fn has_signature(block: &[u8], at: usize) -> bool
    requires within { at + 4 ≤ length block.now }
    requires short { length block.now ≤ 8320 }
    ensures exact { result ≡ has_signature block.now at }
    ensures within { IsTrue result → signature_end block.now at ≤ length block.now }
{
    let count = number_at(block, at);
    count >= 4 && count <= 8000 && count % 4 == 0 && signature_end(block, at) <= block.len()
}

/// Whether a root entry stands at its place, within the block.
#[tactic(auto, unfolding(crate::specs::Form2Judge::is_root_entry))]
fn is_root_entry(block: &[u8]) -> bool
    requires { 1024 ≤ length block.now }
    ensures exact { result ≡ is_root_entry block.now }
    ensures most { IsTrue result → key_end block.now 144 ≤ 420 }
    ensures within { IsTrue result → key_end block.now 144 ≤ length block.now }
{
    number_at(block, ROOT_AT) == 0xA757_A047
        && number_at(block, ROOT_AT + 4) == ANY
        && number_at(block, ROOT_AT + 8) == ANY
        && is_key_length(number_at(block, ROOT_AT + 16))
        && key_end(block, ROOT_AT) <= block.len()
}

/// The hash of a root: of the byte 2, the scheme's four bytes and the key.
#[tactic(auto, unfolding(crate::specs::Form2::root_hash))]
fn root_hash(block: &[u8]) -> [u8; 32]
    requires long { 1024 ≤ length block.now }
    requires within { key_end block.now 144 ≤ length block.now }
    ensures { result ≡ root_hash block.now }
{
    let mut hasher = Sha256::new();
    hasher.update([2]);
    hasher.update(part(block, SCHEME_AT, 4));
    hasher.update(key_of(block, ROOT_AT));
    hasher.finalize()
}

/// Block 1's magic and the root entry. Gives where it ends.
#[tactic(auto, unfolding(crate::specs::Form2Judge::judge_long_root))]
fn root_end(block: &[u8], root: &[u8; 32]) -> Result<usize, ChainFail>
    requires { 1024 ≤ length block.now }
    ensures exact { result ≡ judge_long_root block.now root.now }
    ensures end { IfOk result (λ end. end ≡ key_end block.now 144) }
    ensures most { IfOk result (λ end. end ≤ 420) }
    ensures found { IfErr result (IsFound chain_failure) }
{
    if number_at(block, BLOCK0) != 0xF27F_28D8 {
        return Err(ChainFail::Block1Magic);
    }
    if !is_root_entry(block) {
        return Err(ChainFail::RootEntry);
    }
    if root_hash(block) != *root {
        return Err(ChainFail::RootHash);
    }
    Ok(key_end(block, ROOT_AT))
}

/// The key entry at a place, signed by the root. Gives the key's id, and where the entry ends.
#[tactic(auto, unfolding(crate::specs::Form2Judge::judge_long_key))]
fn key_place<E: Engine>(
    block: &[u8],
    at: usize,
    want: ContentType,
    cancelled: &FuseRow<32>,
    engine: &E,
) -> Result<KeyPlace, ChainFail>
    requires least { 1024 ≤ length block.now }
    requires most { length block.now ≤ 8320 }
    requires root { key_end block.now 144 ≤ length block.now }
    requires place { at ≤ 420 }
    ensures exact { result ≡ judge_long_key block.now at want cancelled.now (E.accepts engine.now) }
    ensures key { IfOk result (λ _. key_end block.now at ≤ length block.now) }
    ensures end { IfOk result (λ key. key.end ≤ length block.now) }
    ensures found { IfErr result (IsFound chain_failure) }
{
    let scheme = number_at(block, SCHEME_AT);
    let count = number_at(block, at + 16);
    if number_at(block, at) != 0x1471_1C30
        || number_at(block, at + 12) != scheme
        || !is_key_length(count)
    {
        return Err(ChainFail::KeyEntry);
    }
    let signed = key_end(block, at);
    if !has_signature(block, signed) {
        return Err(ChainFail::KeyEntry);
    }
    let id = number_at(block, at + 8);
    check_use(id, number_at(block, at + 4), want, cancelled)?;
    let root = key_of(block, ROOT_AT);
    let message = part(block, at + 4, 16 + count as usize);
    if !engine.check_long(scheme, root, message, signature_of(block, signed)) {
        return Err(ChainFail::KeySignature);
    }
    Ok(KeyPlace {
        id: id as u8,
        end: signature_end(block, signed),
    })
}

/// The block-0 entry at a place, signed by the key.
#[tactic(auto, unfolding(crate::specs::Form2Judge::judge_long_entry))]
fn check_entry<E: Engine>(block: &[u8], at: usize, key: &[u8], engine: &E) -> Result<(), ChainFail>
    requires least { 1024 ≤ length block.now }
    requires most { length block.now ≤ 8320 }
    requires place { at ≤ 8320 }
    ensures exact { result ≡ judge_long_entry block.now at key.now (E.accepts engine.now) }
    ensures found { IfErr result (IsFound chain_failure) }
{
    let message = part(block, 0, BLOCK0);
    let scheme = number_at(block, SCHEME_AT);
    if at + 8 > block.len()
        || number_at(block, at) != 0x1536_4368
        || !has_signature(block, at + 4)
    {
        return Err(ChainFail::Block0Entry);
    }
    if !engine.check_long(scheme, key, message, signature_of(block, at + 4)) {
        return Err(ChainFail::Block0Signature);
    }
    Ok(())
}

/// The signatures of a block. Gives the id of the key that signed it: none for a certificate, which the root signs.
#[tactic(auto, unfolding(crate::specs::Form2Judge::judge_long_signatures))]
fn signer<E: Engine>(
    block: &[u8],
    at: usize,
    want: ContentType,
    cancelled: &FuseRow<32>,
    engine: &E,
) -> Result<Option<u8>, ChainFail>
    requires least { 1024 ≤ length block.now }
    requires most { length block.now ≤ 8320 }
    requires root { key_end block.now 144 ≤ length block.now }
    requires place { at ≤ 420 }
    ensures exact { result ≡ judge_long_signatures block.now at want cancelled.now (E.accepts engine.now) }
    ensures found { IfErr result (IsFound chain_failure) }
{
    if cancels(want) {
        check_entry(block, at, key_of(block, ROOT_AT), engine)?;
        return Ok(None);
    }
    let key = key_place(block, at, want, cancelled, engine)?;
    check_entry(block, key.end, key_of(block, at), engine)?;
    Ok(Some(key.id))
}

/// Block 1 of form 2. Gives the id of the key that signed the block: none for a certificate.
#[tactic(auto, unfolding(crate::specs::Form2Judge::judge_form2))]
pub fn signing_key<E: Engine>(
    block: &[u8],
    want: ContentType,
    root: &[u8; 32],
    cancelled: &FuseRow<32>,
    engine: &E,
) -> Result<Option<u8>, ChainFail>
    requires least { 1024 ≤ length block.now }
    requires most { length block.now ≤ 8320 }
    ensures exact { result ≡ judge_form2 block.now want root.now cancelled.now (E.accepts engine.now) }
    ensures found { IfErr result (IsFound chain_failure) }
{
    let at = root_end(block, root)?;
    signer(block, at, want, cancelled, engine)
}
