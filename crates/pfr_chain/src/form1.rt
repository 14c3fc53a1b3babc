// Block 1 of form 1, whose keys lie on a curve.
ghost use Rattle.std.specs.Prelude.{◌≡◌, ◌+◌, ◌≤◌, length, OnOk, IfErr};
ghost use Rattle.pfr_flash.specs.Answer.{IsFound};
ghost use Rattle.pfr_chain.specs.Answer.{chain_failure};
ghost use Rattle.pfr_chain.specs.Form1Judge.{judge_use, judge_root, judge_key, judge_block0_entry, judge_signatures, judge_form1};

use crate::block0::BLOCK0;
use crate::fail::ChainFail;
use crate::public_key::PublicKey;
use crate::signature::Signature;
use crate::types::{cancels, permission_bit};
use pfr_engine::{Curve, Engine, curve_from};
use pfr_flash::{ContentType, FuseRow, number_at, part};
use sha2::{Digest, Sha256};

const ROOT_AT: usize = 144;

const KEY_AT: usize = 276;

const KEY_SIGNATURE_AT: usize = 408;

const ENTRY_AT: usize = 508;

/// A root entry's permissions and key id.
pub const ANY: u32 = 0xFFFF_FFFF;

/// What a key may sign, and that it is not cancelled.
#[tactic(auto, unfolding(crate::specs::Form1Judge::judge_use))]
pub fn check_use(
    key_id: u32,
    permissions: u32,
    want: ContentType,
    cancelled: &FuseRow<32>,
) -> Result<(), ChainFail>
    ensures exact { result ≡ judge_use key_id permissions want cancelled.now }
    ensures id { OnOk result (key_id ≤ 255) }
    ensures found { IfErr result (IsFound chain_failure) }
{
    if key_id > 255 {
        return Err(ChainFail::KeyId);
    }
    if (permissions >> permission_bit(want)) & 1 == 0 {
        return Err(ChainFail::Permission);
    }
    if cancelled.is_cleared(key_id) {
        return Err(ChainFail::Cancelled);
    }
    Ok(())
}

/// Block 1's magic and the root entry, whose curve it gives.
#[tactic(auto, unfolding(crate::specs::Form1Judge::judge_root))]
fn root_curve(block: &[u8], root: &[u8; 32]) -> Result<Curve, ChainFail>
    requires { length block.now ≡ 1024 }
    ensures exact { result ≡ judge_root block.now root.now }
    ensures found { IfErr result (IsFound chain_failure) }
{
    if number_at(block, BLOCK0) != 0xF27F_28D7 {
        return Err(ChainFail::Block1Magic);
    }
    let key = PublicKey::read(block, ROOT_AT);
    if key.magic != 0xA757_A046 || key.permissions != ANY || key.key_id != ANY {
        return Err(ChainFail::RootEntry);
    }
    let curve = curve_from(key.curve).ok_or(ChainFail::RootEntry)?;
    let hash = Sha256::new()
        .chain_update(key.x)
        .chain_update(key.y)
        .finalize();
    if hash != *root {
        return Err(ChainFail::RootHash);
    }
    Ok(curve)
}

/// The key entry, signed by the root. Gives the key's id.
#[tactic(auto, unfolding(crate::specs::Form1Judge::judge_key))]
fn key_id<E: Engine>(
    block: &[u8],
    want: ContentType,
    curve: Curve,
    cancelled: &FuseRow<32>,
    engine: &E,
) -> Result<u8, ChainFail>
    requires { length block.now ≡ 1024 }
    ensures exact { result ≡ judge_key block.now want curve cancelled.now (E.accepts engine.now) }
    ensures found { IfErr result (IsFound chain_failure) }
{
    let root = PublicKey::read(block, ROOT_AT);
    let key = PublicKey::read(block, KEY_AT);
    let signature = Signature::read(block, KEY_SIGNATURE_AT);
    if key.magic != 0x1471_1C2F
        || key.curve != root.curve
        || signature.magic != curve.signature_magic()
    {
        return Err(ChainFail::KeyEntry);
    }
    check_use(key.key_id, key.permissions, want, cancelled)?;
    let signed = part(block, KEY_AT + 4, 128);
    if !engine.check(&signature.ask(curve, &root, signed)) {
        return Err(ChainFail::KeySignature);
    }
    Ok(key.key_id as u8)
}

/// The block-0 entry at a place, signed by the key.
#[tactic(auto, unfolding(crate::specs::Form1Judge::judge_block0_entry))]
fn check_block0_entry<E: Engine>(
    block: &[u8],
    at: usize,
    curve: Curve,
    key: &PublicKey,
    engine: &E,
) -> Result<(), ChainFail>
    requires place { at + 104 ≤ 1024 }
    requires long { length block.now ≡ 1024 }
    ensures exact { result ≡ judge_block0_entry block.now at curve key.now (E.accepts engine.now) }
    ensures found { IfErr result (IsFound chain_failure) }
{
    let message = part(block, 0, BLOCK0);
    let signature = Signature::read(block, at + 4);
    if number_at(block, at) != 0x1536_4367 || signature.magic != curve.signature_magic() {
        return Err(ChainFail::Block0Entry);
    }
    if !engine.check(&signature.ask(curve, key, message)) {
        return Err(ChainFail::Block0Signature);
    }
    Ok(())
}

/// The signatures of a block. Gives the id of the key that signed it: none for a certificate, which the root signs.
#[tactic(auto, unfolding(crate::specs::Form1Judge::judge_signatures))]
fn signer<E: Engine>(
    block: &[u8],
    want: ContentType,
    curve: Curve,
    cancelled: &FuseRow<32>,
    engine: &E,
) -> Result<Option<u8>, ChainFail>
    requires { length block.now ≡ 1024 }
    ensures exact { result ≡ judge_signatures block.now want curve cancelled.now (E.accepts engine.now) }
    ensures found { IfErr result (IsFound chain_failure) }
{
    if cancels(want) {
        let root = PublicKey::read(block, ROOT_AT);
        check_block0_entry(block, KEY_AT, curve, &root, engine)?;
        return Ok(None);
    }
    let id = key_id(block, want, curve, cancelled, engine)?;
    let key = PublicKey::read(block, KEY_AT);
    check_block0_entry(block, ENTRY_AT, curve, &key, engine)?;
    Ok(Some(id))
}

/// Block 1 of form 1. Gives the id of the key that signed the block: none for a certificate.
#[tactic(auto, unfolding(crate::specs::Form1Judge::judge_form1))]
pub fn signing_key<E: Engine>(
    block: &[u8],
    want: ContentType,
    root: &[u8; 32],
    cancelled: &FuseRow<32>,
    engine: &E,
) -> Result<Option<u8>, ChainFail>
    requires { length block.now ≡ 1024 }
    ensures exact { result ≡ judge_form1 block.now want root.now cancelled.now (E.accepts engine.now) }
    ensures found { IfErr result (IsFound chain_failure) }
{
    let curve = root_curve(block, root)?;
    signer(block, want, curve, cancelled, engine)
}
