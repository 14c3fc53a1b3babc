// Block 1 of form 1, whose keys lie on a curve.
ghost use Rattle.std.specs.Prelude.{◌≡◌, ◌+◌, ◌++◌, vec_len, OnOk, IfOk};
ghost use Rattle.pfr_made.specs.Rows.{row_of};
ghost use Rattle.pfr_made.specs.Form1.{key_bytes, signature_bytes, marks_on_key, head_bytes, key_entry, block0_entry, block_of, rows_of, root_block_of, root_row_of};

use crate::block::{ANY, BLOCK};
use crate::engine_rows::push_row;
use crate::marks::{curve_number, sign};
use crate::writing::{pad, push_number, push_zeros};
use pfr_chain::{Ask, Curve};
use pfr_description::{Description, KeyDescription, PublicKey};
use pfr_flash::NoMemory;
use std::alloc::Global;

// an entry's key, from its curve up to what is reserved
#[tactic(auto, unfolding(pfr_made::specs::Form1::key_bytes))]
fn entry_key(
    alloc: Global,
    curve: Curve,
    permissions: u32,
    key_id: u32,
    key: &PublicKey,
) -> Result<Vec<u8>, NoMemory>
    ensures bytes { IfOk result (λ entry. entry.items ≡ key_bytes curve permissions key_id key.now) }
    ensures len { IfOk result (λ entry. vec_len entry ≡ 128) }
{
    let mut entry = Vec::new(alloc);
    push_number(&mut entry, curve_number(curve))?;
    push_number(&mut entry, permissions)?;
    push_number(&mut entry, key_id)?;
    entry.extend_from_slice(&key.x)?;
    entry.extend_from_slice(&key.y)?;
    pad(&mut entry, 128)?;
    Ok(entry)
}

#[tactic(auto, unfolding(pfr_made::specs::Form1::signature_bytes))]
fn push_signature(block: &mut Vec<u8>, marks: &Ask) -> Result<(), NoMemory>
    ensures bytes { OnOk result (block.new.items ≡ block.old.items ++ signature_bytes marks.now) }
    ensures len { OnOk result (vec_len block.new ≡ vec_len block.old + 100) }
{
    push_number(block, marks.curve.signature_magic())?;
    block.extend_from_slice(&marks.r)?;
    block.extend_from_slice(&marks.s)?;
    Ok(())
}

// what Block 1 begins with, and the root entry
#[tactic(auto, unfolding(pfr_made::specs::Form1::head_bytes))]
fn push_head(alloc: Global, desc: &Description, block: &mut Vec<u8>) -> Result<(), NoMemory>
    ensures bytes { OnOk result (block.new.items ≡ block.old.items ++ head_bytes desc.now) }
    ensures len { OnOk result (vec_len block.new ≡ vec_len block.old + 148) }
{
    let root = entry_key(alloc, desc.curve(), ANY, ANY, desc.root())?;
    push_number(block, 0xF27F_28D7)?;
    push_zeros(block, 12)?;
    push_number(block, 0xA757_A046)?;
    block.extend_from_slice(&root)?;
    Ok(())
}

// the key entry, and the row of the root's signature
#[tactic(auto, unfolding(pfr_made::specs::Form1::key_entry))]
fn push_key_entry(
    alloc: Global,
    desc: &Description,
    key: &KeyDescription,
    block: &mut Vec<u8>,
    rows: &mut Vec<u8>,
) -> Result<(), NoMemory>
    ensures bytes { OnOk result (block.new.items ≡ block.old.items ++ key_entry desc.now key.now) }
    ensures len { OnOk result (vec_len block.new ≡ vec_len block.old + 232) }
    ensures row { OnOk result (rows.new.items ≡ rows.old.items ++ row_of (marks_on_key desc.now key.now)) }
{
    let id = u32::from(key.id);
    let entry = entry_key(alloc, desc.curve(), key.permissions, id, &key.key)?;
    let marks = sign(desc.curve(), desc.root(), &entry);
    push_number(block, 0x1471_1C2F)?;
    block.extend_from_slice(&entry)?;
    push_signature(block, &marks)?;
    push_row(alloc, rows, &marks)?;
    Ok(())
}

#[tactic(auto, unfolding(pfr_made::specs::Form1::block0_entry))]
fn push_block0_entry(block: &mut Vec<u8>, marks: &Ask) -> Result<(), NoMemory>
    ensures bytes { OnOk result (block.new.items ≡ block.old.items ++ block0_entry marks.now) }
    ensures len { OnOk result (vec_len block.new ≡ vec_len block.old + 104) }
{
    push_number(block, 0x1536_4367)?;
    push_signature(block, marks)
}

/// Appends Block 1 behind Block 0, and the engine's rows of its signatures.
#[tactic(auto, unfolding(pfr_made::specs::Form1::block_of, pfr_made::specs::Form1::rows_of))]
pub fn push_block1(
    alloc: Global,
    desc: &Description,
    key: &KeyDescription,
    block: &mut Vec<u8>,
    rows: &mut Vec<u8>,
) -> Result<(), NoMemory>
    requires { vec_len block.old ≡ 128 }
    ensures bytes { OnOk result (block.new.items ≡ block_of desc.now key.now block.old.items) }
    ensures len { OnOk result (vec_len block.new ≡ 1024) }
    ensures rows { OnOk result (rows.new.items ≡ rows.old.items ++ rows_of desc.now key.now block.old.items) }
{
    let marks = sign(desc.curve(), &key.key, block);
    push_head(alloc, desc, block)?;
    push_key_entry(alloc, desc, key, block, rows)?;
    push_block0_entry(block, &marks)?;
    pad(block, BLOCK)?;
    push_row(alloc, rows, &marks)
}

/// Appends Block 1 without a key entry behind Block 0, and the engine's row of the root's signature.
#[tactic(auto, unfolding(pfr_made::specs::Form1::root_block_of))]
pub fn push_root_block1(
    alloc: Global,
    desc: &Description,
    block: &mut Vec<u8>,
    rows: &mut Vec<u8>,
) -> Result<(), NoMemory>
    requires { vec_len block.old ≡ 128 }
    ensures bytes { OnOk result (block.new.items ≡ root_block_of desc.now block.old.items) }
    ensures len { OnOk result (vec_len block.new ≡ 1024) }
    ensures rows { OnOk result (rows.new.items ≡ rows.old.items ++ root_row_of desc.now block.old.items) }
{
    let marks = sign(desc.curve(), desc.root(), block);
    push_head(alloc, desc, block)?;
    push_block0_entry(block, &marks)?;
    pad(block, BLOCK)?;
    push_row(alloc, rows, &marks)
}
