// Block 1 of form 2, whose keys and signatures state their lengths.
ghost use Rattle.std.specs.Prelude.{◌≡◌, ◌+◌, ◌++◌, vec_len, OnOk, IfOk};
ghost use Rattle.pfr_made.specs.Marks.{number_of_curve};
ghost use Rattle.pfr_made.specs.Rows.{long_row_of};
ghost use Rattle.pfr_made.specs.Form2.{key_bytes, signature_bytes, marks_on_key, head_bytes, key_entry, block0_entry, block_of, rows_of, root_block_of, root_row_of};

use crate::block::{ANY, BLOCK};
use crate::engine_rows::push_long_row;
use crate::marks::{curve_number, sign};
use crate::writing::{pad, push_number, push_zeros};
use pfr_chain::{Ask, Curve};
use pfr_description::{Description, KeyDescription, PublicKey};
use pfr_flash::NoMemory;
use std::alloc::Global;

/// The length of a key, which is X then Y, and of a signature, which is R then S.
const PAIR: u32 = 96;

// an entry's key, from its permissions up to and including the key
#[tactic(auto, unfolding(pfr_made::specs::Form2::key_bytes))]
fn entry_key(
    alloc: Global,
    curve: Curve,
    permissions: u32,
    key_id: u32,
    key: &PublicKey,
) -> Result<Vec<u8>, NoMemory>
    ensures bytes { IfOk result (λ entry. entry.items ≡ key_bytes curve permissions key_id key.now) }
    ensures len { IfOk result (λ entry. vec_len entry ≡ 112) }
{
    let mut entry = Vec::new(alloc);
    push_number(&mut entry, permissions)?;
    push_number(&mut entry, key_id)?;
    push_number(&mut entry, curve_number(curve))?;
    push_number(&mut entry, PAIR)?;
    entry.extend_from_slice(&key.x)?;
    entry.extend_from_slice(&key.y)?;
    Ok(entry)
}

#[tactic(auto, unfolding(pfr_made::specs::Form2::signature_bytes))]
fn push_signature(block: &mut Vec<u8>, marks: &Ask) -> Result<(), NoMemory>
    ensures bytes { OnOk result (block.new.items ≡ block.old.items ++ signature_bytes marks.now) }
    ensures len { OnOk result (vec_len block.new ≡ vec_len block.old + 100) }
{
    push_number(block, PAIR)?;
    block.extend_from_slice(&marks.r)?;
    block.extend_from_slice(&marks.s)?;
    Ok(())
}

// what Block 1 begins with, and the root entry
#[tactic(auto, unfolding(pfr_made::specs::Form2::head_bytes))]
fn push_head(alloc: Global, desc: &Description, block: &mut Vec<u8>) -> Result<(), NoMemory>
    ensures bytes { OnOk result (block.new.items ≡ block.old.items ++ head_bytes desc.now) }
    ensures len { OnOk result (vec_len block.new ≡ vec_len block.old + 132) }
{
    let root = entry_key(alloc, desc.curve(), ANY, ANY, desc.root())?;
    push_number(block, 0xF27F_28D8)?;
    push_zeros(block, 12)?;
    push_number(block, 0xA757_A047)?;
    block.extend_from_slice(&root)?;
    Ok(())
}

// the key entry, and the row of the root's signature
#[tactic(auto, unfolding(pfr_made::specs::Form2::key_entry))]
fn push_key_entry(
    alloc: Global,
    desc: &Description,
    key: &KeyDescription,
    block: &mut Vec<u8>,
    rows: &mut Vec<u8>,
) -> Result<(), NoMemory>
    ensures bytes { OnOk result (block.new.items ≡ block.old.items ++ key_entry desc.now key.now) }
    ensures len { OnOk result (vec_len block.new ≡ vec_len block.old + 216) }
    ensures row { OnOk result (rows.new.items ≡ rows.old.items ++ long_row_of (number_of_curve desc.now.curve) (marks_on_key desc.now key.now)) }
{
    let id = u32::from(key.id);
    let entry = entry_key(alloc, desc.curve(), key.permissions, id, &key.key)?;
    let marks = sign(Curve::C384, desc.root(), &entry);
    push_number(block, 0x1471_1C30)?;
    block.extend_from_slice(&entry)?;
    push_signature(block, &marks)?;
    push_long_row(alloc, rows, curve_number(desc.curve()), &marks)?;
    Ok(())
}

#[tactic(auto, unfolding(pfr_made::specs::Form2::block0_entry))]
fn push_block0_entry(block: &mut Vec<u8>, marks: &Ask) -> Result<(), NoMemory>
    ensures bytes { OnOk result (block.new.items ≡ block.old.items ++ block0_entry marks.now) }
    ensures len { OnOk result (vec_len block.new ≡ vec_len block.old + 104) }
{
    push_number(block, 0x1536_4368)?;
    push_signature(block, marks)
}

/// Appends Block 1 behind Block 0, and the engine's rows of its signatures.
#[tactic(auto, unfolding(pfr_made::specs::Form2::block_of, pfr_made::specs::Form2::rows_of))]
pub fn push_block1(
    alloc: Global,
    desc: &Description,
    key: &KeyDescription,
    block: &mut Vec<u8>,
    rows: &mut Vec<u8>,
) -> Result<(), NoMemory>
    requires { vec_len block.old ≡ 128 }
    ensures bytes { OnOk result (block.new.items ≡ block_of desc.now key.now block.old.items) }
    ensures len { OnOk result (vec_len block.new ≡ 1024) }
    ensures rows { OnOk result (rows.new.items ≡ rows.old.items ++ rows_of desc.now key.now block.old.items) }
{
    // On either curve the marks are on the SHA-384 of the message.
    let marks = sign(Curve::C384, &key.key, block);
    push_head(alloc, desc, block)?;
    push_key_entry(alloc, desc, key, block, rows)?;
    push_block0_entry(block, &marks)?;
    pad(block, BLOCK)?;
    push_long_row(alloc, rows, curve_number(desc.curve()), &marks)
}

/// Appends Block 1 without a key entry behind Block 0, and the engine's row of the root's signature.
#[tactic(auto, unfolding(pfr_made::specs::Form2::root_block_of))]
pub fn push_root_block1(
    alloc: Global,
    desc: &Description,
    block: &mut Vec<u8>,
    rows: &mut Vec<u8>,
) -> Result<(), NoMemory>
    requires { vec_len block.old ≡ 128 }
    ensures bytes { OnOk result (block.new.items ≡ root_block_of desc.now block.old.items) }
    ensures len { OnOk result (vec_len block.new ≡ 1024) }
    ensures rows { OnOk result (rows.new.items ≡ rows.old.items ++ root_row_of desc.now block.old.items) }
{
    let marks = sign(Curve::C384, desc.root(), block);
    push_head(alloc, desc, block)?;
    push_block0_entry(block, &marks)?;
    pad(block, BLOCK)?;
    push_long_row(alloc, rows, curve_number(desc.curve()), &marks)
}
