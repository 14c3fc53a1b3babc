// Signature blocks, of 1,024 bytes in front of what they sign.
ghost use Rattle.std.specs.Prelude.{◌≡◌, ◌+◌, ◌<◌, ◌^◌, ◌++◌, length, vec_len, OnOk, IfOk};
ghost use Rattle.pfr_chain.specs.Block.{magic_of_block0};
ghost use Rattle.pfr_made.specs.Blocks.{chain_form, stated_length, block0_bytes, block_in, rows_in, signed_bytes, signed_rows, root_block_in, root_row_in, root_signed_bytes, root_signed_row};

use crate::writing::{pad, push_number};
use crate::{form1, form2};
use pfr_chain::type_number;
use pfr_description::{Description, Form, KeyDescription};
use pfr_flash::{ContentType, NoMemory};
use sha2::{Digest, Sha256, Sha384};
use std::alloc::Global;

/// The length of a block. In form 2 it is the least that is allowed.
pub const BLOCK: usize = 1024;

pub const BLOCK0: usize = 128;

/// The root entry's permissions and key id.
pub const ANY: u32 = 0xFFFF_FFFF;

/// A signature block with the content behind it, and the engine's rows of its signatures.
#[derive(Drop)]
pub struct Signed {
    pub bytes: Vec<u8>,
    pub rows: Vec<u8>,
}

// Block 0's magic, and what stands behind the type: only form 2 states the block's length
fn form_numbers(form: Form) -> (u32, u32)
    ensures magic { result.0 ≡ magic_of_block0 (chain_form form) }
    ensures length { result.1 ≡ stated_length form }
{
    match form {
        Form::One => (0xB6EA_FD19, 0),
        Form::Two => (0xB6EA_FD1A, BLOCK as u32),
    }
}

// Block 0 of a content
#[tactic(auto, unfolding(pfr_made::specs::Blocks::block0_bytes))]
fn block0(alloc: Global, form: Form, ty: ContentType, content: &[u8]) -> Result<Vec<u8>, NoMemory>
    requires { length content.now < 2 ^ 32 }
    ensures bytes { IfOk result (λ block. block.items ≡ block0_bytes form ty content.now) }
    ensures len { IfOk result (λ block. vec_len block ≡ 128) }
{
    let (magic, block_length) = form_numbers(form);
    let mut block = Vec::new(alloc);
    push_number(&mut block, magic)?;
    push_number(&mut block, content.len() as u32)?;
    push_number(&mut block, type_number(ty))?;
    push_number(&mut block, block_length)?;
    block.extend_from_slice(&Sha256::digest(content))?;
    block.extend_from_slice(&Sha384::digest(content))?;
    pad(&mut block, BLOCK0)?;
    Ok(block)
}

// appends Block 1 in the description's form, and its rows
fn push_block1(
    alloc: Global,
    desc: &Description,
    key: &KeyDescription,
    block: &mut Vec<u8>,
    rows: &mut Vec<u8>,
) -> Result<(), NoMemory>
    requires { vec_len block.old ≡ 128 }
    ensures bytes { OnOk result (block.new.items ≡ block_in desc.now.form desc.now key.now block.old.items) }
    ensures len { OnOk result (vec_len block.new ≡ 1024) }
    ensures rows { OnOk result (rows.new.items ≡ rows.old.items ++ rows_in desc.now.form desc.now key.now block.old.items) }
{
    match desc.form() {
        Form::One => form1::push_block1(alloc, desc, key, block, rows),
        Form::Two => form2::push_block1(alloc, desc, key, block, rows),
    }
}

/// Signs a content by a key, which the root signs.
#[tactic(auto, unfolding(pfr_made::specs::Blocks::signed_bytes, pfr_made::specs::Blocks::signed_rows))]
pub fn sign_content(
    alloc: Global,
    desc: &Description,
    key: &KeyDescription,
    ty: ContentType,
    content: &[u8],
) -> Result<Signed, NoMemory>
    requires { length content.now < 2 ^ 32 }
    ensures bytes { IfOk result (λ signed. signed.bytes.items ≡ signed_bytes desc.now key.now ty content.now) }
    ensures rows { IfOk result (λ signed. signed.rows.items ≡ signed_rows desc.now key.now ty content.now) }
    ensures len { IfOk result (λ signed. vec_len signed.bytes ≡ 1024 + length content.now) }
{
    let mut bytes = block0(alloc, desc.form(), ty, content)?;
    let mut rows = Vec::new(alloc);
    push_block1(alloc, desc, key, &mut bytes, &mut rows)?;
    bytes.extend_from_slice(content)?;
    Ok(Signed { bytes, rows })
}

// appends Block 1 without a key entry in the description's form, and its row
fn push_root_block1(
    alloc: Global,
    desc: &Description,
    block: &mut Vec<u8>,
    rows: &mut Vec<u8>,
) -> Result<(), NoMemory>
    requires { vec_len block.old ≡ 128 }
    ensures bytes { OnOk result (block.new.items ≡ root_block_in desc.now.form desc.now block.old.items) }
    ensures rows { OnOk result (rows.new.items ≡ rows.old.items ++ root_row_in desc.now.form desc.now block.old.items) }
{
    match desc.form() {
        Form::One => form1::push_root_block1(alloc, desc, block, rows),
        Form::Two => form2::push_root_block1(alloc, desc, block, rows),
    }
}

/// Signs a content by the root.
#[tactic(auto, unfolding(pfr_made::specs::Blocks::root_signed_bytes, pfr_made::specs::Blocks::root_signed_row))]
pub fn sign_by_root(
    alloc: Global,
    desc: &Description,
    ty: ContentType,
    content: &[u8],
) -> Result<Signed, NoMemory>
    requires { length content.now < 2 ^ 32 }
    ensures bytes { IfOk result (λ signed. signed.bytes.items ≡ root_signed_bytes desc.now ty content.now) }
    ensures rows { IfOk result (λ signed. signed.rows.items ≡ root_signed_row desc.now ty content.now) }
{
    let mut bytes = block0(alloc, desc.form(), ty, content)?;
    let mut rows = Vec::new(alloc);
    push_root_block1(alloc, desc, &mut bytes, &mut rows)?;
    bytes.extend_from_slice(content)?;
    Ok(Signed { bytes, rows })
}
