// Block 0, which both forms share.
ghost use Rattle.std.specs.Prelude.{◌≡◌, ◌+◌, ◌≤◌, IfOk, IfErr};
ghost use Rattle.pfr_flash.specs.Answer.{IsFound};
ghost use Rattle.pfr_chain.specs.Answer.{chain_failure};
ghost use Rattle.pfr_chain.specs.BlockJudge.{is_block_length, judge_block0, judge_content};

use crate::both_hashers::Digests;
use crate::fail::ChainFail;
use crate::form::Form;
use crate::types::{cancels, type_number};
use pfr_flash::{ContentType, array_at, number_at};

/// The least length of a block, which is that of each block of form 1.
pub const SHORTEST: u32 = 1024;

/// The greatest length of a block.
pub const LONGEST: u32 = 8320;

/// The length of Block 0.
pub const BLOCK0: usize = 128;

/// What Block 0 says of the block and of the content behind it.
#[derive(Clone, Copy, Debug)]
pub struct Block0 {
    pub form: Form,
    pub block_length: u32,
    pub length: u32,
}

fn is_block_length(length: u32) -> bool
    ensures { result ≡ is_block_length length }
{
    length >= SHORTEST && length <= LONGEST && length % 128 == 0
}

/// Block 0 up to the content's length, for a block and a content within `len` bytes.
#[tactic(auto, unfolding(crate::specs::BlockJudge::judge_block0))]
pub fn read_block0(head: &[u8; BLOCK0], want: ContentType, len: u32) -> Result<Block0, ChainFail>
    requires { 1024 ≤ len }
    ensures exact { result ≡ judge_block0 head.now want len }
    ensures least { IfOk result (λ b. 1024 ≤ b.block_length) }
    ensures most { IfOk result (λ b. b.block_length ≤ 8320) }
    ensures within { IfOk result (λ b. b.block_length + b.length ≤ len) }
    ensures form1 { IfOk result (λ b. b.form ≡ Form.One → b.block_length ≡ 1024) }
    ensures found { IfErr result (IsFound chain_failure) }
{
    let form = Form::from_magic(number_at(head, 0)).ok_or(ChainFail::Block0Magic)?;
    if number_at(head, 8) != type_number(want) {
        return Err(ChainFail::WrongType);
    }
    let block_length = match form {
        Form::One => SHORTEST,
        Form::Two => number_at(head, 12),
    };
    if !is_block_length(block_length) || block_length > len {
        return Err(ChainFail::BlockLength);
    }
    let length = number_at(head, 4);
    if length == 0 || length > len - block_length || (cancels(want) && length != 128) {
        return Err(ChainFail::Length);
    }
    Ok(Block0 {
        form,
        block_length,
        length,
    })
}

/// Both digests of the content.
#[tactic(auto, unfolding(crate::specs::BlockJudge::judge_content))]
pub fn check_digests(head: &[u8; BLOCK0], digests: &Digests) -> Result<(), ChainFail>
    ensures exact { result ≡ judge_content head.now digests.now.sha256 digests.now.sha384 }
    ensures found { IfErr result (IsFound chain_failure) }
{
    if digests.sha256 != array_at::<32>(head, 16) {
        return Err(ChainFail::Digest256);
    }
    if digests.sha384 != array_at::<48>(head, 48) {
        return Err(ChainFail::Digest384);
    }
    Ok(())
}
