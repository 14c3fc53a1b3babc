// The judgement of a signature block and its content in a flash.
ghost use Rattle.std.specs.Prelude.{◌≡◌, ◌+◌, ◌≤◌, length, IfOk, IfErr, Ok, Some};
ghost use Rattle.pfr_flash.specs.FlashState.{now, size_of};
ghost use Rattle.pfr_flash.specs.Reading.{EndsAt, failed_by};
ghost use Rattle.pfr_flash.specs.Answer.{Answers, IsFound};
ghost use Rattle.pfr_chain.specs.Answer.{chain_failure};
ghost use Rattle.pfr_flash.specs.Numbers.{number_at};
ghost use Rattle.pfr_chain.specs.Types.{type_of};
ghost use Rattle.pfr_chain.specs.Chain.{IsChain};
ghost use Rattle.pfr_chain.specs.Judge.{judge, judge_block1};

use crate::block0::{BLOCK0, LONGEST, SHORTEST, check_digests, read_block0};
use crate::fail::ChainFail;
use crate::form::Form;
use crate::hashing::digests_at;
use crate::types::type_from;
use crate::{form1, form2};
use pfr_engine::Engine;
use pfr_flash::{ContentType, Flash, FlashFail, FuseRow, number_at};

/// Where a chain's content lies, and the id of the key that signed it: none for a certificate.
#[derive(Clone, Copy, Debug, PartialEq, Eq)]
pub struct Chain {
    pub content_at: u32,
    pub length: u32,
    pub key: Option<u8>,
}

/// Block 1 of a form. Gives the id of the key that signed the block: none for a certificate.
#[tactic(auto, unfolding(crate::specs::Judge::judge_block1))]
fn signing_key<E: Engine>(
    form: Form,
    block: &[u8],
    want: ContentType,
    root: &[u8; 32],
    cancelled: &FuseRow<32>,
    engine: &E,
) -> Result<Option<u8>, ChainFail>
    requires least { 1024 ≤ length block.now }
    requires most { length block.now ≤ 8320 }
    requires form1 { form ≡ Form.One → length block.now ≡ 1024 }
    ensures exact { result ≡ judge_block1 form block.now want root.now cancelled.now (E.accepts engine.now) }
    ensures found { IfErr result (IsFound chain_failure) }
{
    match form {
        Form::One => form1::signing_key(block, want, root, cancelled, engine),
        Form::Two => form2::signing_key(block, want, root, cancelled, engine),
    }
}

// the same, as the judgement alone
#[tactic(auto, using(pfr_flash::proofs::EndsLemmas::then_ends), unfolding(crate::specs::Judge::judge))]
fn judged<F: Flash, E: Engine>(
    flash: &mut F,
    place: u32,
    len: u32,
    want: ContentType,
    root: &[u8; 32],
    cancelled: &FuseRow<32>,
    engine: &E,
) -> Result<Chain, ChainFail>
    requires { place + len ≤ size_of (F.device flash.old) }
    ensures exact { let image = now (F.device flash.old) in
        Answers chain_failure result (judge image place len want root.now cancelled.now (E.accepts engine.now)) }
    ensures ends { EndsAt (failed_by chain_failure result) (F.device flash.old) (F.device flash.new) }
{
    // Places in a flash fit a u32, as its size does.
    let _size = flash.size();
    if len < SHORTEST {
        return Err(ChainFail::ShortBlock);
    }
    let mut head = [0; BLOCK0];
    flash.read(place, &mut head)?;
    let block0 = read_block0(&head, want, len)?;
    let content_at = place + block0.block_length;
    let digests = digests_at(flash, content_at, block0.length)?;
    check_digests(&head, &digests)?;
    let mut buffer = [0; LONGEST as usize];
    let block = &mut buffer[..block0.block_length as usize];
    flash.read(place, block)?;
    let key = signing_key(block0.form, block, want, root, cancelled, engine)?;
    Ok(Chain {
        content_at,
        length: block0.length,
        key,
    })
}

/// Judges the signature block at `place`, of form 1 or 2, and the content behind it, both within `len` bytes.
///
/// `root` is the SHA-256 of the root's key. A key signs no more once its id is cleared in `cancelled`. The content is
/// hashed as it is read, once for both digests, and nothing of it is kept.
pub fn verify<F: Flash, E: Engine>(
    flash: &mut F,
    place: u32,
    len: u32,
    want: ContentType,
    root: &[u8; 32],
    cancelled: &FuseRow<32>,
    engine: &E,
) -> Result<Chain, ChainFail>
    requires { place + len ≤ size_of (F.device flash.old) }
    // What is found is a chain.
    ensures ok { let image = now (F.device flash.old) in
        IfOk result (λ chain. IsChain image place len want root.now cancelled.now (E.accepts engine.now) chain) }
    // A chain is found, unless the device fails.
    ensures only { let image = now (F.device flash.old) in
        (chain : Chain) → IsChain image place len want root.now cancelled.now (E.accepts engine.now) chain →
        Answers chain_failure result (Ok chain) }
    // Its content is not empty, and lies within the length.
    ensures some { IfOk result (λ chain. 1 ≤ chain.length) }
    ensures within { IfOk result (λ chain. chain.content_at + chain.length ≤ place + len) }
    // Which cause it is: the first in order.
    ensures exact { let image = now (F.device flash.old) in
        Answers chain_failure result (judge image place len want root.now cancelled.now (E.accepts engine.now)) }
    ensures ends { EndsAt (failed_by chain_failure result) (F.device flash.old) (F.device flash.new) }
{
    judged(flash, place, len, want, root, cancelled, engine)
}

/// The type whose number stands in Block 0 at `place`, whatever its magic: none where no type has that number.
#[tactic(auto, using(pfr_flash::proofs::PartsLemmas::number_at_part))]
pub fn content_type<F: Flash>(flash: &mut F, place: u32) -> Result<Option<ContentType>, FlashFail>
    requires { place + 128 ≤ size_of (F.device flash.old) }
    ensures exact { IfOk result (λ found. found ≡ type_of (number_at (now (F.device flash.old)) (place + 8))) }
    ensures ends { EndsAt (failed_by (λ fail. Some fail) result) (F.device flash.old) (F.device flash.new) }
{
    // Places in a flash fit a u32, as its size does.
    let _size = flash.size();
    let mut bytes = [0; 4];
    flash.read(place + 8, &mut bytes)?;
    Ok(type_from(number_at(&bytes, 0)))
}
