// Rows of form 1.
ghost use Rattle.std.specs.Prelude.{◌≡◌, map};
ghost use Rattle.pfr_engine.specs.ShortRow.{digest_of, ask_of, ask_of_list, judge_short};

use crate::engine::{Ask, Curve, Digest, curve_from};
use crate::engine_why::EngineWhy;
use crate::words::{are_hex, are_words, bytes_of};
use hex::FromHex;

/// A digest of the length that goes with the curve.
#[tactic(auto, unfolding(crate::specs::ShortRow::digest_of))]
fn digest_of(curve: Curve, word: &[u8]) -> Result<Digest, EngineWhy>
    ensures { result ≡ digest_of curve word.now }
{
    match curve {
        Curve::C256 => match <[u8; 32] as FromHex>::from_hex(word) {
            Ok(bytes) => Ok(Digest::D256(bytes)),
            Err(_) => Err(EngineWhy::Digest),
        },
        Curve::C384 => match <[u8; 48] as FromHex>::from_hex(word) {
            Ok(bytes) => Ok(Digest::D384(bytes)),
            Err(_) => Err(EngineWhy::Digest),
        },
    }
}

#[tactic(auto, unfolding(crate::specs::ShortRow::ask_of))]
fn ask_of(
    curve: &[u8],
    x: &[u8],
    y: &[u8],
    digest: &[u8],
    r: &[u8],
    s: &[u8],
) -> Result<Ask, EngineWhy>
    ensures { result ≡ ask_of curve.now x.now y.now digest.now r.now s.now }
{
    let number = bytes_of::<4>(curve)?;
    let x = bytes_of(x)?;
    let y = bytes_of(y)?;
    let r = bytes_of(r)?;
    let s = bytes_of(s)?;
    if digest.len() % 2 != 0 {
        return Err(EngineWhy::Length);
    }
    let curve = curve_from(u32::from_be_bytes(number)).ok_or(EngineWhy::Curve)?;
    let digest = digest_of(curve, digest)?;
    Ok(Ask {
        curve,
        x,
        y,
        digest,
        r,
        s,
    })
}

fn ask_of_list(words: &[&[u8]]) -> Result<Ask, EngineWhy>
    ensures { result ≡ ask_of_list (map (λ word. word.now) words.now) }
{
    match words {
        [curve, x, y, digest, r, s] => ask_of(curve, x, y, digest, r, s),
        _ => Err(EngineWhy::Words),
    }
}

/// What six words say: curve, X, Y, digest, R and S.
#[tactic(auto, unfolding(crate::specs::ShortRow::judge_short))]
pub fn read_short(words: &[&[u8]]) -> Result<Ask, EngineWhy>
    ensures { result ≡ judge_short (map (λ word. word.now) words.now) }
{
    if !are_words(words, 6) {
        return Err(EngineWhy::Words);
    }
    if !are_hex(words) {
        return Err(EngineWhy::Hex);
    }
    ask_of_list(words)
}
