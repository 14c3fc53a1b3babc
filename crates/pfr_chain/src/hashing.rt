// Digests of a flash's bytes, which are read in pieces.
ghost use Rattle.std.specs.Prelude.{◌≡◌, ℕ, ◌+◌, ◌≤◌, ◌++◌, List, OnOk, IfOk, Some};
ghost use Rattle.sha2.specs.Sha256.{sha256};
ghost use Rattle.sha2.specs.Sha512.{sha384};
ghost use Rattle.pfr_flash.specs.Bytes.{bytes_at};
ghost use Rattle.pfr_flash.specs.FlashState.{now, size_of};
ghost use Rattle.pfr_flash.specs.Reading.{EndsAt, failed_by};

use crate::both_hashers::{BothHashers, Digests};
use pfr_flash::{Flash, FlashFail};
use sha2::{Digest, Sha256, Sha384};

/// How many bytes are read at a time.
const PIECE: u32 = 4096;

// adds a flash's bytes to the hasher's message
#[tactic(auto, using(pfr_flash::proofs::EndsLemmas::then_ends))]
fn feed<F: Flash, H: Digest>(
    flash: &mut F,
    at: u32,
    len: u32,
    hasher: &mut H,
) -> Result<(), FlashFail>
    requires { at + len ≤ size_of (F.device flash.old) }
    ensures fed { (m : List ℕ) → H.holds hasher.old m → OnOk result (H.holds hasher.new (m ++ bytes_at (now (F.device flash.old)) at len)) }
    ensures ends { EndsAt (failed_by (λ fail. Some fail) result) (F.device flash.old) (F.device flash.new) }
{
    // Places in a flash fit a u32, as its size does.
    let _size = flash.size();
    let mut buffer = [0; PIECE as usize];
    let mut done = 0;
    'pieces: while done < len {
        let count = (len - done).min(PIECE);
        let piece = &mut buffer[..count as usize];
        flash.read(at + done, piece)?;
        hasher.update(&*piece);
        done += count;
    }
    Ok(())
}

/// The SHA-256 of `len` bytes of the flash from `at` on.
pub fn digest256_at<F: Flash>(flash: &mut F, at: u32, len: u32) -> Result<[u8; 32], FlashFail>
    requires { at + len ≤ size_of (F.device flash.old) }
    ensures digest { IfOk result (λ d. d ≡ sha256 (bytes_at (now (F.device flash.old)) at len)) }
    ensures ends { EndsAt (failed_by (λ fail. Some fail) result) (F.device flash.old) (F.device flash.new) }
{
    let mut hasher = Sha256::new();
    feed(flash, at, len, &mut hasher)?;
    Ok(hasher.finalize())
}

/// The SHA-384 of `len` bytes of the flash from `at` on.
pub fn digest384_at<F: Flash>(flash: &mut F, at: u32, len: u32) -> Result<[u8; 48], FlashFail>
    requires { at + len ≤ size_of (F.device flash.old) }
    ensures digest { IfOk result (λ d. d ≡ sha384 (bytes_at (now (F.device flash.old)) at len)) }
    ensures ends { EndsAt (failed_by (λ fail. Some fail) result) (F.device flash.old) (F.device flash.new) }
{
    let mut hasher = Sha384::new();
    feed(flash, at, len, &mut hasher)?;
    Ok(hasher.finalize())
}

/// Both digests of `len` bytes of the flash from `at` on, which are read once.
pub fn digests_at<F: Flash>(flash: &mut F, at: u32, len: u32) -> Result<Digests, FlashFail>
    requires { at + len ≤ size_of (F.device flash.old) }
    ensures first { IfOk result (λ d. d.sha256 ≡ sha256 (bytes_at (now (F.device flash.old)) at len)) }
    ensures second { IfOk result (λ d. d.sha384 ≡ sha384 (bytes_at (now (F.device flash.old)) at len)) }
    ensures ends { EndsAt (failed_by (λ fail. Some fail) result) (F.device flash.old) (F.device flash.new) }
{
    let mut hasher = BothHashers::new();
    feed(flash, at, len, &mut hasher)?;
    Ok(hasher.finalize())
}
