// Reading to the end of a file, up to a limit.
ghost use Rattle.std.specs.Prelude.{◌≡◌, ◌<◌, ◌≤◌, length, vec_items, [], IfOk, IfSome};

use crate::fault::ShelfFail;
use std::alloc::{AllocError, Global};
use std::io::{ErrorKind, Read};

// The least room that is reserved.
const LEAST_ROOM: usize = 0x1_0000;

/// All that is left of a file, if that is at most `limit` bytes. Room for the length that is expected is reserved at the
/// start; the file may have another.
pub fn read_at_most<F: Read + Drop>(
    alloc: Global,
    file: F,
    expected: u64,
    limit: u32,
) -> Result<Vec<u8>, ShelfFail>
    ensures short { IfOk result (λ bytes. length bytes.items ≤ limit) }
    ensures bytes { IfOk result (λ bytes. IfSome (F.remaining file) (λ left. bytes.items ≡ left)) }
    ensures too_long { result ≡ Err ShelfFail.TooLong → IfSome (F.remaining file) (λ left. limit < length left) }
{
    // one more byte than is taken tells a longer file
    let most = limit as usize + 1;
    let Ok(mut bytes) = reserved(alloc, expected, most) else {
        return Err(ShelfFail::NoMemory);
    };
    match file.take(most as u64).read_to_end(&mut bytes) {
        Ok(_) => {}
        Err(error) => {
            return match error.kind() {
                ErrorKind::OutOfMemory => Err(ShelfFail::NoMemory),
                _ => Err(ShelfFail::Failed),
            };
        }
    }
    if bytes.len() > limit as usize {
        return Err(ShelfFail::TooLong);
    }
    Ok(bytes)
}

// Room for so many bytes and one more, by which the end is seen, but never for more than `most`.
fn reserved(alloc: Global, expected: u64, most: usize) -> Result<Vec<u8>, AllocError>
    ensures { IfOk result (λ bytes. bytes.items ≡ []) }
{
    let room = match usize::try_from(expected) {
        Ok(expected) => expected.saturating_add(1).max(LEAST_ROOM),
        Err(_) => most,
    };
    Vec::with_capacity(alloc, room.min(most))
}
