// Writes fields of images.
ghost use Rattle.std.specs.Prelude.{◌≡◌, ◌+◌, ◌<◌, ◌≤◌, ◌^◌, ◌++◌, length, vec_len, OnOk};
ghost use Rattle.byteorder.specs.Endian.{little_bytes};
ghost use Rattle.pfr_made.specs.Fields.{number_bytes, blanks, zeros, padded, filled};
ghost use Rattle.pfr_made.specs.Made.{with_area};

use byteorder::{ByteOrder, LittleEndian};
use pfr_flash::NoMemory;

/// A number in four bytes, the lowest first.
#[tactic(auto, unfolding(pfr_made::specs::Fields::number_bytes))]
pub fn number_bytes(number: u32) -> [u8; 4]
    ensures { result ≡ number_bytes number }
{
    let mut bytes = [0; 4];
    LittleEndian::write_u32(&mut bytes, number);
    bytes
}

/// Appends a number in four bytes, the lowest first.
pub fn push_number(out: &mut Vec<u8>, number: u32) -> Result<(), NoMemory>
    ensures bytes { OnOk result (out.new.items ≡ out.old.items ++ number_bytes number) }
    ensures len { OnOk result (vec_len out.new ≡ vec_len out.old + 4) }
{
    out.extend_from_slice(&number_bytes(number))?;
    Ok(())
}

/// Appends a number in two bytes, the lowest first.
pub fn push_short(out: &mut Vec<u8>, number: u16) -> Result<(), NoMemory>
    ensures bytes { OnOk result (out.new.items ≡ out.old.items ++ little_bytes 2 number) }
    ensures len { OnOk result (vec_len out.new ≡ vec_len out.old + 2) }
{
    let mut bytes = [0; 2];
    LittleEndian::write_u16(&mut bytes, number);
    out.extend_from_slice(&bytes)?;
    Ok(())
}

/// Appends so many bytes of 0xFF.
#[tactic(auto, unfolding(pfr_made::specs::Fields::blanks))]
pub fn push_blanks(out: &mut Vec<u8>, count: usize) -> Result<(), NoMemory>
    requires { count < 2 ^ 32 }
    ensures bytes { OnOk result (out.new.items ≡ out.old.items ++ blanks count) }
    ensures len { OnOk result (vec_len out.new ≡ vec_len out.old + count) }
{
    let end = out.len() + count;
    out.resize(end, 0xFF)?;
    Ok(())
}

/// Appends so many zeros.
#[tactic(auto, unfolding(pfr_made::specs::Fields::zeros))]
pub fn push_zeros(out: &mut Vec<u8>, count: usize) -> Result<(), NoMemory>
    requires { count < 2 ^ 32 }
    ensures bytes { OnOk result (out.new.items ≡ out.old.items ++ zeros count) }
    ensures len { OnOk result (vec_len out.new ≡ vec_len out.old + count) }
{
    let end = out.len() + count;
    out.resize(end, 0)?;
    Ok(())
}

/// Fills up with zeros to a length.
#[tactic(auto, unfolding(pfr_made::specs::Fields::zeros, pfr_made::specs::Fields::padded))]
pub fn pad(out: &mut Vec<u8>, len: usize) -> Result<(), NoMemory>
    requires { vec_len out.old ≤ len }
    ensures bytes { OnOk result (out.new.items ≡ padded len out.old.items) }
    ensures len { OnOk result (vec_len out.new ≡ len) }
{
    out.resize(len, 0)?;
    Ok(())
}

/// Fills up with 0xFF to a length.
#[tactic(auto, unfolding(pfr_made::specs::Fields::blanks, pfr_made::specs::Fields::filled))]
pub fn fill_up(out: &mut Vec<u8>, len: usize) -> Result<(), NoMemory>
    requires { vec_len out.old ≤ len }
    ensures bytes { OnOk result (out.new.items ≡ filled len out.old.items) }
    ensures len { OnOk result (vec_len out.new ≡ len) }
{
    out.resize(len, 0xFF)?;
    Ok(())
}

/// Makes an area of an image these bytes, and 0xFF behind them.
pub fn put_area(image: &mut [u8], at: u32, len: u32, bytes: &[u8])
    requires inside { at + len ≤ length image.old }
    requires fits { length bytes.now ≤ len }
    ensures bytes { image.new ≡ with_area image.old at len bytes.now }
    ensures len { length image.new ≡ length image.old }
{
    let begin = at as usize;
    image[begin..begin + len as usize].fill(0xFF);
    image[begin..begin + bytes.len()].copy_from_slice(bytes);
}
