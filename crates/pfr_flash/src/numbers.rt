// Numbers and fields in bytes, by their places.
ghost use Rattle.std.specs.Prelude.{◌≡◌, ◌+◌, ◌≤◌, length};
ghost use Rattle.pfr_flash.specs.Bytes.{bytes_at};
ghost use Rattle.pfr_flash.specs.Numbers.{little_at, big_at, number_at};

use byteorder::{BigEndian, ByteOrder, LittleEndian};

/// So many bytes from a place on.
#[tactic(auto, using(crate::proofs::PartsLemmas::slice_is))]
pub fn part(bytes: &[u8], at: usize, count: usize) -> &[u8]
    requires { at + count ≤ length bytes.now }
    ensures part { result.now ≡ bytes_at bytes.now at count }
    ensures long { length result.now ≡ count }
{
    &bytes[at..at + count]
}

/// A field of `N` bytes.
pub fn array_at<const N: usize>(bytes: &[u8], at: usize) -> [u8; N]
    requires { at + N ≤ length bytes.now }
    ensures { result ≡ bytes_at bytes.now at N }
{
    let mut copy = [0; N];
    copy.copy_from_slice(part(bytes, at, N));
    copy
}

/// The number in the four bytes at a place, the lowest first.
#[tactic(auto, unfolding(crate::specs::Numbers::little_at))]
pub fn number_at(bytes: &[u8], at: usize) -> u32
    requires { at + 4 ≤ length bytes.now }
    ensures { result ≡ number_at bytes.now at }
{
    LittleEndian::read_u32(part(bytes, at, 4))
}

/// The number in the two bytes at a place, the lowest first.
#[tactic(auto, unfolding(crate::specs::Numbers::little_at))]
pub fn short_number_at(bytes: &[u8], at: usize) -> u16
    requires { at + 2 ≤ length bytes.now }
    ensures { result ≡ little_at bytes.now at 2 }
{
    LittleEndian::read_u16(part(bytes, at, 2))
}

/// The number in the four bytes at a place, the highest first.
#[tactic(auto, unfolding(crate::specs::Numbers::big_at))]
pub fn big_number_at(bytes: &[u8], at: usize) -> u32
    requires { at + 4 ≤ length bytes.now }
    ensures { result ≡ big_at bytes.now at 4 }
{
    BigEndian::read_u32(part(bytes, at, 4))
}
