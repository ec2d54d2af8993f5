// Bytes become words by `byteorder` in the machine and the assembler. Of three ways to store a
// word that `bench/compare` compared, one `write_u32` took the fewest instructions.

ghost use Rattle.std.specs.Prelude.{◌≡◌, ◌≢◌, ◌+◌, ◌≤◌, ◌/◌, ◌%◌, [], ◌∷◌, length, vec_capacity};
ghost use Rattle.std.specs.Prelude.{◌<◌, ◌^◌, IfSome, slice_range};
ghost use Rattle.tg_base.specs.Words.{extended, extended_byte, rem};
ghost use Rattle.tg_machine_state.specs.State as state;

use byteorder::{ByteOrder, LittleEndian};
use tg_isa::Bits;

/// 16 bits with their sign.
#[inline(always)]
pub(crate) fn extend(number: Bits<16>) -> u32
    ensures { result ≡ extended number }
{
    let low = number.get();
    if low < 32768 { low } else { low + 4294901760 }
}

/// A byte with its sign.
#[inline(always)]
pub(crate) fn extend_byte(byte: u8) -> u32
    ensures { result ≡ extended_byte byte }
{
    let low = u32::from(byte);
    if low < 128 { low } else { low + 4294967040 }
}

/// The remainder of the quotient toward zero of the ints that two words stand for.
#[inline(always)]
pub(crate) fn remainder(left: u32, right: u32) -> u32
    requires { right ≢ 0 }
    ensures { result ≡ rem left right }
{
    left.cast_signed()
        .wrapping_rem(right.cast_signed())
        .cast_unsigned()
}

/// How far an address is above a base, where it is below the end.
#[inline(always)]
pub(crate) fn offset(address: u32, base: u32, size: usize) -> Option<usize>
    requires { base + size ≤ 4294967296 }
    ensures { result ≡ state.offset address base size }
{
    let above = address.wrapping_sub(base) as usize;
    if above < size { Some(above) } else { None }
}

/// So many bytes from one on, where there are so many.
#[inline(always)]
pub(crate) fn part(bytes: &[u8], at: usize, size: usize) -> Option<&[u8]>
    requires { at + size < 2 ^ 64 }
    ensures { IfSome result (λ some. (at + size ≤ length bytes.now)
        × (some.now ≡ slice_range bytes.now at (at + size))) }
{
    bytes.get(at..at + size)
}

/// The word at a byte, little endian.
#[inline(always)]
pub(crate) fn word_at(bytes: &Vec<u8>, at: usize) -> u32
    requires { at + 4 ≤ length bytes.now.items }
    ensures { result ≡ state.word_at bytes.now.items at }
{
    LittleEndian::read_u32(&bytes[at..])
}

/// Puts a word at a byte, little endian.
#[inline(always)]
fn put_word(bytes: &mut [u8], at: usize, value: u32)
    requires { at + 4 ≤ length bytes.old }
    ensures { bytes.new ≡ state.set_word bytes.old at value }
{
    LittleEndian::write_u32(&mut bytes[at..], value);
}

/// Puts a word at a byte of a region, little endian.
#[inline(always)]
pub(crate) fn set_word(bytes: &mut Vec<u8>, at: usize, value: u32)
    requires { at + 4 ≤ length bytes.old.items }
    ensures items { bytes.new.items ≡ state.set_word bytes.old.items at value }
    ensures length { length bytes.new.items ≡ length bytes.old.items }
    ensures capacity { vec_capacity bytes.new ≡ vec_capacity bytes.old }
{
    put_word(bytes, at, value);
}
