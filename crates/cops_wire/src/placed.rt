//! Writes parts of frames over existing bytes, at an offset.
//!
//! Bytes before the offset stay. Each function returns the offset after the part. Bytes after it may have any value: the next
//! part overwrites them. Nothing is allocated, so the caller must provide the room.
ghost use Rattle.std.specs.Prelude.{◌≡◌, ◌≤◌, ◌+◌, [], ◌∷◌, ◌++◌, length, take, IfSome};
ghost use Rattle.std.specs.List.{flat_map};
ghost use Rattle.byteorder.specs.Endian.{big_bytes};
ghost use Rattle.cops_wire.specs.Fitting.{IsCounted, PartsFit};
ghost use Rattle.cops_wire.specs.Spelling.{spelled_key, spelled_value, spelled_version};

use byteorder::{BigEndian, ByteOrder};
use cops_types::placed::{put_byte, put_bytes, put_word};
use cops_types::{Bytes, Version};

/// Writes a number in two bytes.
#[inline(always)]
pub(crate) fn put_number_16(bytes: &mut [u8], at: usize, number: u16) -> usize
    requires { at + 2 ≤ length bytes.old }
    ensures text { take result bytes.new ≡ take at bytes.old ++ big_bytes 2 number }
    ensures end { result ≡ at + 2 }
{
    let mut cells = [0; 2];
    BigEndian::write_u16(&mut cells, number);
    put_word(bytes, at, &cells)
}

/// Writes a number in four bytes.
#[inline(always)]
pub(crate) fn put_number_32(bytes: &mut [u8], at: usize, number: u32) -> usize
    requires { at + 4 ≤ length bytes.old }
    ensures text { take result bytes.new ≡ take at bytes.old ++ big_bytes 4 number }
    ensures end { result ≡ at + 4 }
{
    let mut cells = [0; 4];
    BigEndian::write_u32(&mut cells, number);
    put_word(bytes, at, &cells)
}

/// Writes a version in eight bytes.
#[inline(always)]
pub(crate) fn put_version(bytes: &mut [u8], at: usize, version: Version) -> usize
    requires { at + 8 ≤ length bytes.old }
    ensures text { take result bytes.new ≡ take at bytes.old ++ spelled_version version }
    ensures end { result ≡ at + 8 }
{
    let mut cells = [0; 8];
    BigEndian::write_u64(&mut cells, version.to_u64());
    put_word(bytes, at, &cells)
}

/// Writes a key's length and the key.
#[inline(always)]
pub(crate) fn put_key(bytes: &mut [u8], at: usize, key: &[u8]) -> usize
    requires counted { IsCounted 1 key.now }
    requires room { at + 1 + length key.now ≤ length bytes.old }
    ensures text { take result bytes.new ≡ take at bytes.old ++ spelled_key key.now }
    ensures end { result ≡ at + 1 + length key.now }
{
    let of_key = put_byte(bytes, at, key.len() as u8);
    put_bytes(bytes, of_key, key)
}

/// Writes a value's length and the value.
#[inline(always)]
pub(crate) fn put_value(bytes: &mut [u8], at: usize, value: &[u8]) -> usize
    requires counted { IsCounted 2 value.now }
    requires room { at + 2 + length value.now ≤ length bytes.old }
    ensures text { take result bytes.new ≡ take at bytes.old ++ spelled_value value.now }
    ensures end { result ≡ at + 2 + length value.now }
{
    let of_value = put_number_16(bytes, at, value.len() as u16);
    put_bytes(bytes, of_value, value)
}

/// Writes a length, a tag, a handle, and the number of keys or of a key's bytes.
#[inline(always)]
pub(crate) fn put_head(
    bytes: &mut [u8],
    at: usize,
    len: u32,
    tag: u8,
    handle: &[u8; 9],
    count: u8,
) -> usize
    requires { at + 15 ≤ length bytes.old }
    ensures text { take result bytes.new ≡ take at bytes.old
        ++ (big_bytes 4 len ++ (tag ∷ (handle.now ++ (count ∷ [])))) }
    ensures end { result ≡ at + 15 }
{
    let of_tag = put_number_32(bytes, at, len);
    let of_handle = put_byte(bytes, of_tag, tag);
    let cells = *handle;
    let of_count = put_word(bytes, of_handle, &cells);
    put_byte(bytes, of_count, count)
}

/// Writes each key's length and the key, in order, or finds that there is no room for them.
#[inline(always)]
pub(crate) fn put_keys(bytes: &mut [u8], at: usize, keys: &[Bytes]) -> Option<usize>
    requires within { at ≤ length bytes.old }
    requires counted { PartsFit 1 (IsCounted 1) keys.now }
    ensures text { IfSome result (λ end. take end bytes.new
        ≡ take at bytes.old ++ flat_map spelled_key keys.now) }
    ensures within { IfSome result (λ end. (at ≤ end) × (end ≤ length bytes.old)) }
    ensures front { take at bytes.new ≡ take at bytes.old }
{
    let mut end = at;
    for key in keys {
        let key = key.as_slice();
        if bytes.len() - end <= key.len() {
            return None;
        }
        end = put_key(bytes, end, key);
    }
    Some(end)
}
