//! Texts of numbers, versions, keys and pairs, written at a place in existing bytes.
//!
//! The bytes before the place stay. Each function returns the place behind the text. The bytes
//! behind that may have any value: whoever continues there overwrites them. Nothing is allocated,
//! so the caller provides the room.
ghost use Rattle.std.specs.Prelude.{◌≡◌, ◌≤◌, ◌<◌, ◌+◌, ◌*◌, ◌%◌, ◌++◌, ◌∷◌, [], length, take, decimal, IsTrue};
ghost use Rattle.std.specs.List.{list_all};
ghost use Rattle.cops_types.specs.Key.{is_key};
ghost use Rattle.cops_types.specs.Placed.{last_four};
ghost use Rattle.cops_types.specs.PairForms.{are_deps, are_near, is_pair, is_version};
ghost use Rattle.cops_types.specs.Words.{list_text, more_text, pair_text, version_text};

use crate::deps::OwnedDeps;
use crate::keys::Key;
use crate::near::OwnedNear;
use crate::pairs::Pair;
use crate::versions::Version;

/// Writes a byte.
#[inline(always)]
pub fn put_byte(bytes: &mut [u8], at: usize, byte: u8) -> usize
    requires { at < length bytes.old }
    ensures text { take result bytes.new ≡ take at bytes.old ++ byte ∷ [] }
    ensures end { result ≡ at + 1 }
{
    bytes[at] = byte;
    at + 1
}

/// Writes the first `count` bytes. The others are written behind them: that is cheaper than leaving
/// them out if the compiler knows their number.
#[inline(always)]
pub(crate) fn put_front(bytes: &mut [u8], at: usize, cells: &[u8], count: usize) -> usize
    requires room { at + length cells.now ≤ length bytes.old }
    requires within { count ≤ length cells.now }
    ensures text { take result bytes.new ≡ take at bytes.old ++ take count cells.now }
    ensures end { result ≡ at + count }
{
    bytes[at..at + cells.len()].copy_from_slice(cells);
    at + count
}

/// Writes these bytes.
#[inline(always)]
pub fn put_word(bytes: &mut [u8], at: usize, word: &[u8]) -> usize
    requires { at + length word.now ≤ length bytes.old }
    ensures text { take result bytes.new ≡ take at bytes.old ++ word.now }
    ensures end { result ≡ at + length word.now }
{
    put_front(bytes, at, word, word.len())
}

/// Writes bytes whose number the compiler knows, without a call.
#[inline(always)]
fn put_block<const N: usize>(bytes: &mut [u8], at: usize, block: &[u8])
    requires room { at + N ≤ length bytes.old }
    requires size { length block.now ≡ N }
    ensures { take (at + N) bytes.new ≡ take at bytes.old ++ block.now }
{
    let mut cells = [0; N];
    cells.copy_from_slice(block);
    let _ = put_word(bytes, at, &cells);
}

/// Writes bytes as two blocks, one at their start and one at their end, which may overlap.
#[inline(always)]
fn put_blocks<const N: usize>(bytes: &mut [u8], at: usize, word: &[u8]) -> usize
    requires room { at + length word.now ≤ length bytes.old }
    requires front { N ≤ length word.now }
    requires end { length word.now ≤ N + N }
    ensures text { take result bytes.new ≡ take at bytes.old ++ word.now }
    ensures end { result ≡ at + length word.now }
{
    let rest = word.len() - N;
    put_block::<N>(bytes, at, &word[..N]);
    put_block::<N>(bytes, at + rest, &word[rest..]);
    at + word.len()
}

/// Writes bytes. From 8 to 32 of them need no call.
#[inline(always)]
pub fn put_bytes(bytes: &mut [u8], at: usize, word: &[u8]) -> usize
    requires { at + length word.now ≤ length bytes.old }
    ensures text { take result bytes.new ≡ take at bytes.old ++ word.now }
    ensures end { result ≡ at + length word.now }
{
    let len = word.len();
    if 8 <= len && len <= 16 {
        return put_blocks::<8>(bytes, at, word);
    }
    if 16 < len && len <= 32 {
        return put_blocks::<16>(bytes, at, word);
    }
    put_word(bytes, at, word)
}

/// Writes the decimal digit of a number.
#[inline(always)]
fn put_digit(bytes: &mut [u8], at: usize, number: u64) -> usize
    requires small { number < 10 }
    requires room { at < length bytes.old }
    ensures text { take result bytes.new ≡ take at bytes.old ++ decimal number }
    ensures end { result ≡ at + 1 }
{
    put_byte(bytes, at, b'0' + number as u8)
}

/// Writes the last decimal digit of a number behind those before it.
#[inline(always)]
fn put_last_digit(bytes: &mut [u8], at: usize, number: u64) -> usize
    requires { at < length bytes.old }
    ensures text { take result bytes.new ≡ take at bytes.old ++ decimal (number % 10) }
    ensures end { result ≡ at + 1 }
{
    put_digit(bytes, at, number % 10)
}

/// Writes the last four decimal digits of a number behind those before them.
#[inline(always)]
fn put_last_four(bytes: &mut [u8], at: usize, number: u64) -> usize
    requires { at + 4 ≤ length bytes.old }
    ensures text { take result bytes.new ≡ take at bytes.old ++ last_four number }
    ensures end { result ≡ at + 4 }
{
    let second = put_last_digit(bytes, at, number / 1000);
    let third = put_last_digit(bytes, second, number / 100);
    let fourth = put_last_digit(bytes, third, number / 10);
    put_last_digit(bytes, fourth, number)
}

/// Writes the decimal digits of a number below 10,000.
#[inline(always)]
fn put_four(bytes: &mut [u8], at: usize, number: u64) -> usize
    requires small { number < 10000 }
    requires room { at + 4 ≤ length bytes.old }
    ensures text { take result bytes.new ≡ take at bytes.old ++ decimal number }
    ensures end { result ≤ at + 4 }
{
    if number < 10 {
        return put_digit(bytes, at, number);
    }
    if number < 100 {
        let second = put_digit(bytes, at, number / 10);
        return put_last_digit(bytes, second, number);
    }
    if number < 1000 {
        let second = put_digit(bytes, at, number / 100);
        let third = put_last_digit(bytes, second, number / 10);
        return put_last_digit(bytes, third, number);
    }
    put_last_four(bytes, at, number)
}

/// Writes the decimal digits of any number.
#[inline(never)]
fn put_long(bytes: &mut [u8], at: usize, number: u64) -> usize
    requires { at + 20 ≤ length bytes.old }
    ensures text { take result bytes.new ≡ take at bytes.old ++ decimal number }
    ensures end { result ≤ at + 20 }
{
    let mut buffer = itoa::Buffer::new();
    put_word(bytes, at, buffer.format(number).as_bytes())
}

/// Writes the decimal digits of a number of more than one digit.
#[inline(never)]
fn put_more_digits(bytes: &mut [u8], at: usize, number: u64) -> usize
    requires { at + 20 ≤ length bytes.old }
    ensures text { take result bytes.new ≡ take at bytes.old ++ decimal number }
    ensures end { result ≤ at + 20 }
{
    if number < 10_000 {
        return put_four(bytes, at, number);
    }
    if number < 100_000_000 {
        let last = put_four(bytes, at, number / 10_000);
        return put_last_four(bytes, last, number);
    }
    put_long(bytes, at, number)
}

/// Writes the decimal digits of a number, at most 20.
#[inline(always)]
pub fn put_number(bytes: &mut [u8], at: usize, number: u64) -> usize
    requires { at + 20 ≤ length bytes.old }
    ensures text { take result bytes.new ≡ take at bytes.old ++ decimal number }
    ensures end { result ≤ at + 20 }
{
    if number < 10 {
        return put_digit(bytes, at, number);
    }
    put_more_digits(bytes, at, number)
}

/// Writes the clock, a dot and the node.
#[inline(always)]
pub fn put_version(bytes: &mut [u8], at: usize, version: Version) -> usize
    requires { at + 41 ≤ length bytes.old }
    ensures text { take result bytes.new ≡ take at bytes.old ++ version_text version }
    ensures end { result ≤ at + 41 }
    ensures formed { IsTrue (is_version version) }
{
    let dot = put_number(bytes, at, version.clock());
    let node = put_byte(bytes, dot, b'.');
    put_number(bytes, node, version.place() as u64)
}

/// Writes a key, at most 64 bytes.
#[inline(always)]
pub fn put_key(bytes: &mut [u8], at: usize, key: &Key) -> usize
    requires { at + 64 ≤ length bytes.old }
    ensures text { take result bytes.new ≡ take at bytes.old ++ key.now }
    ensures end { result ≤ at + 64 }
    ensures formed { IsTrue (is_key key.now) }
{
    put_word(bytes, at, key.bytes())
}

/// Writes the key, a colon and the version.
pub(crate) fn put_pair(bytes: &mut [u8], at: usize, pair: &Pair) -> usize
    requires { at + 106 ≤ length bytes.old }
    ensures text { take result bytes.new ≡ take at bytes.old ++ pair_text pair.now }
    ensures end { result ≤ at + 106 }
    ensures formed { IsTrue (is_pair pair.now) }
{
    let colon = put_key(bytes, at, &pair.key);
    let version = put_byte(bytes, colon, b':');
    put_version(bytes, version, pair.version)
}

/// Writes each pair after a comma.
pub(crate) fn put_more_pairs(bytes: &mut [u8], at: usize, pairs: &[Pair]) -> usize
    requires { at + 107 * length pairs.now ≤ length bytes.old }
    ensures text { take result bytes.new ≡ take at bytes.old ++ more_text pairs.now }
    ensures end { result ≤ at + 107 * length pairs.now }
    ensures formed { IsTrue (list_all is_pair pairs.now) }
{
    let mut end = at;
    for pair in pairs {
        let after = put_byte(bytes, end, b',');
        end = put_pair(bytes, after, pair);
    }
    end
}

/// Writes the pairs separated by commas, or a hyphen for none.
pub(crate) fn put_pairs(bytes: &mut [u8], at: usize, pairs: &[Pair]) -> usize
    requires { at + 107 * length pairs.now + 1 ≤ length bytes.old }
    ensures text { take result bytes.new ≡ take at bytes.old ++ list_text pairs.now }
    ensures end { result ≤ at + 107 * length pairs.now + 1 }
    ensures formed { IsTrue (list_all is_pair pairs.now) }
{
    match pairs {
        [] => put_byte(bytes, at, b'-'),
        [first, rest @ ..] => {
            let end = put_pair(bytes, at, first);
            put_more_pairs(bytes, end, rest)
        }
    }
}

/// Writes the pairs separated by commas, or a hyphen for none.
pub fn put_deps(bytes: &mut [u8], at: usize, deps: &OwnedDeps) -> usize
    requires { at + 107 * length deps.now + 1 ≤ length bytes.old }
    ensures text { take result bytes.new ≡ take at bytes.old ++ list_text deps.now }
    ensures end { result ≤ at + 107 * length deps.now + 1 }
    ensures formed { IsTrue (are_deps deps.now) }
{
    deps.packed().put(bytes, at)
}

/// Writes the pairs separated by commas, or a hyphen for none.
pub fn put_near(bytes: &mut [u8], at: usize, near: &OwnedNear) -> usize
    requires { at + 107 * length near.now + 1 ≤ length bytes.old }
    ensures text { take result bytes.new ≡ take at bytes.old ++ list_text near.now }
    ensures end { result ≤ at + 107 * length near.now + 1 }
    ensures formed { IsTrue (are_near near.now) }
{
    near.packed().put(bytes, at)
}
