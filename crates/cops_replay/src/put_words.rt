//! Words of a record as text, written at a place in existing bytes.
ghost use Rattle.std.specs.Prelude.{◌≡◌, ◌≤◌, ◌<◌, ◌+◌, ◌*◌, ◌++◌, ◌∷◌, [], ◌&&◌, length, take, nat_lt, decimal, codes, IsTrue};
ghost use Rattle.std.specs.List.{list_all};
ghost use Rattle.cops_types.specs.PairForms.{are_deps, are_near, is_version};
ghost use Rattle.cops_types.specs.Words.{is_u64, list_text, spaced, version_text};
ghost use Rattle.cops_model.specs.declared.calls.NodeCall.TheVariants.{Ack};
ghost use Rattle.cops_replay.specs.RecordText.{bytes_text, call_words, digit_text, entry_words, is_bytes, is_call, is_entry, node_text, record_value};
ghost use Rattle.cops_replay.specs.Room.{entry_room, front_text, stored_room};

use cops_node::NodeId;
use cops_types::placed::{put_byte, put_deps, put_near, put_number, put_version, put_word};
use cops_types::{Entry, Name, OwnedDeps, OwnedNear, OwnedValue, Version};

/// Returns the digit of a number below 16.
#[inline(always)]
pub(crate) fn digit(number: u8) -> u8
    requires { number < 16 }
    ensures { result ≡ digit_text number }
{
    let above_nine = if number < 10 { 0 } else { 39 };
    b'0' + number + above_nine
}

/// Writes two digits for each byte.
fn put_digits(bytes: &mut [u8], at: usize, value: &[u8]) -> usize
    requires { at + 2 * length value.now ≤ length bytes.old }
    ensures text { take result bytes.new ≡ take at bytes.old ++ bytes_text value.now }
    ensures end { result ≡ at + 2 * length value.now }
    ensures formed { IsTrue (list_all (λ byte. nat_lt byte 256) value.now) }
{
    let mut end = at;
    for byte in value {
        let low = put_byte(bytes, end, digit(*byte / 16));
        end = put_byte(bytes, low, digit(*byte % 16));
    }
    end
}

/// Writes two digits for each byte of a value, or a hyphen if it is empty.
pub(crate) fn put_value(bytes: &mut [u8], at: usize, value: &OwnedValue) -> usize
    requires { at + 2 * length value.now + 1 ≤ length bytes.old }
    ensures text { take result bytes.new ≡ take at bytes.old ++ record_value value.now }
    ensures end { result ≤ at + 2 * length value.now + 1 }
    ensures formed { IsTrue (is_bytes value.now) }
{
    let value = value.bytes();
    if value.is_empty() {
        return put_byte(bytes, at, b'-');
    }
    put_digits(bytes, at, value)
}

/// Writes a data centre, a dot and a shard.
pub(crate) fn put_node(bytes: &mut [u8], at: usize, node: NodeId) -> usize
    requires { at + 41 ≤ length bytes.old }
    ensures text { take result bytes.new ≡ take at bytes.old ++ node_text node }
    ensures end { result ≤ at + 41 }
    ensures formed { IsTrue (is_u64 node.dc && is_u64 node.shard) }
{
    let dot = put_number(bytes, at, node.dc);
    let shard = put_byte(bytes, dot, b'.');
    put_number(bytes, shard, node.shard)
}

/// Writes a name, a node and a timestamp, each followed by a space.
pub(crate) fn put_front(
    bytes: &mut [u8],
    at: usize,
    name: &Name,
    node: NodeId,
    moment: u64,
) -> usize
    requires { at + 80 ≤ length bytes.old }
    ensures text { take result bytes.new ≡ take at bytes.old ++ front_text name.now node moment }
    ensures end { result ≤ at + 80 }
    ensures formed { IsTrue (is_u64 node.dc && is_u64 node.shard && is_u64 moment) }
{
    let after_name = put_word(bytes, at, name.bytes());
    let of_node = put_byte(bytes, after_name, b' ');
    let after_node = put_node(bytes, of_node, node);
    let of_moment = put_byte(bytes, after_node, b' ');
    let after_moment = put_number(bytes, of_moment, moment);
    put_byte(bytes, after_moment, b' ')
}

/// Writes a value and two lists.
pub(crate) fn put_stored(
    bytes: &mut [u8],
    at: usize,
    value: &OwnedValue,
    deps: &OwnedDeps,
    near: &OwnedNear,
) -> usize
    requires { at + stored_room value.now deps.now near.now + 5 ≤ length bytes.old }
    ensures text { take result bytes.new ≡ take at bytes.old
        ++ spaced (record_value value.now ∷ list_text deps.now ∷ list_text near.now ∷ []) }
    ensures end { result ≤ at + stored_room value.now deps.now near.now + 5 }
    ensures formed { IsTrue (is_bytes value.now && are_deps deps.now && are_near near.now) }
{
    let after_value = put_value(bytes, at, value);
    let of_deps = put_byte(bytes, after_value, b' ');
    let after_deps = put_deps(bytes, of_deps, deps);
    let of_near = put_byte(bytes, after_deps, b' ');
    put_near(bytes, of_near, near)
}

/// Writes the parts of an entry.
pub(crate) fn put_entry(bytes: &mut [u8], at: usize, entry: &Entry) -> usize
    requires { at + entry_room entry.now + 154 ≤ length bytes.old }
    ensures text { take result bytes.new ≡ take at bytes.old ++ spaced (entry_words entry.now) }
    ensures end { result ≤ at + entry_room entry.now + 154 }
    ensures formed { IsTrue (is_entry entry.now) }
{
    let after_key = entry.put_key(bytes, at);
    let of_version = put_byte(bytes, after_key, b' ');
    let after_version = put_version(bytes, of_version, entry.version());
    let of_value = put_byte(bytes, after_version, b' ');
    let after_lists = put_stored(bytes, of_value, entry.value(), entry.deps(), entry.near());
    let of_prev = put_byte(bytes, after_lists, b' ');
    put_version(bytes, of_prev, entry.prev())
}

/// Writes a word, a space and a number.
#[inline(always)]
pub(crate) fn put_numbered(bytes: &mut [u8], at: usize, word: &[u8], number: u64) -> usize
    requires { at + length word.now + 21 ≤ length bytes.old }
    ensures text { take result bytes.new
        ≡ take at bytes.old ++ spaced (word.now ∷ decimal number ∷ []) }
    ensures end { result ≤ at + length word.now + 21 }
    ensures formed { IsTrue (is_u64 number) }
{
    let after_word = put_word(bytes, at, word);
    let of_number = put_byte(bytes, after_word, b' ');
    put_number(bytes, of_number, number)
}

/// Writes a word, a space and a version.
#[inline(always)]
pub(crate) fn put_versioned(bytes: &mut [u8], at: usize, word: &[u8], version: Version) -> usize
    requires { at + length word.now + 42 ≤ length bytes.old }
    ensures text { take result bytes.new
        ≡ take at bytes.old ++ spaced (word.now ∷ version_text version ∷ []) }
    ensures end { result ≤ at + length word.now + 42 }
    ensures formed { IsTrue (is_version version) }
{
    let after_word = put_word(bytes, at, word);
    let of_version = put_byte(bytes, after_word, b' ');
    put_version(bytes, of_version, version)
}

/// Writes a word, a space and an entry.
#[inline(always)]
pub(crate) fn put_entered(bytes: &mut [u8], at: usize, word: &[u8], entry: &Entry) -> usize
    requires { at + length word.now + entry_room entry.now + 155 ≤ length bytes.old }
    ensures text { take result bytes.new
        ≡ take at bytes.old ++ spaced (word.now ∷ entry_words entry.now) }
    ensures end { result ≤ at + length word.now + entry_room entry.now + 155 }
    ensures formed { IsTrue (is_entry entry.now) }
{
    let after_word = put_word(bytes, at, word);
    let of_entry = put_byte(bytes, after_word, b' ');
    put_entry(bytes, of_entry, entry)
}

/// Writes an acknowledgement.
pub(crate) fn put_ack(bytes: &mut [u8], at: usize, dc: u64, version: Version) -> usize
    requires { at + 165 ≤ length bytes.old }
    ensures text { take result bytes.new
        ≡ take at bytes.old ++ spaced (call_words (Ack dc version)) }
    ensures end { result ≤ at + 165 }
    ensures formed { IsTrue (is_call (Ack dc version)) }
{
    let after_dc = put_numbered(bytes, at, b"ack", dc);
    let of_version = put_byte(bytes, after_dc, b' ');
    put_version(bytes, of_version, version)
}
