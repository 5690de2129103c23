ghost use Rattle.std.specs.Prelude.{◌≡◌, ℕ, Bool, true, false, length, nat_lt};
ghost use Rattle.std.specs.List.{list_any};
ghost use Rattle.cops_types.specs.Key.{key_eq};
ghost use Rattle.cops_model.specs.Session.{has_repeats};

use cops_model::ByteSlices;
use cops_types::Key;

/// Returns `true` if the key is among these.
fn is_among(keys: &[Key], key: &Key) -> bool
    ensures { result ≡ list_any (key_eq key.now) keys.now }
{
    keys.iter().any(|other| key == other)
}

/// Returns `true` if a key occurs twice.
pub(crate) fn has_repeats(keys: &[Key]) -> bool
    ensures { result ≡ has_repeats keys.now }
{
    for place in 0..keys.len() {
        if is_among(&keys[place + 1..], &keys[place]) {
            return true;
        }
    }
    false
}

/// Returns `true` if there are more keys than a transaction may have.
pub(crate) fn are_too_many(keys: &ByteSlices) -> bool
    ensures { result ≡ nat_lt 32 (length keys.now) }
{
    let mut left = keys.again();
    for _place in 0..32u64 {
        if left.next_slice().is_none() {
            return false;
        }
    }
    !left.is_empty()
}

/// Returns `true` if the key is among these.
fn has_key(keys: &ByteSlices, key: &[u8]) -> bool
    ensures { result ≡ list_any (key_eq key.now) keys.now }
{
    let mut left = keys.again();
    while let Some(other) = left.next_slice() {
        if key == other {
            return true;
        }
    }
    false
}

/// Returns `true` if a key occurs twice.
pub(crate) fn are_repeated(keys: &ByteSlices) -> bool
    ensures { result ≡ has_repeats keys.now }
{
    let mut left = keys.again();
    while let Some(key) = left.next_slice() {
        if has_key(&left, key) {
            return true;
        }
    }
    false
}
