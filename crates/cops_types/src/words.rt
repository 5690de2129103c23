//! The words of a line, and the numbers that they write.
ghost use Rattle.std.specs.Prelude.{◌≡◌, ◌+◌, ◌-◌, ◌*◌, ◌^◌, ◌<◌, ◌≤◌, [], ◌∷◌, ◌++◌, ◌&&◌, ◌==◌, ℕ, List, nat_lt, length, take, slice_index, decimal, false, IsTrue, MatchOption, IfSome, IfNone};
ghost use Rattle.std.specs.Char.{is_ascii_digit};
ghost use Rattle.std.specs.Option.{option_map_or};
ghost use Rattle.std.specs.Str.Parse.{AllDigits, digits_value};
ghost use Rattle.memchr.specs.Find.{IsFirstByte, is_byte};
ghost use Rattle.cops_types.specs.Words.{IsUnspaced, first_word, is_u64, no_words, number_of, parts_at, space};

use std::marker::Model;

/// The most bytes that are compared one by one.
const FEW: usize = 8;

/// A number of this many digits is below 2 to the 64, whatever they are.
const SURE_DIGITS: usize = 19;

/// The remaining words of a line, between single spaces. Contracts see the list.
#[derive(Debug, Drop)]
pub struct Words<'a> {
    rest: Option<&'a [u8]>,
}

impl<'a> Model for Words<'a> {
    ghost use Rattle.std.specs.Prelude.{List, ℕ, []};
    ghost use Rattle.std.specs.Option.{option_map_or};
    ghost use Rattle.cops_types.specs.Words.{parts_at, space};

    ghost Value = { List (List ℕ) };

    ghost view = { λ w. option_map_or (λ rest. parts_at space rest.now) w.rest [] };
}

/// Returns the bytes before the first space, and those after it if there is one.
pub fn split_word(bytes: &[u8]) -> (&[u8], Option<&[u8]>)
    ensures word { result.0.now ≡ first_word bytes.now }
    ensures parts { parts_at space bytes.now
        ≡ result.0.now ∷ option_map_or (λ rest. parts_at space rest.now) result.1 [] }
{
    match split_at_space(bytes) {
        Some((word, rest)) => (word, Some(rest)),
        None => (bytes, None),
    }
}

/// Returns the index of the first space. Most words are short, so a few bytes are compared one by
/// one before the others are searched many at a time.
fn place_of_space(bytes: &[u8]) -> Option<usize>
    ensures { IsFirstByte (is_byte space) bytes.now result }
{
    let few = bytes.len().min(FEW);
    let mut at = 0;
    while at < few {
        if bytes[at] == b' ' {
            return Some(at);
        }
        at += 1;
    }
    if few == bytes.len() {
        return None;
    }
    let more = memchr::memchr(b' ', &bytes[few..])?;
    Some(few + more)
}

/// Returns the bytes before the first space, and those after it.
pub fn split_at_space(bytes: &[u8]) -> Option<(&[u8], &[u8])>
    ensures some { IfSome result
        (λ parts. IsUnspaced parts.0.now × (bytes.now ≡ parts.0.now ++ 32 ∷ parts.1.now)) }
    ensures none { IfNone result (IsUnspaced bytes.now) }
{
    let at = place_of_space(bytes)?;
    Some((&bytes[..at], &bytes[at + 1..]))
}

/// Returns the bytes after the space at a place, if there is one.
#[inline(always)]
pub(crate) fn behind_space(bytes: &[u8], at: usize) -> Option<&[u8]>
    requires { at ≤ length bytes.now }
    ensures some { IfSome result (λ rest. bytes.now ≡ take at bytes.now ++ 32 ∷ rest.now) }
    ensures none { IfNone result
        ((word rest : List ℕ) → length word ≡ at → bytes.now ≡ word ++ 32 ∷ rest → ⊥) }
{
    if at == bytes.len() {
        return None;
    }
    if bytes[at] != b' ' {
        return None;
    }
    Some(&bytes[at + 1..])
}

/// Returns `true` if the bytes are the same. For words of few bytes, which are compared one by one.
#[inline(always)]
pub(crate) fn are_same(bytes: &[u8], others: &[u8]) -> bool
    ensures same { IsTrue result → bytes.now ≡ others.now }
    ensures apart { bytes.now ≡ others.now → IsTrue result }
{
    if bytes.len() != others.len() {
        return false;
    }
    for at in 0..bytes.len() {
        if bytes[at] != others[at] {
            return false;
        }
    }
    true
}

/// Returns the bytes after this word and a space, if the bytes begin with them.
#[inline(always)]
pub fn behind_word<'a>(bytes: &'a [u8], word: &[u8]) -> Option<&'a [u8]>
    ensures some { IfSome result (λ rest. bytes.now ≡ word.now ++ 32 ∷ rest.now) }
    ensures none { IfNone result ((rest : List ℕ) → bytes.now ≡ word.now ++ 32 ∷ rest → ⊥) }
{
    if bytes.len() < word.len() {
        return None;
    }
    let rest = behind_space(bytes, word.len())?;
    for at in 0..word.len() {
        if bytes[at] != word[at] {
            return None;
        }
    }
    Some(rest)
}

/// Returns the number that the digits at the start write, and how many digits there are. Stops
/// before the number could reach 2 to the 64.
#[inline(always)]
fn digits_at_front(bytes: &[u8]) -> (u64, usize)
    ensures within { result.1 ≤ length bytes.now }
    ensures few { result.1 ≤ 19 }
    ensures small { result.0 < 2 ^ 64 }
    ensures digits { AllDigits 10 (take result.1 bytes.now) }
    ensures value { result.0 ≡ digits_value 10 (take result.1 bytes.now) }
    ensures ends { result.1 < 19 → result.1 < length bytes.now →
        is_ascii_digit (slice_index bytes.now result.1) ≡ false }
{
    let most = bytes.len().min(SURE_DIGITS);
    let mut value = 0;
    for at in 0..most {
        let byte = bytes[at];
        if !byte.is_ascii_digit() {
            return (value, at);
        }
        value = value * 10 + u64::from(byte - b'0');
    }
    (value, most)
}

/// Returns the number at the start, up to a space, and the bytes after the space.
#[inline(always)]
pub fn number_at_front(bytes: &[u8]) -> Option<(u64, &[u8])>
    ensures some { IfSome result
        (λ parts. IsTrue (is_u64 parts.0) × (bytes.now ≡ decimal parts.0 ++ 32 ∷ parts.1.now)) }
    ensures none { IfNone result
        ((n : ℕ) (rest : List ℕ) → IsTrue (is_u64 n) → bytes.now ≡ decimal n ++ 32 ∷ rest → ⊥) }
{
    let (value, len) = digits_at_front(bytes);
    if len == SURE_DIGITS {
        return long_number_at_front(bytes);
    }
    if len == 0 {
        return None;
    }
    if has_leading_zero(&bytes[..len]) {
        return None;
    }
    let rest = behind_space(bytes, len)?;
    Some((value, rest))
}

/// Does the same for any number.
#[inline(never)]
fn long_number_at_front(bytes: &[u8]) -> Option<(u64, &[u8])>
    ensures some { IfSome result
        (λ parts. IsTrue (is_u64 parts.0) × (bytes.now ≡ decimal parts.0 ++ 32 ∷ parts.1.now)) }
    ensures none { IfNone result
        ((n : ℕ) (rest : List ℕ) → IsTrue (is_u64 n) → bytes.now ≡ decimal n ++ 32 ∷ rest → ⊥) }
{
    let (word, rest) = split_at_space(bytes)?;
    let number = parse_number(word)?;
    Some((number, rest))
}

impl<'a> Words<'a> {
    /// Returns the words of a line.
    pub fn of(line: &'a [u8]) -> Self
        ensures { result ≡ parts_at space line.now }
    {
        Words { rest: Some(line) }
    }

    /// Removes and returns the next word. Between two adjacent spaces it is empty.
    pub fn next_word(&mut self) -> Option<&'a [u8]>
        ensures { MatchOption result ((self.old ≡ []) × (self.new ≡ []))
            (λ word. self.old ≡ word.now ∷ self.new) }
    {
        let (word, rest) = split_word(self.rest?);
        self.rest = rest;
        Some(word)
    }

    /// Returns the text of the remaining words, if there are any.
    pub fn rest(&self) -> Option<&'a [u8]>
        ensures some { IfSome result (λ text. self.now ≡ parts_at space text.now) }
        ensures none { IfNone result (self.now ≡ []) }
    {
        self.rest
    }

    /// Returns `true` if no word remains.
    pub fn is_empty(&self) -> bool
        ensures { result ≡ no_words self.now }
    {
        self.rest.is_none()
    }
}

/// Returns the number that decimal digits write, if it is below 2 to the 64.
fn value_of(word: &[u8]) -> Option<u64>
    ensures some { IfSome result
        (λ n. (n < 2 ^ 64) × AllDigits 10 word.now × (n ≡ digits_value 10 word.now)) }
    ensures none { IfNone result (AllDigits 10 word.now → 2 ^ 64 ≤ digits_value 10 word.now) }
{
    if word.len() > SURE_DIGITS {
        return value_of_many(word);
    }
    let mut value = 0;
    for byte in word {
        if !byte.is_ascii_digit() {
            return None;
        }
        value = value * 10 + u64::from(*byte - b'0');
    }
    Some(value)
}

/// Does the same for more digits, which may write a greater number.
#[inline(never)]
fn value_of_many(word: &[u8]) -> Option<u64>
    ensures some { IfSome result
        (λ n. (n < 2 ^ 64) × AllDigits 10 word.now × (n ≡ digits_value 10 word.now)) }
    ensures none { IfNone result (AllDigits 10 word.now → 2 ^ 64 ≤ digits_value 10 word.now) }
{
    let mut value = 0;
    for byte in word {
        value = with_digit(value, *byte)?;
    }
    Some(value)
}

/// Returns the number with one more digit at its end, if it is below 2 to the 64.
fn with_digit(value: u64, byte: u8) -> Option<u64>
    ensures some { IfSome result
        (λ n. (48 ≤ byte) × (byte ≤ 57) × (n ≡ value * 10 + (byte - 48)) × (n < 2 ^ 64)) }
    ensures none { IfNone result (48 ≤ byte → byte ≤ 57 → 2 ^ 64 ≤ value * 10 + (byte - 48)) }
{
    if !byte.is_ascii_digit() {
        return None;
    }
    value.checked_mul(10)?.checked_add(u64::from(byte - b'0'))
}

/// Returns the number that the word writes: decimal, without a leading zero, and below 2 to the 64.
pub fn parse_number(word: &[u8]) -> Option<u64>
    ensures { result ≡ number_of word.now }
{
    if word.is_empty() {
        return None;
    }
    if has_leading_zero(word) {
        return None;
    }
    value_of(word)
}

/// Returns `true` if more follows a leading zero.
fn has_leading_zero(word: &[u8]) -> bool
    ensures { result ≡ (nat_lt 1 (length word.now) && (slice_index word.now 0 == 48)) }
{
    word.len() > 1 && word[0] == b'0'
}
