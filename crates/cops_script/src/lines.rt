//! The acts that the lines of a tenant write.
ghost use Rattle.std.specs.Prelude.{◌≡◌, ◌≤◌, ◌&&◌, ◌+◌, [], ◌∷◌, ℕ, List, drop, length, IsTrue, IfSome, IfNone, decimal};
ghost use Rattle.std.specs.List.{list_all};
ghost use Rattle.std.specs.Option.{option_and_then, option_map_or};
ghost use Rattle.cops_types.specs.HeadLines.{is_between};
ghost use Rattle.cops_types.specs.Key.{is_name};
ghost use Rattle.cops_types.specs.Words.{first_word, is_u64, is_word, parts_at, space};
ghost use Rattle.cops_model.specs.declared.acts.Act.TheVariants.{Open, Delete, Show, Step, Done};
ghost use Rattle.cops_script.specs.ActLines.{act_in, act_of_words, carry_of, collect_of, create_of, get_of, named_of, put_of};
ghost use Rattle.cops_script.specs.ActWords.{keys_of, with_line};

use cops_model::{Act, ByteSlice, ByteSlices};
use cops_types::Name;
use cops_types::words::{behind_word, number_at_front, parse_number, split_at_space, split_word};

/// The most bytes of a line that may be an act.
const LONGEST_LINE: usize = 8192;

/// Returns the act that a line writes, if it writes one. Its first word is the tenant's name.
#[inline(always)]
pub fn parse_act(line: &[u8]) -> Option<Act>
    ensures { result ≡ act_in (first_word line.now) line.now }
{
    let (_tenant, rest) = split_word(line);
    act_behind(line, rest)
}

/// Does the same for a line that is split after its first word.
#[inline(always)]
pub(crate) fn act_behind<'a>(line: &[u8], rest: Option<&'a [u8]>) -> Option<Act<'a>>
    requires { parts_at space line.now
        ≡ first_word line.now ∷ option_map_or (λ rest. parts_at space rest.now) rest [] }
    ensures { result ≡ act_in (first_word line.now) line.now }
{
    let words = words_of_act(line, rest)?;
    read_act(words)
}

/// Returns the words after the first one, if there are any and the line is short enough for an act.
#[inline(always)]
pub(crate) fn words_of_act<'a>(line: &[u8], rest: Option<&'a [u8]>) -> Option<&'a [u8]>
    requires { parts_at space line.now
        ≡ first_word line.now ∷ option_map_or (λ rest. parts_at space rest.now) rest [] }
    ensures some { IfSome result
        (λ words. option_and_then with_line (act_of_words ([] ∷ parts_at space words.now))
        ≡ act_in (first_word line.now) line.now) }
    ensures none { IfNone result (act_in (first_word line.now) line.now ≡ None) }
{
    if line.len() > LONGEST_LINE {
        return None;
    }
    let words = rest?;
    Some(words)
}

/// Returns the act of the words after the tenant's name. The verbs of most lines come first. Each
/// verb has words after it, and so a space.
pub(crate) fn read_act(words: &[u8]) -> Option<Act>
    ensures { result ≡ option_and_then with_line (act_of_words ([] ∷ parts_at space words.now)) }
{
    if let Some(rest) = behind_word(words, b"put".as_slice()) {
        return read_put(rest);
    }
    if let Some(rest) = behind_word(words, b"get".as_slice()) {
        return read_get(rest);
    }
    if let Some(rest) = behind_word(words, b"step".as_slice()) {
        return read_step(rest);
    }
    if let Some(rest) = behind_word(words, b"done".as_slice()) {
        return read_done(rest);
    }
    if let Some(rest) = behind_word(words, b"open".as_slice()) {
        return read_open(rest);
    }
    if let Some(rest) = behind_word(words, b"ctx".as_slice()) {
        return read_create(rest);
    }
    if let Some(rest) = behind_word(words, b"drop".as_slice()) {
        return read_delete(rest);
    }
    if let Some(rest) = behind_word(words, b"show".as_slice()) {
        return read_show(rest);
    }
    if let Some(rest) = behind_word(words, b"carry".as_slice()) {
        return read_carry(rest);
    }
    if let Some(rest) = behind_word(words, b"collect".as_slice()) {
        return read_collect(rest);
    }
    None
}

/// Reads a session's name and a data centre.
fn read_open(words: &[u8]) -> Option<Act>
    ensures { result ≡ option_and_then with_line (named_of Open (parts_at space words.now)) }
{
    let (name, dc) = last_name_and_number(words)?;
    Some(Act::Open(name, dc))
}

/// Reads a session's name.
fn read_create(words: &[u8]) -> Option<Act>
    ensures { result ≡ option_and_then with_line (create_of (parts_at space words.now)) }
{
    let name = last_name(words)?;
    Some(Act::Create(name))
}

/// Reads a session's name and a context.
fn read_delete(words: &[u8]) -> Option<Act>
    ensures { result ≡ option_and_then with_line (named_of Delete (parts_at space words.now)) }
{
    let (name, context) = last_name_and_number(words)?;
    Some(Act::Delete(name, context))
}

/// Reads a session's name, a context, a key and a value.
fn read_put(words: &[u8]) -> Option<Act>
    ensures { result ≡ option_and_then with_line (put_of (parts_at space words.now)) }
{
    let name = next_name(words)?;
    let rest = behind_name(words, &name);
    let (context, rest) = next_number(rest)?;
    let (key, value) = last_key_and_value(rest)?;
    let key = ByteSlice::of(key);
    let value = ByteSlice::of(value);
    Some(Act::Put(name, context, key, value))
}

/// Reads a session's name, a context, and at least one key.
fn read_get(words: &[u8]) -> Option<Act>
    ensures { result ≡ option_and_then with_line (get_of (parts_at space words.now)) }
{
    let name = next_name(words)?;
    let rest = behind_name(words, &name);
    let (context, rest) = next_number(rest)?;
    let keys = last_keys(rest)?;
    Some(Act::Get(name, context, keys))
}

/// Reads a session's name and a context.
fn read_show(words: &[u8]) -> Option<Act>
    ensures { result ≡ option_and_then with_line (named_of Show (parts_at space words.now)) }
{
    let (name, context) = last_name_and_number(words)?;
    Some(Act::Show(name, context))
}

/// Reads a carrier's name, the data centre and shard of a stream, and its destination.
fn read_carry(words: &[u8]) -> Option<Act>
    ensures { result ≡ option_and_then with_line (carry_of (parts_at space words.now)) }
{
    let name = next_name(words)?;
    let rest = behind_name(words, &name);
    let (dc, shard, to_dc) = last_three_numbers(rest)?;
    Some(Act::Carry(name, dc, shard, to_dc))
}

/// Reads an actor's name and a timestamp.
fn read_step(words: &[u8]) -> Option<Act>
    ensures { result ≡ option_and_then with_line (named_of Step (parts_at space words.now)) }
{
    let (name, moment) = last_name_and_number(words)?;
    Some(Act::Step(name, moment))
}

/// Reads an actor's name and a timestamp.
fn read_done(words: &[u8]) -> Option<Act>
    ensures { result ≡ option_and_then with_line (named_of Done (parts_at space words.now)) }
{
    let (name, moment) = last_name_and_number(words)?;
    Some(Act::Done(name, moment))
}

/// Reads a data centre, a shard and a timestamp.
fn read_collect(words: &[u8]) -> Option<Act>
    ensures { result ≡ option_and_then with_line (collect_of (parts_at space words.now)) }
{
    let (dc, shard, moment) = last_three_numbers(words)?;
    Some(Act::Collect(dc, shard, moment))
}

/// Returns the next word, if it is a name and more words follow.
#[inline(always)]
fn next_name(words: &[u8]) -> Option<Name>
    ensures some { IfSome result
        (λ name. IsTrue (is_name name) × (length name + 1 ≤ length words.now)
        × (parts_at space words.now ≡ name ∷ parts_at space (drop (length name + 1) words.now))) }
    ensures none { IfNone result ((name second : List ℕ) (rest : List (List ℕ)) →
        IsTrue (is_name name) → parts_at space words.now ≡ name ∷ second ∷ rest → ⊥) }
{
    let name = Name::at_front(words)?;
    Some(name)
}

/// Returns the words after the first, which is this name.
#[inline(always)]
fn behind_name<'a>(words: &'a [u8], name: &Name) -> &'a [u8]
    requires { length name.now + 1 ≤ length words.now }
    ensures { result.now ≡ drop (length name.now + 1) words.now }
{
    &words[name.len() + 1..]
}

/// Returns the next word's number and the words after it, if it writes a number and more words
/// follow.
#[inline(always)]
fn next_number(words: &[u8]) -> Option<(u64, &[u8])>
    ensures some { IfSome result (λ both. IsTrue (is_u64 both.0)
        × (parts_at space words.now ≡ decimal both.0 ∷ parts_at space both.1.now)) }
    ensures none { IfNone result ((n : ℕ) (second : List ℕ) (rest : List (List ℕ)) →
        IsTrue (is_u64 n) → parts_at space words.now ≡ decimal n ∷ second ∷ rest → ⊥) }
{
    let (number, rest) = number_at_front(words)?;
    Some((number, rest))
}

/// Returns the word, if it is a name and the last word.
fn last_name(words: &[u8]) -> Option<Name>
    ensures some { IfSome result
        (λ name. IsTrue (is_name name) × (parts_at space words.now ≡ name ∷ [])) }
    ensures none { IfNone result
        ((name : List ℕ) → IsTrue (is_name name) → parts_at space words.now ≡ name ∷ [] → ⊥) }
{
    let Ok(name) = Name::new(words) else {
        return None;
    };
    Some(name)
}

/// Returns the word's number, if it writes one and is the last word.
#[inline(always)]
fn last_number(words: &[u8]) -> Option<u64>
    ensures some { IfSome result
        (λ n. IsTrue (is_u64 n) × (parts_at space words.now ≡ decimal n ∷ [])) }
    ensures none { IfNone result
        ((n : ℕ) → IsTrue (is_u64 n) → parts_at space words.now ≡ decimal n ∷ [] → ⊥) }
{
    let number = parse_number(words)?;
    Some(number)
}

/// Returns the two words, if they are a name and a number, and the last words.
#[inline(always)]
fn last_name_and_number(words: &[u8]) -> Option<(Name, u64)>
    ensures some { IfSome result (λ both. IsTrue (is_name both.0) × IsTrue (is_u64 both.1)
        × (parts_at space words.now ≡ both.0 ∷ decimal both.1 ∷ [])) }
    ensures none { IfNone result ((name : List ℕ) (n : ℕ) → IsTrue (is_name name) →
        IsTrue (is_u64 n) → parts_at space words.now ≡ name ∷ decimal n ∷ [] → ⊥) }
{
    let name = next_name(words)?;
    let rest = behind_name(words, &name);
    let number = last_number(rest)?;
    Some((name, number))
}

/// Returns the three words, if they are numbers and the last words.
fn last_three_numbers(words: &[u8]) -> Option<(u64, u64, u64)>
    ensures some { IfSome result
        (λ all. IsTrue (is_u64 all.0) × IsTrue (is_u64 all.1) × IsTrue (is_u64 all.2)
        × (parts_at space words.now ≡ decimal all.0 ∷ decimal all.1 ∷ decimal all.2 ∷ [])) }
    ensures none { IfNone result ((n m k : ℕ) → IsTrue (is_u64 n) → IsTrue (is_u64 m) →
        IsTrue (is_u64 k) → parts_at space words.now ≡ decimal n ∷ decimal m ∷ decimal k ∷ [] → ⊥) }
{
    let (first, rest) = next_number(words)?;
    let (second, rest) = next_number(rest)?;
    let third = last_number(rest)?;
    Some((first, second, third))
}

/// Returns the two words, if they are a key and a value, and the last words. A value has no space,
/// so there is no search for one behind the key.
#[inline(always)]
fn last_key_and_value(words: &[u8]) -> Option<(&[u8], &[u8])>
    ensures some { IfSome result (λ both. IsTrue (is_word both.0.now)
        × IsTrue (is_word both.1.now && list_all (is_between 33 126) both.1.now)
        × (parts_at space words.now ≡ both.0.now ∷ both.1.now ∷ [])) }
    ensures none { IfNone result ((key value : List ℕ) → IsTrue (is_word key) →
        IsTrue (is_word value && list_all (is_between 33 126) value) →
        parts_at space words.now ≡ key ∷ value ∷ [] → ⊥) }
{
    let (key, value) = split_at_space(words)?;
    if key.is_empty() {
        return None;
    }
    if !is_value_word(value) {
        return None;
    }
    Some((key, value))
}

/// Returns `true` if a word is a value: at least one byte, all visible. It reads every byte, so
/// that many are read at a time.
fn is_value_word(word: &[u8]) -> bool
    ensures { result ≡ (is_word word.now && list_all (is_between 33 126) word.now) }
{
    let mut seen = true;
    for byte in word {
        seen &= 33 <= *byte && *byte <= 126;
    }
    seen && !word.is_empty()
}

/// Returns the words, if none is empty.
fn last_keys(words: &[u8]) -> Option<ByteSlices>
    ensures { result ≡ keys_of (parts_at space words.now) }
{
    let mut rest = ByteSlices::in_line(words);
    while let Some(word) = rest.next_slice() {
        if word.is_empty() {
            return None;
        }
    }
    Some(ByteSlices::in_line(words))
}
