//! Serializes the answers of requests as frames.
ghost use Rattle.std.specs.Prelude.{◌≡◌, ◌≤◌, ◌+◌, [], ◌∷◌, ◌++◌, length, map, take, true, IfOk, MatchBool, OnOk, OnErr};
ghost use Rattle.std.specs.Bool.{OnTrue};
ghost use Rattle.std.specs.List.{AllByRecursion, flat_map};
ghost use Rattle.byteorder.specs.Endian.{big_bytes};
ghost use Rattle.cops_types.specs.Pairs.{IsDeps};
ghost use Rattle.cops_types.specs.Words.{StartsWith};
ghost use Rattle.cops_wire.specs.Limits.{IsHeldOrTyped, IsShort, IsTyped};
ghost use Rattle.cops_wire.specs.Requests.{are_counted, is_counted, is_one_frame, link_to, message_of_answer, outcome_of_read, values_of};
ghost use Rattle.cops_wire.specs.Spelling.{body_of, link_of, outcome_of, spelled_key, spelled_value, spelled_version, spelling};
ghost use Rattle.cops_wire.specs.declared.messages.Message.{Message};

use crate::first_frames::LONGEST_BODY;
use crate::placed::{put_key, put_number_16, put_number_32, put_value, put_version};
use crate::writing::{
    push_key, push_number_8, push_number_16, push_refusal, push_value, push_version,
};
use byteorder::{BigEndian, ByteOrder};
use cops_session::Answer;
use cops_types::placed::put_byte;
use cops_types::{Fault, Key, OwnedDeps, Pair, Read, ShortPair, Version};
use std::alloc::AllocError;

/// The most bytes of a pair: a key's length, the key and a version.
const LONGEST_PAIR: usize = 73;

/// The most bytes of a pair with a short key.
const LONGEST_SHORT_PAIR: usize = 24;

/// The most bytes of a value that is written together with its key and version.
const SHORT_VALUE: usize = 114;

/// The most bytes of a key with a short value, its version and its number of dependencies.
const SHORT_HELD: usize = 192;

/// Returns a key's bytes, which one byte can count.
fn key_bytes(key: &Key) -> &[u8]
    ensures value { result.now ≡ key.now }
    ensures counted { length result.now ≤ 64 }
{
    key.bytes()
}

/// Writes a pair at an offset with room for it.
#[inline(always)]
fn put_pair(bytes: &mut [u8], at: usize, pair: &Pair) -> usize
    requires { at + LONGEST_PAIR ≤ length bytes.old }
    ensures text { take result bytes.new ≡ take at bytes.old ++ link_of (link_to pair.now) }
    ensures end { result ≤ at + LONGEST_PAIR }
{
    let of_version = put_key(bytes, at, key_bytes(&pair.key));
    put_version(bytes, of_version, pair.version)
}

/// Appends a pair. On `Err` nothing is appended.
#[inline(always)]
fn push_pair(out: &mut Vec<u8>, pair: &Pair) -> Result<(), AllocError>
    ensures ok { OnOk result (out.new.items ≡ out.old.items ++ link_of (link_to pair.now)) }
    ensures front { StartsWith out.new.items out.old.items }
{
    let start = out.len();
    out.extend_from_slice(&[0; LONGEST_PAIR])?;
    let end = put_pair(out.as_mut_slice(), start, pair);
    out.truncate(end);
    Ok(())
}

/// Writes a pair with a short key at an offset with room for it.
#[inline(always)]
fn put_short_pair(bytes: &mut [u8], at: usize, pair: &ShortPair) -> usize
    requires { at + LONGEST_SHORT_PAIR ≤ length bytes.old }
    ensures text { take result bytes.new ≡ take at bytes.old ++ link_of (link_to pair.now) }
    ensures end { result ≤ at + LONGEST_SHORT_PAIR }
{
    let of_key = put_byte(bytes, at, pair.key_len());
    let of_version = pair.put_key(bytes, of_key);
    put_version(bytes, of_version, pair.version())
}

/// Appends a pair with a short key. On `Err` nothing is appended.
#[inline(always)]
fn push_short_pair(out: &mut Vec<u8>, pair: &ShortPair) -> Result<(), AllocError>
    ensures ok { OnOk result (out.new.items ≡ out.old.items ++ link_of (link_to pair.now)) }
    ensures front { StartsWith out.new.items out.old.items }
{
    let start = out.len();
    out.extend_from_slice(&[0; LONGEST_SHORT_PAIR])?;
    let end = put_short_pair(out.as_mut_slice(), start, pair);
    out.truncate(end);
    Ok(())
}

/// Appends pairs with short keys. On `Err` a prefix of them may be there.
fn push_short_pairs(out: &mut Vec<u8>, pairs: &[ShortPair]) -> Result<(), AllocError>
    ensures ok { OnOk result (out.new.items ≡ out.old.items
        ++ flat_map link_of (map link_to pairs.now)) }
    ensures front { StartsWith out.new.items out.old.items }
{
    for pair in pairs {
        push_short_pair(out, pair)?;
    }
    Ok(())
}

/// Appends dependencies of any kind. On `Err` a prefix of them may be there.
#[inline(never)]
fn push_any_pairs(out: &mut Vec<u8>, deps: &OwnedDeps) -> Result<(), AllocError>
    ensures ok { OnOk result (out.new.items ≡ out.old.items
        ++ flat_map link_of (map link_to deps.now)) }
    ensures front { StartsWith out.new.items out.old.items }
{
    for place in 0..deps.len() {
        push_pair(out, &deps.pair(place))?;
    }
    Ok(())
}

/// Appends the dependencies. On `Err` a prefix of them may be there.
fn push_pairs(out: &mut Vec<u8>, deps: &OwnedDeps) -> Result<(), AllocError>
    ensures ok { OnOk result (out.new.items ≡ out.old.items
        ++ flat_map link_of (map link_to deps.now)) }
    ensures front { StartsWith out.new.items out.old.items }
{
    match deps.short() {
        Some(pairs) => push_short_pairs(out, pairs),
        None => push_any_pairs(out, deps),
    }
}

/// Writes a key, its value and version, and the number of dependencies, if there is room for a short value.
#[inline(always)]
fn put_held(
    bytes: &mut [u8],
    at: usize,
    key: &[u8],
    value: &[u8],
    version: Version,
    deps: u16,
) -> usize
    requires key { length key.now ≤ 64 }
    requires value { length value.now ≤ SHORT_VALUE }
    requires room { at + SHORT_HELD ≤ length bytes.old }
    ensures text { take result bytes.new ≡ take at bytes.old
        ++ (spelled_key key.now
        ++ (1 ∷ (spelled_value value.now ++ (spelled_version version ++ big_bytes 2 deps)))) }
    ensures end { result ≤ at + SHORT_HELD }
{
    let of_held = put_key(bytes, at, key);
    let of_value = put_byte(bytes, of_held, 1);
    let of_version = put_value(bytes, of_value, value);
    let of_deps = put_version(bytes, of_version, version);
    put_number_16(bytes, of_deps, deps)
}

/// Appends a key, its value and version, and the number of dependencies. Reserves once. On `Err` nothing is appended.
#[inline(always)]
fn push_short_held(
    out: &mut Vec<u8>,
    key: &[u8],
    value: &[u8],
    version: Version,
    deps: u16,
) -> Result<(), AllocError>
    requires key { length key.now ≤ 64 }
    requires value { length value.now ≤ SHORT_VALUE }
    ensures ok { OnOk result (out.new.items ≡ out.old.items
        ++ (spelled_key key.now
        ++ (1 ∷ (spelled_value value.now ++ (spelled_version version ++ big_bytes 2 deps))))) }
    ensures front { StartsWith out.new.items out.old.items }
{
    let start = out.len();
    out.extend_from_slice(&[0; SHORT_HELD])?;
    let end = put_held(out.as_mut_slice(), start, key, value, version, deps);
    out.truncate(end);
    Ok(())
}

/// Appends a value, its version and the number of dependencies. On `Err` a prefix of that may be there.
fn push_valued(
    out: &mut Vec<u8>,
    value: &[u8],
    version: Version,
    deps: u16,
) -> Result<(), AllocError>
    requires { length value.now ≤ 65535 }
    ensures ok { OnOk result (out.new.items ≡ out.old.items
        ++ (spelled_value value.now ++ (spelled_version version ++ big_bytes 2 deps))) }
    ensures front { StartsWith out.new.items out.old.items }
{
    push_value(out, value)?;
    push_version(out, version)?;
    push_number_16(out, deps)
}

/// Appends the same as `push_held`, part by part.
#[inline(never)]
fn push_long_held(
    out: &mut Vec<u8>,
    key: &[u8],
    value: &[u8],
    version: Version,
    deps: u16,
) -> Result<(), AllocError>
    requires key { length key.now ≤ 64 }
    requires value { length value.now ≤ 65535 }
    ensures ok { OnOk result (out.new.items ≡ out.old.items
        ++ (spelled_key key.now
        ++ (1 ∷ (spelled_value value.now ++ (spelled_version version ++ big_bytes 2 deps))))) }
    ensures front { StartsWith out.new.items out.old.items }
{
    push_key(out, key)?;
    push_number_8(out, 1)?;
    push_valued(out, value, version, deps)
}

/// Appends a key, its value and version, and the number of dependencies.
///
/// On `Err` a prefix of that may be there.
#[inline(always)]
fn push_held(
    out: &mut Vec<u8>,
    key: &[u8],
    value: &[u8],
    version: Version,
    deps: u16,
) -> Result<(), AllocError>
    requires key { length key.now ≤ 64 }
    requires value { length value.now ≤ 65535 }
    ensures ok { OnOk result (out.new.items ≡ out.old.items
        ++ (spelled_key key.now
        ++ (1 ∷ (spelled_value value.now ++ (spelled_version version ++ big_bytes 2 deps))))) }
    ensures front { StartsWith out.new.items out.old.items }
{
    if value.len() <= SHORT_VALUE {
        return push_short_held(out, key, value, version, deps);
    }
    push_long_held(out, key, value, version, deps)
}

/// Appends a key without a value. On `Err` a prefix of that may be there.
fn push_absent(out: &mut Vec<u8>, key: &[u8]) -> Result<(), AllocError>
    requires { length key.now ≤ 64 }
    ensures ok { OnOk result (out.new.items ≡ out.old.items ++ (spelled_key key.now ++ (0 ∷ []))) }
    ensures front { StartsWith out.new.items out.old.items }
{
    push_key(out, key)?;
    push_number_8(out, 0)
}

#[tactic(auto, using(crate::proofs::ReplyLemmas::replies))]
fn push_read(out: &mut Vec<u8>, read: &Read) -> Result<(), AllocError>
    requires { is_counted read.now ≡ true }
    ensures ok { OnOk result (out.new.items ≡ out.old.items
        ++ outcome_of (outcome_of_read read.now)) }
    ensures front { StartsWith out.new.items out.old.items }
{
    let key = key_bytes(read.key());
    match read.found() {
        None => push_absent(out, key),
        Some(found) => {
            let value = found.value();
            let deps = found.deps();
            push_held(out, key, value.bytes(), found.version(), deps.len() as u16)?;
            push_pairs(out, deps)
        }
    }
}

/// Returns `true` if two bytes can count the value's bytes and the dependencies.
fn can_be_counted(read: &Read) -> bool
    ensures { result ≡ is_counted read.now }
{
    match read.found() {
        None => true,
        Some(found) => found.value().len() <= 65535 && found.deps().len() <= 65535,
    }
}

/// Appends the reads as the body of a message, or finds that one of their counts can't be written.
///
/// A prefix of them may be there if it finds so, and on `Err`.
fn push_reads(out: &mut Vec<u8>, reads: &[Read]) -> Result<bool, AllocError>
    ensures ok { IfOk result (λ counted. (counted ≡ are_counted reads.now)
        × OnTrue counted (out.new.items ≡ out.old.items ++ body_of (values_of reads.now))) }
    ensures front { StartsWith out.new.items out.old.items }
{
    if reads.len() > 255 {
        return Ok(false);
    }
    push_number_8(out, 0x85)?;
    push_number_8(out, reads.len() as u8)?;
    for read in reads {
        if !can_be_counted(read) {
            return Ok(false);
        }
        push_read(out, read)?;
    }
    Ok(true)
}

/// Appends a frame with the reads, if one can hold them. Otherwise, and on `Err`, a prefix of it may be there.
fn push_values(out: &mut Vec<u8>, reads: &[Read]) -> Result<bool, AllocError>
    ensures held { IfOk result (λ held. held ≡ is_one_frame reads.now) }
    ensures ok { IfOk result (λ held. MatchBool held
        (out.new.items ≡ out.old.items ++ spelling (values_of reads.now))
        (StartsWith out.new.items out.old.items)) }
    ensures front { OnErr result (StartsWith out.new.items out.old.items) }
{
    let start = out.len();
    out.extend_from_slice(&[0; 4])?;
    if !push_reads(out, reads)? {
        return Ok(false);
    }
    let len = out.len() - start - 4;
    if len > LONGEST_BODY {
        return Ok(false);
    }
    BigEndian::write_u32(&mut out[start..], len as u32);
    Ok(true)
}

/// Writes a frame with a stored pair at an offset with room for it.
#[inline(always)]
fn put_stored(bytes: &mut [u8], at: usize, pair: &Pair) -> usize
    requires { at + 5 + LONGEST_PAIR ≤ length bytes.old }
    ensures text { take result bytes.new ≡ take at bytes.old
        ++ spelling (Message.Stored pair.now.key pair.now.version) }
    ensures end { result ≤ at + 5 + LONGEST_PAIR }
{
    let len = (10 + key_bytes(&pair.key).len()) as u32;
    let of_tag = put_number_32(bytes, at, len);
    let of_pair = put_byte(bytes, of_tag, 0x84);
    put_pair(bytes, of_pair, pair)
}

/// Appends a frame with a stored pair. On `Err` nothing is appended.
fn push_stored(out: &mut Vec<u8>, pair: &Pair) -> Result<(), AllocError>
    ensures ok { OnOk result (out.new.items ≡ out.old.items
        ++ spelling (Message.Stored pair.now.key pair.now.version)) }
    ensures err { OnErr result (out.new.items ≡ out.old.items) }
{
    let start = out.len();
    out.extend_from_slice(&[0; 5 + LONGEST_PAIR])?;
    let end = put_stored(out.as_mut_slice(), start, pair);
    out.truncate(end);
    Ok(())
}

/// Reads the keys of dependencies, which are within the limit of their type.
fn see_pairs(deps: &OwnedDeps)
    ensures once { IsDeps deps.now }
    ensures short { AllByRecursion (λ pair. IsShort pair.key) deps.now }
{
    if deps.is_empty() {
        return;
    }
    for place in 0..deps.len() {
        key_bytes(&deps.pair(place).key);
    }
}

/// Reads the parts of a read, which are within the limits of their types.
fn see_read(read: &Read)
    ensures typed { IsTyped read.now }
{
    key_bytes(read.key());
    if let Some(found) = read.found() {
        found.value().bytes();
        see_pairs(found.deps());
    }
}

/// Reads the reads of a reply that was not written. Their types show that it is not too long if
/// their context took them.
#[cold]
fn see_reads(reads: &[Read])
    ensures typed { AllByRecursion IsTyped reads.now }
{
    for read in reads {
        see_read(read);
    }
}

/// Appends the reply with an answer. On `Err` nothing is appended.
pub(crate) fn push_reply(out: &mut Vec<u8>, answer: &Answer) -> Result<(), AllocError>
    ensures ok { OnOk result (out.new.items ≡ out.old.items
        ++ spelling (message_of_answer answer.now)) }
    ensures err { OnErr result (out.new.items ≡ out.old.items) }
    ensures typed { IsHeldOrTyped answer.now }
{
    match answer {
        Answer::Stored(pair) => push_stored(out, pair),
        Answer::Values(reads) => {
            let len = out.len();
            match push_values(out, reads.as_slice()) {
                Ok(true) => Ok(()),
                Ok(false) => {
                    out.truncate(len);
                    see_reads(reads.as_slice());
                    push_refusal(out, Fault::DependenciesFull)
                }
                Err(error) => {
                    out.truncate(len);
                    see_reads(reads.as_slice());
                    Err(error)
                }
            }
        }
        Answer::Refused(fault) => push_refusal(out, *fault),
    }
}
