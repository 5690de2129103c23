//! Texts of numbers, versions, pairs and faults, appended to a vector.
ghost use Rattle.std.specs.Prelude.{◌≡◌, ◌<◌, ◌+◌, ◌%◌, ◌++◌, length, drop, decimal, IsTrue, OnOk, OnErr};
ghost use Rattle.std.specs.List.{list_all};
ghost use Rattle.cops_types.specs.FaultText.{fault_text};
ghost use Rattle.cops_types.specs.PairForms.{are_deps, are_near, is_pair, is_version};
ghost use Rattle.cops_types.specs.Words.{StartsWith, list_text, more_text, pair_text, version_text};

use crate::deps::OwnedDeps;
use crate::faults::Fault;
use crate::near::OwnedNear;
use crate::packed::PackedPairs;
use crate::pairs::Pair;
use crate::versions::Version;
use std::alloc::AllocError;

/// Appends the decimal digits of a number. Fails with `AllocError` if memory runs out; then nothing
/// was appended.
///
/// Most numbers of a script have few digits: nodes, lengths of lists, first clocks. These are
/// written as one word.
pub fn push_number(out: &mut Vec<u8>, number: u64) -> Result<(), AllocError>
    ensures ok { OnOk result (out.new.items ≡ out.old.items ++ decimal number) }
    ensures err { OnErr result (out.new.items ≡ out.old.items) }
{
    if number < 10 {
        out.push(b'0' + number as u8)?;
        return Ok(());
    }
    if number < 100 {
        out.extend_from_slice(&[digit(number / 10), digit(number)])?;
        return Ok(());
    }
    if number < 1000 {
        out.extend_from_slice(&[digit(number / 100), digit(number / 10), digit(number)])?;
        return Ok(());
    }
    if number < 10_000 {
        out.extend_from_slice(&[
            digit(number / 1000),
            digit(number / 100),
            digit(number / 10),
            digit(number),
        ])?;
        return Ok(());
    }
    push_long(out, number)
}

/// Returns the last decimal digit of a number.
#[inline(always)]
fn digit(number: u64) -> u8
    ensures { result ≡ 48 + number % 10 }
{
    b'0' + (number % 10) as u8
}

/// Appends the decimal digits of any number. On `Err` nothing was appended.
#[inline(never)]
fn push_long(out: &mut Vec<u8>, number: u64) -> Result<(), AllocError>
    ensures ok { OnOk result (out.new.items ≡ out.old.items ++ decimal number) }
    ensures err { OnErr result (out.new.items ≡ out.old.items) }
{
    let mut buffer = itoa::Buffer::new();
    out.extend_from_slice(buffer.format(number).as_bytes())?;
    Ok(())
}

/// Appends the clock, a dot and the node. Fails with `AllocError` if memory runs out; then a prefix
/// may have been appended.
pub fn push_version(out: &mut Vec<u8>, version: Version) -> Result<(), AllocError>
    ensures ok { OnOk result (out.new.items ≡ out.old.items ++ version_text version) }
    ensures front { StartsWith out.new.items out.old.items }
    ensures formed { OnOk result (IsTrue (is_version version)) }
{
    push_number(out, version.clock())?;
    out.push(b'.')?;
    push_number(out, version.place() as u64)?;
    Ok(())
}

/// Appends the key, a colon and the version. Fails with `AllocError` if memory runs out; then a
/// prefix may have been appended.
pub fn push_pair(out: &mut Vec<u8>, pair: &Pair) -> Result<(), AllocError>
    ensures ok { OnOk result (out.new.items ≡ out.old.items ++ pair_text pair.now) }
    ensures front { StartsWith out.new.items out.old.items }
    ensures formed { OnOk result (IsTrue (is_pair pair.now)) }
{
    out.extend_from_slice(pair.key.bytes())?;
    out.push(b':')?;
    push_version(out, pair.version)?;
    Ok(())
}

/// Appends the pairs separated by commas, or a hyphen for none. Fails with `AllocError` if memory
/// runs out; then a prefix may have been appended.
pub fn push_deps(out: &mut Vec<u8>, deps: &OwnedDeps) -> Result<(), AllocError>
    ensures ok { OnOk result (out.new.items ≡ out.old.items ++ list_text deps.now) }
    ensures front { StartsWith out.new.items out.old.items }
    ensures formed { OnOk result (IsTrue (are_deps deps.now)) }
{
    push_list(out, deps.packed())
}

/// Appends the pairs separated by commas, or a hyphen for none. Fails with `AllocError` if memory
/// runs out; then a prefix may have been appended.
pub fn push_near(out: &mut Vec<u8>, near: &OwnedNear) -> Result<(), AllocError>
    ensures ok { OnOk result (out.new.items ≡ out.old.items ++ list_text near.now) }
    ensures front { StartsWith out.new.items out.old.items }
    ensures formed { OnOk result (IsTrue (are_near near.now)) }
{
    push_list(out, near.packed())
}

/// Appends the pairs separated by commas, or a hyphen for none.
fn push_list(out: &mut Vec<u8>, pairs: &PackedPairs) -> Result<(), AllocError>
    ensures ok { OnOk result (out.new.items ≡ out.old.items ++ list_text pairs.now) }
    ensures front { StartsWith out.new.items out.old.items }
    ensures formed { OnOk result (IsTrue (list_all is_pair pairs.now)) }
{
    if pairs.len() == 0 {
        out.push(b'-')?;
        return Ok(());
    }
    push_pair(out, &pairs.pair(0))?;
    push_more(out, pairs)
}

/// Appends each pair except the first after a comma.
fn push_more(out: &mut Vec<u8>, pairs: &PackedPairs) -> Result<(), AllocError>
    requires { 0 < length pairs.now }
    ensures ok { OnOk result (out.new.items ≡ out.old.items ++ more_text (drop 1 pairs.now)) }
    ensures front { StartsWith out.new.items out.old.items }
    ensures formed { OnOk result (IsTrue (list_all is_pair (drop 1 pairs.now))) }
{
    for place in 1..pairs.len() {
        out.push(b',')?;
        push_pair(out, &pairs.pair(place))?;
    }
    Ok(())
}

/// Appends `E` and two digits. Fails with `AllocError` if memory runs out; then nothing was
/// appended.
pub fn push_fault(out: &mut Vec<u8>, fault: Fault) -> Result<(), AllocError>
    ensures ok { OnOk result (out.new.items ≡ out.old.items ++ fault_text fault) }
    ensures err { OnErr result (out.new.items ≡ out.old.items) }
{
    out.extend_from_slice(&fault.text())?;
    Ok(())
}
