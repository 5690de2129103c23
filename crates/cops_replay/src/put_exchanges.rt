//! Calls, replies and records as text, written over existing bytes, compared there or appended to a vector.
ghost use Rattle.std.specs.Prelude.{◌≡◌, ◌≤◌, ◌+◌, ◌*◌, ◌++◌, [], length, take, IsTrue, OnOk, ◌↔◌, IfOk, Some, replicate, OnErr};
ghost use Rattle.cops_types.specs.Words.{spaced};
ghost use Rattle.cops_model.specs.declared.calls.NodeCall.TheVariants.{DepCheck, Get, Put};
ghost use Rattle.cops_model.specs.declared.calls.NodeReply.TheVariants.{Found};
ghost use Rattle.cops_replay.specs.RecordText.{call_words, has_form, is_call, is_reply, is_wanted, reply_words, wanted_text, is_record, record_line};
ghost use Rattle.cops_replay.specs.Room.{IsNoMoreThan, IsRoomFor, call_room, entry_room, reply_room, stored_room};
ghost use Rattle.cops_replay.specs.RecordLines.{reply_told};

use crate::Record;
use crate::put_words::{
    put_ack, put_entered, put_front, put_numbered, put_stored, put_value, put_versioned,
};
use cops_node::{NodeCall, NodeReply, Wanted};
use cops_types::placed::{put_byte, put_deps, put_key, put_version, put_word};
use cops_types::{Entry, Fault, Key, Name, OwnedDeps, OwnedNear, OwnedValue, Version};
use std::alloc::AllocError;

/// Returns the most room that a value of this many bytes and lists of this many pairs take.
pub(crate) fn room_of_parts(value: usize, deps: usize, near: usize) -> usize
    ensures enough { IsRoomFor (2 * value + 107 * deps + 107 * near) result }
    ensures no_more { IsNoMoreThan (2 * value + 107 * deps + 107 * near) result }
{
    let value = value.saturating_mul(2);
    let deps = deps.saturating_mul(107);
    let near = near.saturating_mul(107);
    value.saturating_add(deps).saturating_add(near)
}

/// Returns the most room that the value and the lists of an entry take.
pub(crate) fn room_of_entry(entry: &Entry) -> usize
    ensures enough { IsRoomFor (entry_room entry.now) result }
    ensures no_more { IsNoMoreThan (entry_room entry.now) result }
{
    room_of_parts(entry.value().len(), entry.deps().len(), entry.near().len())
}

/// Returns the most room that the value and the lists of a call take.
pub(crate) fn room_of_call(call: &NodeCall) -> usize
    ensures enough { IsRoomFor (call_room call.now) result }
    ensures no_more { IsNoMoreThan (call_room call.now) result }
{
    match call {
        NodeCall::Put(_, value, deps, near) => room_of_parts(
            value.owned().len(),
            deps.owned().len(),
            near.owned().len(),
        ),
        NodeCall::Commit(entry) => room_of_entry(entry),
        _ => 0,
    }
}

/// Returns the most room that the value and the lists of a reply take.
pub(crate) fn room_of_reply(reply: &NodeReply) -> usize
    ensures enough { IsRoomFor (reply_room reply.now) result }
    ensures no_more { IsNoMoreThan (reply_room reply.now) result }
{
    match reply {
        NodeReply::Found(found) => room_of_parts(found.value().len(), found.deps().len(), 0),
        NodeReply::Pulled(entry) => room_of_entry(entry),
        _ => 0,
    }
}

/// Makes `place` at least this long.
pub(crate) fn make_room(place: &mut Vec<u8>, room: usize) -> Result<(), AllocError>
    ensures { OnOk result (room ≤ length place.new.items) }
{
    if place.len() < room {
        place.resize(room, 0)?;
    }
    Ok(())
}

/// Writes the wanted version.
pub(crate) fn put_wanted(bytes: &mut [u8], at: usize, wanted: &Wanted) -> usize
    requires { at + 41 ≤ length bytes.old }
    ensures text { take result bytes.new ≡ take at bytes.old ++ wanted_text wanted.now }
    ensures end { result ≤ at + 41 }
    ensures formed { IsTrue (is_wanted wanted.now) }
{
    match wanted {
        Wanted::Latest => put_word(bytes, at, b"latest"),
        Wanted::Exactly(version) => put_version(bytes, at, *version),
    }
}

/// Writes a get.
pub(crate) fn put_get(bytes: &mut [u8], at: usize, key: &Key, wanted: &Wanted) -> usize
    requires { at + 165 ≤ length bytes.old }
    ensures text { take result bytes.new
        ≡ take at bytes.old ++ spaced (call_words (Get key.now wanted.now)) }
    ensures end { result ≤ at + 165 }
    ensures formed { IsTrue (is_call (Get key.now wanted.now)) }
{
    let of_key = put_word(bytes, at, b"get ");
    let after_key = put_key(bytes, of_key, key);
    let of_wanted = put_byte(bytes, after_key, b' ');
    put_wanted(bytes, of_wanted, wanted)
}

/// Writes a put.
pub(crate) fn put_put(
    bytes: &mut [u8],
    at: usize,
    key: &Key,
    value: &OwnedValue,
    deps: &OwnedDeps,
    near: &OwnedNear,
) -> usize
    requires { at + stored_room value.now deps.now near.now + 165 ≤ length bytes.old }
    ensures text { take result bytes.new
        ≡ take at bytes.old ++ spaced (call_words (Put key.now value.now deps.now near.now)) }
    ensures end { result ≤ at + stored_room value.now deps.now near.now + 165 }
    ensures formed { IsTrue (is_call (Put key.now value.now deps.now near.now)) }
{
    let of_key = put_word(bytes, at, b"put ");
    let after_key = put_key(bytes, of_key, key);
    let of_value = put_byte(bytes, after_key, b' ');
    put_stored(bytes, of_value, value, deps, near)
}

/// Writes a check.
pub(crate) fn put_check(bytes: &mut [u8], at: usize, key: &Key, version: Version) -> usize
    requires { at + 165 ≤ length bytes.old }
    ensures text { take result bytes.new
        ≡ take at bytes.old ++ spaced (call_words (DepCheck key.now version)) }
    ensures end { result ≤ at + 165 }
    ensures formed { IsTrue (is_call (DepCheck key.now version)) }
{
    let of_key = put_word(bytes, at, b"check ");
    let after_key = put_key(bytes, of_key, key);
    let of_version = put_byte(bytes, after_key, b' ');
    put_version(bytes, of_version, version)
}

/// Writes a call.
pub(crate) fn put_call(bytes: &mut [u8], at: usize, call: &NodeCall) -> usize
    requires { at + call_room call.now + 165 ≤ length bytes.old }
    ensures text { take result bytes.new ≡ take at bytes.old ++ spaced (call_words call.now) }
    ensures end { result ≤ at + call_room call.now + 165 }
    ensures formed { IsTrue (is_call call.now) }
{
    match call {
        NodeCall::Get(key, wanted) => put_get(bytes, at, key, wanted),
        NodeCall::Put(key, value, deps, near) => {
            put_put(bytes, at, key, value.owned(), deps.owned(), near.owned())
        }
        NodeCall::DepCheck(key, version) => put_check(bytes, at, key, *version),
        NodeCall::Pull(dc) => put_numbered(bytes, at, b"pull", *dc),
        NodeCall::Commit(entry) => put_entered(bytes, at, b"commit", entry),
        NodeCall::Ack(dc, version) => put_ack(bytes, at, *dc, *version),
        NodeCall::Collect => put_word(bytes, at, b"collect"),
    }
}

/// Writes what was found.
pub(crate) fn put_found(
    bytes: &mut [u8],
    at: usize,
    version: Version,
    value: &OwnedValue,
    deps: &OwnedDeps,
) -> usize
    requires { at + stored_room value.now deps.now [] + 165 ≤ length bytes.old }
    ensures text { take result bytes.new ≡ take at bytes.old ++ spaced
        (reply_words (Found (record { version = version; value = value.now; deps = deps.now }))) }
    ensures end { result ≤ at + stored_room value.now deps.now [] + 165 }
    ensures formed { IsTrue
        (is_reply (Found (record { version = version; value = value.now; deps = deps.now }))) }
{
    let after_version = put_versioned(bytes, at, b"found", version);
    let of_value = put_byte(bytes, after_version, b' ');
    let after_value = put_value(bytes, of_value, value);
    let of_deps = put_byte(bytes, after_value, b' ');
    put_deps(bytes, of_deps, deps)
}

/// Writes a reply.
pub(crate) fn put_reply(bytes: &mut [u8], at: usize, reply: &NodeReply) -> usize
    requires { at + reply_room reply.now + 165 ≤ length bytes.old }
    ensures text { take result bytes.new ≡ take at bytes.old ++ spaced (reply_words reply.now) }
    ensures end { result ≤ at + reply_room reply.now + 165 }
    ensures formed { IsTrue (has_form reply.now) → IsTrue (is_reply reply.now) }
{
    match reply {
        NodeReply::Found(found) => {
            put_found(bytes, at, found.version(), found.value(), found.deps())
        }
        NodeReply::Absent => put_word(bytes, at, b"absent"),
        NodeReply::Gone(now) => put_numbered(bytes, at, b"gone", *now),
        NodeReply::NotYet => put_word(bytes, at, b"notyet"),
        NodeReply::Stored(version) => put_versioned(bytes, at, b"stored", *version),
        NodeReply::Checked(true) => put_word(bytes, at, b"yes"),
        NodeReply::Checked(false) => put_word(bytes, at, b"no"),
        NodeReply::Pulled(entry) => put_entered(bytes, at, b"entry", entry),
        NodeReply::Nothing => put_word(bytes, at, b"nothing"),
        NodeReply::Committed => put_word(bytes, at, b"committed"),
        NodeReply::Already => put_word(bytes, at, b"already"),
        NodeReply::OutOfOrder(mark) => put_versioned(bytes, at, b"outoforder", *mark),
        NodeReply::Acked => put_word(bytes, at, b"acked"),
        NodeReply::NotFront => put_word(bytes, at, b"notfront"),
        NodeReply::Removed(count) => put_numbered(bytes, at, b"removed", *count),
        NodeReply::Refused(fault) => put_word(bytes, at, &fault.text()),
    }
}

/// Returns `true` if an audit may have the reply.
pub(crate) fn has_form(reply: &NodeReply) -> bool
    ensures { result ≡ has_form reply.now }
{
    match reply {
        NodeReply::Refused(fault) => matches!(
            fault,
            Fault::VersionQuota | Fault::ByteQuota | Fault::OutboxFull | Fault::ClockFull
        ),
        _ => true,
    }
}

/// Returns the most room that the text of a reply takes.
fn room_of_text(reply: &NodeReply) -> usize
    ensures enough { IsRoomFor (reply_room reply.now + 165) result }
    ensures no_more { IsNoMoreThan (reply_room reply.now + 165) result }
{
    room_of_reply(reply).saturating_add(165)
}

/// Returns `true` if a text is exactly that of the reply, which is written over `place`.
fn is_text_of(place: &mut [u8], reply: &NodeReply, text: &[u8]) -> bool
    requires form { IsTrue (has_form reply.now) }
    requires room { reply_room reply.now + 165 ≤ length place.old }
    ensures { IsTrue result ↔ (reply_told text.now ≡ Some reply.now) }
{
    let end = put_reply(place, 0, reply);
    &place[..end] == text
}

/// Returns `true` if a text is exactly that of the reply. `place` is scratch space.
pub(crate) fn is_told(
    place: &mut Vec<u8>,
    reply: &NodeReply,
    text: &[u8],
) -> Result<bool, AllocError>
    ensures { IfOk result (λ told. IsTrue told ↔ (reply_told text.now ≡ Some reply.now)) }
{
    if !has_form(reply) {
        return Ok(false);
    }
    make_room(place, room_of_text(reply))?;
    Ok(is_text_of(place.as_mut_slice(), reply, text))
}

/// Returns the most room that the line of a record takes.
fn room_of(told: &Record) -> usize
    ensures enough { IsRoomFor (call_room told.now.call + reply_room told.now.reply + 430) result }
    ensures no_more { IsNoMoreThan
        (call_room told.now.call + reply_room told.now.reply + 430) result }
{
    room_of_call(&told.call)
        .saturating_add(room_of_reply(&told.reply))
        .saturating_add(430)
}

/// Writes the line of a record.
fn put_record(bytes: &mut [u8], at: usize, tenant: &Name, told: &Record) -> usize
    requires formed { IsTrue (has_form told.now.reply) }
    requires room { at + (call_room told.now.call + reply_room told.now.reply + 430)
        ≤ length bytes.old }
    ensures text { take result bytes.new ≡ take at bytes.old ++ record_line tenant.now told.now }
    ensures within { result ≤ length bytes.old }
    ensures formed { IsTrue (is_record told.now) }
{
    let of_call = put_front(bytes, at, tenant, told.node, told.moment);
    let after_call = put_call(bytes, of_call, &told.call);
    let of_reply = put_word(bytes, after_call, b" = ");
    put_reply(bytes, of_reply, &told.reply)
}

/// Appends zeros for the room.
fn push_zeros(out: &mut Vec<u8>, count: usize) -> Result<(), AllocError>
    ensures ok { OnOk result (out.new.items ≡ out.old.items ++ replicate count 0) }
    ensures err { OnErr result (out.new.items ≡ out.old.items) }
{
    out.reserve(count)?;
    out.resize(out.len() + count, 0)
}

/// Appends the line of a tenant's record, without a newline. Allocates at once as much as the line
/// may take. Fails with `AllocError` if memory runs out; then nothing was appended.
pub fn write_record(out: &mut Vec<u8>, tenant: &Name, told: &Record) -> Result<(), AllocError>
    requires formed { IsTrue (has_form told.now.reply) }
    ensures line { OnOk result (out.new.items ≡ out.old.items ++ record_line tenant.now told.now) }
    ensures err { OnErr result (out.new.items ≡ out.old.items) }

    // The written bytes are a record's line, which parses to the same record.
    ensures formed { OnOk result (IsTrue (is_record told.now)) }
{
    let before = out.len();
    push_zeros(out, room_of(told))?;
    let end = put_record(out.as_mut_slice(), before, tenant, told);
    out.truncate(end);
    Ok(())
}
