//! Lines of the calls in an audit, put over existing bytes and appended to a vector. A row is read in place.
ghost use Rattle.std.specs.Prelude.{◌≡◌, ◌≤◌, ◌+◌, ◌*◌, ◌++◌, length, take, IsTrue, OnOk};
ghost use Rattle.cops_types.specs.Founds.{found_in};
ghost use Rattle.cops_types.specs.Words.{spaced};
ghost use Rattle.cops_node.specs.Rows.{exchange_of};
ghost use Rattle.cops_model.specs.declared.calls.NodeCall.TheVariants.{Get, Put};
ghost use Rattle.cops_model.specs.declared.calls.NodeReply.TheVariants.{Found};
ghost use Rattle.cops_replay.specs.AuditText.{ended, record_of};
ghost use Rattle.cops_replay.specs.RecordText.{call_words, has_form, is_call, is_record, is_reply, record_line, reply_words};
ghost use Rattle.cops_replay.specs.Room.{IsNoMoreThan, IsRoomFor, entry_room, line_room, packed_record, packing_room, reply_room};

use crate::put_exchanges::{
    make_room, put_call, put_check, put_found, put_get, put_reply, put_wanted, room_of_call,
    room_of_entry, room_of_parts, room_of_reply,
};
use crate::put_words::{put_ack, put_entered, put_front, put_numbered, put_stored, put_versioned};
use cops_node::{AuditRow, NodeId, Packing, Wanted};
use cops_types::placed::{put_byte, put_word};
use cops_types::{Entry, Name};
use std::alloc::AllocError;

/// Returns the most room that the values and the lists of a call and its reply take.
fn room_of_packing(packing: &Packing) -> usize
    ensures enough { IsRoomFor (packing_room packing.now) result }
    ensures no_more { IsNoMoreThan (packing_room packing.now) result }
{
    match packing {
        Packing::PutStored(entry) => room_of_entry(entry),
        Packing::LatestFound(entry) => room_of_parts(entry.value().len(), entry.deps().len(), 0),
        Packing::ExactFound(entry) => room_of_parts(entry.value().len(), entry.deps().len(), 0),
        Packing::EntryPulled(_, entry) => room_of_entry(entry),
        Packing::EntryCommitted(entry) => room_of_entry(entry),
        Packing::CommittedBefore(entry) => room_of_entry(entry),
        Packing::EntryOutOfOrder(entry, _) => room_of_entry(entry),
        Packing::InFull(exchange) => {
            room_of_call(&exchange.call).saturating_add(room_of_reply(&exchange.reply))
        }
        _ => 0,
    }
}

/// Returns the most room that the line of a call takes.
pub(crate) fn room_of(packing: &Packing) -> usize
    ensures enough { IsRoomFor (line_room packing.now) result }
    ensures no_more { IsNoMoreThan (line_room packing.now) result }
{
    room_of_packing(packing)
        .saturating_mul(2)
        .saturating_add(430)
}

/// Writes that an entry was found.
fn put_found_entry(bytes: &mut [u8], at: usize, entry: &Entry) -> usize
    requires { at + reply_room (Found (found_in entry.now)) + 165 ≤ length bytes.old }
    ensures text { take result bytes.new
        ≡ take at bytes.old ++ spaced (reply_words (Found (found_in entry.now))) }
    ensures end { result ≤ at + reply_room (Found (found_in entry.now)) + 165 }
    ensures formed { IsTrue (is_reply (Found (found_in entry.now))) }
{
    put_found(bytes, at, entry.version(), entry.value(), entry.deps())
}

/// Writes the put that made an entry.
fn put_put_of(bytes: &mut [u8], at: usize, entry: &Entry) -> usize
    requires { at + entry_room entry.now + 165 ≤ length bytes.old }
    ensures text { take result bytes.new ≡ take at bytes.old
        ++ spaced (call_words (Put entry.now.key entry.now.value entry.now.deps entry.now.near)) }
    ensures end { result ≤ at + entry_room entry.now + 165 }
    ensures formed { IsTrue
        (is_call (Put entry.now.key entry.now.value entry.now.deps entry.now.near)) }
{
    let of_key = put_word(bytes, at, b"put ");
    let after_key = entry.put_key(bytes, of_key);
    let of_value = put_byte(bytes, after_key, b' ');
    put_stored(bytes, of_value, entry.value(), entry.deps(), entry.near())
}

/// Writes a get of an entry's key.
fn put_get_of(bytes: &mut [u8], at: usize, entry: &Entry, wanted: &Wanted) -> usize
    requires { at + 165 ≤ length bytes.old }
    ensures text { take result bytes.new
        ≡ take at bytes.old ++ spaced (call_words (Get entry.now.key wanted.now)) }
    ensures end { result ≤ at + 165 }
    ensures formed { IsTrue (is_call (Get entry.now.key wanted.now)) }
{
    let of_key = put_word(bytes, at, b"get ");
    let after_key = entry.put_key(bytes, of_key);
    let of_wanted = put_byte(bytes, after_key, b' ');
    put_wanted(bytes, of_wanted, wanted)
}

/// Writes the call.
fn put_row_call(bytes: &mut [u8], at: usize, packing: &Packing) -> usize
    requires { at + packing_room packing.now + 165 ≤ length bytes.old }
    ensures text { take result bytes.new
        ≡ take at bytes.old ++ spaced (call_words (exchange_of packing.now).call) }
    ensures end { result ≤ at + packing_room packing.now + 165 }
    ensures formed { IsTrue (is_call (exchange_of packing.now).call) }
{
    match packing {
        Packing::PutStored(entry) => put_put_of(bytes, at, entry),
        Packing::LatestFound(entry) => put_get_of(bytes, at, entry, &Wanted::Latest),
        Packing::ExactFound(entry) => {
            put_get_of(bytes, at, entry, &Wanted::Exactly(entry.version()))
        }
        Packing::LatestAbsent(key) => put_get(bytes, at, &key.key(), &Wanted::Latest),
        Packing::NotCome(key, version) => {
            put_get(bytes, at, &key.key(), &Wanted::Exactly(*version))
        }
        Packing::WasCommitted(key, version) => put_check(bytes, at, &key.key(), *version),
        Packing::WasNotCommitted(key, version) => put_check(bytes, at, &key.key(), *version),
        Packing::EntryPulled(dc, _) => put_numbered(bytes, at, b"pull", *dc),
        Packing::NothingPulled(dc) => put_numbered(bytes, at, b"pull", *dc),
        Packing::EntryCommitted(entry) => put_entered(bytes, at, b"commit", entry),
        Packing::CommittedBefore(entry) => put_entered(bytes, at, b"commit", entry),
        Packing::EntryOutOfOrder(entry, _) => put_entered(bytes, at, b"commit", entry),
        Packing::FrontAcked(dc, version) => put_ack(bytes, at, *dc, *version),
        Packing::FrontNotAcked(dc, version) => put_ack(bytes, at, *dc, *version),
        Packing::Collected(_) => put_word(bytes, at, b"collect"),
        Packing::InFull(exchange) => put_call(bytes, at, &exchange.call),
    }
}

/// Writes the reply.
fn put_row_reply(bytes: &mut [u8], at: usize, packing: &Packing) -> usize
    requires { at + packing_room packing.now + 165 ≤ length bytes.old }
    ensures text { take result bytes.new
        ≡ take at bytes.old ++ spaced (reply_words (exchange_of packing.now).reply) }
    ensures end { result ≤ at + packing_room packing.now + 165 }
    ensures formed { IsTrue (has_form (exchange_of packing.now).reply) →
        IsTrue (is_reply (exchange_of packing.now).reply) }
{
    match packing {
        Packing::PutStored(entry) => put_versioned(bytes, at, b"stored", entry.version()),
        Packing::LatestFound(entry) => put_found_entry(bytes, at, entry),
        Packing::ExactFound(entry) => put_found_entry(bytes, at, entry),
        Packing::LatestAbsent(_) => put_word(bytes, at, b"absent"),
        Packing::NotCome(_, _) => put_word(bytes, at, b"notyet"),
        Packing::WasCommitted(_, _) => put_word(bytes, at, b"yes"),
        Packing::WasNotCommitted(_, _) => put_word(bytes, at, b"no"),
        Packing::EntryPulled(_, entry) => put_entered(bytes, at, b"entry", entry),
        Packing::NothingPulled(_) => put_word(bytes, at, b"nothing"),
        Packing::EntryCommitted(_) => put_word(bytes, at, b"committed"),
        Packing::CommittedBefore(_) => put_word(bytes, at, b"already"),
        Packing::EntryOutOfOrder(_, mark) => put_versioned(bytes, at, b"outoforder", *mark),
        Packing::FrontAcked(_, _) => put_word(bytes, at, b"acked"),
        Packing::FrontNotAcked(_, _) => put_word(bytes, at, b"notfront"),
        Packing::Collected(count) => put_numbered(bytes, at, b"removed", *count),
        Packing::InFull(exchange) => put_reply(bytes, at, &exchange.reply),
    }
}

/// Writes the line of a call at the beginning, with its newline.
pub(crate) fn put_line(
    bytes: &mut [u8],
    name: &Name,
    node: NodeId,
    moment: u64,
    packing: &Packing,
) -> usize
    requires { line_room packing.now ≤ length bytes.old }
    ensures text { take result bytes.new
        ≡ ended (record_line name.now (packed_record node moment packing.now)) }
    ensures within { result ≤ length bytes.old }
    ensures formed { IsTrue (has_form (exchange_of packing.now).reply) →
        IsTrue (is_record (packed_record node moment packing.now)) }
{
    let of_call = put_front(bytes, 0, name, node, moment);
    let after_call = put_row_call(bytes, of_call, packing);
    let of_reply = put_word(bytes, after_call, b" = ");
    let after_reply = put_row_reply(bytes, of_reply, packing);
    put_byte(bytes, after_reply, b'\n')
}

/// Appends the line of a call, with its newline. It is written over existing bytes and copied from
/// there at once.
fn push_placed(
    out: &mut Vec<u8>,
    place: &mut [u8],
    name: &Name,
    id: NodeId,
    moment: u64,
    packing: &Packing,
) -> Result<(), AllocError>
    requires { line_room packing.now ≤ length place.old }
    ensures line { OnOk result (out.new.items
        ≡ out.old.items ++ ended (record_line name.now (packed_record id moment packing.now))) }
    ensures formed { IsTrue (has_form (exchange_of packing.now).reply) →
        IsTrue (is_record (packed_record id moment packing.now)) }
{
    let end = put_line(place, name, id, moment, packing);
    out.extend_from_slice(&place[..end])
}

/// Appends the line of a row, with its newline. The row is read in place. `place` is scratch space.
pub(crate) fn push_row(
    out: &mut Vec<u8>,
    place: &mut Vec<u8>,
    name: &Name,
    id: NodeId,
    row: &AuditRow,
) -> Result<(), AllocError>
    ensures line { OnOk result
        (out.new.items ≡ out.old.items ++ ended (record_line name.now (record_of id row.now))) }
    ensures formed { OnOk result
        (IsTrue (has_form row.now.reply) → IsTrue (is_record (record_of id row.now))) }
{
    let packing = row.packing();
    make_room(place, room_of(packing))?;
    push_placed(out, place.as_mut_slice(), name, id, row.moment(), packing)
}
