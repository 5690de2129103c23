//! The replies of a node for a key.
ghost use Rattle.std.specs.Prelude.{◌≡◌, List, None, IfOk};
ghost use Rattle.cops_types.specs.Records.{Tracked, StandsFor, latest as latest_record, exact as exact_record};
ghost use Rattle.cops_store.specs.Contents.{rows_of};
ghost use Rattle.cops_node.specs.Parts.{AreMarks, IsHome};
ghost use Rattle.cops_model.specs.SoloNode.{SoloNode};
ghost use Rattle.cops_model.specs.Step.{found as found_reply, reply_latest, reply_exact, reply_get};

use crate::answered::Answered;
use crate::parts::{self, Caller, Counters};
use crate::rows::PackedExchange;
use crate::{Home, NodeCall, NodeReply, Wanted};
use cops_store::Store;
use cops_types::{Found, Key, Record, Version};
use std::alloc::{AllocError, Global};

// Returns the reply that a record was found.
#[inline(always)]
fn found(alloc: Global, stored: &Record) -> Result<NodeReply, AllocError>
    ensures { IfOk result (λ reply. reply ≡ found_reply stored.now) }
{
    Ok(NodeReply::Found(Found::of(stored.entry.copy(alloc)?)))
}

// Returns a slot's reply for the greatest version of a key.
#[inline(always)]
fn latest(alloc: Global, store: &Store, slot: usize, key: &Key) -> Result<Answered, AllocError>
    requires { (tracked : List Tracked) × StandsFor (rows_of slot store.now) tracked }
    ensures told { IfOk result
        (λ answered. (tracked : List Tracked) → StandsFor (rows_of slot store.now) tracked →
        answered.told ≡ reply_latest (latest_record key.now tracked)) }
    ensures kept { IfOk result (λ answered. answered.kept
        ≡ record { call = NodeCall.Get key.now Wanted.Latest; reply = answered.told }) }
{
    match store.latest(slot, key) {
        Some(stored) => {
            let told = found(alloc, stored)?;
            let entry = stored.entry.copy(alloc)?;
            Ok(Answered {
                told,
                kept: PackedExchange::found_latest(entry),
            })
        }
        None => Ok(Answered {
            told: NodeReply::Absent,
            kept: PackedExchange::absent(alloc, key)?,
        }),
    }
}

// Returns a slot's reply for a version of a key that it does not store.
fn missing(
    alloc: Global,
    key: &Key,
    version: Version,
    now: u64,
    was_here: bool,
) -> Result<Answered, AllocError>
    ensures told { IfOk result (λ answered. answered.told ≡ reply_exact now was_here None) }
    ensures kept { IfOk result (λ answered. answered.kept
        ≡ record { call = NodeCall.Get key.now (Wanted.Exactly version); reply = answered.told }) }
{
    if was_here {
        let call = NodeCall::Get(*key, Wanted::Exactly(version));
        return Ok(Answered {
            told: NodeReply::Gone(now),
            kept: PackedExchange::in_full(alloc, call, NodeReply::Gone(now))?,
        });
    }
    Ok(Answered {
        told: NodeReply::NotYet,
        kept: PackedExchange::not_yet(alloc, key, version)?,
    })
}

// Returns a slot's reply for one version of a key.
#[inline(always)]
fn exactly(
    alloc: Global,
    store: &Store,
    caller: Caller,
    key: &Key,
    version: Version,
    was_here: bool,
) -> Result<Answered, AllocError>
    requires { (tracked : List Tracked) × StandsFor (rows_of caller.slot store.now) tracked }
    ensures told { IfOk result
        (λ answered. (tracked : List Tracked) → StandsFor (rows_of caller.slot store.now) tracked →
        answered.told ≡ reply_exact caller.moment was_here (exact_record key.now version tracked)) }
    ensures kept { IfOk result (λ answered. answered.kept
        ≡ record { call = NodeCall.Get key.now (Wanted.Exactly version); reply = answered.told }) }
{
    match store.exactly(caller.slot, key, version) {
        Some(stored) => {
            let told = found(alloc, stored)?;
            let entry = stored.entry.copy(alloc)?;
            Ok(Answered {
                told,
                kept: PackedExchange::found_exactly(entry),
            })
        }
        None => missing(alloc, key, version, caller.moment, was_here),
    }
}

// Handles a call `Get`.
#[inline(always)]
pub(crate) fn get(
    alloc: Global,
    home: &Home,
    counters: &Counters,
    store: &Store,
    caller: Caller,
    key: &Key,
    wanted: Wanted,
) -> Result<Answered, AllocError>
    requires home { IsHome home.now }
    requires stored { (tracked : List Tracked) × StandsFor (rows_of caller.slot store.now) tracked }
    ensures told { IfOk result
        (λ answered. (solo : SoloNode) → StandsFor (rows_of caller.slot store.now) solo.recs →
        AreMarks home.now counters.now.marks.items solo.recs → solo.moment ≡ caller.moment →
        answered.told ≡ reply_get key.now wanted solo) }
    ensures kept { IfOk result (λ answered.
        answered.kept ≡ record { call = NodeCall.Get key.now wanted; reply = answered.told }) }
{
    match wanted {
        Wanted::Latest => latest(alloc, store, caller.slot, key),
        Wanted::Exactly(version) => {
            let was_here = parts::was_committed(home, counters, version);
            exactly(alloc, store, caller, key, version, was_here)
        }
    }
}
