//! Puts.
ghost use Rattle.std.specs.Prelude.{◌≡◌, ◌≢◌, ℕ, ◌+◌, ◌<◌, ◌≤◌, max, length, slice_set, slice_index_or, ok_or, List, [], ◌∷◌, ◌++◌, Option, Some, None, false, IsTrue, IfOk, IfErr, OnOk, OnErr};
ghost use Rattle.cops_types.specs.declared.pairs.Pair.{Pair};
ghost use Rattle.cops_types.specs.Layout.{NODES};
ghost use Rattle.cops_types.specs.Pairs.{greatest_clock as greatest_clock_of};
ghost use Rattle.cops_types.specs.Records.{Tracked, StandsFor};
ghost use Rattle.cops_types.specs.Version.{next_version as version_after, last_clock};
ghost use Rattle.cops_store.specs.Contents.{rows_of, use_of, refusal, size_of, HasRoom, LacksVersion, NoneLater};
ghost use Rattle.cops_outbox.specs.Queues.{queue_of, is_full};
ghost use Rattle.cops_model.specs.declared.calls.NodeCall.{NodeCall};
ghost use Rattle.cops_model.specs.declared.calls.NodeReply.{NodeReply};
ghost use Rattle.cops_node.specs.Parts.{HasSolo, IsDone, IsHome, IsUnchanged, OthersStay, StandsAt, place_under};
ghost use Rattle.cops_model.specs.Place.{node_number, fits};
ghost use Rattle.cops_model.specs.SoloNode.{SoloNode};
ghost use Rattle.cops_model.specs.Step.{node_put_refusal, put as put_turn, unchanged, version_of_put};

use crate::answered::Answered;
use crate::parts::{self, Caller, Counters, Storage};
use crate::rows::PackedExchange;
use crate::{Home, NodeCall, NodeReply, Terms, commits};
use cops_types::{Deps, Entry, EntryParts, Fault, Key, Near, Quota, RequestError, Value, Version};
use std::alloc::{AllocError, Global};

/// What a call `Put` stores: a key's value, with its dependencies.
#[derive(Debug, Drop)]
pub(crate) struct PutParts {
    pub(crate) key: Key,
    pub(crate) value: Value,
    pub(crate) deps: Deps,
    pub(crate) near: Near,
}

// Returns the version that a put with these dependencies gets.
#[inline(always)]
fn next_version(home: &Home, counters: &Counters, deps: &Deps) -> Result<Version, Fault>
    requires home { IsHome home.now }
    requires clock_fits { counters.now.clock ≤ last_clock }
    ensures { result ≡ ok_or (version_after counters.now.clock (greatest_clock_of deps.now)
        (node_number home.now.shape.shards home.now.id)) Fault.ClockFull }
{
    let node = parts::own_number(home);
    let deps_clock = deps.greatest_clock();
    Version::next(counters.clock, deps_clock, node)
}

// Returns the version of a put, or why the put is refused.
#[inline(always)]
fn version_for(
    home: &Home,
    terms: &Terms,
    counters: &Counters,
    storage: &Storage,
    slot: usize,
    put: &PutParts,
) -> Result<Version, Fault>
    requires { (solo : SoloNode) × StandsAt slot
        (place_under home.now terms.now) counters.now storage.now.store storage.now.outbox solo }
    ensures version { IfOk result (λ version. (solo : SoloNode) → StandsAt slot
        (place_under home.now terms.now) counters.now storage.now.store storage.now.outbox solo →
        version_of_put (place_under home.now terms.now) solo put.now.deps ≡ Some version) }
    ensures unrefused { IfOk result (λ version. (solo : SoloNode) → StandsAt slot
        (place_under home.now terms.now) counters.now storage.now.store storage.now.outbox solo →
        node_put_refusal (place_under home.now terms.now) solo put.now.key put.now.value ≡ None) }
    ensures room { IfOk result (λ version. refusal terms.now.quota
        (length put.now.key + length put.now.value) (use_of (rows_of slot storage.now.store))
        ≡ None) }
    ensures sendable { OnOk result
        (is_full slot terms.now.quota.outbox storage.now.outbox ≡ false) }
    ensures refused { IfErr result (λ fault. (solo : SoloNode) → StandsAt slot
        (place_under home.now terms.now) counters.now storage.now.store storage.now.outbox solo →
        (near : List Pair) →
        put_turn (place_under home.now terms.now) solo put.now.key put.now.value put.now.deps near
        ≡ unchanged (NodeReply.Refused fault) solo) }
{
    let version = next_version(home, counters, &put.deps)?;
    if let Some(fault) = storage
        .store
        .refused(slot, &put.key, put.value.owned(), &terms.quota)
    {
        return Err(fault);
    }
    if storage.outbox.is_full(slot, terms.quota.outbox) {
        return Err(Fault::OutboxFull);
    }
    Ok(version)
}

// Refuses a put. It is apart, so that a put that is stored makes no room for the call.
#[inline(never)]
fn refuse(alloc: Global, put: PutParts, fault: Fault) -> Result<Answered, AllocError>
    ensures told { IfOk result (λ answered. answered.told ≡ NodeReply.Refused fault) }
    ensures kept { IfOk result (λ answered. answered.kept
        ≡ record { call = NodeCall.Put put.key put.value put.deps put.near; reply = answered.told }) }
{
    let call = NodeCall::Put(put.key, put.value, put.deps, put.near);
    Answered::refused(alloc, call, fault)
}

// Returns the entry of a put, with its version and the mark before it.
#[inline(always)]
fn entry_of(
    alloc: Global,
    put: PutParts,
    version: Version,
    prev: Version,
) -> Result<Entry, AllocError>
    ensures { IfOk result (λ entry. entry
        ≡ record { key = put.key; version = version; value = put.value; deps = put.deps; near = put.near; prev = prev }) }
{
    let parts = EntryParts {
        key: put.key,
        version,
        value: put.value,
        deps: put.deps,
        near: put.near,
        prev,
    };
    Entry::new(alloc, parts)
}

// Handles a call `Put`.
#[inline(always)]
pub(crate) fn put(
    alloc: Global,
    home: &Home,
    terms: &Terms,
    counters: &mut Counters,
    storage: &mut Storage,
    caller: Caller,
    put: PutParts,
) -> Result<Answered, AllocError>
    requires { HasSolo caller.slot caller.moment
        (place_under home.now terms.now) counters.old storage.old.store storage.old.outbox }
    ensures done { IfOk result
        (λ answered. IsDone caller.slot caller.moment (place_under home.now terms.now)
        (NodeCall.Put put.key put.value put.deps put.near) answered.told counters.old
        storage.old.store storage.old.outbox counters.new storage.new.store storage.new.outbox) }
    ensures kept { IfOk result (λ answered. answered.kept
        ≡ record { call = NodeCall.Put put.key put.value put.deps put.near; reply = answered.told }) }
    ensures others { OthersStay caller.slot storage.old.store storage.old.outbox storage.new.store
        storage.new.outbox }
    ensures err { OnErr result (IsUnchanged counters.old storage.old.store storage.old.outbox
        counters.new storage.new.store storage.new.outbox) }
{
    let version = match version_for(home, terms, counters, storage, caller.slot, &put) {
        Ok(version) => version,
        Err(fault) => return refuse(alloc, put, fault),
    };
    let key = put.key;
    let prev = parts::own_mark(home, counters);
    let entry = entry_of(alloc, put, version, prev)?;
    let shared = entry.copy(alloc)?;
    storage.store.reserve(caller.slot, &key)?;
    match storage.outbox.push(caller.slot, &entry, terms.quota.outbox) {
        Ok(()) => {}
        Err(RequestError::OutOfMemory) => return Err(AllocError),
        Err(RequestError::Refused(_)) => unreachable!(),
    }
    commits::keep(home, terms, counters, &mut storage.store, caller, entry);
    Ok(Answered {
        told: NodeReply::Stored(version),
        kept: PackedExchange::stored(shared),
    })
}
