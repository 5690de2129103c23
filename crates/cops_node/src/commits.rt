//! Commits of entries: a node's own, and those from other data centres.
ghost use Rattle.std.specs.Prelude.{◌≡◌, ◌≢◌, ℕ, ◌/◌, ◌<◌, ◌≤◌, max, length, slice_set, List, [], ◌∷◌, ◌++◌, None, false, IsTrue, IfOk, OnOk, OnErr};
ghost use Rattle.cops_types.specs.Records.{Tracked, StandsFor};
ghost use Rattle.cops_types.specs.Version.{last_clock};
ghost use Rattle.cops_store.specs.Contents.{rows_of, use_of, refusal, size_of, HasRoom, LacksVersion, NoneLater};
ghost use Rattle.cops_outbox.specs.Queues.{Queues};
ghost use Rattle.cops_model.specs.declared.calls.NodeCall.{NodeCall};
ghost use Rattle.cops_node.specs.Parts.{HasSolo, IsDone, IsHome, place_under};
ghost use Rattle.cops_model.specs.Place.{fits};

use crate::answered::Answered;
use crate::parts::{self, Caller, Counters};
use crate::rows::PackedExchange;
use crate::{Home, NodeCall, NodeReply, Terms};
use cops_store::Store;
use cops_types::Entry;
use std::alloc::{AllocError, Global};

// Stores an entry into reserved room.
pub(crate) fn keep(
    home: &Home,
    terms: &Terms,
    counters: &mut Counters,
    store: &mut Store,
    caller: Caller,
    entry: Entry,
)
    requires home { IsHome home.now }
    requires slot { caller.slot < store.old.tenants }
    requires data_centre { entry.version.node / home.now.shape.shards
        < length counters.old.marks.items }
    requires new_version { LacksVersion entry.key entry.version (rows_of caller.slot store.old) }
    requires room { HasRoom caller.slot entry.key store.old }
    requires unrefused { refusal terms.now.quota (size_of entry)
        (use_of (rows_of caller.slot store.old)) ≡ None }
    ensures stands_for { (tracked : List Tracked) →
        StandsFor (rows_of caller.slot store.old) tracked → NoneLater caller.moment tracked →
        StandsFor (rows_of caller.slot store.new) (tracked
        ++ record { record_of = record { entry = entry; at = caller.moment }; removed = false }
        ∷ []) }
    ensures others { (other : ℕ) → other ≢ caller.slot →
        rows_of other store.new ≡ rows_of other store.old }
    ensures tenants { store.new.tenants ≡ store.old.tenants }
    ensures fits { entry.version.clock ≤ last_clock }
    ensures clock { counters.new.clock ≡ max counters.old.clock entry.version.clock }
    ensures marks { counters.new.marks.items ≡ slice_set counters.old.marks.items
        (entry.version.node / home.now.shape.shards) entry.version }
{
    parts::raise(home, counters, entry.version());
    match store.insert(caller.slot, entry, caller.moment, &terms.quota) {
        Ok(()) => {}
        Err(_) => unreachable!(),
    }
}

// Handles a call `Commit`.
#[inline(always)]
pub(crate) fn commit(
    alloc: Global,
    home: &Home,
    terms: &Terms,
    counters: &mut Counters,
    store: &mut Store,
    caller: Caller,
    entry: Entry,
) -> Result<Answered, AllocError>
    requires stands { (outbox : Queues) × HasSolo caller.slot caller.moment
        (place_under home.now terms.now) counters.old store.old outbox }
    requires fits { IsTrue (fits (place_under home.now terms.now) (NodeCall.Commit entry)) }
    ensures done { IfOk result (λ answered. (outbox : Queues) →
        IsDone caller.slot caller.moment (place_under home.now terms.now) (NodeCall.Commit entry)
        answered.told counters.old store.old outbox counters.new store.new outbox) }
    ensures kept { IfOk result (λ answered.
        answered.kept ≡ record { call = NodeCall.Commit entry; reply = answered.told }) }
    ensures others { (other : ℕ) → other ≢ caller.slot →
        rows_of other store.new ≡ rows_of other store.old }
    ensures tenants { store.new.tenants ≡ store.old.tenants }
    ensures counters { OnErr result (counters.new ≡ counters.old) }
    ensures rows { OnErr result (store.new.rows ≡ store.old.rows) }
{
    if parts::was_committed(home, counters, entry.version()) {
        return Ok(Answered {
            told: NodeReply::Already,
            kept: PackedExchange::already(entry),
        });
    }
    let mark = parts::mark_for(home, counters, entry.version());
    let prev = entry.prev();
    if prev != mark {
        return Ok(Answered {
            told: NodeReply::OutOfOrder(mark),
            kept: PackedExchange::out_of_order(entry, mark),
        });
    }
    let key = entry.key();
    if let Some(fault) = store.refused(caller.slot, &key, entry.value(), &terms.quota) {
        let answered = Answered::refused(alloc, NodeCall::Commit(entry), fault)?;
        return Ok(answered);
    }
    let shared = entry.copy(alloc)?;
    store.reserve(caller.slot, &key)?;
    keep(home, terms, counters, store, caller, entry);
    Ok(Answered {
        told: NodeReply::Committed,
        kept: PackedExchange::committed(shared),
    })
}
