//! The effect of a call on a slot's state.
ghost use Rattle.std.specs.Prelude.{◌≡◌, IsTrue, IfOk, OnErr};
ghost use Rattle.cops_node.specs.Parts.{HasSolo, IsDone, IsUnchanged, OthersStay, place_under};
ghost use Rattle.cops_model.specs.Place.{fits};

use crate::answered::Answered;
use crate::parts::{self, Caller, Counters, Storage};
use crate::puts::PutParts;
use crate::{Home, NodeCall, Terms, commits, gets, puts, queues};
use std::alloc::{AllocError, Global};

// Does what the call requests. Allocates all memory before the first change. Both kinds of nodes
// call it; inlined, it moves no answer.
#[inline(always)]
pub(crate) fn act(
    alloc: Global,
    home: &Home,
    terms: &Terms,
    counters: &mut Counters,
    storage: &mut Storage,
    caller: Caller,
    call: NodeCall,
) -> Result<Answered, AllocError>
    requires stands { HasSolo caller.slot caller.moment
        (place_under home.now terms.now) counters.old storage.old.store storage.old.outbox }
    requires fits { IsTrue (fits (place_under home.now terms.now) call) }
    ensures done { IfOk result (λ answered. IsDone caller.slot caller.moment
        (place_under home.now terms.now) call answered.told counters.old storage.old.store
        storage.old.outbox counters.new storage.new.store storage.new.outbox) }
    ensures kept { IfOk result
        (λ answered. answered.kept ≡ record { call = call; reply = answered.told }) }
    ensures others { OthersStay caller.slot storage.old.store storage.old.outbox storage.new.store
        storage.new.outbox }
    ensures err { OnErr result (IsUnchanged counters.old storage.old.store storage.old.outbox
        counters.new storage.new.store storage.new.outbox) }
{
    match call {
        NodeCall::Get(key, wanted) => {
            gets::get(alloc, home, counters, &storage.store, caller, &key, wanted)
        }
        NodeCall::Put(key, value, deps, near) => {
            let put = PutParts {
                key,
                value,
                deps,
                near,
            };
            puts::put(alloc, home, terms, counters, storage, caller, put)
        }
        NodeCall::DepCheck(key, version) => {
            let committed = parts::was_committed(home, counters, version);
            let answered = Answered::checked(alloc, &key, version, committed)?;
            Ok(answered)
        }
        NodeCall::Pull(dc) => queues::pull(alloc, &storage.outbox, caller.slot, dc),
        NodeCall::Commit(entry) => {
            commits::commit(
                alloc,
                home,
                terms,
                counters,
                &mut storage.store,
                caller,
                entry,
            )
        }
        NodeCall::Ack(dc, version) => {
            let answer = storage.outbox.ack(caller.slot, dc as usize, version);
            Ok(queues::acknowledged(answer, dc, version))
        }
        NodeCall::Collect => Ok(Answered::removed(
            storage
                .store
                .collect(caller.slot, caller.moment, home.trans_time),
        )),
    }
}
