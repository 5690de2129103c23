//! One call on a node's state of one slot.
ghost use Rattle.std.specs.Prelude.{◌≡◌, ◌<◌, length, IsTrue, IfOk, OnErr};
ghost use Rattle.cops_node.specs.Parts.{HasPartRoom, IsPartTurn, JoinsAudit, OthersStay, StandsForTrail, place_under, trail_of};
ghost use Rattle.cops_model.specs.Place.{fits};

use crate::parts::{self, Caller, Part, Storage};
use crate::{AuditPages, AuditRow, Home, NodeCall, NodeReply, calls};
use cops_types::Fault;
use std::alloc::{AllocError, Global};

// Makes a call on the part of a slot. If the audit is full, that is the reply. Nothing changes
// then, nor if memory runs out.
pub(crate) fn turn(
    alloc: Global,
    home: &Home,
    part: &mut Part,
    audit: &mut AuditPages,
    storage: &mut Storage,
    caller: Caller,
    call: NodeCall,
) -> Result<NodeReply, AllocError>
    requires slot { caller.slot < length audit.old.trails }
    requires stands { StandsForTrail caller.slot home.now part.old
        (trail_of caller.slot audit.old.trails) storage.old.store storage.old.outbox }
    requires fits { IsTrue (fits (place_under home.now part.old.terms) call) }
    ensures turn { IfOk result (λ reply. IsPartTurn home.now part.old.terms caller.moment call reply
        (trail_of caller.slot audit.old.trails) (trail_of caller.slot audit.new.trails)) }
    ensures noted { IfOk result (λ reply.
        JoinsAudit caller.slot caller.moment call reply audit.old.trails audit.new.trails) }
    ensures stands { StandsForTrail caller.slot home.now part.new
        (trail_of caller.slot audit.new.trails) storage.new.store storage.new.outbox }
    ensures others { OthersStay caller.slot storage.old.store storage.old.outbox storage.new.store
        storage.new.outbox }
    ensures terms { part.new.terms ≡ part.old.terms }
    ensures err { OnErr result (audit.new.trails ≡ audit.old.trails) }
    ensures room { OnErr result
        (HasPartRoom home.now part.old (trail_of caller.slot audit.old.trails)) }
{
    if parts::is_audit_full(audit, caller.slot, part) {
        return Ok(NodeReply::Refused(Fault::AuditFull));
    }
    audit.reserve(caller.slot)?;
    let now = part.moment.max(caller.moment);
    let answered = calls::act(
        alloc,
        home,
        &part.terms,
        &mut part.counters,
        storage,
        Caller {
            slot: caller.slot,
            moment: now,
        },
        call,
    )?;
    part.moment = now;
    let row = AuditRow::new(caller.moment, answered.kept);
    audit.push(caller.slot, row);
    Ok(answered.told)
}
