//! Compares two calls or two replies. No list is unpacked, and nothing is allocated.
ghost use Rattle.std.specs.Prelude.{◌≡◌, ◌↔◌, IsTrue};
ghost use Rattle.std.specs.Cmp.{partial_equiv_from_equiv};
ghost use Rattle.cops_types.specs.Same.{same_equivalence};
ghost use Rattle.cops_model.specs.Same.{call_eq, reply_eq, same_calls, same_replies};

use crate::{NodeCall, NodeReply, Wanted};
use cops_types::{Fault, Key, Value, Version};

fn is_same_version(version: Version, other: Version) -> bool
    ensures { IsTrue result ↔ (version ≡ other) }
{
    version == other
}

fn is_same_key(key: &Key, other: &Key) -> bool
    ensures { IsTrue result ↔ (key.now ≡ other.now) }
{
    *key == *other
}

fn is_same_value(value: &Value, other: &Value) -> bool
    ensures { IsTrue result ↔ (value.now ≡ other.now) }
{
    *value == *other
}

fn is_same_fault(fault: Fault, other: Fault) -> bool
    ensures { IsTrue result ↔ (fault ≡ other) }
{
    fault == other
}

fn is_same_wanted(wanted: Wanted, other: Wanted) -> bool
    ensures { IsTrue result ↔ (wanted ≡ other) }
{
    match wanted {
        Wanted::Latest => matches!(other, Wanted::Latest),
        Wanted::Exactly(version) => match other {
            Wanted::Exactly(other_version) => is_same_version(version, other_version),
            _ => false
        },
    }
}

fn is_same_call(call: &NodeCall, other: &NodeCall) -> bool
    ensures { IsTrue result ↔ (call.now ≡ other.now) }
{
    match call {
        NodeCall::Get(key, wanted) => match other {
            NodeCall::Get(other_key, other_wanted) => is_same_key(key, other_key)
                && is_same_wanted(*wanted, *other_wanted),
            _ => false
        },
        NodeCall::Put(key, value, deps, near) => match other {
            NodeCall::Put(other_key, other_value, other_deps, other_near) => is_same_key(
                key, other_key,
            ) && is_same_value(value, other_value)
                && *deps == *other_deps
                && *near == *other_near,
            _ => false
        },
        NodeCall::DepCheck(key, version) => match other {
            NodeCall::DepCheck(other_key, other_version) => is_same_key(key, other_key)
                && is_same_version(*version, *other_version),
            _ => false
        },
        NodeCall::Pull(dc) => match other {
            NodeCall::Pull(other_dc) => *dc == *other_dc,
            _ => false
        },
        NodeCall::Commit(entry) => match other {
            NodeCall::Commit(other_entry) => *entry == *other_entry,
            _ => false
        },
        NodeCall::Ack(dc, version) => match other {
            NodeCall::Ack(other_dc, other_version) => *dc == *other_dc
                && is_same_version(*version, *other_version),
            _ => false
        },
        NodeCall::Collect => matches!(other, NodeCall::Collect),
    }
}

fn is_same_reply(reply: &NodeReply, other: &NodeReply) -> bool
    ensures { IsTrue result ↔ (reply.now ≡ other.now) }
{
    match reply {
        NodeReply::Found(found) => match other {
            NodeReply::Found(other_found) => *found == *other_found,
            _ => false
        },
        NodeReply::Absent => matches!(other, NodeReply::Absent),
        NodeReply::Gone(now) => match other {
            NodeReply::Gone(other_now) => *now == *other_now,
            _ => false
        },
        NodeReply::NotYet => matches!(other, NodeReply::NotYet),
        NodeReply::Stored(version) => match other {
            NodeReply::Stored(other_version) => is_same_version(*version, *other_version),
            _ => false
        },
        NodeReply::Checked(told) => match other {
            NodeReply::Checked(other_told) => *told == *other_told,
            _ => false
        },
        NodeReply::Pulled(entry) => match other {
            NodeReply::Pulled(other_entry) => *entry == *other_entry,
            _ => false
        },
        NodeReply::Nothing => matches!(other, NodeReply::Nothing),
        NodeReply::Committed => matches!(other, NodeReply::Committed),
        NodeReply::Already => matches!(other, NodeReply::Already),
        NodeReply::OutOfOrder(mark) => match other {
            NodeReply::OutOfOrder(other_mark) => is_same_version(*mark, *other_mark),
            _ => false
        },
        NodeReply::Acked => matches!(other, NodeReply::Acked),
        NodeReply::NotFront => matches!(other, NodeReply::NotFront),
        NodeReply::Removed(count) => match other {
            NodeReply::Removed(other_count) => *count == *other_count,
            _ => false
        },
        NodeReply::Refused(fault) => match other {
            NodeReply::Refused(other_fault) => is_same_fault(*fault, *other_fault),
            _ => false
        },
    }
}

impl PartialEq for NodeCall {
    ghost eq = { call_eq };

    ghost laws = { partial_equiv_from_equiv (same_equivalence same_calls) };

    fn eq(&self, other: &NodeCall) -> bool
        ensures value { result ≡ call_eq self.now other.now }
        ensures exact { IsTrue result ↔ (self.now ≡ other.now) }
    {
        is_same_call(self, other)
    }
}

impl Eq for NodeCall {
    ghost laws = { same_equivalence same_calls };
}

impl PartialEq for NodeReply {
    ghost eq = { reply_eq };

    ghost laws = { partial_equiv_from_equiv (same_equivalence same_replies) };

    fn eq(&self, other: &NodeReply) -> bool
        ensures value { result ≡ reply_eq self.now other.now }
        ensures exact { IsTrue result ↔ (self.now ≡ other.now) }
    {
        is_same_reply(self, other)
    }
}

impl Eq for NodeReply {
    ghost laws = { same_equivalence same_replies };
}
