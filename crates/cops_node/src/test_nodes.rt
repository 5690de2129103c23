//! Nodes and calls in few words, and short forms of replies.
use crate::{Node, NodeCall, NodeId, NodeReply, Wanted, has_clocks};
use cops_types::{
    Config, Deps, Entry, EntryParts, Fault, Key, Name, Near, Quota, RequestError, Tenant, Tenants,
    Value, Version,
};
use std::alloc::Global;
use std::process::Abort;
use uuid::Uuid;

pub(crate) const QUOTA: Quota = Quota {
    versions: 100,
    bytes: 10000,
    outbox: 10,
    contexts: 4,
    deps: 20,
    actors: 8,
    audit: 1000,
};

pub(crate) fn tenant(
    rt: &impl Abort,
    name: &[u8],
    last: u8,
    first_clock: u64,
    quota: Quota,
) -> Tenant {
    let mut token = [0; 16];
    token[15] = last;
    Tenant {
        name: Name::new(name).expect(rt, "a name"),
        token: Uuid::from_bytes(token),
        first_clock,
        quota,
    }
}

fn join(rt: &impl Abort, tenants: &mut Tenants, tenant: Tenant) {
    assert!(rt; tenants.is_distinct(&tenant));
    tenants.push(tenant).expect(rt, "memory");
}

/// Two tenants, in clusters of one shard.
pub(crate) fn config(
    rt: &impl Abort,
    alloc: Global,
    data_centres: u64,
    first_clock: u64,
    quota: Quota,
) -> Config {
    let mut tenants = Tenants::new(alloc);
    join(rt, &mut tenants, tenant(rt, b"acme", 1, first_clock, quota));
    join(rt, &mut tenants, tenant(rt, b"beta", 2, 0, quota));
    Config {
        data_centres,
        shards: 1,
        trans_time: 5000,
        restarts: 1,
        tenants,
    }
}

/// Returns the node of a data centre of two.
pub(crate) fn one_of_two(
    rt: &impl Abort,
    alloc: Global,
    dc: u64,
    first_clock: u64,
    quota: Quota,
) -> Node {
    let tenants = config(rt, alloc, 2, first_clock, quota).tenants;
    let config = Config {
        data_centres: 2,
        shards: 1,
        trans_time: 5000,
        restarts: 1,
        tenants,
    };
    assert!(rt; has_clocks(&config) && dc < 2);
    Node::new(alloc, &config, NodeId { dc, shard: 0 }).expect(rt, "memory")
}

/// Returns the one node of a cluster that has acme alone.
pub(crate) fn with_acme_alone(rt: &impl Abort, alloc: Global) -> Node {
    let mut tenants = Tenants::new(alloc);
    join(rt, &mut tenants, tenant(rt, b"acme", 1, 0, QUOTA));
    let config = Config {
        data_centres: 1,
        shards: 1,
        trans_time: 5000,
        restarts: 1,
        tenants,
    };
    assert!(rt; has_clocks(&config));
    Node::new(alloc, &config, NodeId { dc: 0, shard: 0 }).expect(rt, "memory")
}

/// Admits a tenant, again if memory ran out.
pub(crate) fn admit(rt: &impl Abort, node: &mut Node, slot: u64) -> Result<(), RequestError> {
    match node.admit(slot, 0, QUOTA) {
        Err(RequestError::OutOfMemory) => node.admit(slot, 0, QUOTA),
        said => said,
    }
}

pub(crate) fn ask(
    rt: &impl Abort,
    node: &mut Node,
    slot: u64,
    moment: u64,
    call: NodeCall,
) -> NodeReply {
    assert!(rt; node.fits(&call));
    match node.step(slot, moment, call) {
        Ok(reply) => reply,
        Err(_) => NodeReply::Refused(Fault::OutOfMemory),
    }
}

pub(crate) fn audit_len(rt: &impl Abort, node: &Node, slot: u64) -> u64 {
    assert!(rt; slot < node.slots());
    node.audit_len(slot)
}

pub(crate) fn key(rt: &impl Abort, bytes: &[u8]) -> Key {
    Key::new(bytes).expect(rt, "a key")
}

pub(crate) fn version(rt: &impl Abort, clock: u64, node: u64) -> Version {
    assert!(rt; clock <= Version::LAST_CLOCK && node < Version::NODES);
    Version::of(clock, node)
}

pub(crate) fn put(rt: &impl Abort, alloc: Global, name: &[u8]) -> NodeCall {
    NodeCall::Put(
        key(rt, name),
        Value::new(alloc, b"10").expect(rt, "a value"),
        Deps::empty(alloc),
        Near::empty(alloc),
    )
}

pub(crate) fn latest(rt: &impl Abort, name: &[u8]) -> NodeCall {
    NodeCall::Get(key(rt, name), Wanted::Latest)
}

/// Checks whether this version of x is here.
pub(crate) fn check(rt: &impl Abort, clock: u64) -> NodeCall {
    NodeCall::DepCheck(key(rt, b"x"), version(rt, clock, 0))
}

/// Acknowledges the entry at this clock for the second data centre.
pub(crate) fn acknowledge(rt: &impl Abort, clock: u64) -> NodeCall {
    NodeCall::Ack(1, version(rt, clock, 0))
}

pub(crate) fn commit(rt: &impl Abort, alloc: Global, clock: u64, prev: u64) -> NodeCall {
    let parts = EntryParts {
        key: key(rt, b"x"),
        version: version(rt, clock, 0),
        value: Value::new(alloc, b"10").expect(rt, "a value"),
        deps: Deps::empty(alloc),
        near: Near::empty(alloc),
        prev: version(rt, prev, 0),
    };
    NodeCall::Commit(Entry::new(alloc, parts).expect(rt, "memory"))
}

pub(crate) fn get(rt: &impl Abort, name: &[u8], clock: u64, node: u64) -> NodeCall {
    NodeCall::Get(key(rt, name), Wanted::Exactly(version(rt, clock, node)))
}

/// A reply in short: its form, and its number, or 0.
pub(crate) type Short = (&'static str, u64);

pub(crate) fn in_short(reply: &NodeReply) -> Short {
    match reply {
        NodeReply::Found(found) => ("found", found.version().to_u64()),
        NodeReply::Absent => ("absent", 0),
        NodeReply::Gone(now) => ("gone", *now),
        NodeReply::NotYet => ("not yet", 0),
        NodeReply::Stored(version) => ("stored", version.to_u64()),
        NodeReply::Checked(is_here) => ("checked", *is_here as u64),
        NodeReply::Pulled(_) => ("pulled", 0),
        NodeReply::Nothing => ("nothing", 0),
        NodeReply::Committed => ("committed", 0),
        NodeReply::Already => ("already", 0),
        NodeReply::OutOfOrder(mark) => ("out of order", mark.to_u64()),
        NodeReply::Acked => ("acknowledged", 0),
        NodeReply::NotFront => ("not the front", 0),
        NodeReply::Removed(count) => ("removed", *count),
        NodeReply::Refused(fault) => refused(*fault),
    }
}

pub(crate) fn refused(fault: Fault) -> Short {
    ("refused", fault.number() as u64)
}

/// Makes a call at timestamp 0 and asserts the reply.
pub(crate) fn says(rt: &impl Abort, node: &mut Node, slot: u64, call: NodeCall, said: Short) {
    says_at(rt, node, slot, 0, call, said);
}

/// Makes a call and asserts the reply.
pub(crate) fn says_at(
    rt: &impl Abort,
    node: &mut Node,
    slot: u64,
    moment: u64,
    call: NodeCall,
    said: Short,
) {
    let reply = ask(rt, node, slot, moment, call);
    assert_eq!(rt; in_short(&reply), said);
}
