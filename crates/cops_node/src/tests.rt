use crate::test_nodes::{
    QUOTA, Short, acknowledge, ask, audit_len, check, commit, get, in_short, latest, one_of_two,
    put, refused, says, says_at,
};
use crate::{Node, NodeCall};
use cops_types::{Fault, Quota};
use std::alloc::Global;
use std::process::Abort;

#[test]
fn a_commit_at_the_last_clock(rt: HostRuntime) {
    let alloc = rt.alloc();
    let mut node = one_of_two(&rt, alloc, 1, 0, QUOTA);
    let last = commit(&rt, alloc, 281474976710655, 0);
    says(&rt, &mut node, 0, last, ("committed", 0));
    says(
        &rt,
        &mut node,
        0,
        put(&rt, alloc, b"x"),
        refused(Fault::ClockFull),
    );
    says(&rt, &mut node, 1, put(&rt, alloc, b"x"), ("stored", 65537));
}

fn copy_of(rt: &impl Abort, alloc: Global, call: &NodeCall) -> NodeCall {
    match call.copy(alloc) {
        Ok(copy) => copy,
        Err(_) => call.copy(alloc).expect(rt, "memory"),
    }
}

/// Makes the call and asserts the reply. If memory runs out, which leaves the node as it was, makes
/// the call again.
fn insists(
    rt: &impl Abort,
    alloc: Global,
    node: &mut Node,
    moment: u64,
    call: NodeCall,
    said: Short,
) {
    let before = audit_len(rt, node, 0);
    let again = copy_of(rt, alloc, &call);
    let reply = in_short(&ask(rt, node, 0, moment, call));
    if reply == refused(Fault::OutOfMemory) {
        assert_eq!(rt; audit_len(rt, node, 0), before);
        says_at(rt, node, 0, moment, again, said);
    } else {
        assert_eq!(rt; reply, said);
    }
}

/// Returns each allocation of the calls may fail; then the call is made again.
#[test]
fn calls_under_want_of_memory(rt: HostRuntime) {
    let alloc = rt.alloc();
    let mut node = one_of_two(&rt, alloc, 0, 0, QUOTA);
    insists(
        &rt,
        alloc,
        &mut node,
        1,
        put(&rt, alloc, b"x"),
        ("stored", 65536),
    );
    insists(
        &rt,
        alloc,
        &mut node,
        1,
        latest(&rt, b"x"),
        ("found", 65536),
    );
    insists(
        &rt,
        alloc,
        &mut node,
        1,
        get(&rt, b"x", 1, 0),
        ("found", 65536),
    );
    insists(&rt, alloc, &mut node, 1, check(&rt, 1), ("checked", 1));
    insists(&rt, alloc, &mut node, 1, NodeCall::Pull(1), ("pulled", 0));
    insists(
        &rt,
        alloc,
        &mut node,
        1,
        put(&rt, alloc, b"x"),
        ("stored", 131072),
    );
    insists(
        &rt,
        alloc,
        &mut node,
        1,
        acknowledge(&rt, 1),
        ("acknowledged", 0),
    );
    insists(
        &rt,
        alloc,
        &mut node,
        6000,
        NodeCall::Collect,
        ("removed", 1),
    );
}

/// Returns each allocation of the calls may fail; then the call is made again.
#[test]
fn commits_under_want_of_memory(rt: HostRuntime) {
    let alloc = rt.alloc();
    let mut node = one_of_two(&rt, alloc, 1, 0, QUOTA);
    insists(
        &rt,
        alloc,
        &mut node,
        1,
        commit(&rt, alloc, 1, 0),
        ("committed", 0),
    );
    insists(
        &rt,
        alloc,
        &mut node,
        1,
        commit(&rt, alloc, 1, 0),
        ("already", 0),
    );
}

/// Returns the reply at an index of the audit; tries again if memory runs out.
fn audited(rt: &impl Abort, alloc: Global, node: &Node, place: u64) -> Short {
    assert!(rt; 0 < node.slots());
    let row = node.audit(0, place).expect(rt, "a call");
    match row.entry(alloc) {
        Ok(entry) => in_short(&entry.reply),
        Err(_) => in_short(&row.entry(alloc).expect(rt, "memory").reply),
    }
}

/// A row with a long key, and one of a refusal, allocate memory, and this may fail.
#[test]
fn rows_in_full_under_want_of_memory(rt: HostRuntime) {
    let alloc = rt.alloc();
    let quota = Quota { outbox: 1, ..QUOTA };
    let mut node = one_of_two(&rt, alloc, 0, 0, quota);
    let long = b"a_key_of_more_than_15_bytes";
    let first = put(&rt, alloc, long);
    insists(&rt, alloc, &mut node, 1, first, ("stored", 65536));
    let full = refused(Fault::OutboxFull);
    insists(&rt, alloc, &mut node, 1, put(&rt, alloc, long), full);
    insists(
        &rt,
        alloc,
        &mut node,
        1,
        get(&rt, long, 9, 0),
        ("not yet", 0),
    );
    assert_eq!(rt; audited(&rt, alloc, &node, 0), ("stored", 65536));
    assert_eq!(rt; audited(&rt, alloc, &node, 1), full);
    assert_eq!(rt; audited(&rt, alloc, &node, 2), ("not yet", 0));
}

/// No allocation comes before the test on the audit.
#[test]
fn a_full_audit_under_want_of_memory(rt: HostRuntime) {
    let alloc = rt.alloc();
    let quota = Quota { audit: 1, ..QUOTA };
    let mut node = one_of_two(&rt, alloc, 0, 0, quota);
    let full = refused(Fault::AuditFull);
    insists(&rt, alloc, &mut node, 1, check(&rt, 1), ("checked", 0));
    says(&rt, &mut node, 0, check(&rt, 1), full);
    says(&rt, &mut node, 0, put(&rt, alloc, b"x"), full);
    assert_eq!(rt; audit_len(&rt, &node, 0), 1);
}

/// Returns a node to which x was sent twice, the second entry first.
fn after_two_commits(rt: &impl Abort, alloc: Global) -> Node {
    let mut node = one_of_two(rt, alloc, 1, 0, QUOTA);
    let early = commit(rt, alloc, 2, 1);
    says(rt, &mut node, 0, early, ("out of order", 0));
    says(rt, &mut node, 0, commit(rt, alloc, 1, 0), ("committed", 0));
    says(rt, &mut node, 0, commit(rt, alloc, 2, 1), ("committed", 0));
    node
}

#[test]
fn commits_in_order(rt: HostRuntime) {
    let alloc = rt.alloc();
    let mut node = after_two_commits(&rt, alloc);
    let other = commit(&rt, alloc, 4, 3);
    says(&rt, &mut node, 0, other, ("out of order", 131072));
    says(&rt, &mut node, 0, commit(&rt, alloc, 1, 0), ("already", 0));
    assert_eq!(rt; audit_len(&rt, &node, 0), 5);
    assert_eq!(rt; audit_len(&rt, &node, 1), 0);
}

#[test]
fn commits_are_known_to_checks(rt: HostRuntime) {
    let mut node = after_two_commits(&rt, rt.alloc());
    says(&rt, &mut node, 0, check(&rt, 2), ("checked", 1));
    says(&rt, &mut node, 0, check(&rt, 3), ("checked", 0));
    says(&rt, &mut node, 1, check(&rt, 2), ("checked", 0));
    says(&rt, &mut node, 0, get(&rt, b"x", 3, 0), ("not yet", 0));
}

/// The first version is stale once the second is there. It is collected when no transaction can ask for
/// it any more; whoever asks later is answered that it is gone, and at which timestamp.
#[test]
fn a_collected_version_is_gone(rt: HostRuntime) {
    let mut node = after_two_commits(&rt, rt.alloc());
    says(&rt, &mut node, 0, get(&rt, b"x", 1, 0), ("found", 65536));
    says_at(&rt, &mut node, 0, 5000, NodeCall::Collect, ("removed", 0));
    says_at(&rt, &mut node, 0, 5001, NodeCall::Collect, ("removed", 1));
    says_at(&rt, &mut node, 0, 7, get(&rt, b"x", 1, 0), ("gone", 5001));
    says(&rt, &mut node, 0, get(&rt, b"x", 2, 0), ("found", 131072));
}
