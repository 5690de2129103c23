//! Work items of lives that have ended.
use crate::notes::{Notes, TenantNode, Visit};
use crate::tests::config;
use cops_node::NodeId;
use std::alloc::Global;
use std::process::Abort;
use std::sync::Wait;
use std::time::{Clock, Duration};

// Returns a place of the first slot, in this life.
fn place_in(life: u64) -> TenantNode {
    let id = NodeId { dc: 0, shard: 0 };
    TenantNode { slot: 0, life, id }
}

// Takes what is listed now.
fn take<R: Wait + Clock + Abort>(rt: &R, alloc: Global, notes: &Notes) -> Vec<Visit> {
    let mut taken = notes.grown.room(alloc).expect(rt, "memory");
    let _ = notes
        .grown
        .take(rt, &mut taken, Some(Duration::from_millis(0)));
    taken
}

// Asserts that one item is listed, of this life.
fn assert_listed<R: Wait + Clock + Abort>(rt: &R, alloc: Global, notes: &Notes, life: u64) {
    let taken = take(rt, alloc, notes);
    assert!(rt; taken.len() == 1);
    assert!(rt; taken.first().is_some_and(|visit| visit.place.life == life));
}

#[test]
fn an_ended_life_lists_nothing_over_a_later_one(rt: HostRuntime) {
    let config = config(&rt, rt.alloc(), 2);
    let notes = Notes::new(rt.alloc(), &config).expect(&rt, "memory");
    notes.committed(&rt, place_in(1));
    notes.committed(&rt, place_in(2));
    notes.committed(&rt, place_in(1));
    assert_listed(&rt, rt.alloc(), &notes, 2);
    notes.committed(&rt, place_in(1));
    assert!(&rt; take(&rt, rt.alloc(), &notes).is_empty());
    notes.committed(&rt, place_in(2));
    assert_listed(&rt, rt.alloc(), &notes, 2);
}
