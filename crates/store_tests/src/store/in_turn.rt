//! Two slots whose garbage-collection entries come in turn.
ghost use Rattle.std.specs.Prelude.{◌≡◌, ◌<◌};

use crate::store::records::{assert_in_use, collect, keep, store};
use cops_store::Store;
use std::alloc::Global;
use std::process::Abort;

/// Keeps versions 1 and 2 of a key: the first is stale since `now`.
fn keep_stale(rt: &impl Abort, alloc: Global, store: &mut Store, slot: usize, name: &[u8], now: u64)
    requires { slot < store.old.tenants }
    ensures { store.new.tenants ≡ store.old.tenants }
{
    keep(rt, alloc, store, slot, name, 1, now);
    keep(rt, alloc, store, slot, name, 2, now);
}

/// Stale records of x and y in both slots, since 5, 6, 7 and 8, the slots in turn.
fn with_entries_in_turn(rt: &impl Abort, alloc: Global) -> Store
    ensures { result.tenants ≡ 2 }
{
    let mut store = store(rt, alloc, 2);
    keep_stale(rt, alloc, &mut store, 0, b"x", 5);
    keep_stale(rt, alloc, &mut store, 1, b"x", 6);
    keep_stale(rt, alloc, &mut store, 0, b"y", 7);
    keep_stale(rt, alloc, &mut store, 1, b"y", 8);
    store
}

#[test]
fn a_collection_passes_the_entries_of_the_other_slot(rt: HostRuntime) {
    let mut store = with_entries_in_turn(&rt, rt.alloc());
    collect(&rt, &mut store, 0, 108, 100, 2);
    assert_in_use(&rt, store.in_use(0), 2, 6);
    assert_in_use(&rt, store.in_use(1), 4, 12);
}

#[test]
fn a_collection_removes_what_is_due_alone(rt: HostRuntime) {
    let mut store = with_entries_in_turn(&rt, rt.alloc());
    collect(&rt, &mut store, 1, 107, 100, 1);
    collect(&rt, &mut store, 1, 108, 100, 0);
    collect(&rt, &mut store, 1, 109, 100, 1);
    assert_in_use(&rt, store.in_use(0), 4, 12);
}

#[test]
fn each_of_two_slots_is_collected_in_turn(rt: HostRuntime) {
    let mut store = with_entries_in_turn(&rt, rt.alloc());
    collect(&rt, &mut store, 0, 107, 100, 1);
    collect(&rt, &mut store, 1, 107, 100, 1);
    collect(&rt, &mut store, 0, 200, 100, 1);
    collect(&rt, &mut store, 1, 200, 100, 1);
}

#[test]
fn a_dropped_slot_leaves_the_entries_between_its_own(rt: HostRuntime) {
    let mut store = with_entries_in_turn(&rt, rt.alloc());
    store.drop_slot(0);
    collect(&rt, &mut store, 0, 200, 100, 0);
    collect(&rt, &mut store, 1, 200, 100, 2);
    assert_in_use(&rt, store.in_use(1), 2, 6);
}
