//! Direct calls, with memory enough, and their answers.
ghost use Rattle.std.specs.Prelude.{◌≡◌, ◌<◌};

use crate::entries::{entry, key, version};
use cops_store::{InUse, Store};
use cops_types::{Fault, Quota, Record, RequestError};
use std::alloc::Global;
use std::process::Abort;

pub(crate) const QUOTA: Quota = Quota {
    versions: 100,
    bytes: 10000,
    outbox: 10,
    contexts: 4,
    deps: 20,
    actors: 8,
    audit: 1000,
};

pub(crate) fn store(rt: &impl Abort, alloc: Global, tenants: usize) -> Store
    ensures { result.tenants ≡ tenants }
{
    Store::new(alloc, tenants).expect(rt, "memory")
}

/// Inserts within the quota that all tests have.
pub(crate) fn keep(
    rt: &impl Abort,
    alloc: Global,
    store: &mut Store,
    slot: usize,
    name: &[u8],
    clock: u64,
    now: u64,
)
    requires { slot < store.old.tenants }
    ensures { store.new.tenants ≡ store.old.tenants }
{
    try_keep(rt, alloc, store, slot, name, clock, now).expect(rt, "room");
}

/// Inserts directly after a `reserve`.
fn try_keep(
    rt: &impl Abort,
    alloc: Global,
    store: &mut Store,
    slot: usize,
    name: &[u8],
    clock: u64,
    now: u64,
) -> Result<(), RequestError>
    requires { slot < store.old.tenants }
    ensures { store.new.tenants ≡ store.old.tenants }
{
    let kept = entry(rt, alloc, name, clock);
    store.reserve(slot, &kept.key())?;
    match store.exactly(slot, &kept.key(), kept.version()) {
        None => {}
        Some(_) => panic!(rt; "a version is kept once"),
    }
    store.insert(slot, kept, now, &QUOTA)
}

/// Returns the clock of what was found; 0 if nothing was.
pub(crate) fn clock(found: Option<&Record>) -> u64 {
    match found {
        Some(record_of) => record_of.version().clock(),
        None => 0,
    }
}

pub(crate) fn assert_in_use(rt: &impl Abort, used: InUse, records: u64, bytes: u64) {
    assert_eq!(rt; used.records, records);
    assert_eq!(rt; used.bytes, bytes);
}

fn assert_clocks(rt: &impl Abort, store: &Store, slot: usize, name: &[u8], there: &[u64]) {
    let name = key(rt, name);
    for sought in 0..10 {
        let found = store.exactly(slot, &name, version(rt, sought));
        let wanted = if there.contains(&sought) { sought } else { 0 };
        assert_eq!(rt; clock(found), wanted, "version {sought}");
    }
}

/// Collects and asserts how many records go.
pub(crate) fn collect(
    rt: &impl Abort,
    store: &mut Store,
    slot: usize,
    now: u64,
    time: u64,
    count: u64,
)
    requires { slot < store.old.tenants }
    ensures { store.new.tenants ≡ store.old.tenants }
{
    assert_eq!(rt; store.collect(slot, now, time), count);
}

/// Versions 1 and 2 of x, the first stale since timestamp 9.
fn with_a_smaller_version(rt: &impl Abort, alloc: Global) -> Store
    ensures { result.tenants ≡ 2 }
{
    let mut store = store(rt, alloc, 2);
    keep(rt, alloc, &mut store, 0, b"x", 2, 5);
    keep(rt, alloc, &mut store, 0, b"x", 1, 9);
    store
}

#[test]
fn a_smaller_version_that_comes_later(rt: HostRuntime) {
    let store = with_a_smaller_version(&rt, rt.alloc());
    assert_eq!(rt; clock(store.latest(0, &key(&rt, b"x"))), 2);
    assert_eq!(rt; clock(store.latest(1, &key(&rt, b"x"))), 0);
    assert_clocks(&rt, &store, 0, b"x", &[1, 2]);
    assert_in_use(&rt, store.in_use(0), 2, 6);
}

#[test]
fn a_smaller_version_is_stale_from_then_on(rt: HostRuntime) {
    let mut store = with_a_smaller_version(&rt, rt.alloc());
    collect(&rt, &mut store, 0, 109, 100, 0);
    assert_clocks(&rt, &store, 0, b"x", &[1, 2]);
    collect(&rt, &mut store, 0, 110, 100, 1);
    assert_clocks(&rt, &store, 0, b"x", &[2]);
    assert_in_use(&rt, store.in_use(0), 1, 3);
}

/// Versions 1 and 2 of x in each slot: the first is stale since 500 in slot 0, and since 1 in slot 1.
fn with_one_key_in_two_slots(rt: &impl Abort, alloc: Global) -> Store
    ensures { result.tenants ≡ 2 }
{
    let mut store = store(rt, alloc, 2);
    keep(rt, alloc, &mut store, 0, b"x", 1, 500);
    keep(rt, alloc, &mut store, 0, b"x", 2, 500);
    keep(rt, alloc, &mut store, 1, b"x", 1, 1);
    keep(rt, alloc, &mut store, 1, b"x", 2, 1);
    store
}

#[test]
fn two_slots_with_one_key(rt: HostRuntime) {
    let mut store = with_one_key_in_two_slots(&rt, rt.alloc());
    collect(&rt, &mut store, 1, 101, 100, 0);
    collect(&rt, &mut store, 1, 102, 100, 1);
    collect(&rt, &mut store, 0, 600, 100, 0);
    collect(&rt, &mut store, 0, 601, 100, 1);
}

/// A short and a long key of two slots, in turn.
fn with_keys_in_turn(rt: &impl Abort, alloc: Global) -> Store
    ensures { result.tenants ≡ 2 }
{
    let mut store = store(rt, alloc, 2);
    keep(rt, alloc, &mut store, 0, b"a", 1, 5);
    keep(rt, alloc, &mut store, 1, b"a", 2, 5);
    keep(rt, alloc, &mut store, 0, b"a_key_of_more_bytes", 3, 5);
    keep(rt, alloc, &mut store, 1, b"a_key_of_more_bytes", 4, 5);
    store
}

/// Asserts the latest clock of a slot's short and long key.
fn assert_latest(rt: &impl Abort, store: &Store, slot: usize, short: u64, long: u64) {
    assert_eq!(rt; clock(store.latest(slot, &key(rt, b"a"))), short);
    assert_eq!(rt;
        clock(store.latest(slot, &key(rt, b"a_key_of_more_bytes"))),
        long
    );
}

#[test]
fn a_dropped_slot_leaves_the_keys_between_its_own(rt: HostRuntime) {
    let mut store = with_keys_in_turn(&rt, rt.alloc());
    store.drop_slot(0);
    assert_latest(&rt, &store, 0, 0, 0);
    assert_latest(&rt, &store, 1, 2, 4);
    assert_in_use(&rt, store.in_use(0), 0, 0);
    assert_in_use(&rt, store.in_use(1), 2, 24);
}

#[test]
fn a_dropped_slot_is_used_again(rt: HostRuntime) {
    let mut store = with_keys_in_turn(&rt, rt.alloc());
    store.drop_slot(0);
    keep(&rt, rt.alloc(), &mut store, 0, b"a_key_of_more_bytes", 6, 9);
    store.drop_slot(1);
    assert_latest(&rt, &store, 0, 0, 6);
    assert_latest(&rt, &store, 1, 0, 0);
}
