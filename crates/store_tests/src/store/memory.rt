//! Each allocation may fail: the store is then as it was, and the same call again is answered. Run
//! with the Nth allocation failing, for each N.
ghost use Rattle.std.specs.Prelude.{◌≡◌, ◌<◌};

use super::records::{QUOTA, assert_in_use, clock};
use crate::entries::{entry, key, version};
use cops_store::Store;
use cops_types::{Entry, RequestError};
use std::alloc::Global;
use std::process::Abort;

/// The greatest clock that is put.
const LAST: u64 = 6;

fn new_store(rt: &impl Abort, alloc: Global) -> Store
    ensures { result.tenants ≡ 2 }
{
    match Store::new(alloc, 2) {
        Ok(store) => store,
        Err(_) => Store::new(alloc, 2).expect(rt, "memory"),
    }
}

/// The slot keeps the key's versions up to this clock, and no later ones.
fn assert_kept(rt: &impl Abort, store: &Store, slot: usize, name: &[u8], last: u64) {
    let name = key(rt, name);
    for sought in 1..=LAST {
        let found = store.exactly(slot, &name, version(rt, sought));
        assert_eq!(rt; clock(found), if sought <= last { sought } else { 0 });
    }
    assert_eq!(rt; clock(store.latest(slot, &name)), last);
}

fn insert(
    rt: &impl Abort,
    alloc: Global,
    store: &mut Store,
    slot: usize,
    kept: &Entry,
) -> Result<(), RequestError>
    requires { slot < store.old.tenants }
    ensures { store.new.tenants ≡ store.old.tenants }
{
    let now = kept.version().clock();
    let copy = kept.copy(alloc).expect(rt, "shared");
    match store.exactly(slot, &copy.key(), copy.version()) {
        None => {}
        Some(_) => panic!(rt; "a version is kept once"),
    }
    store.insert(slot, copy, now, &QUOTA)
}

/// Inserts with no `reserve` before it, again if memory ran out.
fn insist(rt: &impl Abort, alloc: Global, store: &mut Store, slot: usize, kept: &Entry)
    requires { slot < store.old.tenants }
    ensures { store.new.tenants ≡ store.old.tenants }
{
    let before = store.in_use(slot);
    match insert(rt, alloc, store, slot, kept) {
        Ok(()) => {}
        Err(error) => {
            assert!(rt; error == RequestError::OutOfMemory);
            assert_in_use(rt, store.in_use(slot), before.records, before.bytes);
            assert!(rt; store.exactly(slot, &kept.key(), kept.version()).is_none());
            insert(rt, alloc, store, slot, kept).expect(rt, "memory");
        }
    }
}

/// Reserves, again if memory ran out.
fn reserve(rt: &impl Abort, store: &mut Store, slot: usize, kept: &Entry)
    requires { slot < store.old.tenants }
    ensures { store.new.tenants ≡ store.old.tenants }
{
    let before = store.in_use(slot);
    match store.reserve(slot, &kept.key()) {
        Ok(()) => {}
        Err(_) => {
            assert_in_use(rt, store.in_use(slot), before.records, before.bytes);
            store.reserve(slot, &kept.key()).expect(rt, "memory");
        }
    }
    assert_in_use(rt, store.in_use(slot), before.records, before.bytes);
}

/// One more version of the key in each slot: without a `reserve`, and after one.
fn put(rt: &impl Abort, alloc: Global, store: &mut Store, name: &[u8], clock: u64)
    requires { store.old.tenants ≡ 2 }
    ensures { store.new.tenants ≡ 2 }
{
    assert!(rt; 1 <= clock && clock <= LAST);
    let kept = entry(rt, alloc, name, clock);
    insist(rt, alloc, store, 0, &kept);
    assert_kept(rt, store, 0, name, clock);
    assert_kept(rt, store, 1, name, clock - 1);
    reserve(rt, store, 1, &kept);
    assert_kept(rt, store, 1, name, clock - 1);
    insert(rt, alloc, store, 1, &kept).expect(rt, "what was reserved");
    assert_kept(rt, store, 1, name, clock);
}

/// One more version of each key.
fn put_all(rt: &impl Abort, alloc: Global, store: &mut Store, clock: u64)
    requires { store.old.tenants ≡ 2 }
    ensures { store.new.tenants ≡ 2 }
{
    put(rt, alloc, store, b"x", clock);
    put(rt, alloc, store, b"y", clock);
    put(rt, alloc, store, b"z", clock);
}

#[test]
fn refused_growth_changes_nothing(rt: HostRuntime) {
    let alloc = rt.alloc();
    let mut store = new_store(&rt, alloc);
    put_all(&rt, alloc, &mut store, 1);
    put_all(&rt, alloc, &mut store, 2);
    put_all(&rt, alloc, &mut store, 3);
    put_all(&rt, alloc, &mut store, 4);
    put_all(&rt, alloc, &mut store, 5);
    put_all(&rt, alloc, &mut store, 6);
    assert_in_use(&rt, store.in_use(0), 18, 54);
    assert_eq!(rt; store.collect(0, 100, 0), 15);
    assert_in_use(&rt, store.in_use(0), 3, 9);
    assert_in_use(&rt, store.in_use(1), 18, 54);
}

/// Makes the slot, again if memory ran out, which leaves the store as it was.
fn admit(rt: &impl Abort, store: &mut Store, slot: usize)
    requires { slot < 64 }
    ensures { slot < store.new.tenants }
{
    match store.admit(slot) {
        Ok(()) => {}
        Err(_) => store.admit(slot).expect(rt, "memory"),
    }
}

#[test]
fn refused_slots_change_nothing(rt: HostRuntime) {
    let alloc = rt.alloc();
    let mut store = new_store(&rt, alloc);
    let kept = entry(&rt, alloc, b"x", 1);
    insist(&rt, alloc, &mut store, 1, &kept);
    admit(&rt, &mut store, 5);
    assert_in_use(&rt, store.in_use(5), 0, 0);
    insist(&rt, alloc, &mut store, 5, &kept);
    assert_in_use(&rt, store.in_use(5), 1, 3);
    assert_kept(&rt, &store, 1, b"x", 1);
}
