use crate::pairs::{assert_deps, assert_near, deps, near, pair};
use cops_types::{Deps, Entry, EntryParts, Fault, NearBuilder, RequestError, Value, Version};
use std::alloc::Global;
use std::process::Abort;
use std::thread;
use std::thread::Threads;

#[test]
fn versions(rt: HostRuntime) {
    assert!(rt; Version::of(1, 0).to_u64() == 65536);
    assert!(rt; matches!(Version::next(0, 1, 1), Ok(version) if version.to_u64() == 2 * 65536 + 1));
    assert!(rt; matches!(Version::next(5, 3, 2), Ok(version) if version.to_u64() == 6 * 65536 + 2));
    let last = Version::next(281474976710655, 0, 0);
    assert!(rt; matches!(last, Err(Fault::ClockFull)));
}

/// Versions 2.1 of x and 1.0 of y.
fn newer_x_and_y(rt: &impl Abort, alloc: Global) -> Deps {
    deps(rt, alloc, &[pair(rt, b"x", 2, 1), pair(rt, b"y", 1, 0)])
}

#[test]
fn a_join_over_the_limit_changes_nothing(rt: HostRuntime) {
    let x = pair(&rt, b"x", 1, 0);
    let more = newer_x_and_y(&rt, rt.alloc());
    let mut list = deps(&rt, rt.alloc(), &[x]);
    assert!(rt;
        matches!(
            list.join(&more, 1),
            Err(RequestError::Refused(Fault::DependenciesFull))
        )
    );
    assert_deps(&rt, &list, &[x]);
}

#[test]
fn a_join_keeps_the_greatest_versions(rt: HostRuntime) {
    let more = newer_x_and_y(&rt, rt.alloc());
    let mut list = deps(&rt, rt.alloc(), &[pair(&rt, b"x", 1, 0)]);
    list.join(&more, 2).expect(&rt, "room");
    assert_deps(&rt, &list, &[pair(&rt, b"x", 2, 1), pair(&rt, b"y", 1, 0)]);
}

#[test]
fn a_newer_version_takes_the_place_of_the_older(rt: HostRuntime) {
    let mut list = deps(&rt, rt.alloc(), &[pair(&rt, b"x", 1, 0)]);
    list.add(pair(&rt, b"x", 2, 0), 1).expect(&rt, "room");
    assert_deps(&rt, &list, &[pair(&rt, b"x", 2, 0)]);
}

/// The nearest pairs: versions 1.0 and 2.0 of x.
fn two_nearest(rt: &impl Abort, alloc: Global) -> NearBuilder {
    let mut near = NearBuilder::empty(alloc);
    near.add(pair(rt, b"x", 2, 0), 2).expect(rt, "room");
    near.add(pair(rt, b"x", 1, 0), 2).expect(rt, "room");
    near
}

#[test]
fn nearest_pairs_are_in_order(rt: HostRuntime) {
    let near = two_nearest(&rt, rt.alloc());
    let kept = near.to_near().expect(&rt, "memory");
    assert_near(&rt, &kept, &[pair(&rt, b"x", 1, 0), pair(&rt, b"x", 2, 0)]);
}

#[test]
fn nearest_pairs_have_a_limit(rt: HostRuntime) {
    let mut near = two_nearest(&rt, rt.alloc());
    near.add(pair(&rt, b"x", 1, 0), 2)
        .expect(&rt, "the pair is there");
    let refused = near.add(pair(&rt, b"y", 1, 0), 2);
    assert!(rt; matches!(refused, Err(RequestError::Refused(Fault::DependenciesFull))));
    assert!(rt; near.len() == 2);
}

#[test]
fn nearest_pairs_that_are_held_are_dropped(rt: HostRuntime) {
    let mut near = two_nearest(&rt, rt.alloc());
    let held = deps(
        &rt,
        rt.alloc(),
        &[pair(&rt, b"x", 2, 0), pair(&rt, b"y", 1, 0)],
    );
    near.drop_held(held.owned());
    let kept = near.to_near().expect(&rt, "memory");
    assert_near(&rt, &kept, &[pair(&rt, b"x", 1, 0)]);
}

/// A thing of this type may be sent to a thread, and be read by several at once.
fn is_for_threads<T: Send + Sync>(_thing: &T) -> bool {
    true
}

fn entry_of(rt: &impl Abort, alloc: Global) -> Entry {
    let only = [pair(rt, b"k", 1, 0)];
    let (deps, near) = (deps(rt, alloc, &only), near(rt, alloc, &only));
    let parts = EntryParts {
        key: pair(rt, b"k", 2, 0).key,
        version: Version::of(2, 0),
        value: Value::new(alloc, &[1, 2, 3]).expect(rt, "a value"),
        deps,
        near,
        prev: Version::none(),
    };
    Entry::new(alloc, parts).expect(rt, "memory")
}

fn size_of_entry(entry: &Entry) -> usize {
    entry.value().len()
}

/// One thread reads a copy and drops it, while this one reads the entry.
fn read_by_two(rt: &impl Threads, entry: Entry, copy: Entry) -> (usize, usize) {
    thread::join(rt, move || size_of_entry(&copy), || size_of_entry(&entry))
}

#[test]
fn copies_are_for_threads(rt: HostRuntime) {
    let entry = entry_of(&rt, rt.alloc());
    assert!(rt; is_for_threads(&entry));
    let copy = entry.copy(rt.alloc()).expect(&rt, "memory");
    let (one, other) = read_by_two(&rt, entry, copy);
    assert!(rt; one == 3 && other == 3);
}

#[test]
fn what_an_entry_shares_outlives_it(rt: HostRuntime) {
    let entry = entry_of(&rt, rt.alloc());
    let value = entry.shared_value(rt.alloc()).expect(&rt, "memory");
    let deps = entry.shared_deps(rt.alloc()).expect(&rt, "memory");
    let near = entry.shared_near(rt.alloc()).expect(&rt, "memory");
    drop(entry);
    let only = [pair(&rt, b"k", 1, 0)];
    assert!(rt; value.bytes() == [1, 2, 3].as_slice());
    assert_deps(&rt, &deps, &only);
    assert_near(&rt, &near, &only);
}
