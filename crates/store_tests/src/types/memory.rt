//! Each allocation may fail: what the call was made on is then as it was, and the same call again
//! is answered. Run with the Nth allocation failing, for each N.
use crate::entries::{bare_found, entry, value};
use crate::pairs::{assert_deps, assert_near, pair};
use cops_types::{Deps, Near, Pair, RequestError, Version};
use std::alloc::Global;
use std::process::Abort;

const LIMIT: u64 = 20;

/// A short key.
fn x(rt: &impl Abort) -> Pair {
    pair(rt, b"x", 1, 0)
}

/// A key that is kept apart from its version.
fn long(rt: &impl Abort) -> Pair {
    pair(rt, b"a_key_of_many_letters", 2, 1)
}

/// Adds a pair to a list of these, again if memory ran out.
fn add(rt: &impl Abort, list: &mut Deps, pair: &Pair, before: &[Pair]) {
    if let Err(error) = list.add(*pair, LIMIT) {
        assert!(rt; error == RequestError::OutOfMemory);
        assert_deps(rt, list, before);
        list.add(*pair, LIMIT).expect(rt, "a second try");
    }
}

/// Adds a pair to a list of nearest ones, again if memory ran out.
fn add_near(rt: &impl Abort, list: &mut Near, pair: &Pair, before: &[Pair]) {
    if let Err(error) = list.add(*pair, LIMIT) {
        assert!(rt; error == RequestError::OutOfMemory);
        assert_near(rt, list, before);
        list.add(*pair, LIMIT).expect(rt, "a second try");
    }
}

#[test]
fn refused_memory_makes_no_value(rt: HostRuntime) {
    let made = value(&rt, rt.alloc());
    let copy = match made.copy(rt.alloc()) {
        Ok(copy) => copy,
        Err(_) => made.copy(rt.alloc()).expect(&rt, "a second try"),
    };
    assert!(rt; made.bytes() == b"10".as_slice() && copy == made);
}

#[test]
fn refused_memory_adds_no_dependency(rt: HostRuntime) {
    let mut list = Deps::empty(rt.alloc());
    add(&rt, &mut list, &x(&rt), &[]);
    add(&rt, &mut list, &long(&rt), &[x(&rt)]);
    assert_deps(&rt, &list, &[long(&rt), x(&rt)]);
}

#[test]
fn refused_memory_copies_no_dependencies(rt: HostRuntime) {
    let mut list = Deps::empty(rt.alloc());
    add(&rt, &mut list, &x(&rt), &[]);
    let copy = match list.copy(rt.alloc()) {
        Ok(copy) => copy,
        Err(_) => list.copy(rt.alloc()).expect(&rt, "a second try"),
    };
    assert_deps(&rt, &copy, &[x(&rt)]);
    assert_deps(&rt, &list, &[x(&rt)]);
}

#[test]
fn refused_memory_joins_no_dependencies(rt: HostRuntime) {
    let mut list = Deps::empty(rt.alloc());
    let mut other = Deps::empty(rt.alloc());
    add(&rt, &mut list, &x(&rt), &[]);
    add(&rt, &mut other, &long(&rt), &[]);
    if let Err(error) = list.join(&other, LIMIT) {
        assert!(rt; error == RequestError::OutOfMemory);
        assert_deps(&rt, &list, &[x(&rt)]);
        list.join(&other, LIMIT).expect(&rt, "a second try");
    }
    assert_deps(&rt, &list, &[long(&rt), x(&rt)]);
}

#[test]
fn refused_memory_adds_no_nearest(rt: HostRuntime) {
    let mut list = Near::empty(rt.alloc());
    add_near(&rt, &mut list, &x(&rt), &[]);
    add_near(&rt, &mut list, &long(&rt), &[x(&rt)]);
    let copy = match list.copy(rt.alloc()) {
        Ok(copy) => copy,
        Err(_) => list.copy(rt.alloc()).expect(&rt, "a second try"),
    };
    assert_near(&rt, &copy, &[long(&rt), x(&rt)]);
}

#[test]
fn refused_memory_makes_no_entry(rt: HostRuntime) {
    let alloc = rt.alloc();
    let entry = entry(&rt, alloc, b"x", 1);
    let copy = match entry.copy(alloc) {
        Ok(copy) => copy,
        Err(_) => entry.copy(alloc).expect(&rt, "a second try"),
    };
    assert!(rt; copy == entry);
}

#[test]
fn refused_memory_finds_nothing(rt: HostRuntime) {
    let alloc = rt.alloc();
    let version = Version::of(1, 0);
    let found = bare_found(&rt, alloc, version);
    let copy = match found.copy(alloc) {
        Ok(copy) => copy,
        Err(_) => found.copy(alloc).expect(&rt, "a second try"),
    };
    assert!(rt; copy == found);
    assert!(rt; copy.version() == version);
}
