//! Keys, values and entries of few words, made again if memory runs out once.
use cops_types::{
    Deps, Entry, EntryParts, Found, FoundParts, Key, Near, RequestError, Value, Version,
};
use std::alloc::Global;
use std::process::Abort;

pub(crate) fn key(rt: &impl Abort, bytes: &[u8]) -> Key {
    Key::new(bytes).expect(rt, "a key")
}

/// The version of node 0 with this clock.
pub(crate) fn version(rt: &impl Abort, clock: u64) -> Version {
    assert!(rt; clock <= Version::LAST_CLOCK);
    Version::of(clock, 0)
}

fn bare_parts(rt: &impl Abort, alloc: Global, version: Version) -> FoundParts {
    FoundParts {
        version,
        value: value(rt, alloc),
        deps: Deps::empty(alloc),
    }
}

/// Returns what is found at a version without dependencies, made again if memory ran out.
pub(crate) fn bare_found(rt: &impl Abort, alloc: Global, version: Version) -> Found {
    match Found::new(alloc, bare_parts(rt, alloc, version)) {
        Ok(found) => found,
        Err(_) => Found::new(alloc, bare_parts(rt, alloc, version)).expect(rt, "memory"),
    }
}

/// The value 10.
pub(crate) fn value(rt: &impl Abort, alloc: Global) -> Value {
    match Value::new(alloc, b"10") {
        Ok(value) => value,
        Err(error) => {
            assert!(rt; error == RequestError::OutOfMemory);
            Value::new(alloc, b"10").expect(rt, "a value")
        }
    }
}

/// Returns the parts of an entry of the value 10 without dependencies, the first of its origin.
fn parts(rt: &impl Abort, alloc: Global, name: &[u8], clock: u64) -> EntryParts {
    EntryParts {
        key: key(rt, name),
        version: version(rt, clock),
        value: value(rt, alloc),
        deps: Deps::empty(alloc),
        near: Near::empty(alloc),
        prev: Version::none(),
    }
}

/// An entry of the key, whose version has this clock.
pub(crate) fn entry(rt: &impl Abort, alloc: Global, name: &[u8], clock: u64) -> Entry {
    match Entry::new(alloc, parts(rt, alloc, name, clock)) {
        Ok(entry) => entry,
        Err(_) => Entry::new(alloc, parts(rt, alloc, name, clock)).expect(rt, "memory"),
    }
}
