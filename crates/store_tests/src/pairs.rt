//! Pairs and lists of them in few words.
use cops_types::{Deps, Key, Near, Pair, Version};
use std::alloc::Global;
use std::process::Abort;

pub(crate) fn pair(rt: &impl Abort, key: &[u8], clock: u64, node: u64) -> Pair {
    assert!(rt; clock < 1000 && node < Version::NODES);
    let key = Key::new(key).expect(rt, "a key");
    Pair {
        key,
        version: Version::of(clock, node),
    }
}

/// The dependencies of these pairs.
pub(crate) fn deps(rt: &impl Abort, alloc: Global, pairs: &[Pair]) -> Deps {
    let mut deps = Deps::empty(alloc);
    for pair in pairs {
        deps.add(*pair, 100).expect(rt, "memory");
    }
    deps
}

/// The nearest dependencies of these pairs.
pub(crate) fn near(rt: &impl Abort, alloc: Global, pairs: &[Pair]) -> Near {
    let mut near = Near::empty(alloc);
    for pair in pairs {
        near.add(*pair, 100).expect(rt, "memory");
    }
    near
}

/// Asserts which pairs a list has.
pub(crate) fn assert_deps(rt: &impl Abort, deps: &Deps, pairs: &[Pair]) {
    assert!(rt; deps.len() == pairs.len());
    for (place, pair) in pairs.iter().enumerate() {
        assert!(rt; place < deps.len() && deps.pair(place) == *pair);
    }
}

/// Asserts which pairs a list of nearest ones has.
pub(crate) fn assert_near(rt: &impl Abort, near: &Near, pairs: &[Pair]) {
    assert!(rt; near.len() == pairs.len());
    for (place, pair) in pairs.iter().enumerate() {
        assert!(rt; place < near.len() && near.pair(place) == *pair);
    }
}
