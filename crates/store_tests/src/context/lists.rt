use crate::pairs::{assert_deps, assert_near, deps, pair};
use cops_context::Context;
use cops_types::{Deps, DepsBuilder, Fault, NearBuilder, Pair, RequestError};
use std::alloc::Global;
use std::process::Abort;

pub(crate) fn x(rt: &impl Abort) -> Pair {
    pair(rt, b"x", 1, 0)
}

pub(crate) fn y(rt: &impl Abort) -> Pair {
    pair(rt, b"y", 2, 1)
}

pub(crate) fn z(rt: &impl Abort) -> Pair {
    pair(rt, b"z", 3, 0)
}

/// A key that short pairs have no place for.
pub(crate) fn long(rt: &impl Abort) -> Pair {
    pair(rt, b"a_key_of_many_letters", 4, 1)
}

/// Sees y, which depends on x.
fn observe_y(rt: &impl Abort, alloc: Global, context: &mut Context) {
    let on_x = deps(rt, alloc, &[x(rt)]);
    context.observe(y(rt), &on_x, 20).expect(rt, "room");
}

/// Sees x, which depends on nothing.
fn observe_x(rt: &impl Abort, alloc: Global, context: &mut Context) {
    let none = Deps::empty(alloc);
    context.observe(x(rt), &none, 20).expect(rt, "room");
}

/// Dependencies that grow are these.
fn assert_all(rt: &impl Abort, all: &DepsBuilder, pairs: &[Pair]) {
    assert!(rt; all.len() == pairs.len());
    for (place, pair) in pairs.iter().enumerate() {
        assert!(rt; place < all.len() && all.pair(place) == *pair);
    }
}

/// Nearest dependencies that grow are these.
fn assert_nearest(rt: &impl Abort, near: &NearBuilder, pairs: &[Pair]) {
    assert!(rt; near.len() == pairs.len());
    for (place, pair) in pairs.iter().enumerate() {
        assert!(rt; place < near.len() && near.pair(place) == *pair);
    }
}

/// The context has these lists.
pub(crate) fn assert_lists(rt: &impl Abort, context: &Context, all: &[Pair], near: &[Pair]) {
    assert_all(rt, context.all(), all);
    assert_nearest(rt, context.near(), near);
}

/// Asserts the two lists that a put of z sends, which depend on y, and what is left of them after it.
fn assert_put(rt: &impl Abort, alloc: Global, context: &mut Context) {
    let put = z(rt);
    let key = put.key;
    let (deps, near) = context.put_args(&key, 20).expect(rt, "room");
    assert_deps(rt, &deps, &[x(rt), y(rt)]);
    assert_near(rt, &near, &[y(rt)]);
    context.after_put(put);
    assert_lists(rt, context, &[x(rt), y(rt), z(rt)], &[z(rt)]);
}

#[test]
fn a_dependency_is_seen_last(rt: HostRuntime) {
    let mut context = Context::new(rt.alloc());
    observe_y(&rt, rt.alloc(), &mut context);
    observe_x(&rt, rt.alloc(), &mut context);
    assert_put(&rt, rt.alloc(), &mut context);
}

#[test]
fn a_dependency_is_seen_first(rt: HostRuntime) {
    let mut context = Context::new(rt.alloc());
    observe_x(&rt, rt.alloc(), &mut context);
    observe_y(&rt, rt.alloc(), &mut context);
    assert_put(&rt, rt.alloc(), &mut context);
}

#[test]
fn a_long_key_is_seen_beside_short_ones(rt: HostRuntime) {
    let mut context = Context::new(rt.alloc());
    observe_y(&rt, rt.alloc(), &mut context);
    let on_long = deps(&rt, rt.alloc(), &[long(&rt)]);
    context.observe(z(&rt), &on_long, 20).expect(&rt, "room");
    assert_lists(
        &rt,
        &context,
        &[long(&rt), x(&rt), y(&rt), z(&rt)],
        &[y(&rt), z(&rt)],
    );
}

#[test]
fn a_long_key_is_put_after_short_ones(rt: HostRuntime) {
    let put = long(&rt);
    let key = put.key;
    let mut context = Context::new(rt.alloc());
    observe_y(&rt, rt.alloc(), &mut context);
    match context.put_args(&key, 20) {
        Ok(_) => context.after_put(put),
        Err(_) => panic!(rt; "room"),
    }
    assert_lists(&rt, &context, &[long(&rt), x(&rt), y(&rt)], &[long(&rt)]);
}

#[test]
fn a_put_past_the_limit_is_told_as_full(rt: HostRuntime) {
    let mut context = Context::new(rt.alloc());
    observe_y(&rt, rt.alloc(), &mut context);
    let refused = context.put_args(&z(&rt).key, 2);
    assert!(rt; matches!(refused, Err(RequestError::Refused(Fault::DependenciesFull))));
    assert_lists(&rt, &context, &[x(&rt), y(&rt)], &[y(&rt)]);
}
