//! Each allocation may fail: the context is then as it was, and the same call again is answered.
//! Run with the Nth allocation failing, for each N.

use super::lists::{assert_lists, long, x, y, z};
use crate::entries::bare_found;
use cops_context::Context;
use cops_types::{Deps, Pair, Read, RequestError};
use std::alloc::Global;
use std::process::Abort;

/// The dependencies that have x alone.
fn deps_on_x(rt: &impl Abort, alloc: Global) -> Deps {
    let mut deps = Deps::empty(alloc);
    if deps.add(x(rt), 20).is_err() {
        deps.add(x(rt), 20).expect(rt, "memory");
    }
    deps
}

fn read(rt: &impl Abort, alloc: Global, pair: Pair) -> Read {
    Read::new(pair.key, Some(bare_found(rt, alloc, pair.version)))
}

#[test]
fn refused_memory_leaves_a_new_context(rt: HostRuntime) {
    let alloc = rt.alloc();
    let on_x = deps_on_x(&rt, alloc);
    let mut context = Context::new(alloc);
    match context.observe(y(&rt), &on_x, 20) {
        Ok(()) => {}
        Err(error) => {
            assert!(&rt; error == RequestError::OutOfMemory);
            assert_lists(&rt, &context, &[], &[]);
            context
                .observe(y(&rt), &on_x, 20)
                .expect(&rt, "a second try");
        }
    }
    assert_lists(&rt, &context, &[x(&rt), y(&rt)], &[y(&rt)]);
}

/// Observes a pair in a context that has these lists, again if memory ran out.
fn observe(
    rt: &impl Abort,
    context: &mut Context,
    pair: &Pair,
    deps: &Deps,
    all: &[Pair],
    near: &[Pair],
) {
    match context.observe(*pair, deps, 20) {
        Ok(()) => {}
        Err(error) => {
            assert!(rt; error == RequestError::OutOfMemory);
            assert_lists(rt, context, all, near);
            context.observe(*pair, deps, 20).expect(rt, "a second try");
        }
    }
}

#[test]
fn refused_memory_leaves_what_was_observed(rt: HostRuntime) {
    let on_x = deps_on_x(&rt, rt.alloc());
    let mut context = Context::new(rt.alloc());
    observe(
        &rt,
        &mut context,
        &x(&rt),
        &Deps::empty(rt.alloc()),
        &[],
        &[],
    );
    observe(&rt, &mut context, &y(&rt), &on_x, &[x(&rt)], &[x(&rt)]);
    assert_lists(&rt, &context, &[x(&rt), y(&rt)], &[y(&rt)]);
}

#[test]
fn refused_memory_keeps_what_a_put_would_send(rt: HostRuntime) {
    let key = z(&rt).key;
    let mut context = Context::new(rt.alloc());
    observe(
        &rt,
        &mut context,
        &x(&rt),
        &Deps::empty(rt.alloc()),
        &[],
        &[],
    );
    let (deps, _near) = match context.put_args(&key, 20) {
        Ok(lists) => lists,
        Err(error) => {
            assert!(&rt; error == RequestError::OutOfMemory);
            assert_lists(&rt, &context, &[x(&rt)], &[x(&rt)]);
            context.put_args(&key, 20).expect(&rt, "a second try")
        }
    };
    assert_eq!(rt; deps.len(), 1);
}

#[test]
fn refused_memory_observes_no_half(rt: HostRuntime) {
    let alloc = rt.alloc();
    let reads = [read(&rt, alloc, x(&rt)), read(&rt, alloc, y(&rt))];
    let mut context = Context::new(alloc);
    match context.observe_all(&reads, 20) {
        Ok(()) => {}
        Err(error) => {
            assert!(&rt; error == RequestError::OutOfMemory);
            assert_lists(&rt, &context, &[], &[]);
            context.observe_all(&reads, 20).expect(&rt, "a second try");
        }
    }
    assert_lists(&rt, &context, &[x(&rt), y(&rt)], &[x(&rt), y(&rt)]);
}

/// Puts the pair, with memory.
fn put_again(rt: &impl Abort, context: &mut Context, put: Pair) {
    match context.put_args(&put.key, 20) {
        Ok(_) => context.after_put(put),
        Err(_) => panic!(rt; "a second try"),
    }
}

#[test]
fn refused_memory_sends_no_put(rt: HostRuntime) {
    let put = z(&rt);
    let key = put.key;
    let mut context = Context::new(rt.alloc());
    match context.put_args(&key, 20) {
        Ok(_) => context.after_put(put),
        Err(error) => {
            assert!(&rt; error == RequestError::OutOfMemory);
            assert_lists(&rt, &context, &[], &[]);
            put_again(&rt, &mut context, put);
        }
    }
    assert_lists(&rt, &context, &[z(&rt)], &[z(&rt)]);
}

#[test]
fn refused_memory_turns_no_list_full(rt: HostRuntime) {
    let key = long(&rt).key;
    let mut context = Context::new(rt.alloc());
    observe(
        &rt,
        &mut context,
        &x(&rt),
        &Deps::empty(rt.alloc()),
        &[],
        &[],
    );
    match context.put_args(&key, 20) {
        Ok(_) => {}
        Err(error) => {
            assert!(&rt; error == RequestError::OutOfMemory);
            assert_lists(&rt, &context, &[x(&rt)], &[x(&rt)]);
        }
    }
    observe(
        &rt,
        &mut context,
        &long(&rt),
        &Deps::empty(rt.alloc()),
        &[x(&rt)],
        &[x(&rt)],
    );
    assert_lists(&rt, &context, &[long(&rt), x(&rt)], &[long(&rt), x(&rt)]);
}
