//! Worlds act by act: calls succeed, replies are those of the worked examples, and an act that ran out
//! of memory is as if it had not been. Run with the Nth request refused, for each N.
use crate::World;
use crate::test_worlds::{check, goes_through, new_world};
use cops_node::Node;
use std::alloc::Global;
use std::process::Abort;

const TWO_BY_TWO: &str = "cluster 2 2 5000 1
tenant acme 00000000-0000-0000-0000-000000000001 0 100 10000 10 4 20 8 1000
tenant beta 00000000-0000-0000-0000-000000000002 0 100 10000 10 4 20 8 1000
begin";

/// Both tenants give their actors the same names.
const CARRIED: &str = "acme open a 0 > opened
beta open a 1 > opened
acme ctx a > context 1
beta ctx a > context 1
acme open b 1 > opened
acme ctx b > context 1
acme put a 1 x 10 > started
acme done a 0 > stored x 1.0
beta put a 1 x 99 > started
beta done a 7 > stored x 1.2
acme put a 1 y 20 > started
acme done a 0 > stored y 2.1
acme carry c 0 1 1 > started
beta carry c 1 0 0 > started
acme done c 5 > waits x 1.0
acme carry c 0 0 1 > started
beta step c 5 > working
acme done c 5 > committed x 1.0 acked
acme carry c 0 1 1 > started
acme done c 5 > committed y 2.1 acked
acme carry c 0 1 1 > started
acme done c 5 > nothing
acme step c 5 > E03
beta done c 5 > committed x 1.2 acked
acme get b 1 x y > started
acme done b 6 > x=10@1.0 y=20@2.1
acme show b 1 > all x:1.0,y:2.1 near y:2.1
acme drop b 1 > dropped
acme collect 1 1 9 > removed 0
beta get a 1 x > started
beta done a 8 > x=99@1.2";

fn after_carrying(rt: &impl Abort, alloc: Global) -> World {
    let mut world = new_world(rt, alloc, TWO_BY_TWO);
    check(rt, alloc, &mut world, CARRIED);
    world
}

/// Asserts how many calls of each of two tenants a node has in its audit.
fn assert_calls(rt: &impl Abort, node: &Node, acme: u64, beta: u64) {
    assert!(rt; node.slots() == 2);
    assert!(rt; node.audit_len(0) == acme && node.audit_len(1) == beta);
}

#[test]
fn tenants_act_in_one_world(rt: HostRuntime) {
    let world = after_carrying(&rt, rt.alloc());
    match world.nodes() {
        [x, y, other_x, other_y] => {
            assert_calls(&rt, x, 3, 1);
            assert_calls(&rt, y, 5, 0);
            assert_calls(&rt, other_x, 4, 4);
            assert_calls(&rt, other_y, 3, 0);
        }
        _ => panic!(&rt; "four nodes"),
    }
}

/// Each part may be begun anew: a request or a carrier that met refused memory has ended.
const SPARED: &str = "acme open a 0 > opened

beta open a 1 > opened

acme ctx a > context 1

beta ctx a > context 1

acme put a 1 x 10 > started
acme done a 0 > stored x 1.0

beta put a 1 x 99 > started
beta done a 7 > stored x 1.2

acme put a 1 y 20 > started
acme done a 0 > stored y 2.1

beta carry c 1 0 0 > started
beta done c 5 > committed x 1.2 acked | already x 1.2 acked

acme carry c 0 0 1 > started
acme done c 5 > committed x 1.0 acked | already x 1.0 acked

acme carry c 0 1 1 > started
acme done c 5 > committed y 2.1 acked | already y 2.1 acked

acme carry c 0 1 1 > started
acme done c 5 > nothing

acme open b 1 > opened

acme ctx b > context 1

acme get b 1 y x z > started
acme done b 6 > y=20@2.1 x=10@1.0 z=none@0.0

acme show b 1 > all x:1.0,y:2.1 near y:2.1

acme collect 1 1 9 > removed 0

acme drop b 1 > dropped

beta get a 1 x y > started
beta step a 8 > working
beta step a 8 > x=99@1.2 y=none@0.0

beta show a 1 > all x:1.2 near x:1.2";

#[test]
fn refused_memory_is_not_noticed_later(rt: HostRuntime) {
    let mut world = new_world(&rt, rt.alloc(), TWO_BY_TWO);
    check(&rt, rt.alloc(), &mut world, SPARED);
}

/// Before the steps that may be refused memory: b has seen nothing.
const BEGUN: &str = "acme open a 0 > opened

acme ctx a > context 1

acme put a 1 x 10 > started
acme done a 0 > stored x 1.0

acme open b 0 > opened

acme ctx b > context 1

acme get b 1 x > started

acme carry c 0 0 1 > started";

/// Asserts that these acts go on. If memory is refused, other ones show what that leaves, and the first
/// are made once more.
fn assert_goes(rt: &impl Abort, alloc: Global, world: &mut World, acts: &str, left: &str) {
    if !goes_through(rt, alloc, world, acts) {
        assert!(rt; goes_through(rt, alloc, world, left));
        assert!(rt; goes_through(rt, alloc, world, acts));
    }
}

/// After refused memory a request has ended, and the lists of its context are as before; a carrier is
/// gone, and its name is free.
#[test]
fn refused_memory_ends_a_request_or_a_carrier(rt: HostRuntime) {
    let alloc = rt.alloc();
    let mut world = new_world(&rt, alloc, TWO_BY_TWO);
    check(&rt, alloc, &mut world, BEGUN);
    let got = "acme done b 6 > x=10@1.0";
    let idle = "acme step b 6 > E06
acme show b 1 > all - near -
acme get b 1 x > started";
    assert_goes(&rt, alloc, &mut world, got, idle);
    let carried = "acme done c 5 > committed x 1.0 acked | already x 1.0 acked";
    let free = "acme step c 5 > E03
acme carry c 0 0 1 > started";
    assert_goes(&rt, alloc, &mut world, carried, free);
    check(
        &rt,
        alloc,
        &mut world,
        "acme show b 1 > all x:1.0 near x:1.0",
    );
}
