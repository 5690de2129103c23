//! Two tenants give their actors the same names, in turn. One goes: the other's act on, and its names
//! serve whoever comes to its slot. Run with the Nth request for memory refused, for each N.
ghost use Rattle.std.specs.Prelude.{IsTrue};
ghost use Rattle.cops_types.specs.HeadLines.{is_tenant};

use crate::World;
use crate::life_tests::first_tenant;
use crate::test_worlds::{check_at, new_world};
use cops_types::Tenant;
use std::alloc::Global;
use std::process::Abort;

const TWO_CENTRES: &str = "cluster 2 1 5000 1
tenant acme 00000000-0000-0000-0000-000000000001 0 100 10000 10 4 20 4 1000
tenant beta 00000000-0000-0000-0000-000000000002 0 100 10000 10 4 20 4 1000
begin";

const GAMA: &str = "cluster 2 1 5000 1
tenant gama 00000000-0000-0000-0000-000000000003 7 100 10000 10 4 20 4 1000
begin";

const SESSIONS: &str = "t open a 0 > opened

t open b 1 > opened";

const CARRIERS: &str = "t ctx a > context 1

t put a 1 x 10 > started
t done a 0 > stored x 1.0 | stored x 8.0

t carry c 0 0 1 > started

t carry d 1 0 0 > started

t carry e 1 0 0 > E25
t open a 0 > E04";

/// A carrier that has ended leaves, and its name and its place are free.
const CARRIED: &str = "t done d 3 > nothing

t carry d 1 0 0 > started

t done c 5 > committed x 1.0 acked | committed x 8.0 acked

t carry c 0 0 1 > started
t done c 5 > nothing
t done d 5 > nothing
t step c 5 > E03";

const READS: &str = "t ctx b > context 1

t get b 1 x > started
t done b 6 > x=10@1.0 | x=10@8.0";

/// Asserts that no actor has one of the names.
const NOBODY: &str = "t ctx a > E03
t ctx b > E03
t step c 0 > E03
t step d 0 > E03";

fn admit(rt: &impl Abort, world: &mut World, tenant: &Tenant) -> u64
    requires { IsTrue (is_tenant tenant.now) }
{
    match world.admit(*tenant) {
        Ok(slot) => slot,
        Err(_) => world.admit(*tenant).expect(rt, "memory"),
    }
}

/// Closes this slot of two, whose actors have the same names.
fn one_goes(rt: &impl Abort, alloc: Global, gone: u64, other: u64) {
    let gama = first_tenant(rt, alloc, GAMA);
    let mut world = new_world(rt, alloc, TWO_CENTRES);
    check_at(rt, alloc, &mut world, gone, SESSIONS);
    check_at(rt, alloc, &mut world, other, SESSIONS);
    check_at(rt, alloc, &mut world, gone, CARRIERS);
    check_at(rt, alloc, &mut world, other, CARRIERS);
    assert!(rt; world.close(gone).is_ok());
    check_at(rt, alloc, &mut world, other, CARRIED);
    assert!(rt; admit(rt, &mut world, &gama) == gone);
    check_at(rt, alloc, &mut world, gone, NOBODY);
    check_at(rt, alloc, &mut world, gone, SESSIONS);
    check_at(rt, alloc, &mut world, gone, CARRIERS);
    check_at(rt, alloc, &mut world, other, READS);
    check_at(rt, alloc, &mut world, gone, CARRIED);
    check_at(rt, alloc, &mut world, gone, READS);
}

#[test]
fn the_second_acts_on(rt: HostRuntime) {
    one_goes(&rt, rt.alloc(), 0, 1);
}

#[test]
fn the_first_acts_on(rt: HostRuntime) {
    one_goes(&rt, rt.alloc(), 1, 0);
}
