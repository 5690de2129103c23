//! Tenants come to a world and go from it: this succeeds, and later tenants act as the
//! first do. Run with the Nth request for memory refused, for each N.
ghost use Rattle.std.specs.Prelude.{IsTrue};
ghost use Rattle.cops_types.specs.HeadLines.{is_tenant};

use crate::test_worlds::{check, check_at, config_of, new_world};
use crate::{World, is_tenant};
use cops_types::Tenant;
use std::alloc::Global;
use std::process::Abort;

pub(crate) const ACME_AND_BETA: &str = "cluster 1 1 5000 1
tenant acme 00000000-0000-0000-0000-000000000001 0 100 10000 10 4 20 8 1000
tenant beta 00000000-0000-0000-0000-000000000002 0 100 10000 10 4 20 8 1000
begin";

pub(crate) const GAMA: &str = "cluster 1 1 5000 1
tenant gama 00000000-0000-0000-0000-000000000003 7 100 10000 10 4 20 8 1000
begin";

const ACME_PUTS: &str = "acme open a 0 > opened

acme ctx a > context 1

acme put a 1 x 10 > started
acme done a 0 > stored x 1.0";

const BETA_PUTS: &str = "beta open a 0 > opened

beta ctx a > context 1

beta put a 1 x 99 > started
beta done a 0 > stored x 1.0";

/// Nothing is left of the tenant before, whose session had the same name.
const GAMA_PUTS: &str = "gama open a 0 > opened

gama ctx a > context 1

gama get a 1 x > started
gama done a 0 > x=none@0.0

gama put a 1 x 1 > started
gama done a 0 > stored x 8.0";

const ACME_GETS: &str = "acme get a 1 x > started
acme done a 0 > x=10@1.0";

/// The first tenant of a head.
pub(crate) fn first_tenant(rt: &impl Abort, alloc: Global, head: &str) -> Tenant
    ensures { IsTrue (is_tenant result) }
{
    let config = config_of(rt, alloc, head);
    assert!(rt; config.tenants.len() > 0);
    let tenant = *config.tenants.tenant(0);
    assert!(rt; is_tenant(&tenant));
    tenant
}

/// Gives the least free slot to the tenant, and returns it.
fn admit(rt: &impl Abort, world: &mut World, tenant: &Tenant) -> u64
    requires { IsTrue (is_tenant tenant.now) }
{
    match world.admit(*tenant) {
        Ok(slot) => slot,
        Err(_) => world.admit(*tenant).expect(rt, "memory"),
    }
}

#[test]
fn a_closed_slot_begins_anew(rt: HostRuntime) {
    let alloc = rt.alloc();
    let gama = first_tenant(&rt, alloc, GAMA);
    let mut world = new_world(&rt, alloc, ACME_AND_BETA);
    check(&rt, alloc, &mut world, ACME_PUTS);
    check(&rt, alloc, &mut world, BETA_PUTS);
    assert!(&rt; world.close(1).is_ok());
    check_at(&rt, alloc, &mut world, 1, "beta step a 0 > E02");
    assert!(&rt; admit(&rt, &mut world, &gama) == 1);
    check_at(&rt, alloc, &mut world, 1, GAMA_PUTS);
    check(&rt, alloc, &mut world, ACME_GETS);
}
