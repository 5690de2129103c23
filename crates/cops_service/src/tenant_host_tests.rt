//! Tenants that the host of a running cluster admits and closes.
ghost use Rattle.std.specs.Prelude.{IsTrue};
ghost use Rattle.cops_types.specs.HeadLines.{are_sizes};
ghost use Rattle.cops_node.specs.Parts.{are_clocks};

use crate::hosted_tests::beta;
use crate::tests::config;
use crate::{Cluster, HostedDesk, Life, Roster, TenantHost};
use cops_node::has_clocks;
use cops_types::{Config, Fault, RequestError};
use std::alloc::Global;
use std::process::Abort;
use std::sync::Wait;

// Asserts that beta is admitted in a life of this number, and is found by its token.
fn assert_begins<R: Wait + Abort>(rt: &R, host: &mut TenantHost<'_, R>, number: u64) {
    let tenant = beta(rt);
    let life = Life { slot: 1, number };
    assert!(rt; host.admit(tenant) == Ok(life));
    assert!(rt; host.roster.life_of_token(&tenant.token) == Some(life));
}

// Asserts that beta isn't admitted twice, leaves once, and comes back in another life.
fn assert_lives<R: Wait + Abort>(rt: &R, host: &mut TenantHost<'_, R>) {
    let tenant = beta(rt);
    assert_begins(rt, host, 1);
    assert!(rt; host.admit(tenant) == Err(RequestError::Refused(Fault::NameTaken)));
    assert!(rt; host.close(b"beta") == Ok(1));
    assert!(rt; host.roster.life_of_token(&tenant.token).is_none());
    assert!(rt; host.close(b"beta") == Err(Fault::UnknownTenant));
    assert_begins(rt, host, 2);
}

// Opens two nodes, and asserts that beta comes, goes and comes back.
fn come_back<R: Wait + Abort>(rt: &R, alloc: Global, config: &Config)
    requires sizes { IsTrue (are_sizes config.now) }
    requires clocks { IsTrue (are_clocks config.now) }
{
    let (cluster, mut seat) = Cluster::host(alloc, config).expect(rt, "memory");
    let mut roster = Roster::of(alloc, config).expect(rt, "memory");
    let mut host = TenantHost {
        desk: HostedDesk::new(rt, &cluster, &mut seat),
        roster: &mut roster,
    };
    assert_lives(rt, &mut host);
}

#[test]
fn a_tenant_comes_back_in_another_life(rt: HostRuntime) {
    let config = config(&rt, rt.alloc(), 2);
    assert!(&rt; has_clocks(&config));
    come_back(&rt, rt.alloc(), &config);
}
