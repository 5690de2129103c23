//! Tenants of a cluster: each is at all nodes, or at none.
ghost use Rattle.std.specs.Prelude.{◌≡◌};

use crate::test_nodes::{QUOTA, config, tenant};
use crate::{Cluster0, NodeCall, NodeId, NodeReply, Nodes, has_clocks};
use cops_types::{Config, Fault, RequestError, Tenant};
use std::alloc::Global;
use std::process::Abort;

/// Two data centres with a node each, and two tenants.
fn two_nodes(rt: &impl Abort, alloc: Global) -> Cluster0
    ensures data_centres { result.shape.data_centres ≡ 2 }
    ensures shards { result.shape.shards ≡ 1 }
{
    let tenants = config(rt, alloc, 2, 0, QUOTA).tenants;
    let config = Config {
        data_centres: 2,
        shards: 1,
        trans_time: 5000,
        restarts: 1,
        tenants,
    };
    assert!(rt; has_clocks(&config));
    Cluster0::new(alloc, &config).expect(rt, "memory")
}

/// Asserts that each node has this tenant in the slot, or that none has.
fn assert_opened(rt: &impl Abort, cluster: &Cluster0, slot: u64, tenant: &Tenant, is_opened: bool) {
    for node in cluster.nodes() {
        assert!(rt; node.opened_as(slot, tenant) == is_opened);
    }
}

/// Each allocation of an admission may fail. Then no node has the tenant, and it can be
/// admitted later.
#[test]
fn admission_at_all_nodes_under_want_of_memory(rt: HostRuntime) {
    let alloc = rt.alloc();
    let mut cluster = two_nodes(&rt, alloc);
    let beta = tenant(&rt, b"beta", 2, 0, QUOTA);
    for slot in 2..4 {
        if let Err(error) = cluster.admit(slot, 0, QUOTA) {
            assert!(rt; error == RequestError::OutOfMemory);
            assert_opened(&rt, &cluster, slot, &beta, false);
            assert!(rt; cluster.admit(slot, 0, QUOTA).is_ok());
        }
        assert_opened(&rt, &cluster, slot, &beta, true);
        assert!(rt; cluster.admit(slot, 0, QUOTA) == Err(RequestError::Refused(Fault::NoSlot)));
    }
    assert_opened(&rt, &cluster, 0, &beta, true);
    assert_opened(&rt, &cluster, 4, &beta, false);
}

/// Asserts that a call for the tenant of this slot is refused, as there is none.
fn assert_vacant(rt: &impl Abort, cluster: &mut Cluster0, slot: u64)
    requires data_centres { cluster.old.shape.data_centres ≡ 2 }
    requires shards { cluster.old.shape.shards ≡ 1 }
    ensures shape { cluster.new.shape ≡ cluster.old.shape }
{
    let id = NodeId { dc: 1, shard: 0 };
    let told = cluster.step(id, slot, 1, NodeCall::Collect);
    let reply = told.expect(rt, "memory");
    assert!(rt; matches!(reply, NodeReply::Refused(Fault::UnknownTenant)));
}

/// A closed slot, one that never had a tenant, and one that no node has.
#[test]
fn a_call_at_a_slot_without_a_tenant(rt: HostRuntime) {
    let mut cluster = two_nodes(&rt, rt.alloc());
    cluster.close(1);
    assert_vacant(&rt, &mut cluster, 1);
    assert_vacant(&rt, &mut cluster, 2);
    assert_vacant(&rt, &mut cluster, 64);
}
