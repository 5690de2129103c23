//! Tenants that come to all nodes of a running cluster, or to none.
ghost use Rattle.std.specs.Prelude.{◌≡◌, ◌<◌, IsTrue};
ghost use Rattle.cops_types.specs.HeadLines.{are_sizes};
ghost use Rattle.cops_node.specs.Parts.{are_clocks};
ghost use Rattle.cops_service.specs.HostedDesks.{hosted_shape};

use crate::hosted_tests::{beta, put_in};
use crate::tests::config;
use crate::{Cluster, HostedDesk, LifeDesk};
use cops_node::{NodeId, SlotCall, SlotReply, has_clocks};
use cops_types::{Config, Fault, RequestError};
use std::alloc::Global;
use std::process::Abort;
use std::sync::Wait;

// Asserts the clocks of a put at each of two nodes; 0 where it is refused.
pub(crate) fn assert_clocks<R: Wait + Abort>(
    rt: &R,
    alloc: Global,
    nodes: &mut LifeDesk<'_, R>,
    clocks: (u64, u64),
)
    requires { (1 < (hosted_shape nodes.old.desk.cluster.now).data_centres)
        × ((hosted_shape nodes.old.desk.cluster.now).shards ≡ 1) }
    ensures { (nodes.new.desk.cluster.now ≡ nodes.old.desk.cluster.now)
        × (nodes.new.desk.seat.ghost_name ≡ nodes.old.desk.seat.ghost_name) }
{
    assert!(rt; put_in(alloc, nodes, 0) == Some(clocks.0));
    assert!(rt; put_in(alloc, nodes, 1) == Some(clocks.1));
}

// Gives slot 2 to beta at all nodes, in the life of these nodes.
pub(crate) fn admit<R: Wait + Abort>(
    rt: &R,
    nodes: &mut LifeDesk<'_, R>,
) -> Result<(), RequestError>
    ensures { (nodes.new.desk.cluster.now ≡ nodes.old.desk.cluster.now)
        × (nodes.new.desk.seat.ghost_name ≡ nodes.old.desk.seat.ghost_name) }
{
    let life = nodes.life;
    nodes.desk.admit_at_all(2, life, &beta(rt))
}

// Asserts that beta comes to all nodes, and leaves them.
fn assert_comes_and_goes<R: Wait + Abort>(rt: &R, alloc: Global, nodes: &mut LifeDesk<'_, R>)
    requires { (1 < (hosted_shape nodes.old.desk.cluster.now).data_centres)
        × ((hosted_shape nodes.old.desk.cluster.now).shards ≡ 1) }
{
    assert!(rt; admit(rt, nodes) == Ok(()));
    assert_clocks(rt, alloc, nodes, (1, 1));
    nodes.desk.close_at_all(2);
    assert_clocks(rt, alloc, nodes, (0, 0));
}

// Gives the slot to beta at the second node alone.
fn admit_at_second<R: Wait + Abort>(rt: &R, nodes: &mut LifeDesk<'_, R>)
    requires { (1 < (hosted_shape nodes.old.desk.cluster.now).data_centres)
        × ((hosted_shape nodes.old.desk.cluster.now).shards ≡ 1) }
    ensures { (nodes.new.desk.cluster.now ≡ nodes.old.desk.cluster.now)
        × (nodes.new.desk.seat.ghost_name ≡ nodes.old.desk.seat.ghost_name) }
{
    let life = nodes.life;
    let second = NodeId { dc: 1, shard: 0 };
    let tenant = beta(rt);
    let reply = nodes
        .desk
        .ask(second, 2, 0, SlotCall::Admit { life, tenant });
    assert!(rt; matches!(reply, Ok(SlotReply::Admitted)));
}

// Asserts that an admission that the second node refuses leaves nothing at the first one, and nobody else's life changes.
fn assert_taken_back<R: Wait + Abort>(rt: &R, alloc: Global, nodes: &mut LifeDesk<'_, R>)
    requires { (1 < (hosted_shape nodes.old.desk.cluster.now).data_centres)
        × ((hosted_shape nodes.old.desk.cluster.now).shards ≡ 1) }
{
    admit_at_second(rt, nodes);
    nodes.life = 2;
    assert!(rt; admit(rt, nodes) == Err(RequestError::Refused(Fault::NoSlot)));
    assert_clocks(rt, alloc, nodes, (0, 0));
    nodes.life = 1;
    assert_clocks(rt, alloc, nodes, (0, 1));
}

// Opens two nodes, and asserts that beta comes and goes.
fn come_and_go<R: Wait + Abort>(rt: &R, alloc: Global, config: &Config)
    requires sizes { IsTrue (are_sizes config.now) }
    requires clocks { IsTrue (are_clocks config.now) }
    requires two { (config.now.data_centres ≡ 2) × (config.now.shards ≡ 1) }
{
    let (cluster, mut seat) = Cluster::host(alloc, config).expect(rt, "memory");
    let desk = HostedDesk::new(rt, &cluster, &mut seat);
    let mut nodes = LifeDesk {
        desk,
        slot: 2,
        life: 1,
    };
    assert_comes_and_goes(rt, alloc, &mut nodes);
}

// Opens two nodes, and asserts that an admission is taken back.
fn take_back<R: Wait + Abort>(rt: &R, alloc: Global, config: &Config)
    requires sizes { IsTrue (are_sizes config.now) }
    requires clocks { IsTrue (are_clocks config.now) }
    requires two { (config.now.data_centres ≡ 2) × (config.now.shards ≡ 1) }
{
    let (cluster, mut seat) = Cluster::host(alloc, config).expect(rt, "memory");
    let desk = HostedDesk::new(rt, &cluster, &mut seat);
    let mut nodes = LifeDesk {
        desk,
        slot: 2,
        life: 1,
    };
    assert_taken_back(rt, alloc, &mut nodes);
}

#[test]
fn a_tenant_comes_to_all_nodes_and_leaves_them(rt: HostRuntime) {
    let config = config(&rt, rt.alloc(), 2);
    assert!(&rt; has_clocks(&config));
    come_and_go(&rt, rt.alloc(), &config);
}

#[test]
fn an_admission_is_taken_back_if_a_node_refuses(rt: HostRuntime) {
    let config = config(&rt, rt.alloc(), 2);
    assert!(&rt; has_clocks(&config));
    take_back(&rt, rt.alloc(), &config);
}
