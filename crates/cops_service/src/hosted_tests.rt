ghost use Rattle.std.specs.Prelude.{◌≡◌, ◌<◌, ◌≤◌, ◌⊎◌, ℕ, IsTrue, length};
ghost use Rattle.cops_types.specs.HeadLines.{are_sizes};
ghost use Rattle.cops_types.specs.Version.{last_clock};
ghost use Rattle.cops_node.specs.Parts.{are_clocks};
ghost use Rattle.cops_model.specs.declared.calls.NodeCall.{NodeCall as Call};
ghost use Rattle.cops_model.specs.declared.calls.NodeId.{NodeId as Id};
ghost use Rattle.cops_model.specs.declared.calls.NodeReply.{NodeReply as Told};
ghost use Rattle.cops_service.specs.HostedDesks.{hosted_shape};

use crate::tests::{QUOTA, config};
use crate::{Cluster, HostedDesk, LifeDesk};
use cops_node::{NodeCall, NodeId, NodeReply, Nodes, SlotCall, SlotReply, has_clocks};
use cops_types::{Config, Deps, Fault, Key, Name, Near, Tenant, Value};
use std::alloc::{AllocError, Global};
use std::process::Abort;
use std::sync::Wait;
use uuid::Uuid;

const FIRST: NodeId = NodeId { dc: 0, shard: 0 };

pub(crate) fn beta(rt: &impl Abort) -> Tenant
    ensures { result.first_clock ≤ last_clock }
{
    Tenant {
        name: Name::new(b"beta").expect(rt, "a name"),
        token: Uuid::from_bytes([2; 16]),
        first_clock: 0,
        quota: QUOTA,
    }
}

// One node, for acme and beta.
pub(crate) fn two_tenants(rt: &impl Abort, alloc: Global) -> Config
    ensures sizes { IsTrue (are_sizes result) }
    ensures one { (result.data_centres ≡ 1) × (result.shards ≡ 1) }
{
    let mut config = config(rt, alloc, 1);
    let beta = beta(rt);
    assert!(rt; config.tenants.is_distinct(&beta));
    config.tenants.push(beta).expect(rt, "memory");
    config
}

// The clock of the version that was stored, or 0 where the slot has no tenant.
fn clock_in(reply: &NodeReply) -> Option<u64> {
    match reply {
        NodeReply::Stored(version) => Some(version.clock()),
        NodeReply::Refused(Fault::UnknownTenant) => Some(0),
        _ => None,
    }
}

// Puts x in a data centre, and gives the clock of the version, or 0 where the slot has no tenant.
fn put_x<N: Nodes>(alloc: Global, nodes: &mut N, dc: u64) -> Option<u64>
    requires { (dc < (N.shape nodes.old).data_centres) × ((N.shape nodes.old).shards ≡ 1) }
    ensures shape { N.shape nodes.new ≡ N.shape nodes.old }
    ensures once { (nodes.new ≡ nodes.old)
        ⊎ ((id : Id) × (at moment : ℕ) × (call : Call) × (reply : Told)
        × N.Answers nodes.old id at moment call reply nodes.new) }
{
    let key = Key::new(b"x").ok()?;
    if key.shard(1) != 0 {
        return None;
    }
    let value = Value::new(alloc, b"10").ok()?;
    let call = NodeCall::Put(key, value, Deps::empty(alloc), Near::empty(alloc));
    let reply = nodes.step(NodeId { dc, shard: 0 }, 0, 0, call).ok()?;
    let clock = clock_in(&reply);
    drop(reply);
    clock
}

pub(crate) fn put<R: Wait>(alloc: Global, nodes: &mut LifeDesk<'_, R>) -> Option<u64>
    requires { (0 < (hosted_shape nodes.old.desk.cluster.now).data_centres)
        × ((hosted_shape nodes.old.desk.cluster.now).shards ≡ 1) }
    ensures { (nodes.new.desk.cluster.now ≡ nodes.old.desk.cluster.now)
        × (nodes.new.desk.seat.ghost_name ≡ nodes.old.desk.seat.ghost_name) }
{
    put_in(alloc, nodes, 0)
}

// Does the same in this data centre.
pub(crate) fn put_in<R: Wait>(alloc: Global, nodes: &mut LifeDesk<'_, R>, dc: u64) -> Option<u64>
    requires { (dc < (hosted_shape nodes.old.desk.cluster.now).data_centres)
        × ((hosted_shape nodes.old.desk.cluster.now).shards ≡ 1) }
    ensures { (nodes.new.desk.cluster.now ≡ nodes.old.desk.cluster.now)
        × (nodes.new.desk.seat.ghost_name ≡ nodes.old.desk.seat.ghost_name) }
{
    put_x(alloc, nodes, dc)
}

// Why the host's call did nothing.
fn refusal(answer: Result<SlotReply, AllocError>) -> Option<Fault> {
    match answer {
        Ok(SlotReply::Refused(fault)) => Some(fault),
        Ok(SlotReply::Own(_)) => Some(Fault::Torn),
        Ok(SlotReply::Admitted | SlotReply::Closed) => None,
        Err(_) => Some(Fault::OutOfMemory),
    }
}

// Gives a slot to beta, in the life of these nodes.
pub(crate) fn admit<R: Wait>(
    nodes: &mut LifeDesk<'_, R>,
    slot: u64,
    tenant: Tenant,
) -> Option<Fault>
    requires one { (0 < (hosted_shape nodes.old.desk.cluster.now).data_centres)
        × ((hosted_shape nodes.old.desk.cluster.now).shards ≡ 1) }
    requires clock { tenant.first_clock ≤ last_clock }
    ensures { (nodes.new.desk.cluster.now ≡ nodes.old.desk.cluster.now)
        × (nodes.new.desk.seat.ghost_name ≡ nodes.old.desk.seat.ghost_name) }
{
    let life = nodes.life;
    refusal(
        nodes
            .desk
            .ask(FIRST, slot, 0, SlotCall::Admit { life, tenant }),
    )
}

fn close<R: Wait>(nodes: &mut LifeDesk<'_, R>) -> Option<Fault>
    requires { (0 < (hosted_shape nodes.old.desk.cluster.now).data_centres)
        × ((hosted_shape nodes.old.desk.cluster.now).shards ≡ 1) }
    ensures { (nodes.new.desk.cluster.now ≡ nodes.old.desk.cluster.now)
        × (nodes.new.desk.seat.ghost_name ≡ nodes.old.desk.seat.ghost_name) }
{
    refusal(nodes.desk.ask(FIRST, 2, 0, SlotCall::Close))
}

// Asserts that no tenant is in this life: a put is refused.
fn assert_unknown<R: Wait + Abort>(rt: &R, alloc: Global, nodes: &mut LifeDesk<'_, R>)
    requires { (0 < (hosted_shape nodes.old.desk.cluster.now).data_centres)
        × ((hosted_shape nodes.old.desk.cluster.now).shards ≡ 1) }
    ensures { (nodes.new.desk.cluster.now ≡ nodes.old.desk.cluster.now)
        × (nodes.new.desk.seat.ghost_name ≡ nodes.old.desk.seat.ghost_name) }
{
    assert!(rt; put(alloc, nodes) == Some(0));
}

// Asserts that the slot is given to a tenant, whose first put has the first version.
fn assert_comes<R: Wait + Abort>(rt: &R, alloc: Global, nodes: &mut LifeDesk<'_, R>)
    requires { (0 < (hosted_shape nodes.old.desk.cluster.now).data_centres)
        × ((hosted_shape nodes.old.desk.cluster.now).shards ≡ 1) }
    ensures { (nodes.new.desk.cluster.now ≡ nodes.old.desk.cluster.now)
        × (nodes.new.desk.seat.ghost_name ≡ nodes.old.desk.seat.ghost_name) }
{
    assert!(rt; admit(nodes, 2, beta(rt)).is_none());
    assert!(rt; put(alloc, nodes) == Some(1));
}

// Asserts that a slot is given to nobody.
fn assert_taken<R: Wait + Abort>(rt: &R, nodes: &mut LifeDesk<'_, R>, slot: u64)
    requires { (0 < (hosted_shape nodes.old.desk.cluster.now).data_centres)
        × ((hosted_shape nodes.old.desk.cluster.now).shards ≡ 1) }
    ensures { (nodes.new.desk.cluster.now ≡ nodes.old.desk.cluster.now)
        × (nodes.new.desk.seat.ghost_name ≡ nodes.old.desk.seat.ghost_name) }
{
    assert!(rt; admit(nodes, slot, beta(rt)) == Some(Fault::NoSlot));
}

// Asserts that the tenant goes, and can't go again.
fn assert_goes<R: Wait + Abort>(rt: &R, nodes: &mut LifeDesk<'_, R>)
    requires { (0 < (hosted_shape nodes.old.desk.cluster.now).data_centres)
        × ((hosted_shape nodes.old.desk.cluster.now).shards ≡ 1) }
    ensures { (nodes.new.desk.cluster.now ≡ nodes.old.desk.cluster.now)
        × (nodes.new.desk.seat.ghost_name ≡ nodes.old.desk.seat.ghost_name) }
{
    assert!(rt; close(nodes).is_none());
    assert!(rt; close(nodes) == Some(Fault::UnknownTenant));
}

// Asserts the replies in a slot's life, before, in and after it.
fn assert_life<R: Wait + Abort>(rt: &R, alloc: Global, nodes: &mut LifeDesk<'_, R>)
    requires { (0 < (hosted_shape nodes.old.desk.cluster.now).data_centres)
        × ((hosted_shape nodes.old.desk.cluster.now).shards ≡ 1) }
    ensures { (nodes.new.desk.cluster.now ≡ nodes.old.desk.cluster.now)
        × (nodes.new.desk.seat.ghost_name ≡ nodes.old.desk.seat.ghost_name) }
{
    assert_unknown(rt, alloc, nodes);
    assert_comes(rt, alloc, nodes);
    assert_taken(rt, nodes, 2);
    assert_goes(rt, nodes);
    assert_unknown(rt, alloc, nodes);
}

// Asserts that the next life begins anew, and that the first one is over.
fn assert_visit<R: Wait + Abort>(rt: &R, alloc: Global, nodes: &mut LifeDesk<'_, R>)
    requires { (0 < (hosted_shape nodes.old.desk.cluster.now).data_centres)
        × ((hosted_shape nodes.old.desk.cluster.now).shards ≡ 1) }
{
    assert_life(rt, alloc, nodes);
    nodes.life = 2;
    assert_comes(rt, alloc, nodes);
    assert_taken(rt, nodes, 64);
    nodes.life = 1;
    assert_unknown(rt, alloc, nodes);
}

// The same at the first node of a cluster that runs.
fn visit<R: Wait + Abort>(rt: &R, alloc: Global, config: &Config)
    requires sizes { IsTrue (are_sizes config.now) }
    requires clocks { IsTrue (are_clocks config.now) }
    requires one { (config.now.data_centres ≡ 1) × (config.now.shards ≡ 1) }
{
    let (cluster, mut seat) = Cluster::host(alloc, config).expect(rt, "memory");
    let desk = HostedDesk::new(rt, &cluster, &mut seat);
    let mut nodes = LifeDesk {
        desk,
        slot: 2,
        life: 1,
    };
    assert_visit(rt, alloc, &mut nodes);
}

#[test]
fn a_tenant_comes_and_goes_at_a_running_node(rt: HostRuntime) {
    let config = two_tenants(&rt, rt.alloc());
    assert!(&rt; has_clocks(&config));
    visit(&rt, rt.alloc(), &config);
}
