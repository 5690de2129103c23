//! A running cluster when memory is refused: what a call was made on is as it was, and the same call
//! again is answered. Run with the Nth request refused, for each N.
ghost use Rattle.std.specs.Prelude.{◌≡◌, ◌<◌, ◌≤◌, IfOk, IsTrue, length};
ghost use Rattle.cops_types.specs.HeadLines.{are_sizes};
ghost use Rattle.cops_node.specs.Clusters.{new_nodes};
ghost use Rattle.cops_node.specs.Parts.{are_clocks};
ghost use Rattle.cops_service.specs.Gates.{IsSeatOf};
ghost use Rattle.cops_service.specs.HostedDesks.{AreHosted, hosted_shape};

use crate::hosted_tests::{admit, beta, put, two_tenants};
use crate::hosting_tests::assert_clocks;
use crate::tests::{closed, config};
use crate::{Cluster, HostedDesk, Life, LifeDesk, Roster, ServiceSeat, TenantHost, hosting_tests};
use cops_node::{HostedNode, Node, NodeId, has_clocks};
use cops_types::{Config, Fault, Machine, RequestError};
use std::alloc::{AllocError, Global};
use std::process::Abort;
use std::sync::Wait;

/// Opens a cluster at which tenants come and go, again if memory is refused.
fn hosted(
    rt: &impl Abort,
    alloc: Global,
    config: &Config,
) -> (Cluster<HostedNode>, ServiceSeat<HostedNode>)
    requires sizes { IsTrue (are_sizes config.now) }
    requires clocks { IsTrue (are_clocks config.now) }
    ensures own { IsSeatOf result.0 result.1 }
    ensures nodes { AreHosted result.0 }
    ensures shape { hosted_shape result.0 ≡ (new_nodes config.now).shape }
{
    match Cluster::host(alloc, config) {
        Ok(both) => both,
        Err(_) => Cluster::host(alloc, config).expect(rt, "memory"),
    }
}

/// Opens a cluster of nodes, again if memory is refused.
fn opened(rt: &impl Abort, alloc: Global, config: &Config) -> (Cluster<Node>, ServiceSeat<Node>)
    requires sizes { IsTrue (are_sizes config.now) }
    requires clocks { IsTrue (are_clocks config.now) }
    ensures { IsSeatOf result.0 result.1 }
{
    match Cluster::open(alloc, config) {
        Ok(both) => both,
        Err(_) => Cluster::open(alloc, config).expect(rt, "memory"),
    }
}

/// Splits a seat, again if memory is refused.
fn second<M: Machine>(
    rt: &impl Abort,
    alloc: Global,
    cluster: &Cluster<M>,
    seat: &mut ServiceSeat<M>,
) -> ServiceSeat<M>
    requires { IsSeatOf cluster.now seat.old }
    ensures same { (seat.new.gate ≡ seat.old.gate) × (seat.new.history ≡ seat.old.history) }
    ensures seat { IsSeatOf cluster.now result }
{
    match seat.split(alloc, cluster) {
        Ok(second) => second,
        Err(_) => seat.split(alloc, cluster).expect(rt, "memory"),
    }
}

/// Closes a cluster, again if memory is refused.
fn closed_again<M: Machine + Drop>(
    rt: &impl Abort,
    alloc: Global,
    cluster: Cluster<M>,
    seat: ServiceSeat<M>,
) -> Vec<M>
    requires { IsSeatOf cluster seat }
{
    match cluster.close(alloc, seat) {
        Ok(Some(machines)) => machines,
        Ok(None) => panic!(rt; "a turn is open"),
        Err(back) => {
            let (cluster, seat) = back.value;
            closed(rt, alloc, cluster, seat)
        }
    }
}

/// Asserts that the third slot is given to beta, again if memory is refused.
fn assert_comes<R: Wait + Abort>(rt: &R, nodes: &mut LifeDesk<'_, R>)
    requires { (0 < (hosted_shape nodes.old.desk.cluster.now).data_centres)
        × ((hosted_shape nodes.old.desk.cluster.now).shards ≡ 1) }
    ensures { (nodes.new.desk.cluster.now ≡ nodes.old.desk.cluster.now)
        × (nodes.new.desk.seat.ghost_name ≡ nodes.old.desk.seat.ghost_name) }
{
    if let Some(fault) = admit(nodes, 2, beta(rt)) {
        assert!(rt; fault == Fault::OutOfMemory);
        assert!(rt; admit(nodes, 2, beta(rt)).is_none());
    }
}

/// Asserts that beta's first put has the first version. It is made again if memory is refused.
fn assert_puts<R: Wait + Abort>(rt: &R, alloc: Global, nodes: &mut LifeDesk<'_, R>)
    requires { (0 < (hosted_shape nodes.old.desk.cluster.now).data_centres)
        × ((hosted_shape nodes.old.desk.cluster.now).shards ≡ 1) }
    ensures { (nodes.new.desk.cluster.now ≡ nodes.old.desk.cluster.now)
        × (nodes.new.desk.seat.ghost_name ≡ nodes.old.desk.seat.ghost_name) }
{
    let clock = match put(alloc, nodes) {
        Some(clock) => clock,
        None => put(alloc, nodes).expect(rt, "memory"),
    };
    assert!(rt; clock == 1);
}

/// Beta comes and puts.
fn visit<R: Wait + Abort>(
    rt: &R,
    alloc: Global,
    cluster: &Cluster<HostedNode>,
    mut seat: ServiceSeat<HostedNode>,
) -> ServiceSeat<HostedNode>
    requires nodes { AreHosted cluster.now }
    requires seat { IsSeatOf cluster.now seat }
    requires shape { (0 < (hosted_shape cluster.now).data_centres)
        × ((hosted_shape cluster.now).shards ≡ 1) }
    ensures { IsSeatOf cluster.now result }
{
    let desk = HostedDesk::new(rt, cluster, &mut seat);
    let mut nodes = LifeDesk {
        desk,
        slot: 2,
        life: 1,
    };
    assert_comes(rt, &mut nodes);
    assert_puts(rt, alloc, &mut nodes);
    seat
}

/// The nodes of a cluster that beta came to.
fn nodes_after_visit<R: Wait + Abort>(rt: &R, alloc: Global, config: &Config) -> Vec<HostedNode>
    requires sizes { IsTrue (are_sizes config.now) }
    requires clocks { IsTrue (are_clocks config.now) }
    requires one { (config.now.data_centres ≡ 1) × (config.now.shards ≡ 1) }
{
    let (cluster, mut seat) = hosted(rt, alloc, config);
    let other = second(rt, alloc, &cluster, &mut seat);
    let mut last = visit(rt, alloc, &cluster, other);
    seat.meet(&cluster, &mut last);
    closed_again(rt, alloc, cluster, last)
}

#[test]
fn refused_memory_at_a_running_node(rt: HostRuntime) {
    let config = two_tenants(&rt, rt.alloc());
    assert!(&rt; has_clocks(&config));
    let nodes = nodes_after_visit(&rt, rt.alloc(), &config);
    assert!(rt; nodes.len() == 1);
    assert!(rt; nodes[0].node().audit_len(2) == 1);
}

/// Asserts that beta comes to both nodes; if memory is refused at one, to none, and then to both.
fn assert_comes_to_all<R: Wait + Abort>(rt: &R, alloc: Global, nodes: &mut LifeDesk<'_, R>)
    requires { (1 < (hosted_shape nodes.old.desk.cluster.now).data_centres)
        × ((hosted_shape nodes.old.desk.cluster.now).shards ≡ 1) }
    ensures { (nodes.new.desk.cluster.now ≡ nodes.old.desk.cluster.now)
        × (nodes.new.desk.seat.ghost_name ≡ nodes.old.desk.seat.ghost_name) }
{
    if let Err(error) = hosting_tests::admit(rt, nodes) {
        assert!(rt; error == RequestError::OutOfMemory);
        assert_clocks(rt, alloc, nodes, (0, 0));
        assert!(rt; hosting_tests::admit(rt, nodes) == Ok(()));
    }
}

/// Beta comes to both nodes.
fn come_to_all<R: Wait + Abort>(
    rt: &R,
    alloc: Global,
    cluster: &Cluster<HostedNode>,
    mut seat: ServiceSeat<HostedNode>,
) -> ServiceSeat<HostedNode>
    requires nodes { AreHosted cluster.now }
    requires seat { IsSeatOf cluster.now seat }
    requires shape { (1 < (hosted_shape cluster.now).data_centres)
        × ((hosted_shape cluster.now).shards ≡ 1) }
    ensures { IsSeatOf cluster.now result }
{
    let desk = HostedDesk::new(rt, cluster, &mut seat);
    let mut nodes = LifeDesk {
        desk,
        slot: 2,
        life: 1,
    };
    assert_comes_to_all(rt, alloc, &mut nodes);
    seat
}

/// Two nodes that beta came to.
fn nodes_of_all<R: Wait + Abort>(rt: &R, alloc: Global, config: &Config) -> Vec<HostedNode>
    requires sizes { IsTrue (are_sizes config.now) }
    requires clocks { IsTrue (are_clocks config.now) }
    requires two { (config.now.data_centres ≡ 2) × (config.now.shards ≡ 1) }
{
    let (cluster, seat) = hosted(rt, alloc, config);
    let last = come_to_all(rt, alloc, &cluster, seat);
    closed_again(rt, alloc, cluster, last)
}

#[test]
fn refused_memory_admits_at_all_nodes_or_at_none(rt: HostRuntime) {
    let config = config(&rt, rt.alloc(), 2);
    assert!(&rt; has_clocks(&config));
    let nodes = nodes_of_all(&rt, rt.alloc(), &config);
    assert!(rt; nodes.len() == 2);
    assert!(rt;
        nodes[0].node().opened_as(2, &beta(&rt)) && nodes[1].node().opened_as(2, &beta(&rt))
    );
}

/// The roster of a configuration, made again if memory is refused.
fn roster_of(rt: &impl Abort, alloc: Global, config: &Config) -> Roster {
    match Roster::of(alloc, config) {
        Ok(roster) => roster,
        Err(_) => Roster::of(alloc, config).expect(rt, "memory"),
    }
}

/// Admits beta, again if memory is refused. Nobody has its token then.
fn begun<R: Wait + Abort>(rt: &R, host: &mut TenantHost<'_, R>) -> Life {
    let tenant = beta(rt);
    match host.admit(tenant) {
        Ok(life) => life,
        Err(error) => {
            assert!(rt; error == RequestError::OutOfMemory);
            assert!(rt; host.roster.life_of_token(&tenant.token).is_none());
            host.admit(tenant).expect(rt, "memory")
        }
    }
}

/// Asserts that beta begins a life, and leaves.
fn assert_comes_and_goes<R: Wait + Abort>(rt: &R, host: &mut TenantHost<'_, R>) {
    let life = begun(rt, host);
    assert!(rt; life.slot == 1);
    assert!(rt; host.roster.life_of_token(&beta(rt).token) == Some(life));
    assert!(rt; host.close(b"beta") == Ok(1));
}

/// Lets beta come and go at two nodes.
fn live<R: Wait + Abort>(rt: &R, alloc: Global, config: &Config)
    requires sizes { IsTrue (are_sizes config.now) }
    requires clocks { IsTrue (are_clocks config.now) }
{
    let (cluster, mut seat) = hosted(rt, alloc, config);
    let mut roster = roster_of(rt, alloc, config);
    let mut host = TenantHost {
        desk: HostedDesk::new(rt, &cluster, &mut seat),
        roster: &mut roster,
    };
    assert_comes_and_goes(rt, &mut host);
}

#[test]
fn refused_memory_begins_no_life(rt: HostRuntime) {
    let config = config(&rt, rt.alloc(), 2);
    assert!(&rt; has_clocks(&config));
    live(&rt, rt.alloc(), &config);
}

#[test]
fn refused_memory_opens_and_closes(rt: HostRuntime) {
    let config = two_tenants(&rt, rt.alloc());
    assert!(&rt; has_clocks(&config));
    let (cluster, seat) = opened(&rt, rt.alloc(), &config);
    let nodes = closed_again(&rt, rt.alloc(), cluster, seat);
    assert!(rt; nodes.len() == 1);
}

/// A machine that counts its turns.
#[derive(Drop)]
struct Counter {
    turns: u64,
}

impl Machine for Counter {
    type Call = ();

    type Reply = u64;

    type Place = ();

    ghost place = { λ _. tt };

    ghost fits = { λ _ _ _. Unit {0} };

    ghost turns = { λ _ _ _ _ _ _. Unit {0} };

    ghost may_lack = { λ _ _ _. ⊥ };

    fn turn(&mut self, _slot: u64, _moment: u64, _call: ()) -> Result<u64, AllocError> {
        self.turns = self.turns.saturating_add(1);
        Ok(self.turns)
    }
}

/// Returns how many turns the first machine has made after one more, which is made again if memory is refused.
fn turned<R: Wait + Abort>(
    rt: &R,
    cluster: &Cluster<Counter>,
    seat: &mut ServiceSeat<Counter>,
) -> u64
    requires { IsSeatOf cluster.now seat.old × (cluster.now.shards ≡ 1)
        × (1 ≤ length cluster.now.gate.opening) }
    ensures { IsSeatOf cluster.now seat.new }
{
    let id = NodeId { dc: 0, shard: 0 };
    match seat.step(rt, cluster, id, 0, 0, ()) {
        Ok(turns) => turns,
        Err(error) => {
            assert!(rt; error == RequestError::OutOfMemory);
            seat.step(rt, cluster, id, 0, 0, ()).expect(rt, "memory")
        }
    }
}

/// One machine.
fn one_counter(alloc: Global) -> Result<Vec<Counter>, AllocError>
    ensures { IfOk result (λ machines. length machines.items ≡ 1) }
{
    let mut machines = Vec::new(alloc);
    machines.push(Counter { turns: 0 })?;
    Ok(machines)
}

/// A cluster of one machine, made again if memory is refused.
fn one_machine(rt: &impl Abort, alloc: Global) -> (Cluster<Counter>, ServiceSeat<Counter>)
    ensures own { IsSeatOf result.0 result.1 }
    ensures one { (result.0.shards ≡ 1) × (1 ≤ length result.0.gate.opening) }
{
    let made = match Cluster::of(alloc, 1, one_counter(alloc).expect(rt, "memory")) {
        Ok(made) => made,
        Err(_) => Cluster::of(alloc, 1, one_counter(alloc).expect(rt, "memory")).expect(
            rt, "memory",
        ),
    };
    made.expect(rt, "a machine")
}

#[test]
fn refused_memory_makes_no_turn(rt: HostRuntime) {
    let (cluster, mut seat) = one_machine(&rt, rt.alloc());
    assert!(rt; turned(&rt, &cluster, &mut seat) == 1);
    assert!(rt; turned(&rt, &cluster, &mut seat) == 2);
    let machines = closed_again(&rt, rt.alloc(), cluster, seat);
    assert!(rt; machines.len() == 1);
}
