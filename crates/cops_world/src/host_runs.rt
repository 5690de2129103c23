//! Runs of events of tenants who come and go.
ghost use Rattle.std.specs.Prelude.{◌≡◌, ◌<◌, IfOk, IsTrue, length};
ghost use Rattle.std.specs.List.{AllByRecursion};
ghost use Rattle.cops_types.specs.declared.configs.Config.{Config};
ghost use Rattle.cops_types.specs.HeadLines.{is_tenant};
ghost use Rattle.cops_types.specs.OpenSlots.{open_at};
ghost use Rattle.cops_script.specs.Acting.{IsNew};
ghost use Rattle.cops_script.specs.Answers.{ToHost};
ghost use Rattle.cops_script.specs.Doing.{IsDone, IsHosted};
ghost use Rattle.cops_script.specs.GoodHeads.{is_good};
ghost use Rattle.cops_world.specs.HostRuns.{IsWithinLimits, TellsLives, acts_at, admits_at, answer_at, closes_at, said_of};
ghost use Rattle.cops_world.specs.SlotLives.{AreLivedAlone};
ghost use Rattle.cops_world.specs.Worlds.{HasOpenCluster, open_setup};

use crate::{Act, HostReply, Reply, World};
use cops_script::{Tenancy, as_reply};
use cops_types::{Config, Fault, RequestError, Tenant};
use std::alloc::{AllocError, Global};

/// What happens at a slot.
#[derive(Debug, Drop)]
pub enum Doing<'a> {
    /// The tenant that is open there acts.
    Own(Act<'a>),
    /// The host gives the slot to this tenant.
    Admit(Tenant),
    /// The host takes it from its tenant.
    Close,
}

/// An event of a tenant, or of the host.
#[derive(Debug, Drop)]
pub struct HostEvent<'a> {
    pub slot: u64,
    pub doing: Doing<'a>,
}

/// The reply to an event. An act at a slot without a tenant is refused to the host.
#[derive(Debug, Drop)]
pub enum LifeReply {
    ToHost(HostReply),
    ToTenant(Reply),
}

/// Lets the tenant of a slot act, if it has one.
fn act_at(world: &mut World, slot: u64, act: &Act) -> LifeReply
    ensures { IsDone open_setup HasOpenCluster world.old
        (acts_at slot act.now (open_at slot world.old.setup.tenants))
        (answer_at slot result) world.new }
{
    if world.tenants().tenant(slot).is_none() {
        return LifeReply::ToHost(HostReply::Denied(Fault::UnknownTenant));
    }
    LifeReply::ToTenant(as_reply(world.act(slot, act)))
}

/// Gives a slot to a tenant.
fn admit_at(world: &mut World, slot: u64, tenant: Tenant) -> HostReply
    requires { IsTrue (is_tenant tenant) }
    ensures { IsHosted open_setup HasOpenCluster world.old
        (admits_at world.old.setup.tenants slot tenant) (ToHost result) world.new }
{
    let name = tenant.name;
    match world.admit_at(slot, tenant) {
        Ok(()) => HostReply::Admitted(name),
        Err(RequestError::Refused(fault)) => HostReply::Denied(fault),
        Err(RequestError::OutOfMemory) => HostReply::Denied(RequestError::OutOfMemory.told()),
    }
}

/// Takes a slot from its tenant, if it has one.
fn close_at(world: &mut World, slot: u64) -> HostReply
    ensures { IsHosted open_setup HasOpenCluster world.old
        (closes_at slot (open_at slot world.old.setup.tenants)) (ToHost result) world.new }
{
    let Some(tenant) = world.tenants().tenant(slot) else {
        return HostReply::Denied(Fault::UnknownTenant);
    };
    let name = tenant.name;
    let _closed = world.close(slot);
    HostReply::Closed(name)
}

/// Applies one event.
fn happen(world: &mut World, event: &HostEvent) -> LifeReply
    requires { IsWithinLimits event.now }
    ensures { IsDone open_setup HasOpenCluster world.old (said_of world.old.setup.tenants event.now)
        (answer_at event.now.slot result) world.new }
{
    match &event.doing {
        Doing::Own(act) => act_at(world, event.slot, act),
        Doing::Admit(tenant) => LifeReply::ToHost(admit_at(world, event.slot, *tenant)),
        Doing::Close => LifeReply::ToHost(close_at(world, event.slot)),
    }
}

/// Applies events in a world, and returns a reply to each. Fails with `AllocError` if there is no memory
/// for the list of replies.
fn happen_all(
    alloc: Global,
    world: &mut World,
    events: &[HostEvent],
) -> Result<Vec<LifeReply>, AllocError>
    requires { AllByRecursion IsWithinLimits events.now }
    ensures length { IfOk result (λ told. length told.items ≡ length events.now) }
    ensures lives { IfOk result (λ told.
        (config : Config) → 0 < config.shards → IsNew open_setup HasOpenCluster config world.old →
        TellsLives config events.now told.items) }
    ensures alone { IfOk result (λ told.
        (config : Config) → 0 < config.shards → IsNew open_setup HasOpenCluster config world.old →
        AreLivedAlone config events.now told.items) }
{
    let mut told = Vec::with_capacity(alloc, events.len())?;
    for event in events {
        let reply = happen(world, event);
        told.push(reply)?;
    }
    Ok(told)
}

/// Applies events in a new world of a configuration, whose tenants come and go, and returns a reply to
/// each. The main theorem holds of each life: from the head or an admission to the next close of the
/// slot. Fails with `AllocError` if there is no memory for the world or the list of replies.
pub fn run_lives(
    alloc: Global,
    config: Config,
    events: &[HostEvent],
) -> Result<Vec<LifeReply>, AllocError>
    requires good { IsTrue (is_good config) }
    requires within { AllByRecursion IsWithinLimits events.now }
    ensures length { IfOk result (λ told. length told.items ≡ length events.now) }
    ensures lives { IfOk result (λ told. TellsLives config events.now told.items) }
    ensures alone { IfOk result (λ told. AreLivedAlone config events.now told.items) }
{
    let mut world = World::new(alloc, config)?;
    let told = happen_all(alloc, &mut world, events);
    drop(world);
    told
}
