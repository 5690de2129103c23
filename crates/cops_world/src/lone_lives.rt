//! The lives of one slot, each in a world of its own.
ghost use Rattle.std.specs.Prelude.{◌≡◌, ◌++◌, ◌∷◌, [], List, IfOk, IfSome, IsFalse, IsTrue, OnOk, length, map};
ghost use Rattle.std.specs.List.{AllByRecursion, list_any};
ghost use Rattle.cops_types.specs.declared.configs.Config.{Config};
ghost use Rattle.cops_types.specs.declared.configs.Tenant.{Tenant};
ghost use Rattle.cops_types.specs.HeadLines.{is_tenant};
ghost use Rattle.cops_model.specs.declared.replies.Reply.{Reply};
ghost use Rattle.cops_model.specs.Events.{IsSpared};
ghost use Rattle.cops_model.specs.MainTheorem.{with_tenant_alone};
ghost use Rattle.cops_script.specs.Acting.{IsNew};
ghost use Rattle.cops_script.specs.GoodHeads.{is_good};
ghost use Rattle.cops_script.specs.Said.{tenants_after};
ghost use Rattle.cops_world.specs.declared.host_runs.HostEvent.{HostEvent};
ghost use Rattle.cops_world.specs.declared.host_runs.LifeReply.{LifeReply};
ghost use Rattle.cops_world.specs.declared.lone_lives.LoneLife.{LoneLife};
ghost use Rattle.cops_world.specs.HostRuns.{IsWithinLimits, said_of};
ghost use Rattle.cops_world.specs.Worlds.{HasOpenCluster, open_setup};
ghost use Rattle.cops_world.specs.SlotLives.{AllPaired, IsGivenTo, IsLivedAlone, Life, events_heard, given_by, lacks_memory, life_of, lives_at, replies_heard};

use crate::{Doing, HostEvent, Reply, World};
use cops_script::{Tenancy, as_reply, with_tenant_alone};
use cops_types::{Config, OpenTenants, RequestError, Tenant};
use std::alloc::{AllocError, Global};

/// A life of a slot: its tenant, and the replies to it.
#[derive(Debug, Drop)]
pub struct LoneLife {
    pub tenant: Tenant,
    pub told: Vec<Reply>,
}

/// Returns the replies of a world's only tenant to the acts of a slot in these events, up to the next
/// close. Fails with `AllocError` if memory runs out.
fn live_in(
    alloc: Global,
    world: &mut World,
    slot: u64,
    events: &[HostEvent],
) -> Result<Vec<Reply>, AllocError>
    ensures { IfOk result (λ told.
        (config : Config) (tenant : Tenant) → IsTrue (is_good (with_tenant_alone config tenant)) →
        IsNew open_setup HasOpenCluster (with_tenant_alone config tenant) world.old →
        IsLivedAlone config (life_of slot events.now tenant) told.items) }
{
    let mut told = Vec::new(alloc);
    for event in events {
        if event.slot == slot {
            match &event.doing {
                Doing::Own(act) => told.push(as_reply(world.act(0, act)))?,
                Doing::Admit(_) => {}
                Doing::Close => return Ok(told),
            }
        }
    }
    Ok(told)
}

/// Returns the replies to a tenant, in a world of its own, that gets the slot before these events.
fn live_alone(
    alloc: Global,
    config: &Config,
    slot: u64,
    tenant: &Tenant,
    events: &[HostEvent],
) -> Result<Vec<Reply>, AllocError>
    requires { IsTrue (is_good (with_tenant_alone config.now tenant.now)) }
    ensures { IfOk result
        (λ told. IsLivedAlone config.now (life_of slot events.now tenant.now) told.items) }
{
    let alone = with_tenant_alone(alloc, config, tenant)?;
    let mut world = World::new(alloc, alone)?;
    let told = live_in(alloc, &mut world, slot, events);
    drop(world);
    told
}

/// Appends the life of a tenant that gets the slot before these events. Fails with `AllocError` if there
/// is no memory for its world or for the life.
fn add_life(
    alloc: Global,
    lives: &mut Vec<LoneLife>,
    config: &Config,
    slot: u64,
    tenant: &Tenant,
    events: &[HostEvent],
) -> Result<(), AllocError>
    requires { IsTrue (is_good (with_tenant_alone config.now tenant.now)) }
    ensures { OnOk result ((life : LoneLife) × (life.tenant ≡ tenant.now)
        × IsLivedAlone config.now (life_of slot events.now tenant.now) life.told.items
        × (lives.new.items ≡ lives.old.items ++ life ∷ [])) }
{
    let told = live_alone(alloc, config, slot, tenant, events)?;
    lives.push(LoneLife {
        tenant: *tenant,
        told,
    })?;
    Ok(())
}

/// Gives the slot to the tenant, and returns `true`; or `false` if it may not be admitted.
fn give(tenants: &mut OpenTenants, slot: u64, tenant: &Tenant) -> Result<bool, AllocError>
    ensures { IfOk result (λ given. IsGivenTo slot tenant.now tenants.old given tenants.new) }
{
    match tenants.admit_at(slot, *tenant) {
        Ok(()) => Ok(true),
        Err(RequestError::Refused(_)) => Ok(false),
        Err(RequestError::OutOfMemory) => Err(AllocError),
    }
}

/// Keeps the table of tenants past an event, and returns the tenant that it admits to the slot.
fn admitted_to(
    tenants: &mut OpenTenants,
    slot: u64,
    event: &HostEvent,
) -> Result<Option<Tenant>, AllocError>
    requires { IsWithinLimits event.now }
    ensures given { IfOk result (λ given. given ≡ given_by slot (said_of tenants.old event.now)) }
    ensures tenants { OnOk result
        (tenants.new ≡ tenants_after tenants.old (said_of tenants.old event.now)) }
    ensures within { IfOk result (λ given. IfSome given (λ tenant. IsTrue (is_tenant tenant))) }
{
    match &event.doing {
        Doing::Own(_) => Ok(None),
        Doing::Admit(tenant) => {
            let is_given = give(tenants, event.slot, tenant)?;
            Ok(if is_given && event.slot == slot {
                Some(*tenant)
            } else {
                None
            })
        }
        Doing::Close => {
            let _closed = tenants.close(event.slot);
            Ok(None)
        }
    }
}

/// Applies the same events as `run_lives` for the tenants of one slot, each in a world of its own, and
/// returns their lives in order. All admissions and closes keep the table of tenants, as with ample
/// memory. Fails with `AllocError` if there is no memory for the table, a world or the lives.
pub fn solo_lives(
    alloc: Global,
    config: &Config,
    slot: u64,
    events: &[HostEvent],
) -> Result<Vec<LoneLife>, AllocError>
    requires good { IsTrue (is_good config.now) }
    requires within { AllByRecursion IsWithinLimits events.now }
    ensures tenants { IfOk result (λ lives. map (λ life. life.tenant) lives.items
        ≡ map (λ life. life.tenant) (lives_at config.now slot events.now)) }
    ensures alone { IfOk result (λ lives. AllPaired (IsLivedAlone config.now)
        (lives_at config.now slot events.now) (map (λ life. life.told.items) lives.items)) }
{
    let mut tenants = OpenTenants::of(alloc, &config.tenants)?;
    let mut lives = Vec::new(alloc);
    if let Some(tenant) = tenants.tenant(slot) {
        add_life(alloc, &mut lives, config, slot, tenant, events)?;
    }
    for (place, event) in events.iter().enumerate() {
        if let Some(tenant) = admitted_to(&mut tenants, slot, event)? {
            add_life(
                alloc,
                &mut lives,
                config,
                slot,
                &tenant,
                &events[place + 1..],
            )?;
        }
    }
    Ok(lives)
}

/// Theorem: `run_lives` and `solo_lives` tell the tenant of a life the same, unless a reply is that
/// memory ran out. Both have the same lives, unless an admission ran out of memory in `run_lives`.
pub fn lives_are_those_alone()
    ensures same { (config : Config) (lives : List Life) (told alone : List (List Reply)) →
        AllPaired (IsLivedAlone config) lives told → AllPaired (IsLivedAlone config) lives alone →
        AllPaired (λ one other. IsSpared one → IsSpared other → one ≡ other) told alone }
    ensures heard { (events : List HostEvent) (replies : List LifeReply) →
        length replies ≡ length events → IsFalse (list_any lacks_memory replies) →
        (events_heard events replies ≡ events) × (replies_heard replies ≡ replies) }
{}
