//! Runs events in a new world: those of all tenants, or of one alone.
ghost use Rattle.std.specs.Prelude.{◌≡◌, ◌<◌, ℕ, All, IfOk, IsTrue, length};
ghost use Rattle.cops_model.specs.Events.{config_at, own, replies};
ghost use Rattle.cops_model.specs.Cluster.{SoloCluster, new_cluster};
ghost use Rattle.cops_model.specs.Goes.{Goes};
ghost use Rattle.cops_model.specs.Setups.{config_in, new_setup};
ghost use Rattle.cops_model.specs.MainTheorem.{IsCausalRun, MainTheorem};
ghost use Rattle.cops_script.specs.GoodHeads.{is_good};
ghost use Rattle.cops_world.specs.Worlds.{HasOpenCluster, open_setup};

use crate::{Event, Reply, World};
use cops_script::{Tenancy, as_reply, run_all, with_tenant_alone};
use cops_types::Config;
use std::alloc::{AllocError, Global};

/// A new world of a configuration after events in a row, and the replies to them. Each tenant has the
/// cluster in it that a run of its own acts leaves, with these replies, however often memory ran out.
pub fn run_world(
    alloc: Global,
    config: Config,
    events: &[Event],
) -> Result<(World, Vec<Reply>), AllocError>
    requires good { IsTrue (is_good config) }
    requires slots { All (λ e. e.slot < length config.tenants) events.now }
    ensures length { IfOk result (λ run. length run.1.items ≡ length events.now) }
    ensures setup { IfOk result (λ run. open_setup run.0 ≡ new_setup config) }
    ensures theorem { IfOk result (λ run. MainTheorem config events.now run.1.items) }
    ensures left { IfOk result (λ run. (slot : ℕ) → slot < length config.tenants →
        (left : SoloCluster) × Goes (config_at config slot) (own slot events.now)
        (replies slot events.now run.1.items) (new_cluster (config_at config slot)) left
        × HasOpenCluster run.0 slot left) }
{
    let mut world = World::new(alloc, config)?;
    let told = run_all(alloc, &mut world, events)?;
    Ok((world, told))
}

/// Applies events in a new world of a configuration, and returns a reply to each.
pub fn run(alloc: Global, config: Config, events: &[Event]) -> Result<Vec<Reply>, AllocError>
    requires good { IsTrue (is_good config) }
    requires slots { All (λ e. e.slot < length config.tenants) events.now }
    ensures length { IfOk result (λ told. length told.items ≡ length events.now) }
    ensures theorem { IfOk result (λ told. MainTheorem config events.now told.items) }
{
    let mut world = World::new(alloc, config)?;
    let told = run_all(alloc, &mut world, events);
    drop(world);
    told
}

/// Returns the replies of the tenant in slot 0 of a world to the events of a slot, in order. Fails with
/// `AllocError` if memory runs out.
fn answer_own(
    alloc: Global,
    world: &mut World,
    slot: u64,
    events: &[Event],
) -> Result<Vec<Reply>, AllocError>
    ensures length { IfOk result (λ told. length told.items ≡ length (own slot events.now)) }
    ensures run { IfOk result
        (λ told. (cluster : SoloCluster) → HasOpenCluster world.old 0 cluster →
        (left : SoloCluster)
        × Goes (config_in world.old.setup 0) (own slot events.now) told.items cluster left) }
{
    let mut told = Vec::new(alloc);
    for event in events {
        if event.slot == slot {
            told.push(as_reply(world.act(0, &event.act)))?;
        }
    }
    Ok(told)
}

/// The replies to one tenant's events among these, in a cluster that it has to itself.
pub fn solo(
    alloc: Global,
    config: &Config,
    slot: u64,
    events: &[Event],
) -> Result<Vec<Reply>, AllocError>
    requires good { IsTrue (is_good config.now) }
    requires slot { slot < length config.now.tenants }
    ensures length { IfOk result (λ told. length told.items ≡ length (own slot events.now)) }
    ensures run { IfOk result
        (λ told. IsCausalRun (config_at config.now slot) (own slot events.now) told.items) }
{
    let alone = with_tenant_alone(alloc, config, config.tenants.tenant(slot))?;
    let mut world = World::new(alloc, alone)?;
    let told = answer_own(alloc, &mut world, slot, events);
    drop(world);
    told
}
