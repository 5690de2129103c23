ghost use Rattle.std.specs.Prelude.{◌≡◌, ℕ, All, IfOk, IsTrue, length};
ghost use Rattle.cops_types.specs.HeadLines.{is_tenant};
ghost use Rattle.cops_model.specs.Cluster.{SoloCluster};
ghost use Rattle.cops_model.specs.Events.{own, replies};
ghost use Rattle.cops_model.specs.Goes.{Goes};
ghost use Rattle.cops_model.specs.Setups.{Setup, config_in, is_open_at};
ghost use Rattle.cops_script.specs.Acting.{HasActed, HasClosed, IsAdmission, IsNew, told_act};
ghost use Rattle.cops_script.specs.GoodHeads.{is_good};

use cops_model::{Act, Event, Reply};
use cops_types::{Config, OpenTenants, RequestError, Tenant};
use std::alloc::{AllocError, Global};

/// Many tenants in one world, in any representation. They may come and go.
pub trait Tenancy {
    ghost setup: { Self → Setup };

    // The tenant that is open in the slot has this cluster.
    ghost StandsFor: { Self → ℕ → SoloCluster → Type 0 };

    /// Returns a new world of a configuration, in which each tenant has a new cluster. Fails with
    /// `AllocError` if memory runs out.
    fn begin(alloc: Global, config: Config) -> Result<Self, AllocError>
        requires { IsTrue (is_good config) }
        ensures { IfOk result (IsNew setup StandsFor config) };

    /// Returns the tenants that are open now, by slot.
    fn tenants(&self) -> &OpenTenants
        ensures { result.now ≡ (setup self.now).tenants };

    /// Performs an act of the tenant in a slot, on its own cluster and on no other. Fails with
    /// `AllocError` if memory runs out. Then nothing changed, unless the act took a step: its
    /// request or carrier is over, and the effects of its calls stand.
    fn act(&mut self, slot: u64, act: &Act) -> Result<Reply, AllocError>
        requires { IsTrue (is_open_at (setup self.old) slot) }
        ensures { HasActed setup StandsFor self.old
            (record { slot = slot; act = act.now }) result self.new };

    /// Gives the least free slot to a tenant, which starts with a new cluster. Returns the slot.
    /// Is refused if the tenant may not be admitted; memory can run out only otherwise.
    fn admit(&mut self, tenant: Tenant) -> Result<u64, RequestError>
        requires { IsTrue (is_tenant tenant) }
        ensures { IsAdmission setup StandsFor self.old tenant result self.new };

    /// Takes a slot from its tenant, and drops all its data. Allocates nothing.
    fn close(&mut self, slot: u64)
        requires { IsTrue (is_open_at (setup self.old) slot) }
        ensures { HasClosed setup StandsFor slot self.old self.new };
}

/// Returns the tenant's reply to an act.
#[inline(always)]
pub fn as_reply(answered: Result<Reply, AllocError>) -> Reply
    ensures { result ≡ told_act answered }
{
    match answered {
        Ok(reply) => reply,
        Err(error) => Reply::Refused(RequestError::from(error).told()),
    }
}

/// Returns the replies to events in a row. Each tenant's replies are a run of its own acts in its
/// own cluster, in which memory may run out, and that cluster is then its part of the world. Fails
/// with `AllocError` if memory runs out.
pub fn run_all<W: Tenancy>(
    alloc: Global,
    world: &mut W,
    events: &[Event],
) -> Result<Vec<Reply>, AllocError>
    requires { All (λ e. IsTrue (is_open_at (W.setup world.old) e.slot)) events.now }
    ensures length { IfOk result (λ told. length told.items ≡ length events.now) }
    ensures setup { W.setup world.new ≡ W.setup world.old }
    ensures goes { IfOk result
        (λ told. (slot : ℕ) (cluster : SoloCluster) → W.StandsFor world.old slot cluster →
        (left : SoloCluster) × Goes (config_in (W.setup world.old) slot) (own slot events.now)
        (replies slot events.now told.items) cluster left × W.StandsFor world.new slot left) }
{
    let mut told = Vec::with_capacity(alloc, events.len())?;
    for event in events {
        let reply = as_reply(world.act(event.slot, &event.act));
        told.push(reply)?;
    }
    Ok(told)
}
