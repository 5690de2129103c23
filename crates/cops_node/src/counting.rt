//! A node of one tenant that counts its calls and keeps no audit of them.
ghost use Rattle.std.specs.Prelude.{◌≡◌, ◌<◌, ◌≤◌, IfOk, IsTrue, OnErr};
ghost use Rattle.cops_types.specs.HeadLines.{are_sizes};
ghost use Rattle.cops_types.specs.TenantConfig.{tenant_config};
ghost use Rattle.cops_types.specs.Version.{last_clock};
ghost use Rattle.cops_model.specs.Place.{fits, place_of};
ghost use Rattle.cops_model.specs.SoloNode.{SoloNode, new_node};
ghost use Rattle.cops_node.specs.Counting.{IsCountedTurn, RepresentsSolo, place_of_counting};

use crate::answered::Answered;
use crate::parts::{self, Caller, Part, Storage};
use crate::{Home, NodeCall, NodeId, NodeReply, calls};
use cops_outbox::Outbox;
use cops_store::Store;
use cops_types::{Config, Fault, Seeds, Tenant};
use std::alloc::{AllocError, Global};
use std::marker::Model;

/// A node of one tenant alone that keeps the number of its calls in place of an audit, so its
/// memory does not grow with them. Contracts see the solo nodes that it represents: those in its
/// state, with as many calls in their trail.
#[derive(Drop)]
pub struct CountingNode {
    alloc: Global,
    home: Home,
    part: Part,
    calls: u64,
    storage: Storage,
}

impl Model for CountingNode {
    ghost use Rattle.cops_model.specs.SoloNode.{SoloNode};
    ghost use Rattle.cops_node.specs.Counting.{Counting, RepresentsSolo};

    ghost Value = { Counting };

    ghost view = { λ n. record { home = n.home; part = n.part; calls = n.calls; store = n.storage.store; outbox = n.storage.outbox } };

    ghost invariant = { λ n. (solo : SoloNode) × RepresentsSolo (record { home = n.home; part = n.part; calls = n.calls; store = n.storage.store; outbox = n.storage.outbox }) solo };
}

// Returns the reply to the caller, and drops the audit record.
fn told_by(answered: Answered) -> NodeReply
    ensures { result ≡ answered.told }
{
    answered.told
}

impl CountingNode {
    /// Returns a configuration's node for one of its tenants alone, before any call. Fails with
    /// `AllocError` if memory runs out.
    pub fn new(
        alloc: Global,
        config: &Config,
        tenant: &Tenant,
        id: NodeId,
    ) -> Result<Self, AllocError>
        requires dc_exists { id.dc < config.now.data_centres }
        requires shard_exists { id.shard < config.now.shards }
        requires sizes { IsTrue (are_sizes config.now) }
        requires clock { tenant.now.first_clock ≤ last_clock }
        ensures place { IfOk result
            (λ node. place_of_counting node ≡ place_of (tenant_config config.now tenant.now) id) }
        ensures fresh { IfOk result
            (λ node. RepresentsSolo node (new_node config.now.data_centres)) }
    {
        let part = parts::fresh(alloc, config.data_centres, parts::terms_for(tenant))?;
        let store = Store::seeded(alloc, 1, Seeds::of_tokens(&[*tenant]))?;
        let outbox = Outbox::new(alloc, config.data_centres as usize, id.dc, 1)?;
        Ok(CountingNode {
            alloc,
            home: Home::of(config, id),
            part,
            calls: 0,
            storage: Storage { store, outbox },
        })
    }

    /// Returns `true` if the call may come to this node.
    pub fn fits(&self, call: &NodeCall) -> bool
        ensures { result ≡ fits (place_of_counting self.now) call.now }
    {
        self.home.fits(call)
    }

    /// Makes a call. If as many have been made as the tenant's audit may have, that is the reply.
    /// Fails with `AllocError` if memory runs out; then the node represents what it did.
    pub fn step(&mut self, moment: u64, call: NodeCall) -> Result<NodeReply, AllocError>
        requires { IsTrue (fits (place_of_counting self.old) call) }
        ensures turn { IfOk result (λ reply. (solo : SoloNode) → RepresentsSolo self.old solo →
            IsCountedTurn moment call reply self.old solo self.new) }
        ensures place { place_of_counting self.new ≡ place_of_counting self.old }
        ensures err { OnErr result
            ((solo : SoloNode) → RepresentsSolo self.old solo → RepresentsSolo self.new solo) }
    {
        if self.calls >= self.part.terms.quota.audit {
            return Ok(NodeReply::Refused(Fault::AuditFull));
        }
        let now = self.part.moment.max(moment);
        let caller = Caller {
            slot: 0,
            moment: now,
        };
        let told = told_by(calls::act(
            self.alloc,
            &self.home,
            &self.part.terms,
            &mut self.part.counters,
            &mut self.storage,
            caller,
            call,
        )?);
        self.part.moment = now;
        self.calls += 1;
        Ok(told)
    }
}
