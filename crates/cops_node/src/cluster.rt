//! All nodes of a cluster in one process.
ghost use Rattle.std.specs.Prelude.{◌≡◌, ℕ, ◌*◌, ◌≤◌, slice_get, replicate, Some, true, false, IsTrue, IfOk, OnErr, OnOk};
ghost use Rattle.cops_types.specs.declared.configs.Tenant.{Tenant};
ghost use Rattle.cops_types.specs.HeadLines.{are_sizes};
ghost use Rattle.cops_types.specs.Layout.{NODES};
ghost use Rattle.cops_types.specs.Refusal.{refused_if};
ghost use Rattle.cops_types.specs.RequestErrors.{AnswersUnless};
ghost use Rattle.cops_types.specs.TenantConfig.{TenantConfig, tenant_config};
ghost use Rattle.cops_types.specs.Version.{last_clock};
ghost use Rattle.cops_types.specs.declared.faults.Fault.TheVariants.{NoSlot};
ghost use Rattle.cops_model.specs.declared.calls.NodeCall.{NodeCall};
ghost use Rattle.cops_model.specs.declared.calls.NodeReply.{NodeReply};
ghost use Rattle.cops_node.specs.Clusters.{IsCall, IsCluster, IsTurnOf, HasTenant, nodes_of, new_nodes};
ghost use Rattle.cops_node.specs.Lives.{AtEach, IsAdmitted, IsClosed};
ghost use Rattle.cops_node.specs.Parts.{AuditFits, are_clocks, is_taken};
ghost use Rattle.cops_node.specs.Shape.{Fits};
ghost use Rattle.cops_node.specs.ToldReplies.{told_reply};
ghost use Rattle.cops_model.specs.SoloNode.{new_node};
ghost use Rattle.std.specs.List.{AllByRecursion, list_any};

use crate::lives::{admit_at_all, close_at_all, is_taken_at_any};
use crate::node::Node;
use crate::nodes::Nodes;
use crate::{NodeCall, NodeId, NodeReply};
use cops_types::{Config, Fault, Quota, RequestError};
use std::alloc::{AllocError, Global};
use std::marker::Model;

/// The nodes of a cluster by number: by data centre, then by shard.
#[derive(Drop)]
pub struct Cluster0 {
    data_centres: u64,
    shards: u64,
    nodes: Vec<Node>,
}

impl Model for Cluster0 {
    ghost use Rattle.cops_node.specs.Clusters.{Cluster, HoldsNodes};

    ghost Value = { Cluster };

    ghost view = { λ c. record { shape = record { data_centres = c.data_centres; shards = c.shards }; nodes = c.nodes.items } };

    ghost invariant = { λ c. HoldsNodes (record { data_centres = c.data_centres; shards = c.shards }) c.nodes.items };
}

// Returns the number of nodes.
fn count_of(config: &Config) -> u64
    requires { IsTrue (are_sizes config.now) }
    ensures value { result ≡ config.now.data_centres * config.now.shards }
    ensures fits { result ≤ NODES }
{
    config.data_centres * config.shards
}

impl Cluster0 {
    /// Returns the nodes of a configuration, before any call. Fails with `AllocError` if memory
    /// runs out.
    pub fn new(alloc: Global, config: &Config) -> Result<Self, AllocError>
        requires sizes { IsTrue (are_sizes config.now) }
        requires clocks { IsTrue (are_clocks config.now) }
        ensures nodes { IfOk result (λ cluster. cluster ≡ new_nodes config.now) }
        ensures tenants { IfOk result (λ cluster.
            (slot : ℕ) (tenant : Tenant) → slice_get config.now.tenants slot ≡ Some tenant →
            HasTenant (tenant_config config.now tenant) slot cluster) }
        ensures fresh { IfOk result (λ cluster.
            (slot : ℕ) (tenant : Tenant) → slice_get config.now.tenants slot ≡ Some tenant →
            nodes_of (tenant_config config.now tenant) slot cluster ≡ replicate
            (config.now.data_centres * config.now.shards) (new_node config.now.data_centres)) }
    {
        let shards = config.shards;
        let mut nodes = Vec::new(alloc);
        for number in 0..count_of(config) {
            let id = NodeId {
                dc: number / shards,
                shard: number % shards,
            };
            nodes.push(Node::new(alloc, config, id)?)?;
        }
        Ok(Cluster0 {
            data_centres: config.data_centres,
            shards,
            nodes,
        })
    }

    /// Returns the nodes, by number.
    pub fn nodes(&self) -> &[Node]
        ensures value { result.now ≡ self.now.nodes }
        ensures in_order { IsCluster self.now.shape self.now.nodes }
        ensures fitting { AllByRecursion AuditFits self.now.nodes }
    {
        self.nodes.as_slice()
    }

    /// Gives a free slot to a tenant with this first clock, at most `Version::LAST_CLOCK`, and
    /// quota: at all nodes, or at none. No audit records it. Is refused with `NoSlot` if a node's
    /// slot is not free; memory can run out only otherwise.
    pub fn admit(&mut self, slot: u64, first_clock: u64, quota: Quota) -> Result<(), RequestError>
        requires { first_clock ≤ last_clock }
        ensures answer { AnswersUnless
            (refused_if (list_any (is_taken slot) self.old.nodes) NoSlot) result }
        ensures ok { OnOk result
            (AtEach (IsAdmitted slot first_clock quota) self.old.nodes self.new.nodes) }
        ensures taken { list_any (is_taken slot) self.old.nodes ≡ true → self.new ≡ self.old }
        ensures err { OnErr result (list_any (is_taken slot) self.old.nodes ≡ false →
            AtEach (IsClosed slot) self.old.nodes self.new.nodes) }
        ensures shape { self.new.shape ≡ self.old.shape }
    {
        if is_taken_at_any(self.nodes.as_slice(), slot) {
            return Err(RequestError::Refused(Fault::NoSlot));
        }
        admit_at_all(&mut self.nodes, slot, first_clock, quota)?;
        Ok(())
    }

    /// Drops a slot's tenant and all its data at every node; without a tenant, nothing. Allocates
    /// nothing. No audit records it.
    pub fn close(&mut self, slot: u64)
        ensures closed { AtEach (IsClosed slot) self.old.nodes self.new.nodes }
        ensures shape { self.new.shape ≡ self.old.shape }
    {
        close_at_all(&mut self.nodes, slot);
    }
}

impl Nodes for Cluster0 {
    ghost shape = { λ cluster. cluster.shape };

    ghost Answers = { IsCall };

    /// The reply is the solo node's. If memory runs out no node changes.
    fn step(
        &mut self,
        id: NodeId,
        slot: u64,
        moment: u64,
        call: NodeCall,
    ) -> Result<NodeReply, AllocError>
        requires { Fits self.old.shape id call }
        ensures answers { IsCall self.old id slot moment call (told_reply result) self.new }
        ensures ok { IfOk result (λ reply. (config : TenantConfig) →
            config.shards ≡ self.old.shape.shards → HasTenant config slot self.old →
            IsTurnOf config id slot moment call reply self.old self.new) }
        ensures err { OnErr result (self.new ≡ self.old) }
        ensures shape { self.new.shape ≡ self.old.shape }
    {
        let number = (id.dc * self.shards + id.shard) as usize;
        let node = &mut self.nodes[number];
        node.step(slot, moment, call)
    }
}
