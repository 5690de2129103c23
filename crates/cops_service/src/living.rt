//! A thread's desk at nodes whose tenants come and go, in one life after another.
ghost use Rattle.std.specs.Prelude.{◌≡◌, IsTrue};
ghost use Rattle.cops_types.specs.HeadLines.{are_sizes};
ghost use Rattle.cops_node.specs.Clusters.{shape_of};
ghost use Rattle.cops_service.specs.HostedDesks.{IsLifeCall, hosted_shape};

use crate::ahead::Ahead;
use crate::hosted_desk::LifeDesk;
use crate::notes::{Notes, TenantNode};
use cops_node::{NodeCall, NodeId, NodeReply, Nodes};
use cops_types::{Config, Fault};
use std::alloc::AllocError;
use std::sync::Wait;

/// A desk that works in the life of one slot, and then of another. It adds a work item for each version that was stored,
/// committed or refused for lack of room.
#[derive(Drop)]
pub(crate) struct LivingDesk<'a, R: Wait> {
    pub(crate) config: &'a Config,
    pub(crate) nodes: LifeDesk<'a, R>,
    pub(crate) notes: &'a Notes,
    pub(crate) ahead: Ahead,
    pub(crate) ghost shape: { hosted_shape nodes.desk.cluster.now ≡ shape_of config.now },
    pub(crate) ghost sizes: { IsTrue (are_sizes config.now) },
}

impl<R: Wait> LivingDesk<'_, R> {
    /// Works in this life from now on.
    pub(crate) fn turn_to(&mut self, slot: u64, life: u64)
        ensures config { self.new.config ≡ self.old.config }
        ensures cluster { self.new.nodes.desk.cluster.now ≡ self.old.nodes.desk.cluster.now }
        ensures same_seat { (self.new.nodes.desk.seat.ghost_name
            ≡ self.old.nodes.desk.seat.ghost_name)
            × (self.new.nodes.desk.seat.now ≡ self.old.nodes.desk.seat.now) }
        ensures slot { self.new.nodes.slot ≡ slot }
        ensures life { self.new.nodes.life ≡ life }
    {
        self.nodes.slot = slot;
        self.nodes.life = life;
    }

    // Returns the tenant's part of a node.
    fn place_at(&self, id: NodeId) -> TenantNode {
        TenantNode {
            slot: self.nodes.slot,
            life: self.nodes.life,
            id,
        }
    }
}

impl<R: Wait> Nodes for LivingDesk<'_, R> {
    ghost shape = { λ nodes. hosted_shape nodes.nodes.desk.cluster.now };

    ghost Answers = { λ old id slot moment call reply new. (new.nodes.desk.cluster.now ≡ old.nodes.desk.cluster.now) × (new.nodes.desk.seat.ghost_name ≡ old.nodes.desk.seat.ghost_name) × (new.nodes.slot ≡ old.nodes.slot) × (new.nodes.life ≡ old.nodes.life) × (new.config.now ≡ old.config.now) × IsLifeCall old.nodes.desk.cluster.now old.nodes.desk.seat.now id old.nodes.slot old.nodes.life moment call reply new.nodes.desk.seat.now };

    #[inline(always)]
    fn step(
        &mut self,
        id: NodeId,
        slot: u64,
        moment: u64,
        call: NodeCall,
    ) -> Result<NodeReply, AllocError> {
        self.ahead.count();
        let reply = self.nodes.step(id, slot, moment, call)?;
        let rt = self.nodes.desk.rt;
        match &reply {
            NodeReply::Stored(_) => self.notes.stored(rt, self.place_at(id)),
            NodeReply::Committed => self.notes.committed(rt, self.place_at(id)),
            NodeReply::Refused(Fault::VersionQuota | Fault::ByteQuota) => {
                self.notes.refused(rt, self.place_at(id));
            }
            _ => (),
        }
        Ok(reply)
    }
}
