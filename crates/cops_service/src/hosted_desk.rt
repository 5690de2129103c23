//! A thread's access to nodes at which tenants come and go.
ghost use Rattle.std.specs.Prelude.{◌≡◌, ◌<◌};
ghost use Rattle.cops_node.specs.declared.hosted.SlotReply.TheVariants.{Refused};
ghost use Rattle.cops_service.specs.Gates.{IsSeatOf, told_by};
ghost use Rattle.cops_service.specs.HostedDesks.{AreHosted, FitsThere, IsLifeCall, IsSlotCall, hosted_shape, told_at_slot};

use crate::cluster::{Cluster, ServiceSeat};
use cops_node::{HostedNode, NodeCall, NodeId, NodeReply, Nodes, SlotCall, SlotReply};
use cops_types::{Fault, RequestError};
use std::alloc::AllocError;
use std::sync::Wait;

/// Returns the reply of a step. A refusal by the gate is one by the node. Fails with `AllocError` if memory ran out.
#[inline(always)]
pub(crate) fn reply_of(answer: Result<SlotReply, RequestError>) -> Result<SlotReply, AllocError>
    ensures { result ≡ told_by Refused answer }
{
    match answer {
        Ok(reply) => Ok(reply),
        Err(RequestError::Refused(fault)) => Ok(SlotReply::Refused(fault)),
        Err(RequestError::OutOfMemory) => Err(AllocError),
    }
}

/// A thread's handle and seat, and a cluster at which tenants come and go. Each call waits for its turn
/// at the node.
#[derive(Drop)]
pub struct HostedDesk<'a, R: Wait> {
    pub rt: &'a R,
    pub cluster: &'a Cluster<HostedNode>,
    pub seat: &'a mut ServiceSeat<HostedNode>,
    pub ghost nodes: { AreHosted cluster.now },
    pub ghost own: { IsSeatOf cluster.now seat.now },
}

impl<'a, R: Wait> HostedDesk<'a, R> {
    /// Returns the desk of a thread that has this seat.
    pub fn new(
        rt: &'a R,
        cluster: &'a Cluster<HostedNode>,
        seat: &'a mut ServiceSeat<HostedNode>,
    ) -> HostedDesk<'a, R>
        requires nodes { AreHosted cluster.now }
        requires seat { IsSeatOf cluster.now seat.old }
        ensures same_seat { (result.seat.ghost_name ≡ seat.entry.ghost_name)
            × (result.seat.now ≡ seat.old) }
        ensures cluster { result.cluster.now ≡ cluster.now }
    {
        HostedDesk { rt, cluster, seat }
    }

    /// Makes a call of a slot, or admits or closes its tenant, in one turn of a node. Fails with `AllocError` if memory runs
    /// out at the node.
    #[inline(always)]
    pub fn ask(
        &mut self,
        id: NodeId,
        slot: u64,
        moment: u64,
        call: SlotCall,
    ) -> Result<SlotReply, AllocError>
        requires dc { id.dc < (hosted_shape self.old.cluster.now).data_centres }
        requires shard { id.shard < (hosted_shape self.old.cluster.now).shards }
        requires fits { FitsThere (hosted_shape self.old.cluster.now) id call }
        ensures cluster { self.new.cluster.now ≡ self.old.cluster.now }
        ensures seat { self.new.seat.ghost_name ≡ self.old.seat.ghost_name }
        ensures told { IsSlotCall self.old.cluster.now self.old.seat.now id slot moment call
            (told_at_slot result) self.new.seat.now }
    {
        reply_of(
            self.seat
                .step(self.rt, self.cluster, id, slot, moment, call),
        )
    }
}

/// A thread's access to the nodes in one life of a slot. The slot that a session or a carrier names is ignored.
#[derive(Drop)]
pub struct LifeDesk<'a, R: Wait> {
    pub desk: HostedDesk<'a, R>,
    pub slot: u64,
    pub life: u64,
}

impl<R: Wait> Nodes for LifeDesk<'_, R> {
    ghost shape = { λ nodes. hosted_shape nodes.desk.cluster.now };

    ghost Answers = { λ old id slot moment call reply new. (new.desk.cluster.now ≡ old.desk.cluster.now) × (new.desk.seat.ghost_name ≡ old.desk.seat.ghost_name) × (new.slot ≡ old.slot) × (new.life ≡ old.life) × IsLifeCall old.desk.cluster.now old.desk.seat.now id old.slot old.life moment call reply new.desk.seat.now };

    #[inline(always)]
    fn step(
        &mut self,
        id: NodeId,
        _slot: u64,
        moment: u64,
        call: NodeCall,
    ) -> Result<NodeReply, AllocError> {
        let life = self.life;
        match self
            .desk
            .ask(id, self.slot, moment, SlotCall::Own { life, call })?
        {
            SlotReply::Own(reply) => Ok(reply),
            SlotReply::Refused(fault) => Ok(NodeReply::Refused(fault)),
            SlotReply::Admitted | SlotReply::Closed => Ok(NodeReply::Refused(Fault::Torn)),
        }
    }
}
