//! The stages of a carrier, and the call that each stage makes.
ghost use Rattle.std.specs.Prelude.{◌≡◌, ℕ, ◌<◌, ◌^◌, ◌==◌, length, false, IfOk, OnErr};
ghost use Rattle.cops_types.specs.declared.faults.Fault.TheVariants.{OutOfMemory};
ghost use Rattle.cops_model.specs.declared.calls.NodeReply.{NodeReply};
ghost use Rattle.cops_model.specs.declared.calls.NodeReply.TheVariants.{Refused};
ghost use Rattle.cops_model.specs.declared.calls.NodeCall.TheVariants.{DepCheck};
ghost use Rattle.cops_model.specs.Log.{Directed};
ghost use Rattle.cops_model.specs.Place.{node_number};
ghost use Rattle.cops_types.specs.declared.records.EntryParts.{EntryParts};
ghost use Rattle.cops_model.specs.Carrier.{Stream, end_of, is_foreign, pair_of_entry};
ghost use Rattle.cops_repl.specs.Stands.{FollowsReply, IsSound, IsSoundAfter, IsStepFrom, RunsIn, stage_is_over, stream_of, told_after};
ghost use Rattle.cops_repl.specs.declared.stages.Stage.TheVariants.{Pulling, Carrying, Stored};

use crate::Delivery;
use cops_node::{NodeCall, NodeId, NodeReply, Nodes};
use cops_types::{Entry, Fault, Pair};
use std::alloc::AllocError;

/// The progress of a carrier.
#[derive(Debug, Drop)]
pub enum Stage {
    /// The head of the stream is to be pulled.
    Pulling,
    /// The entry is carried, and this many of its near pairs are checked.
    Carrying { entry: Entry, checked: usize },
    /// The entry of this pair is at the destination: it was committed now, or before.
    Stored { pair: Pair, fresh: bool },
    /// The carrier has ended.
    Over,
}

/// What follows a call.
#[derive(Debug, Drop)]
pub enum After {
    /// The next stage.
    Goes(Stage),
    /// The end.
    Ends(Delivery),
}

/// A stream, and the number of shards of a data centre.
#[derive(Clone, Copy, Debug)]
pub struct Route {
    pub origin: NodeId,
    pub to_dc: u64,
    pub shards: u64,
}

impl Route {
    /// Makes the call of a stage. Fails with `AllocError` if memory runs out.
    pub fn step<N: Nodes>(
        &self,
        nodes: &mut N,
        slot: u64,
        moment: u64,
        stage: Stage,
    ) -> Result<After, AllocError>
        requires goes_on { stage_is_over stage ≡ false }
        requires sound { IsSound self.now.shards (stream_of self.now) stage }
        requires stream { RunsIn (N.shape nodes.old) self.now.shards (stream_of self.now) }
        ensures called { (directed : Directed) × (reply : NodeReply)
            × N.Answers nodes.old directed.node slot moment directed.call reply nodes.new
            × IsStepFrom self.now.shards (stream_of self.now) stage directed reply
            (told_after result) }
        ensures refused { OnErr result
            ((directed : Directed) × N.Answers nodes.old directed.node slot moment directed.call
            (Refused OutOfMemory) nodes.new) }
        ensures sound { IfOk result (IsSoundAfter self.now.shards (stream_of self.now)) }
        ensures shape { N.shape nodes.new ≡ N.shape nodes.old }
    {
        match stage {
            Stage::Pulling => self.pull(nodes, slot, moment),
            Stage::Carrying { entry, checked } => {
                if checked < entry.near().len() {
                    self.check(nodes, slot, moment, entry, checked)
                } else {
                    self.commit(nodes, slot, moment, entry)
                }
            }
            Stage::Stored { pair, fresh } => self.acknowledge(nodes, slot, moment, pair, fresh),
            Stage::Over => unreachable!(),
        }
    }

    /// Returns `true` if the node of this number is the origin.
    fn is_origin(&self, node: u64) -> bool
        requires { self.now.origin.shard < self.now.shards }
        ensures { result ≡ (node == node_number self.now.shards self.now.origin) }
    {
        node / self.shards == self.origin.dc && node % self.shards == self.origin.shard
    }

    /// Returns `true` if an entry is not of this stream: its key belongs to another shard, or its
    /// version to another node than the origin.
    fn is_foreign(&self, entry: &Entry) -> bool
        requires { self.now.origin.shard < self.now.shards }
        ensures { result ≡ is_foreign self.now.shards (stream_of self.now) entry.now }
    {
        entry.key().shard(self.shards) != self.origin.shard
            || !self.is_origin(entry.version().node())
    }

    /// Pulls the head of the queue at the origin.
    fn pull<N: Nodes>(&self, nodes: &mut N, slot: u64, moment: u64) -> Result<After, AllocError>
        requires stream { RunsIn (N.shape nodes.old) self.now.shards (stream_of self.now) }
        ensures called { (directed : Directed) × (reply : NodeReply)
            × N.Answers nodes.old directed.node slot moment directed.call reply nodes.new
            × IsStepFrom self.now.shards (stream_of self.now) Pulling directed reply
            (told_after result) }
        ensures refused { OnErr result
            ((directed : Directed) × N.Answers nodes.old directed.node slot moment directed.call
            (Refused OutOfMemory) nodes.new) }
        ensures sound { IfOk result (IsSoundAfter self.now.shards (stream_of self.now)) }
        ensures shape { N.shape nodes.new ≡ N.shape nodes.old }
    {
        let reply = nodes.step(self.origin, slot, moment, NodeCall::Pull(self.to_dc))?;
        Ok(self.after_pull(reply))
    }

    fn after_pull(&self, reply: NodeReply) -> After
        requires { self.now.origin.shard < self.now.shards }
        ensures follows { FollowsReply self.now.shards (stream_of self.now) Pulling reply result }
        ensures sound { IsSoundAfter self.now.shards (stream_of self.now) result }
    {
        match reply {
            NodeReply::Nothing => After::Ends(Delivery::Nothing),
            NodeReply::Pulled(entry) => {
                if self.is_foreign(&entry) {
                    After::Ends(Delivery::Refused(Fault::Torn))
                } else {
                    After::Goes(Stage::Carrying { entry, checked: 0 })
                }
            }
            NodeReply::Refused(fault) => After::Ends(Delivery::Refused(fault)),
            _ => After::Ends(Delivery::Refused(Fault::Torn)),
        }
    }

    /// Checks the next near pair at the destination, on the shard of its key.
    fn check<N: Nodes>(
        &self,
        nodes: &mut N,
        slot: u64,
        moment: u64,
        entry: Entry,
        checked: usize,
    ) -> Result<After, AllocError>
        requires left { checked < length entry.near }
        requires small { length entry.near < 2 ^ 64 }
        requires own { is_foreign self.now.shards (stream_of self.now) entry ≡ false }
        requires stream { RunsIn (N.shape nodes.old) self.now.shards (stream_of self.now) }
        ensures called { (directed : Directed) × (reply : NodeReply)
            × N.Answers nodes.old directed.node slot moment directed.call reply nodes.new
            × IsStepFrom self.now.shards (stream_of self.now)
            (Carrying entry checked) directed reply (told_after result) }
        ensures refused { OnErr result
            ((directed : Directed) × N.Answers nodes.old directed.node slot moment directed.call
            (Refused OutOfMemory) nodes.new) }
        ensures sound { IfOk result (IsSoundAfter self.now.shards (stream_of self.now)) }
        ensures shape { N.shape nodes.new ≡ N.shape nodes.old }
    {
        let pair = entry.near().pair(checked);
        let id = NodeId {
            dc: self.to_dc,
            shard: pair.key.shard(self.shards),
        };
        let call = NodeCall::DepCheck(pair.key, pair.version);
        let reply = nodes.step(id, slot, moment, call)?;
        match end_of_check(pair, &reply) {
            Some(ending) => Ok(After::Ends(ending)),
            None => Ok(After::Goes(Stage::Carrying {
                entry,
                checked: checked + 1,
            })),
        }
    }

    /// Commits the entry at the equivalent node of the destination.
    fn commit<N: Nodes>(
        &self,
        nodes: &mut N,
        slot: u64,
        moment: u64,
        entry: Entry,
    ) -> Result<After, AllocError>
        requires own { is_foreign self.now.shards (stream_of self.now) entry ≡ false }
        requires stream { RunsIn (N.shape nodes.old) self.now.shards (stream_of self.now) }
        ensures called { (directed : Directed) × (reply : NodeReply)
            × N.Answers nodes.old directed.node slot moment directed.call reply nodes.new
            × IsStepFrom self.now.shards (stream_of self.now)
            (Carrying entry (length entry.near)) directed reply (told_after result) }
        ensures refused { OnErr result
            ((directed : Directed) × N.Answers nodes.old directed.node slot moment directed.call
            (Refused OutOfMemory) nodes.new) }
        ensures sound { IfOk result (IsSoundAfter self.now.shards (stream_of self.now)) }
        ensures shape { N.shape nodes.new ≡ N.shape nodes.old }
    {
        let pair = Pair {
            key: entry.key(),
            version: entry.version(),
        };
        let id = NodeId {
            dc: self.to_dc,
            shard: self.origin.shard,
        };
        let reply = nodes.step(id, slot, moment, NodeCall::Commit(entry))?;
        Ok(after_commit(pair, &reply))
    }

    /// Acknowledges the entry at the origin.
    fn acknowledge<N: Nodes>(
        &self,
        nodes: &mut N,
        slot: u64,
        moment: u64,
        pair: Pair,
        fresh: bool,
    ) -> Result<After, AllocError>
        requires stream { RunsIn (N.shape nodes.old) self.now.shards (stream_of self.now) }
        ensures called { (directed : Directed) × (reply : NodeReply)
            × N.Answers nodes.old directed.node slot moment directed.call reply nodes.new
            × IsStepFrom self.now.shards (stream_of self.now) (Stored pair fresh) directed reply
            (told_after result) }
        ensures refused { OnErr result
            ((directed : Directed) × N.Answers nodes.old directed.node slot moment directed.call
            (Refused OutOfMemory) nodes.new) }
        ensures sound { IfOk result (IsSoundAfter self.now.shards (stream_of self.now)) }
        ensures shape { N.shape nodes.new ≡ N.shape nodes.old }
    {
        let call = NodeCall::Ack(self.to_dc, pair.version);
        let reply = nodes.step(self.origin, slot, moment, call)?;
        Ok(after_acknowledge(pair, fresh, &reply))
    }
}

/// Returns the end that the reply to a check of a near pair causes, unless the pair is committed.
fn end_of_check(pair: Pair, reply: &NodeReply) -> Option<Delivery>
    ensures { (shards : ℕ) (stream : Stream) →
        result ≡ end_of shards stream (DepCheck pair.key pair.version) reply.now }
{
    match reply {
        NodeReply::Checked(true) => None,
        NodeReply::Checked(false) => Some(Delivery::Waits(pair)),
        NodeReply::Refused(fault) => Some(Delivery::Refused(*fault)),
        _ => Some(Delivery::Refused(Fault::Torn)),
    }
}

/// Returns what follows the commit of the pair.
fn after_commit(pair: Pair, reply: &NodeReply) -> After
    ensures follows { (shards : ℕ) (stream : Stream) (entry : EntryParts) →
        pair ≡ pair_of_entry entry →
        FollowsReply shards stream (Carrying entry (length entry.near)) reply.now result }
    ensures sound { (shards : ℕ) (stream : Stream) → IsSoundAfter shards stream result }
{
    match reply {
        NodeReply::Committed => After::Goes(Stage::Stored { pair, fresh: true }),
        NodeReply::Already => After::Goes(Stage::Stored { pair, fresh: false }),
        NodeReply::OutOfOrder(mark) => After::Ends(Delivery::OutOfOrder(*mark)),
        NodeReply::Refused(fault) => After::Ends(Delivery::Refused(*fault)),
        _ => After::Ends(Delivery::Refused(Fault::Torn)),
    }
}

/// Returns what follows the acknowledgement of the pair.
fn after_acknowledge(pair: Pair, fresh: bool, reply: &NodeReply) -> After
    ensures follows { (shards : ℕ) (stream : Stream) →
        FollowsReply shards stream (Stored pair fresh) reply.now result }
    ensures sound { (shards : ℕ) (stream : Stream) → IsSoundAfter shards stream result }
{
    match reply {
        NodeReply::Acked => After::Ends(Delivery::Carried {
            pair,
            fresh,
            acked: true,
        }),
        NodeReply::NotFront => After::Ends(Delivery::Carried {
            pair,
            fresh,
            acked: false,
        }),
        NodeReply::Refused(fault) => After::Ends(Delivery::Refused(*fault)),
        _ => After::Ends(Delivery::Refused(Fault::Torn)),
    }
}
