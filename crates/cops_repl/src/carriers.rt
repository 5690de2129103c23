ghost use Rattle.std.specs.Prelude.{◌≡◌, ℕ, ◌<◌, max, true, false, OnErr};
ghost use Rattle.cops_types.specs.declared.faults.Fault.TheVariants.{OutOfMemory};
ghost use Rattle.cops_model.specs.declared.calls.NodeReply.{NodeReply};
ghost use Rattle.cops_model.specs.declared.calls.NodeReply.TheVariants.{Refused};
ghost use Rattle.cops_model.specs.Log.{Directed, Replied};
ghost use Rattle.cops_model.specs.Carrier.{Carrier as Solo, new_carrier};
ghost use Rattle.cops_repl.specs.Stands.{CarrierStandsFor, IsStepOf, RunsIn, has_ended, is_done, told_progress};

use crate::Progress;
use crate::stages::{After, Route, Stage};
use cops_node::{NodeId, Nodes};
use cops_types::Config;
use std::alloc::AllocError;
use std::marker::Model;
use std::mem;

/// A carrier (replicator) takes the head of one stream to another data centre. It pulls the entry,
/// checks each of the entry's nearest dependencies at the destination, commits the entry there, and
/// then acknowledges it at its origin.
///
/// Contracts see its stream, the number of shards, the greatest timestamp that it was passed, and
/// its stage.
#[derive(Debug, Drop)]
pub struct Carrier {
    route: Route,
    moment: u64,
    stage: Stage,
}

impl Model for Carrier {
    ghost use Rattle.cops_repl.specs.Stands.{IsSound, KeptCarrier, stream_of};

    ghost Value = { KeptCarrier };

    ghost view = { λ c. record { stream = stream_of c.route; shards = c.route.shards; moment = c.moment; stage = c.stage } };

    ghost invariant = { λ c. IsSound c.route.shards (stream_of c.route) c.stage };
}

impl Carrier {
    /// Returns a carrier of the stream from a node to another data centre. Its steps need that both
    /// exist.
    pub fn new(config: &Config, origin: NodeId, to_dc: u64) -> Self
        ensures stands { CarrierStandsFor config.now.shards result
            (new_carrier (record { origin = origin; to_dc = to_dc })) }
        ensures goes_on { has_ended result ≡ false }
    {
        Carrier {
            route: Route {
                origin,
                to_dc,
                shards: config.shards,
            },
            moment: 0,
            stage: Stage::Pulling,
        }
    }

    /// Returns `true` if it has ended.
    pub fn ended(&self) -> bool
        ensures { result ≡ has_ended self.now }
    {
        matches!(self.stage, Stage::Over)
    }

    /// Takes the next step: one call at a node, for the tenant of a slot. Allocates nothing itself.
    /// Fails with `AllocError` if the node runs out of memory, which ends the carrier.
    pub fn step<N: Nodes>(
        &mut self,
        nodes: &mut N,
        slot: u64,
        moment: u64,
    ) -> Result<Progress, AllocError>
        requires goes_on { has_ended self.old ≡ false }
        requires stream { RunsIn (N.shape nodes.old) self.old.shards self.old.stream }

        // One call is made. For each carrier of the definition that this one represented, it is the
        // next call, and the step is the definition's.
        ensures called { (directed : Directed) × (reply : NodeReply)
            × N.Answers nodes.old directed.node slot
            (max self.old.moment moment) directed.call reply nodes.new
            × ((shards : ℕ) (solo : Solo) → CarrierStandsFor shards self.old solo →
            IsStepOf shards solo directed
            (record { moment = max solo.moment moment; outcome = Replied reply })
            (told_progress result) self.new) }
        ensures stream { self.new.stream ≡ self.old.stream }
        ensures shards { self.new.shards ≡ self.old.shards }
        ensures moment { self.new.moment ≡ max self.old.moment moment }
        ensures ended { has_ended self.new ≡ is_done (told_progress result) }

        // If memory runs out, it was the node's, which leaves the nodes as they were.
        ensures err { OnErr result (has_ended self.new ≡ true) }
        ensures refused { OnErr result
            ((directed : Directed) × N.Answers nodes.old directed.node slot
            (max self.old.moment moment) directed.call (Refused OutOfMemory) nodes.new) }
        ensures shape { N.shape nodes.new ≡ N.shape nodes.old }
    {
        self.moment = self.moment.max(moment);
        let stage = mem::replace(&mut self.stage, Stage::Over);
        let after = self.route.step(nodes, slot, self.moment, stage)?;
        match after {
            After::Goes(stage) => {
                self.stage = stage;
                Ok(Progress::Working)
            }
            After::Ends(ending) => Ok(Progress::Done(ending)),
        }
    }
}
