ghost use Rattle.std.specs.Prelude.{◌≡◌, ◌⊎◌, ℕ, IfOk};
ghost use Rattle.cops_model.specs.declared.calls.NodeCall.{NodeCall};
ghost use Rattle.cops_model.specs.declared.calls.NodeId.{NodeId};
ghost use Rattle.cops_model.specs.declared.calls.NodeReply.{NodeReply};
ghost use Rattle.cops_session.specs.Kept.{IsAmong};
ghost use Rattle.cops_session.specs.Reading.{is_past};
ghost use Rattle.cops_session.specs.Rounds.{IsUnfinished};
ghost use Rattle.cops_session.specs.Turns.{BeginsAgain, HasCallLeft, TurnsFrom};

use crate::asking::{GetReply, get_reply};
use crate::ongoing::Reading;
use crate::settings::Setting;
use cops_node::{NodeCall, NodeId, Nodes};
use cops_types::{Fault, Read, RequestError};

/// What a step of a get transaction leads to, unless it ends the request: the next call, another
/// attempt, or all reads.
#[derive(Clone, Copy, Debug)]
pub enum ReadStep {
    Working,
    Restarted,
    Complete,
}

/// Returns `true` if the timestamp is more than `trans_time` past the start.
fn is_late(start: Option<u64>, moment: u64, trans_time: u64) -> bool
    ensures { result ≡ is_past trans_time start moment }
{
    match start {
        Some(start) => moment.saturating_sub(start) > trans_time,
        None => false,
    }
}

impl Reading {
    /// Begins another attempt. Is refused if the restarts are used up.
    fn begin_again(&mut self, limit: u64) -> Result<ReadStep, RequestError>
        requires { IsUnfinished self.old.rounds }
        ensures again { BeginsAgain self.old limit self.new result }
        ensures goes_on { IfOk result (HasCallLeft self.new) }
    {
        if self.restarts < limit {
            self.restarts += 1;
            self.start = None;
            self.rounds.restart();
            Ok(ReadStep::Restarted)
        } else {
            Err(RequestError::Refused(Fault::Overrun))
        }
    }

    /// Takes a step: a late one makes no call, and the others request the next key at the node of
    /// the data centre that stores it. A version that was collected raises the timestamp. Fails with
    /// a fault that ends the request, or if memory runs out at the node or for the second round.
    #[inline(always)]
    pub(crate) fn step<N: Nodes>(
        &mut self,
        nodes: &mut N,
        setting: Setting,
        moment: &mut u64,
    ) -> Result<ReadStep, RequestError>
        requires among { IsAmong (N.shape nodes.old) setting }
        requires unfinished { IsUnfinished self.old.rounds }
        ensures turned { TurnsFrom (λ id call reply.
            N.Answers nodes.old id setting.slot moment.old call reply nodes.new)
            (nodes.new ≡ nodes.old)
            setting self.old moment.old self.new moment.new result }
        ensures goes_on { IfOk result (HasCallLeft self.new) }
        ensures once { (nodes.new ≡ nodes.old)
            ⊎ ((id : NodeId) × (call : NodeCall) × (reply : NodeReply)
            × N.Answers nodes.old id setting.slot moment.old call reply nodes.new) }
        ensures shape { N.shape nodes.new ≡ N.shape nodes.old }
    {
        if is_late(self.start, *moment, setting.trans_time) {
            return self.begin_again(setting.restarts);
        }
        let key = self.rounds.next_key();
        let id = NodeId {
            dc: setting.dc,
            shard: key.shard(setting.shards),
        };
        let call = NodeCall::Get(*key, self.rounds.wanted());
        let reply = nodes.step(id, setting.slot, *moment, call)?;
        match get_reply(self.rounds.wanted(), reply)? {
            GetReply::Found(found) => {
                let read = Read::new(*self.rounds.next_key(), found);
                self.start = Some(self.start.unwrap_or(*moment));
                if self.rounds.accept(read)? {
                    Ok(ReadStep::Working)
                } else {
                    Ok(ReadStep::Complete)
                }
            }
            GetReply::Gone(now) => {
                *moment = (*moment).max(now);
                self.begin_again(setting.restarts)
            }
        }
    }
}
