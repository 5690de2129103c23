ghost use Rattle.std.specs.Prelude.{◌≡◌, ◌<◌};
ghost use Rattle.cops_types.specs.Key.{shard_of};
ghost use Rattle.cops_model.specs.declared.calls.NodeCall.TheVariants.{Put};
ghost use Rattle.cops_model.specs.declared.calls.NodeReply.{NodeReply};
ghost use Rattle.cops_node.specs.ToldReplies.{told_reply};
ghost use Rattle.cops_session.specs.Kept.{IsAmong};
ghost use Rattle.cops_session.specs.Writing.{answer_to_put, told_put};

use crate::ongoing::PendingPut;
use crate::settings::Setting;
use cops_node::{NodeCall, NodeId, NodeReply, Nodes};
use cops_types::{Fault, Key, RequestError, Version};
use std::alloc::AllocError;

/// Returns the version of the key that a put stored, from the node's reply, or why it was refused.
#[inline(always)]
fn stored_by(_key: &Key, reply: &NodeReply) -> Result<Version, RequestError>
    ensures { told_put _key.now result ≡ answer_to_put _key.now reply.now }
{
    match reply {
        NodeReply::Stored(version) => Ok(*version),
        NodeReply::Refused(fault) => Err(RequestError::Refused(*fault)),
        _ => Err(RequestError::Refused(Fault::Torn)),
    }
}

/// Does the same for the node's result, which may be that memory ran out.
#[inline(always)]
fn stored_told(key: &Key, answered: &Result<NodeReply, AllocError>) -> Result<Version, RequestError>
    ensures { told_put key.now result ≡ answer_to_put key.now (told_reply answered.now) }
{
    match answered {
        Ok(reply) => stored_by(key, reply),
        Err(error) => Err(RequestError::from(*error)),
    }
}

/// Takes the one step of a put: one call, at the node of the data centre that stores the key. Returns
/// the version. Fails with the reply's fault, or if the node runs out of memory.
pub(crate) fn write_step<N: Nodes>(
    nodes: &mut N,
    setting: Setting,
    writing: PendingPut,
    moment: u64,
) -> Result<Version, RequestError>
    requires among { IsAmong (N.shape nodes.old) setting }
    ensures called { (reply : NodeReply)
        × N.Answers nodes.old
        (record { dc = setting.dc; shard = shard_of writing.key setting.shards }) setting.slot
        moment (Put writing.key writing.value writing.deps writing.near) reply nodes.new
        × (told_put writing.key result ≡ answer_to_put writing.key reply) }
    ensures shape { N.shape nodes.new ≡ N.shape nodes.old }
{
    let PendingPut {
        key,
        value,
        deps,
        near,
    } = writing;
    let id = NodeId {
        dc: setting.dc,
        shard: key.shard(setting.shards),
    };
    let same = key;
    let reply = nodes.step(
        id,
        setting.slot,
        moment,
        NodeCall::Put(key, value, deps, near),
    );
    stored_told(&same, &reply)
}
