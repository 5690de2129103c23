ghost use Rattle.std.specs.Prelude.{◌≡◌, ℕ, ◌+◌, ◌^◌, ◌<◌, IfOk, MatchResult};
ghost use Rattle.cops_model.specs.declared.calls.NodeReply.TheVariants.{Removed};
ghost use Rattle.cops_repl.specs.Collections.{CollectsAll, StopsAt, all_nodes, nodes_of_data_centre, told_total};

use cops_node::{NodeCall, NodeId, NodeReply, Nodes};
use cops_types::{Config, Fault, RequestError};

/// Adds the count of a collection's reply to the sum.
fn add_removed(total: u64, reply: &NodeReply) -> Result<u64, Fault>
    ensures value { MatchResult result
        (λ sum. (count : ℕ) × (reply.now ≡ Removed count) × (sum ≡ total + count))
        (λ fault. StopsAt total reply.now fault) }
    ensures fits { total < 2 ^ 64 }
    ensures sum_fits { IfOk result (λ sum. sum < 2 ^ 64) }
{
    match reply {
        NodeReply::Removed(count) => total.checked_add(*count).ok_or(Fault::Torn),
        NodeReply::Refused(fault) => Err(*fault),
        _ => Err(Fault::Torn),
    }
}

/// Collects on each node of a data centre, and adds their counts to a sum.
fn collect_in<N: Nodes>(
    nodes: &mut N,
    dc: u64,
    shards: u64,
    slot: u64,
    moment: u64,
    start: u64,
) -> Result<u64, RequestError>
    requires dc { dc < (N.shape nodes.old).data_centres }
    requires shards { shards ≡ (N.shape nodes.old).shards }
    ensures collected { CollectsAll N.Answers slot moment start
        (nodes_of_data_centre shards dc) nodes.old nodes.new (told_total result) }
    ensures shape { N.shape nodes.new ≡ N.shape nodes.old }
{
    let mut total = start;
    for shard in 0..shards {
        let reply = nodes.step(NodeId { dc, shard }, slot, moment, NodeCall::Collect)?;
        total = add_removed(total, &reply)?;
    }
    Ok(total)
}

/// Collects for the tenant of a slot on every node, in number order, and returns the number of
/// removed records. Fails with the first refusal, with `Torn` if a reply does not match the call or
/// the sum exceeds the largest number, or if a node runs out of memory. Earlier collections stand.
pub fn collect_all<N: Nodes>(
    nodes: &mut N,
    config: &Config,
    slot: u64,
    moment: u64,
) -> Result<u64, RequestError>
    requires data_centres { config.now.data_centres ≡ (N.shape nodes.old).data_centres }
    requires shards { config.now.shards ≡ (N.shape nodes.old).shards }
    ensures collected { CollectsAll N.Answers slot moment 0
        (all_nodes config.now.data_centres config.now.shards) nodes.old nodes.new
        (told_total result) }
    ensures shape { N.shape nodes.new ≡ N.shape nodes.old }
{
    let mut total = 0;
    for dc in 0..config.data_centres {
        total = collect_in(nodes, dc, config.shards, slot, moment, total)?;
    }
    Ok(total)
}
