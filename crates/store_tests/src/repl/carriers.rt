ghost use Rattle.std.specs.Prelude.{◌≡◌, ◌<◌, vec_len};
ghost use Rattle.cops_repl.specs.Stands.{RunsIn, stream_of};

use crate::entries::value;
use crate::pairs::{near, pair};
use cops_node::{NodeCall, NodeId, NodeReply, Nodes};
use cops_repl::{Carrier, Delivery, Progress, collect_all};
use cops_types::{Config, Deps, Entry, EntryParts, Fault, Pair, RequestError, Tenants, Version};
use std::alloc::{AllocError, Global};
use std::process::Abort;

/// A call that came, with its node and its timestamp.
#[derive(Drop)]
struct Asked {
    id: NodeId,
    moment: u64,
    call: NodeCall,
}

/// Nodes that answer what a test wrote down, and note what they were asked.
#[derive(Drop)]
struct Script {
    /// The replies still to give, the last first.
    replies: Vec<NodeReply>,
    asked: Vec<Asked>,
}

impl Nodes for Script {
    ghost shape = { λ _. record { data_centres = 2; shards = 2 } };

    ghost Answers = { λ _ _ _ _ _ _ _. Unit {0} };

    fn step(
        &mut self,
        id: NodeId,
        _slot: u64,
        moment: u64,
        call: NodeCall,
    ) -> Result<NodeReply, AllocError> {
        self.asked.push(Asked { id, moment, call })?;
        match self.replies.pop() {
            Some(reply) => Ok(reply),
            None => Ok(NodeReply::Refused(Fault::Syntax)),
        }
    }
}

/// Nodes that give these answers in order.
fn nodes_with(alloc: Global, mut replies: Vec<NodeReply>) -> Script {
    replies.reverse();
    Script {
        replies,
        asked: Vec::new(alloc),
    }
}

fn config(alloc: Global) -> Config
    ensures data_centres { result.data_centres ≡ 2 }
    ensures shards { result.shards ≡ 2 }
{
    Config {
        data_centres: 2,
        shards: 2,
        trans_time: 5000,
        restarts: 1,
        tenants: Tenants::new(alloc),
    }
}

/// The entry of a put of this pair, with this near list.
fn entry(rt: &impl Abort, alloc: Global, put: Pair, nearest: &[Pair]) -> Entry {
    let parts = EntryParts {
        key: put.key,
        version: put.version,
        value: value(rt, alloc),
        deps: Deps::empty(alloc),
        near: near(rt, alloc, nearest),
        prev: Version::none(),
    };
    Entry::new(alloc, parts).expect(rt, "memory")
}

/// The entry of y 2.1, which depends on x 1.0; y is on shard 1, and x on shard 0.
fn y_entry(rt: &impl Abort, alloc: Global) -> Entry {
    entry(rt, alloc, pair(rt, b"y", 2, 1), &[pair(rt, b"x", 1, 0)])
}

/// A carrier from shard 1 of data centre 0 to data centre 1.
fn y_carrier(alloc: Global) -> Carrier
    ensures { RunsIn (record { data_centres = 2; shards = 2 }) result.shards result.stream }
{
    Carrier::new(&config(alloc), NodeId { dc: 0, shard: 1 }, 1)
}

/// Steps a carrier to its end, or until memory runs out, which ends it too.
fn carry(rt: &impl Abort, nodes: &mut Script, mut carrier: Carrier) -> Result<Delivery, AllocError>
    requires { RunsIn (record { data_centres = 2; shards = 2 }) carrier.shards carrier.stream }
{
    for _ in 0..9 {
        assert!(rt; !carrier.ended());
        match carrier.step(nodes, 0, 5) {
            Ok(Progress::Working) => {}
            Ok(Progress::Done(ending)) => {
                assert!(rt; carrier.ended());
                return Ok(ending);
            }
            Err(error) => {
                assert!(rt; carrier.ended());
                return Err(error);
            }
        }
    }
    panic!(rt; "it goes on")
}

/// Answers that carry y on, up to so many of them, and one more.
fn answers(rt: &impl Abort, alloc: Global, count: usize, last: NodeReply) -> Vec<NodeReply> {
    let mut replies = vec![in alloc;
        NodeReply::Pulled(y_entry(rt, alloc)),
        NodeReply::Checked(true),
        NodeReply::Committed,
    ]
    .expect(rt, "memory");
    replies.truncate(count);
    replies.push(last).expect(rt, "memory");
    replies
}

/// Returns how the carrier of y ends if its call after this many good replies gets this reply.
fn ending(rt: &impl Abort, alloc: Global, count: usize, last: NodeReply) -> Delivery {
    let mut nodes = nodes_with(alloc, answers(rt, alloc, count, last));
    let ending = carry(rt, &mut nodes, y_carrier(alloc)).expect(rt, "memory");
    assert!(rt; nodes.replies.is_empty());
    ending
}

/// Asserts the outcome for an entry that was carried.
fn assert_carried(rt: &impl Abort, ending: Delivery, of: Pair, is_fresh: bool, is_acked: bool) {
    match ending {
        Delivery::Carried { pair, fresh, acked } => {
            assert!(rt; pair == of && fresh == is_fresh && acked == is_acked);
        }
        _ => panic!(rt; "the entry is carried"),
    }
}

#[test]
fn an_entry_is_carried(rt: HostRuntime) {
    let ending = ending(&rt, rt.alloc(), 3, NodeReply::Acked);
    assert_carried(&rt, ending, pair(&rt, b"y", 2, 1), true, true);
}

/// Asserts that this answer after so many good ones is not what was asked for.
fn assert_torn(rt: &impl Abort, alloc: Global, count: usize, last: NodeReply) {
    let ending = ending(rt, alloc, count, last);
    assert!(rt; matches!(ending, Delivery::Refused(Fault::Torn)));
}

#[test]
fn replies_not_asked_for(rt: HostRuntime) {
    assert_torn(&rt, rt.alloc(), 0, NodeReply::Checked(true));
    assert_torn(&rt, rt.alloc(), 1, NodeReply::Nothing);
    assert_torn(&rt, rt.alloc(), 2, NodeReply::Acked);
    assert_torn(&rt, rt.alloc(), 3, NodeReply::Already);
}

/// Asserts that the entry before is missing at the destination, which committed this version last.
fn assert_out_of_order(rt: &impl Abort, ending: Delivery, mark: Version) {
    match ending {
        Delivery::OutOfOrder(last) => assert!(rt; last == mark),
        _ => panic!(rt; "the entry before is missing"),
    }
}

#[test]
fn an_entry_out_of_order(rt: HostRuntime) {
    let put = pair(&rt, b"y", 1, 1);
    let mark = put.version;
    let ending = ending(&rt, rt.alloc(), 2, NodeReply::OutOfOrder(mark));
    assert_out_of_order(&rt, ending, mark);
}

#[test]
fn foreign_entries(rt: HostRuntime) {
    let of_another_node = entry(&rt, rt.alloc(), pair(&rt, b"y", 2, 3), &[]);
    assert_torn(&rt, rt.alloc(), 0, NodeReply::Pulled(of_another_node));
    let of_another_shard = entry(&rt, rt.alloc(), pair(&rt, b"x", 2, 1), &[]);
    assert_torn(&rt, rt.alloc(), 0, NodeReply::Pulled(of_another_shard));
}

/// Answers to collecting.
fn removed(rt: &impl Abort, alloc: Global, counts: &[u64]) -> Vec<NodeReply> {
    let mut replies = Vec::new(alloc);
    for count in counts {
        replies
            .push(NodeReply::Removed(*count))
            .expect(rt, "memory");
    }
    replies
}

#[test]
fn what_each_node_removes_is_counted(rt: HostRuntime) {
    let config = config(rt.alloc());
    let counts = removed(&rt, rt.alloc(), &[1, 0, 2, 0, 0, 0, 0, 0]);
    let mut nodes = nodes_with(rt.alloc(), counts);
    assert!(rt; matches!(collect_all(&mut nodes, &config, 0, 5101), Ok(3)));
    assert!(rt; matches!(collect_all(&mut nodes, &config, 0, 5101), Ok(0)));
    assert_eq!(rt; nodes.asked.len(), 8);
}

// For runs in which one allocation fails: that is the error, and there is no sum.
#[test]
fn refused_memory_ends_a_collection(rt: HostRuntime) {
    let config = config(rt.alloc());
    let counts = removed(&rt, rt.alloc(), &[1, 0, 2, 0]);
    let mut nodes = nodes_with(rt.alloc(), counts);
    let total = collect_all(&mut nodes, &config, 0, 5101);
    assert!(rt; matches!(total, Ok(3) | Err(RequestError::OutOfMemory)));
}

// The carrier allocates nothing itself. If the node runs out of memory, that is the error, and the
// carrier has ended.
#[test]
fn refused_memory_ends_a_carrier(rt: HostRuntime) {
    let replies = answers(&rt, rt.alloc(), 3, NodeReply::Acked);
    let mut nodes = nodes_with(rt.alloc(), replies);
    if let Ok(ending) = carry(&rt, &mut nodes, y_carrier(rt.alloc())) {
        assert_carried(&rt, ending, pair(&rt, b"y", 2, 1), true, true);
    }
}
