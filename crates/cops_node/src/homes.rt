//! The home of a node, and the calls that fit it.
ghost use Rattle.std.specs.Prelude.{◌≡◌};
ghost use Rattle.cops_model.specs.Place.{is_home, is_other_dc, is_other_equivalent, fits};
ghost use Rattle.cops_node.specs.Parts.{IsHome, home_of};
ghost use Rattle.cops_node.specs.Shape.{place_in};

use crate::{Home, NodeCall, NodeId, Shape};
use cops_types::{Config, Key};

impl Home {
    // Returns the home of a configuration's node.
    pub(crate) fn of(config: &Config, id: NodeId) -> Self
        ensures { result ≡ home_of config.now id }
    {
        Home {
            id,
            shape: Shape {
                data_centres: config.data_centres,
                shards: config.shards,
            },
            trans_time: config.trans_time,
        }
    }

    // Returns `true` if this shard stores the key.
    fn is_home(&self, key: &Key) -> bool
        requires { IsHome self.now }
        ensures { result ≡ is_home (place_in self.now.shape self.now.id) key.now }
    {
        key.shard(self.shape.shards) == self.id.shard
    }

    // Returns `true` if the data centre is another one of the cluster.
    fn is_other_dc(&self, dc: u64) -> bool
        ensures { result ≡ is_other_dc (place_in self.now.shape self.now.id) dc }
    {
        dc < self.shape.data_centres && dc != self.id.dc
    }

    // Returns `true` if the node of this number has this shard in another data centre.
    fn is_other_equivalent(&self, node: u64) -> bool
        requires { IsHome self.now }
        ensures { result ≡ is_other_equivalent (place_in self.now.shape self.now.id) node }
    {
        self.is_other_dc(node / self.shape.shards) && node % self.shape.shards == self.id.shard
    }

    // Returns `true` if the call may come to this node.
    pub(crate) fn fits(&self, call: &NodeCall) -> bool
        requires { IsHome self.now }
        ensures { result ≡ fits (place_in self.now.shape self.now.id) call.now }
    {
        match call {
            NodeCall::Get(key, _) => self.is_home(key),
            NodeCall::Put(key, _, _, _) => self.is_home(key),
            NodeCall::DepCheck(key, _) => self.is_home(key),
            NodeCall::Pull(dc) => self.is_other_dc(*dc),
            NodeCall::Commit(entry) => {
                self.is_home(&entry.key()) && self.is_other_equivalent(entry.version().node())
            }
            NodeCall::Ack(dc, _) => self.is_other_dc(*dc),
            NodeCall::Collect => true,
        }
    }
}
