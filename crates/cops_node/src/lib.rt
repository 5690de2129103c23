//! A node: one shard of one data centre. This crate has the code of its calls.
#![tactic(auto)]

mod answered;
mod calls;
mod cluster;
#[cfg(test)]
mod cluster_tests;
mod commits;
mod counting;
mod gets;
mod homes;
mod hosted;
#[cfg(test)]
mod hosted_tests;
mod laws;
mod limits;
mod lives;
mod node;
mod nodes;
#[cfg(test)]
mod page_tests;
mod pages;
mod part_turns;
mod parts;
mod puts;
mod queues;
mod rows;
#[cfg(test)]
mod tenant_tests;
#[cfg(test)]
mod test_nodes;
#[cfg(test)]
mod tests;

pub use cluster::Cluster0;
pub use cops_model::{AuditEntry, NodeCall, NodeId, NodeReply, Wanted};
use cops_types::Quota;
pub use counting::CountingNode;
pub use hosted::{HostedNode, SlotCall, SlotReply};
pub use laws::{audit_tells_all, greatest_version_stays, marks_never_fall};
pub use limits::has_clocks;
pub use node::Node;
pub use nodes::Nodes;
pub use pages::{AuditPages, Page, PageList};
pub use parts::{Counters, Part};
pub use rows::{AuditRow, Exchange, Packing};

/// The sizes of a cluster: the number of data centres, and of shards in each.
#[derive(Clone, Copy, Debug)]
pub struct Shape {
    pub data_centres: u64,
    pub shards: u64,
}

/// The constants of a node, whatever its tenants: its identity, the sizes of the cluster, and for
/// how many milliseconds it stores a stale version.
#[derive(Clone, Copy, Debug)]
pub struct Home {
    pub id: NodeId,
    pub shape: Shape,
    pub trans_time: u64,
}

/// The constants of a tenant at a node: its first clock and its quota.
#[derive(Clone, Copy, Debug)]
pub struct Terms {
    pub first_clock: u64,
    pub quota: Quota,
}
