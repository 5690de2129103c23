//! A ticket gate for all nodes of a cluster: threads that share the machines take turns at each, in the order in which they drew
//! their tickets there. Each thread has seen a prefix of one history of all turns, which is legal at each node from the state that
//! it opened with. A gate of one machine is the case of one node.
#![tactic(auto)]

mod board;
mod cluster_gate;
#[cfg(test)]
mod cluster_tests;
mod gate;
mod history;
mod laws;
mod meetings;
mod note;
mod plays;
#[cfg(test)]
mod tests;
mod turns;
mod waiting;

pub use cluster_gate::{ClusterGate, ClusterSeat, Witness};
pub use gate::{Gate, GateSeat};
pub use history::{Entry, Turn};
pub use laws::{histories_are_of_each_node, histories_are_runs_of_the_cluster};
