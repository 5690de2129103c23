//! Messages, frames, and connections to a cluster of one node.

mod connections;
mod exchanges;
mod memory;
mod messages;
mod refusals;
