//! A tenant's acts and replies, and the definitions of a cluster that one tenant has to itself.
#![tactic(auto)]

mod acts;
mod calls;
mod comparing;
mod copies;
pub mod deliveries;
mod replies;
pub mod requests;
mod slices;

pub use acts::{Act, Event};
pub use calls::{AuditEntry, NodeCall, NodeId, NodeReply, Wanted};
pub use replies::{HostReply, Reply};
pub use slices::{ByteSlice, ByteSlices};
