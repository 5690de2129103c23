//! How carriers progress and end.
use cops_types::{Fault, Pair, Version};

/// The end of a carrier.
#[derive(Debug, Drop)]
pub enum Delivery {
    /// The queue is empty.
    Nothing,
    /// A near dependency has not been committed at the destination.
    Waits(Pair),
    /// The entry is at the destination.
    Carried {
        pair: Pair,
        /// `true` if it was committed now, and not before.
        fresh: bool,
        /// `true` if it was removed from the queue now, and not before.
        acked: bool,
    },
    /// The entry before it is missing; carries the version that was committed last.
    OutOfOrder(Version),
    /// The reason for the failure.
    Refused(Fault),
}

/// The outcome of one step of a carrier.
#[derive(Debug, Drop)]
pub enum Progress {
    /// The carrier goes on.
    Working,
    /// The carrier has ended.
    Done(Delivery),
}
