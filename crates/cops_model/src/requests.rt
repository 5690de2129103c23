//! How requests of sessions progress and end.
use cops_types::{Fault, Pair, Reads};

/// The end of a request.
#[derive(Debug, Drop)]
pub enum Answer {
    /// The pair that was put.
    Stored(Pair),
    /// The reads, in the requested order.
    Values(Reads),
    /// The reason for the failure.
    Refused(Fault),
}

/// The outcome of one step of a request.
#[derive(Debug, Drop)]
pub enum Progress {
    /// The request goes on.
    Working,
    /// The transaction restarted for the nth time.
    Restarted(u64),
    /// The request has ended.
    Done(Answer),
}
