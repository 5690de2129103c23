//! A service's reports to its operator.
ghost use Rattle.cops_service.specs.Ends.{IsCause, IsCauseOf};

use cops_model::HostReply;
use cops_types::{Fault, RequestError};
use cops_wire::Ended;
use std::net::SocketAddr;
use std::sync::atomic::{AtomicU64, Ordering};

/// Why a connection didn't end cleanly.
#[derive(Clone, Copy, Debug)]
pub enum Cause {
    /// The first message was refused.
    Refused,
    /// The client sent something other than a request's frame.
    BrokenFrame,
    /// The input ended inside a frame, or before the first one.
    CutOff,
    /// The client sent nothing, took nothing or left a frame unfinished for too long.
    Idle,
    ReadingFailed,
    WritingFailed,
    OutOfMemory,
}

/// Reports connections that don't end cleanly, and a listener that works again.
pub trait Reports {
    /// Reports the end of a connection.
    fn ended(&self, peer: &SocketAddr, cause: Cause);

    /// Reports a connection that was accepted after this many failures in a row.
    fn accepts_again(&self, failures: u64);
}

/// Reports the replies to the host's lines, in the order of the lines.
pub trait HostReports {
    /// Reports the replies to lines that were followed together: one or more.
    fn told(&self, replies: &[HostReply]);
}

/// Ignores all reports.
#[derive(Clone, Copy)]
pub struct Silent;

impl Reports for Silent {
    fn ended(&self, _peer: &SocketAddr, _cause: Cause) {}

    fn accepts_again(&self, _failures: u64) {}
}

impl HostReports for Silent {
    fn told(&self, _replies: &[HostReply]) {}
}

/// The state of a socket at the end of its connection.
#[derive(Clone, Copy)]
pub(crate) struct Course {
    pub(crate) saw_end: bool,
    pub(crate) is_idle: bool,
}

/// Returns the cause of a connection's end, unless it ended cleanly.
pub(crate) fn cause_of(ended: &Result<Ended, RequestError>, course: Course) -> Option<Cause>
    ensures { IsCause course ended.now result }
{
    match ended {
        Ok(Ended::Clean) => None,
        Ok(Ended::Torn) if course.saw_end => Some(Cause::CutOff),
        Ok(Ended::Torn) => Some(Cause::BrokenFrame),
        Err(RequestError::OutOfMemory) => Some(Cause::OutOfMemory),
        Err(RequestError::Refused(fault)) => Some(cause_of_fault(*fault, course)),
    }
}

/// Returns the cause of a connection's end with this fault.
fn cause_of_fault(fault: Fault, course: Course) -> Cause
    ensures { IsCauseOf course fault result }
{
    match fault {
        Fault::ReadFault | Fault::WriteFault if course.is_idle => Cause::Idle,
        Fault::ReadFault => Cause::ReadingFailed,
        Fault::WriteFault => Cause::WritingFailed,
        Fault::Syntax if course.saw_end => Cause::CutOff,
        _ => Cause::Refused,
    }
}

/// Counts of served connections, of answered requests, and of refused ones among these.
#[derive(Drop)]
pub(crate) struct Totals {
    connections: AtomicU64,
    requests: AtomicU64,
    refused: AtomicU64,
}

/// The final counts of a service.
#[derive(Clone, Copy, Debug)]
pub struct Counts {
    pub connections: u64,
    pub requests: u64,
    pub refused: u64,
}

impl Totals {
    pub(crate) fn new() -> Totals {
        Totals {
            connections: AtomicU64::new(0),
            requests: AtomicU64::new(0),
            refused: AtomicU64::new(0),
        }
    }

    /// Counts a connection that has ended.
    pub(crate) fn add(&self, requests: u64, refused: u64) {
        self.connections.fetch_add(1, Ordering::SeqCst);
        self.requests.fetch_add(requests, Ordering::SeqCst);
        self.refused.fetch_add(refused, Ordering::SeqCst);
    }

    pub(crate) fn counts(&self) -> Counts {
        Counts {
            connections: self.connections.load(Ordering::SeqCst),
            requests: self.requests.load(Ordering::SeqCst),
            refused: self.refused.load(Ordering::SeqCst),
        }
    }
}
