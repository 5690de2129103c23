//! Accepts connections and hands them to workers.
ghost use Rattle.std.specs.Prelude.{◌≡◌, ◌*◌, ◌^◌, ◌↔◌, ◌⊎◌, Some, min, IfErr, IsTrue};
ghost use Rattle.std.specs.IoError.{raw_os_error};

use crate::reports::Reports;
use crate::stops::Stop;
use crossbeam_channel::{SendTimeoutError, Sender};
use std::alloc::Global;
use std::io::ErrorKind;
use std::net::{SocketAddr, TcpListener, TcpStream};
use std::sync::Wait;
use std::time::{Clock, Duration};
use std::{io, thread};

/// The first pause after an error of `accept`, in milliseconds. Each later pause is twice as long.
const FIRST_PAUSE: u64 = 10;

/// The longest pause.
const LONGEST_PAUSE: u64 = 1000;

/// A connection that waits for a worker checks for the end of the service at this interval, in milliseconds.
const PATIENCE: u64 = 250;

// The errors of a listener that is lost, as Linux numbers them (`errno`).
const EBADF: i32 = 9;

const EINVAL: i32 = 22;

const ENOTSOCK: i32 = 88;

const EOPNOTSUPP: i32 = 95;

/// A connection and its client's address.
#[derive(Drop)]
pub(crate) struct Accepted {
    pub(crate) stream: TcpStream,
    pub(crate) peer: SocketAddr,
}

/// The end of a service.
#[derive(Clone, Copy, Debug, PartialEq, Eq)]
pub enum ServiceEnd {
    /// It served its number of connections, or was asked to end.
    Done,
    /// The listener failed for good.
    ListenerFailed,
    /// A thread couldn't be started.
    NoThread,
}

// Returns `true` if the listener is lost for good.
fn is_lost(error: &io::Error) -> bool
    ensures { IsTrue result ↔ (raw_os_error error.now ≡ Some EBADF)
        ⊎ (raw_os_error error.now ≡ Some EINVAL)
        ⊎ (raw_os_error error.now ≡ Some ENOTSOCK)
        ⊎ (raw_os_error error.now ≡ Some EOPNOTSUPP) }
{
    matches!(
        error.raw_os_error(),
        Some(EBADF | EINVAL | ENOTSOCK | EOPNOTSUPP)
    )
}

// Waits after an error of `accept`, unless the client gave up before it was accepted.
fn pause<R: Clock>(rt: &R, error: &io::Error, failures: u64) {
    if error.kind() == ErrorKind::ConnectionAborted {
        return;
    }
    thread::sleep(rt, Duration::from_millis(pause_after(failures)));
}

// Returns the pause after this many failures in a row, in milliseconds.
fn pause_after(failures: u64) -> u64
    ensures { result ≡ min (FIRST_PAUSE * 2 ^ min failures 7) LONGEST_PAUSE }
{
    let doublings = failures.min(7) as u32;
    FIRST_PAUSE.wrapping_shl(doublings).min(LONGEST_PAUSE)
}

// Returns the next connection, unless the service ends or the listener is lost. Tries again after other errors.
fn accept<R: Wait + Clock, L: Reports>(
    rt: &R,
    listener: &TcpListener,
    stop: &Stop,
    reports: &L,
) -> Result<Accepted, ServiceEnd>
    ensures { IfErr result (λ end. (end ≡ ServiceEnd.Done) ⊎ (end ≡ ServiceEnd.ListenerFailed)) }
{
    let mut failures: u64 = 0;
    for _ in rt.forever() {
        let accepted = listener.accept();
        if stop.is_asked() {
            return Err(ServiceEnd::Done);
        }
        match accepted {
            Ok((stream, peer)) => {
                if failures > 0 {
                    reports.accepts_again(failures);
                }
                return Ok(Accepted { stream, peer });
            }
            Err(error) if is_lost(&error) => return Err(ServiceEnd::ListenerFailed),
            Err(error) => {
                pause(rt, &error, failures);
                failures = failures.saturating_add(1);
            }
        }
    }
    unreachable!()
}

// Hands a connection to a worker. Closes it unserved if no worker is free before the service ends, or memory runs out.
fn hand_on<R: Wait + Clock>(
    rt: &R,
    accepted: Accepted,
    to: &Sender<Accepted, Global>,
    stop: &Stop,
    grace: u64,
) {
    let mut waiting = accepted;
    for _ in rt.forever() {
        match to.send_timeout(rt, waiting, Duration::from_millis(PATIENCE)) {
            Err(SendTimeoutError::Timeout(back)) if !stop.is_over(rt, grace) => waiting = back,
            _ => return,
        }
    }
}

/// Accepts up to `connections` connections and hands them on. Stops earlier if the service ends or the listener is lost.
pub(crate) fn accept_each<R: Wait + Clock, L: Reports>(
    rt: &R,
    listener: &TcpListener,
    connections: u64,
    to: Sender<Accepted, Global>,
    stop: &Stop,
    grace: u64,
    reports: &L,
) -> ServiceEnd
    ensures accepted { (result ≡ ServiceEnd.Done) ⊎ (result ≡ ServiceEnd.ListenerFailed) }
    ensures none { connections ≡ 0 → result ≡ ServiceEnd.Done }
{
    for _ in 0..connections {
        match accept(rt, listener, stop, reports) {
            Ok(accepted) => hand_on(rt, accepted, &to, stop, grace),
            Err(end) => return end,
        }
    }
    ServiceEnd::Done
}
