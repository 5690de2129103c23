//! An orderly end of a service.
ghost use Rattle.std.specs.Prelude.{◌≡◌, ◌-◌, ◌/◌, ◌^◌, None, min, IfOk, IsSome};
ghost use Rattle.std.specs.Duration.{as_nanos};

use std::io;
use std::net::{Shutdown, TcpListener, TcpStream};
use std::os::fd::OwnedFd;
use std::sync::atomic::{AtomicU64, Ordering};
use std::time::{Clock, Duration};

/// Means that nobody has asked for the end.
const NOT_ASKED: u64 = u64::MAX;

/// Lets another thread end a service: it stops accepting, and open connections may finish their requests.
#[derive(Drop)]
pub struct Stop {
    // Somebody asked then, in milliseconds of the monotonic clock.
    asked: AtomicU64,
    // The listener's socket under another descriptor.
    listener: Option<TcpStream>,
}

impl Stop {
    /// Returns the signal of a service without a listener to shut down.
    pub fn never() -> Stop
        ensures { result.listener ≡ None }
    {
        Stop {
            asked: AtomicU64::new(NOT_ASKED),
            listener: None,
        }
    }

    /// Returns the signal of the service that listens here. Fails if the process may open no more descriptors.
    pub fn of(listener: &TcpListener) -> io::Result<Stop>
        ensures { IfOk result (λ stop. IsSome stop.listener) }
    {
        let socket = OwnedFd::from(listener.try_clone()?);
        Ok(Stop {
            asked: AtomicU64::new(NOT_ASKED),
            listener: Some(TcpStream::from(socket)),
        })
    }

    /// Asks for the end, and shuts the listener down, so that no thread waits for a connection.
    pub fn ask<C: Clock>(&self, clock: &C) {
        self.asked.store(millis(clock), Ordering::SeqCst);
        if let Some(listener) = &self.listener {
            let _ = listener.shutdown(Shutdown::Both);
        }
    }

    /// Returns `true` if somebody has asked.
    pub(crate) fn is_asked(&self) -> bool {
        self.asked.load(Ordering::SeqCst) != NOT_ASKED
    }

    /// Returns `true` if somebody asked longer ago than this many milliseconds.
    #[inline(always)]
    pub(crate) fn is_over<C: Clock>(&self, clock: &C, grace: u64) -> bool {
        let asked = self.asked.load(Ordering::SeqCst);
        asked != NOT_ASKED && millis(clock) >= asked.saturating_add(grace)
    }
}

/// Returns the monotonic clock's time in milliseconds.
pub(crate) fn millis<C: Clock>(clock: &C) -> u64 {
    millis_of(clock.monotonic().unwrap_or(Duration::ZERO))
}

// Returns a time in milliseconds.
fn millis_of(time: Duration) -> u64
    ensures { result ≡ min (as_nanos time / 1_000_000) (2 ^ 64 - 1) }
{
    time.as_secs()
        .saturating_mul(1000)
        .saturating_add(u64::from(time.subsec_millis()))
}
