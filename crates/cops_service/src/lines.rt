//! A client's socket, with limits of time.
ghost use Rattle.std.specs.Prelude.{◌≡◌, ◌≢◌, ◌-◌, ◌*◌, ◌^◌, ◌↔◌, ◌⊎◌, min, IfSome, IsFalse, IsTrue};
ghost use Rattle.std.specs.IoError.{error_kind};
ghost use Rattle.std.specs.Io.{ReadsAtMost, WritesAtMost};

use crate::reports::Course;
use crate::stops::{Stop, millis};
use crate::tallies::Tally;
use std::cell::Cell;
use std::io;
use std::io::{ErrorKind, Read, Write};
use std::net::{Shutdown, TcpStream};
use std::time::{Clock, Duration};

/// A read or write that waits checks the time at this interval, in milliseconds.
const TICK: u64 = 250;

/// The grace of open connections after the service is asked to end, in milliseconds, if there is no idle limit.
const GRACE: u64 = 5000;

/// The most reads of a connection that is being closed, and the milliseconds that they may take.
const LAST_READS: u32 = 64;

const LAST_MILLIS: u64 = 1000;

/// Returns the grace of open connections after the service is asked to end, in milliseconds.
pub(crate) fn grace_of(idle: u64) -> u64
    ensures none { idle ≡ 0 → result ≡ GRACE }
    ensures limit { idle ≢ 0 → result ≡ min (idle * 1000) (2 ^ 64 - 1) }
{
    if idle == 0 {
        GRACE
    } else {
        idle.saturating_mul(1000)
    }
}

/// A client's socket, with the client's deadline and the socket's state.
#[derive(Drop)]
pub(crate) struct Line<'a, C: Clock> {
    clock: &'a C,
    stream: &'a TcpStream,
    stop: &'a Stop,
    // The client's time limit in milliseconds; 0 is no limit.
    limit: u64,
    // The same once the service is asked to end.
    grace: u64,
    // The client's time began then: at the start or the last written reply.
    since: Cell<u64>,
    saw_end: Cell<bool>,
    is_idle: Cell<bool>,
    tally: Cell<Tally>,
}

impl<'a, C: Clock> Line<'a, C> {
    /// Wraps a socket whose client may take `idle` seconds to send a frame, or to take a reply; 0 is no limit.
    pub(crate) fn new(clock: &'a C, stream: &'a TcpStream, stop: &'a Stop, idle: u64) -> Line<'a, C>
        ensures limit { result.limit ≡ min (idle * 1000) (2 ^ 64 - 1) }
        ensures no_limit { idle ≡ 0 → result.grace ≡ GRACE }
        ensures grace { idle ≢ 0 → result.grace ≡ result.limit }
    {
        // Without Nagle's algorithm a reply goes out at once. If that can't be set, the client waits a little longer.
        let _ = stream.set_nodelay(true);
        let tick = Some(Duration::from_millis(TICK));
        let _ = stream.set_read_timeout(tick);
        let _ = stream.set_write_timeout(tick);
        Line {
            clock,
            stream,
            stop,
            limit: idle.saturating_mul(1000),
            grace: grace_of(idle),
            since: Cell::new(millis(clock)),
            saw_end: Cell::new(false),
            is_idle: Cell::new(false),
            tally: Cell::new(Tally::new()),
        }
    }

    /// Returns the socket's state.
    pub(crate) fn course(&self) -> Course {
        Course {
            saw_end: self.saw_end.get(),
            is_idle: self.is_idle.get(),
        }
    }

    /// Returns the counts of written frames.
    pub(crate) fn tally(&self) -> Tally {
        self.tally.get()
    }

    // Returns `true` if the service has ended, and with it the connection's grace.
    #[inline(always)]
    fn is_stopped(&self) -> bool {
        self.stop.is_over(self.clock, self.grace)
    }

    // Returns `true` if the client's time that began at `since` is over.
    fn is_over(&self, since: u64) -> bool
        ensures { self.now.limit ≡ 0 → IsFalse result }
    {
        if self.limit == 0 {
            return false;
        }
        let is_over = millis(self.clock).saturating_sub(since) >= self.limit;
        if is_over {
            self.is_idle.set(true);
        }
        is_over
    }

    // Restarts the client's time.
    fn renew(&self) {
        if self.limit != 0 {
            self.since.set(millis(self.clock));
        }
    }

    // Reads once. Returns `None` if nothing came for a while.
    #[inline(always)]
    fn read_once(&self, buf: &mut [u8]) -> Option<io::Result<usize>>
        ensures { IfSome result (λ read. ReadsAtMost read buf.new) }
    {
        let mut stream = self.stream;
        match stream.read(buf) {
            Ok(count) => {
                if count == 0 && !buf.is_empty() {
                    self.saw_end.set(true);
                }
                Some(Ok(count))
            }
            Err(error) if is_pause(&error) => None,
            Err(error) => Some(Err(error)),
        }
    }

    // Writes once. Returns `None` if the client took nothing for a while.
    fn write_once(&self, buf: &[u8]) -> Option<io::Result<usize>>
        ensures { IfSome result (λ written. WritesAtMost written buf.now) }
    {
        let mut stream = self.stream;
        match stream.write(buf) {
            Ok(count) => {
                let mut tally = self.tally.get();
                tally.count(&buf[..count]);
                self.tally.set(tally);
                self.renew();
                Some(Ok(count))
            }
            Err(error) if is_pause(&error) => None,
            Err(error) => Some(Err(error)),
        }
    }

    /// Shuts down the server's side, and lets the client close its own. Reads on for a while, so that the system doesn't drop
    /// replies that are on their way.
    pub(crate) fn close(&self) {
        if self.saw_end.get() || self.stream.shutdown(Shutdown::Write).is_err() {
            return;
        }
        let most = if self.stop.is_asked() {
            TICK
        } else {
            LAST_MILLIS
        };
        let start = millis(self.clock);
        let mut buffer = [0u8; 4096];
        for _ in 0..LAST_READS {
            if millis(self.clock).saturating_sub(start) >= most {
                return;
            }
            if let Some(read) = self.read_once(&mut buffer)
                && !matches!(read, Ok(1..))
            {
                return;
            }
        }
    }
}

// Returns `true` if a call that failed with this error should be repeated.
fn is_pause(error: &io::Error) -> bool
    ensures { IsTrue result ↔ (error_kind error.now ≡ ErrorKind.WouldBlock)
        ⊎ (error_kind error.now ≡ ErrorKind.Interrupted) }
{
    matches!(error.kind(), ErrorKind::WouldBlock | ErrorKind::Interrupted)
}

/// The bytes that a client sends.
#[derive(Drop)]
pub(crate) struct Incoming<'a, 'b, C: Clock> {
    pub(crate) line: &'b Line<'a, C>,
}

impl<C: Clock> Read for Incoming<'_, '_, C> {
    fn read(&mut self, buf: &mut [u8]) -> io::Result<usize> {
        for _ in 0..u64::MAX {
            if self.line.is_stopped() {
                return Ok(0);
            }
            if self.line.is_over(self.line.since.get()) {
                break;
            }
            if let Some(read) = self.line.read_once(buf) {
                return read;
            }
        }
        Err(io::Error::from(ErrorKind::TimedOut))
    }
}

/// The bytes that a client gets.
#[derive(Drop)]
pub(crate) struct Outgoing<'a, 'b, C: Clock> {
    pub(crate) line: &'b Line<'a, C>,
}

impl<C: Clock> Write for Outgoing<'_, '_, C> {
    fn write(&mut self, buf: &[u8]) -> io::Result<usize> {
        self.line.renew();
        for _ in 0..u64::MAX {
            if let Some(written) = self.line.write_once(buf) {
                return written;
            }
            if self.line.is_stopped() || self.line.is_over(self.line.since.get()) {
                break;
            }
        }
        Err(io::Error::from(ErrorKind::TimedOut))
    }

    fn flush(&mut self) -> io::Result<()> {
        Ok(())
    }
}
