//! Reads standard input after the head, on a thread of its own. If tenants are fixed, the line `end` ends the service.
ghost use Rattle.std.specs.Prelude.{◌≡◌, ◌+◌, ◌-◌, ◌^◌, [], min, IfErr, Some};

use crate::faults::CliFault;
use crate::host_input::LineSoFar;
use cops_service::{HostLine, Stop};
use std::alloc::Global;
use std::io::{ErrorKind, Read};
use std::sync::Arc;
use std::thread;
use std::thread::Threads;
use std::time::Clock;

// ---- any reader of lines

/// Follows the bytes of standard input.
pub(crate) trait Follows {
    /// Takes a byte.
    fn take(&mut self, byte: u8);

    /// Takes the end of the input.
    fn finish(&mut self);
}

/// Passes the bytes of standard input to a follower, to the end.
pub(crate) fn follow_all<R: Input, F: Follows>(rt: &R, follower: &mut F) {
    let mut reader = rt.reader();
    let mut buffer = [0u8; 4096];
    for _ in 0..u64::MAX {
        match reader.read(&mut buffer) {
            Ok(0) => break,
            Ok(count) => {
                for byte in &buffer[..count] {
                    follower.take(*byte);
                }
            }
            Err(error) if error.kind() == ErrorKind::Interrupted => (),
            Err(_) => break,
        }
    }
    follower.finish();
}

/// A runtime that is the system's own, which a thread may take along.
pub(crate) trait Hosted {
    /// Returns the system's runtime.
    fn host(&self) -> HostRuntime;
}

impl Hosted for HostRuntime {
    fn host(&self) -> HostRuntime {
        *self
    }
}

// ---- the line `end`

/// Ends a service at the line `end`.
#[derive(Drop)]
struct Ending<'a, R> {
    rt: &'a R,
    stop: &'a Stop,
    line: LineSoFar,
    // The number of ended lines.
    count: u64,
}

impl<R: Eprint + Clock> Ending<'_, R> {
    // Handles a whole line.
    fn end(&mut self)
        ensures count { self.new.count ≡ min (self.old.count + 1) (2 ^ 64 - 1) }
        ensures next { self.new.line ≡ Some [] }
    {
        self.count = self.count.saturating_add(1);
        match self.line.end() {
            None => (),
            Some(HostLine::End) => self.stop.ask(self.rt),
            Some(_) => {
                let line = self.count;
                let _ = eprintln!(self.rt; "cops: line {line}: only 'end' may follow 'begin'");
            }
        }
    }
}

impl<R: Eprint + Clock> Follows for Ending<'_, R> {
    fn take(&mut self, byte: u8) {
        if byte == b'\n' {
            self.end();
        } else {
            self.line.push(byte);
        }
    }

    fn finish(&mut self) {
        self.end();
    }
}

// Follows the lines of standard input to its end. `before` lines have come before.
fn follow_lines<R: Input + Eprint + Clock>(rt: &R, stop: &Stop, line: LineSoFar, before: u64) {
    let mut ending = Ending {
        rt,
        stop,
        line,
        count: before,
    };
    follow_all(rt, &mut ending);
}

/// Starts a thread that follows standard input, of which `before` lines have come. The next is this
/// empty line. Nobody joins the thread: it ends with the process. Fails if it can't be started.
pub(crate) fn follow_input<R: Threads + Hosted>(
    rt: &R,
    stop: &Arc<Stop, Global>,
    line: LineSoFar,
    before: u64,
) -> Result<(), CliFault>
    ensures { IfErr result (λ fault. fault ≡ CliFault.ReadFault) }
{
    let Ok(theirs) = Arc::try_clone(stop) else {
        return Err(CliFault::ReadFault);
    };
    let own = rt.host();
    match thread::spawn(rt, move || follow_lines(&own, &theirs, line, before)) {
        Ok(_) => Ok(()),
        Err(_) => Err(CliFault::ReadFault),
    }
}
