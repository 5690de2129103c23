//! Reads the host's lines on standard input after the head, and hands them on to a running service.
ghost use Rattle.std.specs.Prelude.{◌≡◌, ◌⊎◌, ◌≤◌, [], IfErr, IfOk, Some};
ghost use Rattle.std.specs.Vec.{vec_capacity};
ghost use Rattle.cops_cli.specs.HostInput.{meaning_of_line, line_said, longest, with_byte};

use crate::control::{Follows, Hosted, follow_all};
use crate::faults::CliFault;
use cops_script::host_lines::{read_admission, read_closing};
use cops_service::{HostLine, HostLines};
use std::alloc::{AllocError, Global};
use std::marker::Model;
use std::sync::Arc;
use std::thread;
use std::thread::Threads;
use std::time::{Clock, Duration};

/// Further bytes of a line are dropped. The longest line that has a form has 151.
const LONGEST: usize = 256;

/// A line that comes back is offered again after this many milliseconds.
const PAUSE: u64 = 1;

/// Returns the meaning of a line.
fn read_host_line(line: &[u8]) -> HostLine
    ensures { result ≡ meaning_of_line line.now }
{
    if line == b"end".as_slice() {
        return HostLine::End;
    }
    if let Some(tenant) = read_admission(line) {
        return HostLine::Admit(tenant);
    }
    match read_closing(line) {
        Some(name) => HostLine::Close(name),
        None => HostLine::Unknown,
    }
}

/// A line of standard input, which comes byte by byte. Contracts see its bytes, or none if it is longer than any line that has
/// a form.
#[derive(Drop)]
pub(crate) struct LineSoFar {
    bytes: Vec<u8>,
    is_long: bool,
    ghost room: { longest ≤ vec_capacity bytes },
}

impl Model for LineSoFar {
    ghost use Rattle.std.specs.Prelude.{ℕ, List, Option, None, Some, if◌then◌else◌};

    ghost Value = { Option (List ℕ) };

    ghost view = { λ line. if line.is_long then None else Some line.bytes.items };
}

impl LineSoFar {
    /// Returns an empty line. Fails with `AllocError` if memory runs out.
    pub(crate) fn new(alloc: Global) -> Result<Self, AllocError>
        ensures { IfOk result (λ line. line ≡ Some []) }
    {
        Ok(LineSoFar {
            bytes: Vec::with_capacity(alloc, LONGEST)?,
            is_long: false,
        })
    }

    /// Adds a byte.
    #[tactic(auto, using(crate::proofs::HostInputFacts::room_for_byte, crate::proofs::HostInputFacts::no_room_for_byte))]
    pub(crate) fn push(&mut self, byte: u8)
        ensures { self.new ≡ with_byte byte self.old }
    {
        if self.bytes.len() < LONGEST {
            self.bytes.push_reserved(byte);
        } else {
            self.is_long = true;
        }
    }

    /// Returns the meaning of the line, unless it is empty, and begins the next.
    #[tactic(auto, using(crate::proofs::HostInputFacts::said_long, crate::proofs::HostInputFacts::said_none, crate::proofs::HostInputFacts::said_some))]
    pub(crate) fn end(&mut self) -> Option<HostLine>
        ensures said { result ≡ line_said self.old }
        ensures next { self.new ≡ Some [] }
    {
        let said = if self.is_long {
            Some(HostLine::Unknown)
        } else if self.bytes.is_empty() {
            None
        } else {
            Some(read_host_line(self.bytes.as_slice()))
        };
        self.bytes.clear();
        self.is_long = false;
        said
    }
}

/// Hands the host's lines on to a service.
#[derive(Drop)]
struct HostInput<'a, R> {
    rt: &'a R,
    lines: &'a HostLines,
    line: LineSoFar,
}

impl<R: Clock> HostInput<'_, R> {
    // Offers a whole line until the service takes it.
    fn hand_on(&mut self) {
        let Some(mut line) = self.line.end() else {
            return;
        };
        for _ in 0..u64::MAX {
            match self.lines.offer(line) {
                Ok(()) => return,
                Err(back) => line = back,
            }
            thread::sleep(self.rt, Duration::from_millis(PAUSE));
        }
    }
}

impl<R: Clock> Follows for HostInput<'_, R> {
    fn take(&mut self, byte: u8) {
        if byte == b'\n' {
            self.hand_on();
        } else {
            self.line.push(byte);
        }
    }

    fn finish(&mut self) {
        self.hand_on();
    }
}

// Hands on the lines of standard input to its end.
fn hand_on_lines<R: Input + Clock>(rt: &R, lines: &HostLines, line: LineSoFar) {
    follow_all(rt, &mut HostInput { rt, lines, line });
}

// Starts the thread that hands the lines on.
fn start<R: Threads + Hosted>(
    rt: &R,
    lines: &Arc<HostLines, Global>,
    line: LineSoFar,
) -> Result<(), CliFault>
    ensures { IfErr result (λ fault. fault ≡ CliFault.ReadFault) }
{
    let Ok(theirs) = Arc::try_clone(lines) else {
        return Err(CliFault::ReadFault);
    };
    let own = rt.host();
    match thread::spawn(rt, move || hand_on_lines(&own, &theirs, line)) {
        Ok(_) => Ok(()),
        Err(_) => Err(CliFault::ReadFault),
    }
}

/// Starts a thread that hands the lines of standard input on to a service. Nobody joins the thread: it ends with the process.
/// If it can't be started, standard error says so.
pub(crate) fn hand_input_on<R: Threads + Hosted + Eprint>(
    rt: &R,
    alloc: Global,
    lines: &Arc<HostLines, Global>,
) -> Result<(), CliFault>
    ensures { IfErr result
        (λ fault. (fault ≡ CliFault.OutOfMemory) ⊎ (fault ≡ CliFault.ReadFault)) }
{
    let line = LineSoFar::new(alloc)?;
    if start(rt, lines, line).is_err() {
        let _ = eprintln!(rt; "cops: cannot start a thread");
        return Err(CliFault::ReadFault);
    }
    Ok(())
}
