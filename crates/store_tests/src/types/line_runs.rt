ghost use Rattle.std.specs.Prelude.{⊤};
ghost use Rattle.cops_types.specs.Words.{StartsWith};

use crate::slate::Slate;
use cops_script::{LineMachine, RunFault, Stop, run_lines};
use cops_types::texts::push_number;
use cops_types::{Sink, Source};
use std::alloc::{AllocError, Global};
use std::io;
use std::io::{ErrorKind, Read, Write};
use std::process::Abort;

/// Answers each line with its length. It stops at the line `stop`.
#[derive(Drop)]
struct Lengths;

/// The line `stop` came.
#[derive(Clone, Copy, Debug, PartialEq, Eq)]
struct Stopped;

/// Appends the length and a newline.
fn push_length(out: &mut Vec<u8>, len: usize) -> Result<(), AllocError>
    ensures { StartsWith out.new.items out.old.items }
{
    push_number(out, len as u64)?;
    out.push(b'\n')?;
    Ok(())
}

impl LineMachine for Lengths {
    type Refusal = Stopped;

    ghost rules = { record { answers = λ old line text new. ⊤; refuses = λ old line refusal. ⊤; ends = λ old text new. ⊤; refuses_end = λ old refusal. ⊤ } };

    fn line(
        &mut self,
        _alloc: Global,
        line: &[u8],
        out: &mut Vec<u8>,
    ) -> Result<(), Stop<Stopped>> {
        if line == b"stop".as_slice() {
            return Err(Stop::Refused(Stopped));
        }
        if push_length(out, line.len()).is_err() {
            return Err(Stop::OutOfMemory);
        }
        Ok(())
    }

    fn end(&mut self, _alloc: Global, _out: &mut Vec<u8>) -> Result<(), Stop<Stopped>> {
        Ok(())
    }
}

/// Gives its bytes in pieces of some length.
#[derive(Drop)]
struct Pieces<'a> {
    bytes: &'a [u8],
    len: usize,
}

impl Read for Pieces<'_> {
    fn read(&mut self, buf: &mut [u8]) -> io::Result<usize> {
        let all = self.bytes;
        let mut piece = &all[..self.len.min(all.len())];
        let count = piece.read(buf)?;
        self.bytes = &all[count..];
        Ok(count)
    }
}

/// Fails at one of its reads and goes on at the next. It keeps for how many bytes it was asked, at most.
#[derive(Drop)]
struct FailsOnce<'a> {
    bytes: &'a [u8],
    reads_to_failure: Option<u64>,
    longest: usize,
}

impl Read for FailsOnce<'_> {
    fn read(&mut self, buf: &mut [u8]) -> io::Result<usize> {
        self.longest = self.longest.max(buf.len());
        let left = self.reads_to_failure;
        self.reads_to_failure = left.and_then(|reads| reads.checked_sub(1));
        if left == Some(0) {
            return Err(io::Error::from(ErrorKind::Interrupted));
        }
        let mut rest = self.bytes;
        let count = rest.read(buf)?;
        self.bytes = rest;
        Ok(count)
    }
}

/// Takes all bytes. Its first write or flush fails, and it goes on at the next.
#[derive(Drop)]
struct FailsFirst {
    taken: u64,
    has_failed: bool,
}

impl FailsFirst {
    fn fail_once(&mut self) -> io::Result<()> {
        if self.has_failed {
            return Ok(());
        }
        self.has_failed = true;
        Err(io::Error::from(ErrorKind::Interrupted))
    }
}

impl Write for FailsFirst {
    fn write(&mut self, buf: &[u8]) -> io::Result<usize> {
        self.fail_once()?;
        self.taken = self.taken.saturating_add(buf.len() as u64);
        Ok(buf.len())
    }

    fn flush(&mut self) -> io::Result<()> {
        self.fail_once()
    }
}

/// Gives one byte of a line that never ends, for ever.
#[derive(Drop)]
struct Endless;

impl Read for Endless {
    fn read(&mut self, buf: &mut [u8]) -> io::Result<usize> {
        if buf.is_empty() {
            return Ok(0);
        }
        buf[0] = b'x';
        Ok(1)
    }
}

/// Takes all bytes. It is flushed once, and fails from then on.
#[derive(Drop)]
struct FlushedOnce {
    is_flushed: bool,
}

impl Write for FlushedOnce {
    fn write(&mut self, buf: &[u8]) -> io::Result<usize> {
        Ok(buf.len())
    }

    fn flush(&mut self) -> io::Result<()> {
        if self.is_flushed {
            return Err(io::Error::from(ErrorKind::Other));
        }
        self.is_flushed = true;
        Ok(())
    }
}

#[test]
fn flushes_go_to_the_writer(rt: HostRuntime) {
    let mut sink = Sink::new(FlushedOnce { is_flushed: false });
    assert!(rt; sink.flush().is_ok());
    assert!(rt; sink.failures() == 0);
    assert!(rt; sink.flush().is_err());
    assert!(rt; sink.failures() == 1);
    assert!(rt; sink.into_inner().is_flushed);
}

const TEXT: &[u8] = b"a comment\n\nhello, world\nend";

const ANSWER: &[u8] = b"9\n0\n12\n3\n";

/// The longest line that the machine sees whole.
const LIMIT: usize = 8192;

fn run<R: Read, W: Write>(
    alloc: Global,
    turns: u64,
    source: &mut Source<R>,
    sink: &mut Sink<W>,
) -> u64 {
    match run_lines(&mut Lengths, alloc, turns, LIMIT, source, sink) {
        Ok(()) => 0,
        Err(RunFault::Refused(_)) => 1,
        Err(RunFault::OutOfMemory) => 23,
        Err(RunFault::ReadFault) => 26,
        Err(RunFault::WriteFault) => 27,
    }
}

/// Runs the lines of a text, and asserts how that ends and what is written.
fn assert_answer(rt: &impl Abort, alloc: Global, text: &[u8], answer: &[u8], fault: u64) {
    let mut source = Source::new(text);
    let mut sink = Sink::new(Vec::new(alloc));
    assert!(rt; run(alloc, 100, &mut source, &mut sink) == fault);
    assert!(rt; sink.into_inner().as_slice() == answer);
}

#[test]
fn answers_each_line(rt: HostRuntime) {
    assert_answer(&rt, rt.alloc(), TEXT, ANSWER, 0);
    assert_answer(&rt, rt.alloc(), b"", b"", 0);
    assert_answer(&rt, rt.alloc(), b"\n", b"0\n", 0);
    assert_answer(&rt, rt.alloc(), b"ab\nstop\nc\n", b"", 1);
    assert_answer(&rt, rt.alloc(), b"stop", b"", 1);
}

/// With a reader that fails once, no read follows.
fn assert_read_once(rt: &impl Abort, alloc: Global, reads: u64) {
    let mut source = Source::new(FailsOnce {
        bytes: TEXT,
        reads_to_failure: Some(reads),
        longest: 0,
    });
    let mut sink = Sink::new(Vec::new(alloc));
    assert!(rt; run(alloc, 100, &mut source, &mut sink) == 26);
    assert!(rt; source.failures() == 1 && source.reads() == reads.saturating_add(1));
}

#[test]
fn a_read_that_failed_is_not_tried_again(rt: HostRuntime) {
    for reads in 0..2 {
        assert_read_once(&rt, rt.alloc(), reads);
    }
}

#[test]
fn a_write_that_failed_is_not_tried_again(rt: HostRuntime) {
    let mut source = Source::new(TEXT);
    let mut sink = Sink::new(FailsFirst {
        taken: 0,
        has_failed: false,
    });
    assert!(rt; run(rt.alloc(), 100, &mut source, &mut sink) == 27);
    assert!(rt; sink.failures() == 1);
    assert!(rt; sink.into_inner().taken == 0);
}

#[test]
fn a_flush_that_failed_is_not_tried_again(rt: HostRuntime) {
    let mut sink = Sink::new(FailsFirst {
        taken: 0,
        has_failed: false,
    });
    assert!(rt; sink.flush().is_err());
    assert!(rt; sink.failures() == 1);
}

#[test]
fn a_read_asks_for_4096_bytes(rt: HostRuntime) {
    let mut source = Source::new(FailsOnce {
        bytes: TEXT,
        reads_to_failure: None,
        longest: 0,
    });
    let mut sink = Sink::new(Vec::new(rt.alloc()));
    assert!(rt; run(rt.alloc(), 100, &mut source, &mut sink) == 0);
    assert!(rt; sink.into_inner().as_slice() == ANSWER);
    assert!(rt; source.into_inner().longest == 4096);
}

#[test]
fn a_line_that_never_ends_meets_the_bound_on_turns(rt: HostRuntime) {
    let mut source = Source::new(Endless);
    let mut sink = Sink::new(Vec::new(rt.alloc()));
    assert!(rt; run(rt.alloc(), 100, &mut source, &mut sink) == 26);
    assert!(rt; source.reads() == 100 && source.failures() == 0);
    assert!(rt; sink.into_inner().is_empty());
}

// For runs in which one allocation fails.
#[test]
fn want_of_memory_leaves_a_front(rt: HostRuntime) {
    let mut source = Source::new(Pieces {
        bytes: TEXT,
        len: 3,
    });
    let mut sink = Sink::new(Slate::new());
    let fault = run(rt.alloc(), 100, &mut source, &mut sink);
    let slate = sink.into_inner();
    let taken = slate.written();
    assert!(rt; fault == 0 || fault == 23, "fault {fault}");
    assert!(rt; ANSWER.starts_with(taken));
    assert!(rt; fault == 23 || taken == ANSWER);
}
