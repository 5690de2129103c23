//! Progress of long runs, on standard error.
ghost use Rattle.std.specs.Prelude.{◌≡◌, ◌+◌, ◌-◌, ◌^◌, ◌≤◌, ◌==◌, count_by, min, IfOk, IfSome, IsFalse};
ghost use Rattle.std.specs.Io.{ReadsAtMost};
ghost use Rattle.std.specs.Io.KnownBytes.{ReadConsumes};

use std::io;
use std::io::Read;
use std::time::{Clock, Duration};

/// A run is silent for this many seconds at first.
const SILENCE: u64 = 2;

/// The time between reports, in seconds.
const INTERVAL: u64 = 1;

const NEWLINE: u8 = b'\n';

/// Counts the lines that a run has read, and reports their number once a second.
#[derive(Drop)]
pub(crate) struct Progress<'a, T> {
    rt: &'a T,
    lines: u64,
    // The time of the next report on the monotonic clock.
    due: Duration,
}

impl<'a, T: Clock> Progress<'a, T> {
    /// Returns `None` if the clock can't be read.
    pub(crate) fn new(rt: &'a T) -> Option<Self>
        ensures { IfSome result (λ progress. progress.lines ≡ 0) }
    {
        match rt.monotonic() {
            Ok(now) => Some(Progress {
                rt,
                lines: 0,
                due: now.saturating_add(Duration::from_secs(SILENCE)),
            }),
            Err(_) => None,
        }
    }
}

impl<T: Clock + Eprint> Progress<'_, T> {
    // Counts the lines that end in these bytes, and reports if a report is due. A failure to report
    // is ignored.
    fn note(&mut self, bytes: &[u8])
        ensures { self.new.lines ≡ min
            (self.old.lines + count_by (λ byte. byte == NEWLINE) bytes.now)
            (2 ^ 64 - 1) }
    {
        let ends = bytes.iter().filter(|byte| **byte == NEWLINE).count();
        self.lines = self.lines.saturating_add(ends as u64);
        let Ok(now) = self.rt.monotonic() else {
            return;
        };
        if now < self.due {
            return;
        }
        self.due = now.saturating_add(Duration::from_secs(INTERVAL));
        let _ = eprintln!(self.rt; "cops: {} lines", self.lines);
    }
}

/// A reader that gives another one's bytes. If there is a `Progress`, it reports the number of lines among
/// them. Unless it reads ahead, it takes at most one byte a turn. So the lines after a head stay unread.
#[derive(Drop)]
pub(crate) struct WatchedReader<'a, T, I> {
    reader: I,
    progress: Option<Progress<'a, T>>,
    reads_ahead: bool,
}

impl<'a, T, I> WatchedReader<'a, T, I> {
    pub(crate) fn new(reader: I, progress: Option<Progress<'a, T>>, reads_ahead: bool) -> Self
        ensures reader { result.reader ≡ reader }
        ensures progress { result.progress ≡ progress.entry }
        ensures ahead { result.reads_ahead ≡ reads_ahead }
    {
        WatchedReader {
            reader,
            progress,
            reads_ahead,
        }
    }
}

impl<T: Clock + Eprint, I: Read> Read for WatchedReader<'_, T, I> {
    ghost remaining = { λ watched. I.remaining watched.reader };

    fn read(&mut self, buf: &mut [u8]) -> io::Result<usize>
        // The bytes are those of the reader.
        ensures bound { ReadsAtMost result buf.new }
        ensures bytes { ReadConsumes (I.remaining self.old.reader) (I.remaining self.new.reader)
            result buf.new }
        ensures one { IsFalse self.old.reads_ahead → IfOk result (λ count. count ≤ 1) }
    {
        let most = if self.reads_ahead {
            buf.len()
        } else {
            buf.len().min(1)
        };
        let read = self.reader.read(&mut buf[..most]);
        if let (Some(progress), Ok(count)) = (&mut self.progress, &read) {
            progress.note(&buf[..*count]);
        }
        read
    }
}
