//! Reading the head of a script, line by line.
ghost use Rattle.std.specs.Prelude.{◌≡◌, Some, OnErr, OnOk, IfOk};
ghost use Rattle.cops_types.specs.Head.{AtStart, front_after};
ghost use Rattle.cops_types.specs.HeadProgress.{front_of};
ghost use Rattle.cops_types.specs.HeadReader.{front_with, said_at, still_open};

use crate::configs::Config;
use crate::head_lines::{join, read_cluster};
use crate::old_heads::OldConfigReader;
use crate::versions::Version;
use std::alloc::{AllocError, Global};
use std::marker::Model;
use std::mem;

/// The meaning of a line of a head.
#[derive(Debug, Drop)]
pub enum HeadLine {
    /// The head goes on.
    More,
    /// The head is complete and gives this configuration. It may have no tenant.
    Begin(Config),
    /// The line may not follow here, or the head is over.
    BadLine,
}

/// How far a head has come. It is over after its end, and after a bad line.
#[derive(Debug, Drop)]
pub(crate) enum Progress {
    Start,
    Within(Config),
    Over,
}

/// Reads a head line by line. Contracts see how far it has come: nowhere if a line was bad or the
/// head is over, since nothing may follow then.
#[derive(Debug, Drop)]
pub struct ConfigReader {
    progress: Progress,
}

impl Model for ConfigReader {
    ghost use Rattle.std.specs.Prelude.{Option};
    ghost use Rattle.cops_types.specs.Head.{Front};
    ghost use Rattle.cops_types.specs.HeadProgress.{front_of};

    ghost Value = { Option Front };

    ghost view = { λ r. front_of r.progress };
}

/// Returns how far the first line leads, and its meaning.
fn start(alloc: Global, line: &[u8]) -> (Progress, HeadLine)
    ensures front { front_of result.0 ≡ still_open (front_after AtStart line.now) }
    ensures said { result.1 ≡ said_at (front_after AtStart line.now) }
{
    match read_cluster(alloc, line) {
        Some(config) => (Progress::Within(config), HeadLine::More),
        None => (Progress::Over, HeadLine::BadLine),
    }
}

impl ConfigReader {
    /// Returns a reader at the start of a head.
    pub fn new() -> Self
        ensures { result ≡ Some AtStart }
    {
        ConfigReader {
            progress: Progress::Start,
        }
    }

    /// Returns a reader at the start of a head of layout 1, as old audit files have it.
    pub fn layout_1() -> OldConfigReader
        ensures { result ≡ Some AtStart }
    {
        OldConfigReader::new()
    }

    /// Reads the next line, which comes without its newline. Fails with `AllocError` if memory runs
    /// out; the line may then be read again.
    pub fn line(&mut self, alloc: Global, line: &[u8]) -> Result<HeadLine, AllocError>
        ensures said { IfOk result (λ said. said ≡ said_at (front_with self.old line.now)) }
        ensures front { OnOk result (self.new ≡ still_open (front_with self.old line.now)) }
        ensures err { OnErr result (self.new ≡ self.old) }
    {
        if line != b"begin".as_slice() {
            if let Progress::Within(config) = &mut self.progress {
                if join(config, line, Version::LAST_CLOCK)? {
                    return Ok(HeadLine::More);
                }
            }
        }
        let (progress, said) = match mem::replace(&mut self.progress, Progress::Over) {
            Progress::Start => start(alloc, line),
            Progress::Within(config) if line == b"begin".as_slice() => {
                (Progress::Over, HeadLine::Begin(config))
            }
            _ => (Progress::Over, HeadLine::BadLine),
        };
        self.progress = progress;
        Ok(said)
    }
}
