//! Reading the head of an audit file of layout 1, line by line.
ghost use Rattle.std.specs.Prelude.{◌≡◌, Some, OnErr, OnOk, IfOk, nat_le};
ghost use Rattle.std.specs.List.{list_all};
ghost use Rattle.cops_types.specs.Head.{AtStart};
ghost use Rattle.cops_types.specs.HeadProgress.{front_of};
ghost use Rattle.cops_types.specs.HeadReader.{said_at, still_open};
ghost use Rattle.cops_types.specs.OldHead.{has_clocks_to, old_cluster_in, old_front_after, old_front_with};

use crate::configs::{Config, Tenant};
use crate::head_lines::{join, read_cluster};
use crate::heads::{HeadLine, Progress};
use std::alloc::{AllocError, Global};
use std::marker::Model;
use std::mem;

/// The greatest clock of layout 1.
const LAST_OLD_CLOCK: u64 = (1 << 56) - 1;

/// The most shards of a cluster of layout 1.
const MOST_OLD_SHARDS: u64 = 16;

/// Reads a head of layout 1 line by line. Contracts see how far it has come: nowhere if a line was
/// bad or the head is over, since nothing may follow then.
#[derive(Debug, Drop)]
pub struct OldConfigReader {
    progress: Progress,
}

impl Model for OldConfigReader {
    ghost use Rattle.std.specs.Prelude.{Option};
    ghost use Rattle.cops_types.specs.Head.{Front};
    ghost use Rattle.cops_types.specs.HeadProgress.{front_of};

    ghost Value = { Option Front };

    ghost view = { λ r. front_of r.progress };
}

/// Returns the cluster that a line gives, with no tenant yet.
fn read_old_cluster(alloc: Global, line: &[u8]) -> Option<Config>
    ensures { result ≡ old_cluster_in line.now }
{
    let config = read_cluster(alloc, line)?;
    if config.shards <= MOST_OLD_SHARDS {
        Some(config)
    } else {
        None
    }
}

/// Returns `true` if each first clock is at most this number.
fn are_clocks_to(tenants: &[Tenant], last: u64) -> bool
    ensures { result ≡ list_all (λ tenant. nat_le tenant.first_clock last) tenants.now }
{
    tenants.iter().all(|tenant| tenant.first_clock <= last)
}

/// Returns how far the first line leads, and its meaning.
fn start(alloc: Global, line: &[u8]) -> (Progress, HeadLine)
    ensures front { front_of result.0 ≡ still_open (old_front_after AtStart line.now) }
    ensures said { result.1 ≡ said_at (old_front_after AtStart line.now) }
{
    match read_old_cluster(alloc, line) {
        Some(config) => (Progress::Within(config), HeadLine::More),
        None => (Progress::Over, HeadLine::BadLine),
    }
}

impl OldConfigReader {
    /// Returns a reader at the start of a head.
    pub(crate) fn new() -> Self
        ensures { result ≡ Some AtStart }
    {
        OldConfigReader {
            progress: Progress::Start,
        }
    }

    /// Reads the next line, which comes without its newline. Fails with `AllocError` if memory runs
    /// out; the line may then be read again.
    pub fn line(&mut self, alloc: Global, line: &[u8]) -> Result<HeadLine, AllocError>
        ensures said { IfOk result (λ said. said ≡ said_at (old_front_with self.old line.now)) }
        ensures front { OnOk result (self.new ≡ still_open (old_front_with self.old line.now)) }
        ensures err { OnErr result (self.new ≡ self.old) }
    {
        if line != b"begin".as_slice() {
            if let Progress::Within(config) = &mut self.progress {
                if join(config, line, LAST_OLD_CLOCK)? {
                    return Ok(HeadLine::More);
                }
            }
        }
        let (progress, said) = match mem::replace(&mut self.progress, Progress::Over) {
            Progress::Start => start(alloc, line),
            Progress::Within(config) if line == b"begin".as_slice() => {
                (Progress::Over, HeadLine::Begin(config))
            }
            _ => (Progress::Over, HeadLine::BadLine),
        };
        self.progress = progress;
        Ok(said)
    }

    /// Returns `true` if the first clock of each tenant so far is at most this number.
    pub fn has_clocks_to(&self, last: u64) -> bool
        ensures { result ≡ has_clocks_to last self.now }
    {
        match &self.progress {
            Progress::Within(config) => are_clocks_to(config.tenants.as_slice(), last),
            Progress::Start => true,
            Progress::Over => true,
        }
    }
}
