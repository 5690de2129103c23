//! Scripts: a head, and then the events of tenants, one line each.
ghost use Rattle.std.specs.Prelude.{◌≡◌, None, Some, IfErr, IfNone, IfOk, IfSome, IsTrue};
ghost use Rattle.cops_types.specs.Counts.{counted};
ghost use Rattle.cops_types.specs.Head.{Begun};
ghost use Rattle.cops_types.specs.HeadReader.{front_with};
ghost use Rattle.cops_script.specs.LineAnswers.{IfRefused};
ghost use Rattle.cops_script.specs.GoodHeads.{is_front_good, is_good, HeadContinues};

use crate::Stop;
use cops_types::{Config, ConfigReader, HeadLine};
use std::alloc::Global;

/// A bad head of a script: the number of its first bad line, counted from 1.
#[derive(Clone, Copy, Debug, PartialEq, Eq)]
pub struct BadConfig {
    pub line: u64,
}

/// The head so far, and the number of its lines.
#[derive(Debug, Drop)]
pub struct HeadSoFar {
    pub reader: ConfigReader,
    pub lines: u64,
    ghost within_limits: { IsTrue (is_front_good reader) },
}

/// A script in its head, or past it.
#[derive(Drop)]
pub enum Script<W> {
    Head(HeadSoFar),
    Running(W),
}

/// Reads one more line of a head. Returns the configuration if the line ends the head. If memory
/// runs out, the line may be read again.
pub fn read_head(
    alloc: Global,
    head: &mut HeadSoFar,
    line: &[u8],
) -> Result<Option<Config>, Stop<BadConfig>>
    ensures more { IfOk result (λ begun. IfNone begun
        (HeadContinues head.old.reader head.old.lines line.now head.new.reader head.new.lines)) }
    ensures begun { IfOk result (λ begun.
        IfSome begun (λ config. front_with head.old.reader line.now ≡ Some (Begun config))) }
    ensures good { IfOk result (λ begun. IfSome begun (λ config. IsTrue (is_good config))) }
    ensures err { IfErr result
        (λ stop. IfRefused stop (λ bad. front_with head.old.reader line.now ≡ None)) }
    ensures number { IfErr result
        (λ stop. IfRefused stop (λ bad. bad.line ≡ counted head.old.lines)) }
{
    let number = head.lines.saturating_add(1);
    match head.reader.line(alloc, line) {
        Ok(HeadLine::More) => {
            head.lines = number;
            Ok(None)
        }
        Ok(HeadLine::Begin(config)) => Ok(Some(config)),
        Ok(HeadLine::BadLine) => Err(Stop::Refused(BadConfig { line: number })),
        Err(error) => Err(Stop::from(error)),
    }
}
