//! The head of an audit of layout 1, line by line.
ghost use Rattle.std.specs.Prelude.{◌≡◌, None, Some, IfErr, IfNone, IfOk, IfSome, IsTrue};
ghost use Rattle.cops_types.specs.Counts.{counted};
ghost use Rattle.cops_types.specs.Head.{Begun};
ghost use Rattle.cops_types.specs.HeadLines.{are_sizes};
ghost use Rattle.cops_script.specs.LineAnswers.{IfRefused};
ghost use Rattle.cops_types.specs.OldHead.{old_front_with};
ghost use Rattle.cops_replay.specs.OldHeads.{OldHeadContinues, has_sizes};

use cops_script::{BadConfig, Stop};
use cops_types::{Config, HeadLine, OldConfigReader};
use std::alloc::Global;

/// The head of an audit of layout 1 so far, and the number of its lines.
#[derive(Debug, Drop)]
pub struct OldHeadSoFar {
    pub reader: OldConfigReader,
    pub lines: u64,
    ghost within_limits: { IsTrue (has_sizes reader) },
}

/// Reads one more line of a head of layout 1. Returns the configuration if the line ends it. If
/// memory runs out, the line may be read again.
pub(crate) fn read_old_head(
    alloc: Global,
    head: &mut OldHeadSoFar,
    line: &[u8],
) -> Result<Option<Config>, Stop<BadConfig>>
    ensures more { IfOk result (λ begun. IfNone begun
        (OldHeadContinues head.old.reader head.old.lines line.now head.new.reader head.new.lines)) }
    ensures begun { IfOk result (λ begun.
        IfSome begun (λ config. old_front_with head.old.reader line.now ≡ Some (Begun config))) }
    ensures sizes { IfOk result (λ begun. IfSome begun (λ config. IsTrue (are_sizes config))) }
    ensures err { IfErr result
        (λ stop. IfRefused stop (λ bad. old_front_with head.old.reader line.now ≡ None)) }
    ensures number { IfErr result
        (λ stop. IfRefused stop (λ bad. bad.line ≡ counted head.old.lines)) }
{
    let number = head.lines.saturating_add(1);
    match head.reader.line(alloc, line) {
        Ok(HeadLine::More) => {
            head.lines = number;
            Ok(None)
        }
        Ok(HeadLine::Begin(config)) => Ok(Some(config)),
        Ok(HeadLine::BadLine) => Err(Stop::Refused(BadConfig { line: number })),
        Err(error) => Err(Stop::from(error)),
    }
}
