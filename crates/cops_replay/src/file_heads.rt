//! The head of an audit of either layout, line by line.
ghost use Rattle.std.specs.Prelude.{◌≡◌, None, Some, IfErr, IfNone, IfOk, IfSome, IsTrue};
ghost use Rattle.cops_types.specs.Counts.{counted};
ghost use Rattle.cops_types.specs.Head.{AtStart, Begun};
ghost use Rattle.cops_types.specs.HeadLines.{are_sizes};
ghost use Rattle.cops_script.specs.LineAnswers.{IfRefused};
ghost use Rattle.cops_replay.specs.FileHeads.{ContinuesBy, HaveClocks, IsFileHeadAt, count_in, front_in, front_with_by, layout_in, tells_layout};
ghost use Rattle.cops_replay.specs.declared.layouts.Layout.TheVariants.{Early, Today};

use crate::layouts::Layout;
use crate::old_heads::{OldHeadSoFar, read_old_head};
use cops_script::{BadConfig, HeadSoFar, Stop, read_head};
use cops_types::{Config, ConfigReader};
use std::alloc::Global;

/// The head of an audit so far.
#[derive(Drop)]
pub enum FileHead {
    /// Before the first line, or in a head of layout 1.
    Early(OldHeadSoFar),
    /// After the line of today's layout.
    Today(HeadSoFar),
}

/// Returns a head before the first line of its file.
pub(crate) fn new_file_head() -> FileHead
    ensures { IsFileHeadAt Early AtStart 0 result }
{
    FileHead::Early(OldHeadSoFar {
        reader: ConfigReader::layout_1(),
        lines: 0,
    })
}

/// Returns a head after the line of today's layout.
pub(crate) fn after_layout() -> FileHead
    ensures { IsFileHeadAt Today AtStart 1 result }
{
    FileHead::Today(HeadSoFar {
        reader: ConfigReader::new(),
        lines: 1,
    })
}

/// Returns the layout of the file.
pub(crate) fn layout_of_head(head: &FileHead) -> Layout
    ensures { result ≡ layout_in head.now }
{
    match head {
        FileHead::Early(_) => Layout::Early,
        FileHead::Today(_) => Layout::Today,
    }
}

/// Returns the number of lines so far.
pub(crate) fn lines_of_head(head: &FileHead) -> u64
    ensures { result ≡ count_in head.now }
{
    match head {
        FileHead::Early(head) => head.lines,
        FileHead::Today(head) => head.lines,
    }
}

/// Returns `true` if a line is the first one, and names today's layout.
pub(crate) fn tells_today(head: &FileHead, line: &[u8]) -> bool
    ensures { result ≡ tells_layout (layout_in head.now) (count_in head.now) line.now }
{
    match head {
        FileHead::Early(head) => head.lines == 0 && line == b"layout 2".as_slice(),
        FileHead::Today(_) => false,
    }
}

/// Reads one more line of a head. Returns the configuration if the line ends it. If memory runs
/// out, the line may be read again.
pub(crate) fn read_file_head(
    alloc: Global,
    head: &mut FileHead,
    line: &[u8],
) -> Result<Option<Config>, Stop<BadConfig>>
    ensures more { IfOk result (λ begun. IfNone begun (ContinuesBy head.old line.now head.new)) }
    ensures begun { IfOk result (λ begun. IfSome begun (λ config.
        front_with_by (layout_in head.old) (front_in head.old) line.now ≡ Some (Begun config))) }
    ensures sizes { IfOk result (λ begun. IfSome begun (λ config. IsTrue (are_sizes config))) }
    ensures clocks { IfOk result
        (λ begun. IfSome begun (λ config. HaveClocks (layout_in head.old) config)) }
    ensures err { IfErr result (λ stop. IfRefused stop
        (λ bad. front_with_by (layout_in head.old) (front_in head.old) line.now ≡ None)) }
    ensures number { IfErr result
        (λ stop. IfRefused stop (λ bad. bad.line ≡ counted (count_in head.old))) }
{
    match head {
        FileHead::Early(head) => read_old_head(alloc, head, line),
        FileHead::Today(head) => read_head(alloc, head, line),
    }
}
