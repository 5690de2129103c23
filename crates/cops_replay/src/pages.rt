//! Text buffered for a writer, some kilobytes at a time.
ghost use Rattle.std.specs.Prelude.{◌≡◌, [], OnOk, OnErr, IfErr};
ghost use Rattle.std.specs.Io.KnownBytes.{Appends};
ghost use Rattle.cops_types.specs.Counts.{HasRisen};
ghost use Rattle.cops_types.specs.Sink.{AppendsFront, sink_failures, sink_writer};
ghost use Rattle.cops_types.specs.declared.faults.Fault.TheVariants.{WriteFault};
ghost use Rattle.cops_types.specs.declared.request_errors.RequestError.TheVariants.{Refused};
ghost use Rattle.cops_replay.specs.Pages.{PutsText, page};

use cops_types::{Fault, RequestError, Sink};
use std::io::Write;

/// Flush threshold: buffered text is written once it is this long.
const FULL: usize = 32768;

/// Writes the buffered text.
pub(crate) fn drain<W: Write>(out: &mut Vec<u8>, sink: &mut Sink<W>) -> Result<(), RequestError>
    ensures written { OnOk result (Appends (W.contents (sink_writer sink.old))
        (W.contents (sink_writer sink.new)) out.old.items) }
    ensures empty { OnOk result (out.new.items ≡ []) }
    ensures front { AppendsFront (W.contents (sink_writer sink.old))
        (W.contents (sink_writer sink.new)) out.old.items }
    ensures fault { IfErr result (λ error. error ≡ Refused WriteFault) }
    ensures ok { OnOk result (sink_failures sink.new ≡ sink_failures sink.old) }
    ensures err { OnErr result (HasRisen (sink_failures sink.old) (sink_failures sink.new)) }
{
    if sink.write_all(out.as_slice()).is_err() {
        return Err(RequestError::Refused(Fault::WriteFault));
    }
    out.clear();
    Ok(())
}

/// Writes the buffered text, once it reaches the threshold.
pub(crate) fn drain_full<W: Write>(
    out: &mut Vec<u8>,
    sink: &mut Sink<W>,
) -> Result<(), RequestError>
    ensures { PutsText []
        (page out.old.items (W.contents (sink_writer sink.old)) (sink_failures sink.old)) result
        (page out.new.items (W.contents (sink_writer sink.new)) (sink_failures sink.new)) }
{
    if out.len() < FULL {
        return Ok(());
    }
    drain(out, sink)
}
