//! Runs of a machine over the lines of a reader, with the answers written to a writer.
ghost use Rattle.std.specs.Prelude.{◌≡◌, ◌≢◌, ◌+◌, ◌-◌, ◌^◌, ◌<◌, ◌≤◌, [], ◌∷◌, ◌++◌, ◌⊎◌, length, OnOk, OnErr, IfErr, IsOk, IsErrOf};
ghost use Rattle.cops_types.specs.Counts.{HasRisen, HasRisenBy};
ghost use Rattle.cops_types.specs.Sink.{AppendsAllBut, AppendsFront, sink_failures, sink_writer};
ghost use Rattle.cops_types.specs.Source.{source_failures, source_reader, source_reads};
ghost use Rattle.cops_types.specs.Lines.{cut_line};
ghost use Rattle.cops_script.specs.LineAnswers.{Answers, IfRefused};
ghost use Rattle.cops_script.specs.LineRules.{Run};
ghost use Rattle.cops_script.specs.LineRuns.{Answered, AnswersAll, Finishes, IsLineFront, Stops, StopsAtEnd, StopsEarly, last_line, stage};

use crate::line_runs::fault::RunFault;
use crate::line_runs::machine::{LineMachine, Stop};
use crate::line_runs::split::{cut, extend_cut, split_line};
use cops_types::{Sink, Source};
use std::alloc::Global;
use std::io;
use std::io::{Read, Write};

/// The most bytes read in a turn.
const PIECE: usize = 4096;

/// Flush threshold: buffered answers are written once they are this long, and at the end of each
/// turn.
const FULL: usize = 8192;

/// Answers a line whose beginning was stored.
fn answer_line<M: LineMachine>(
    machine: &mut M,
    alloc: Global,
    limit: usize,
    front: &mut Vec<u8>,
    rest: &[u8],
    out: &mut Vec<u8>,
) -> Result<(), Stop<M::Refusal>>
    requires limit { limit < 2 ^ 63 }
    requires front { length front.old.items ≤ limit + 1 }
    ensures ok { OnOk result
        (Answers (M.rules.answers machine.old (cut_line limit (front.old.items ++ rest.now)))
        machine.new out.old.items out.new.items) }
    ensures empty { OnOk result (front.new.items ≡ []) }
    ensures err { IfErr result (λ stop.
        IfRefused stop (M.rules.refuses machine.old
        (cut_line limit (front.old.items ++ rest.now)))) }
{
    if front.is_empty() {
        return machine.line(alloc, cut(rest, limit), out);
    }
    extend_cut(front, rest, limit)?;
    let result = machine.line(alloc, front.as_slice(), out);
    front.clear();
    result
}

/// Writes the buffered answers.
fn drain<W: Write>(out: &mut Vec<u8>, sink: &mut Sink<W>) -> io::Result<()>
    ensures written { OnOk result (AppendsAllBut (W.contents (sink_writer sink.old))
        (W.contents (sink_writer sink.new)) out.old.items out.new.items) }
    ensures empty { OnOk result (out.new.items ≡ []) }
    ensures nothing { out.old.items ≡ [] → IsOk result }
    ensures front { AppendsFront (W.contents (sink_writer sink.old))
        (W.contents (sink_writer sink.new)) out.old.items }
    ensures ok { OnOk result (sink_failures sink.new ≡ sink_failures sink.old) }
    ensures err { OnErr result (HasRisen (sink_failures sink.old) (sink_failures sink.new)) }
{
    if out.is_empty() {
        return Ok(());
    }
    sink.write_all(out.as_slice())?;
    out.clear();
    Ok(())
}

/// Writes the buffered answers, once they reach the threshold.
fn drain_full<W: Write>(out: &mut Vec<u8>, sink: &mut Sink<W>) -> io::Result<()>
    ensures written { OnOk result (AppendsAllBut (W.contents (sink_writer sink.old))
        (W.contents (sink_writer sink.new)) out.old.items out.new.items) }
    ensures nothing { out.old.items ≡ [] → IsOk result }
    ensures front { AppendsFront (W.contents (sink_writer sink.old))
        (W.contents (sink_writer sink.new)) out.old.items }
    ensures ok { OnOk result (sink_failures sink.new ≡ sink_failures sink.old) }
    ensures err { OnErr result (HasRisen (sink_failures sink.old) (sink_failures sink.new)) }
{
    if out.len() < FULL {
        return Ok(());
    }
    drain(out, sink)
}

/// Answers the lines that a piece completes, and stores the beginning of the next.
fn answer_piece<W: Write, M: LineMachine>(
    machine: &mut M,
    alloc: Global,
    limit: usize,
    front: &mut Vec<u8>,
    piece: &[u8],
    out: &mut Vec<u8>,
    sink: &mut Sink<W>,
) -> Result<(), RunFault<M::Refusal>>
    requires limit { limit < 2 ^ 63 }
    requires front { IsLineFront limit front.old.items }

    ensures ok { OnOk result (Answered M.rules limit
        (front.old.items ++ piece.now)
        (stage machine.old out.old.items (W.contents (sink_writer sink.old)))
        front.new.items (stage machine.new out.new.items (W.contents (sink_writer sink.new)))) }
    ensures front { OnOk result (IsLineFront limit front.new.items) }
    ensures err { IfErr result (Stops M.rules limit
        (front.old.items ++ piece.now)
        (stage machine.old out.old.items (W.contents (sink_writer sink.old)))
        (W.contents (sink_writer sink.new))) }

    ensures same { OnOk result (sink_failures sink.new ≡ sink_failures sink.old) }
    ensures told { (sink_failures sink.new ≡ sink_failures sink.old)
        ⊎ IsErrOf result RunFault.WriteFault }
    ensures write_fault { IsErrOf result RunFault.WriteFault →
        HasRisen (sink_failures sink.old) (sink_failures sink.new) }
    ensures read_fault { IsErrOf result RunFault.ReadFault → ⊥ }
{
    let mut rest = piece;
    while let Some((line, after)) = split_line(rest) {
        answer_line(machine, alloc, limit, front, line, out)?;
        if drain_full(out, sink).is_err() {
            return Err(RunFault::WriteFault);
        }
        rest = after;
    }
    extend_cut(front, rest, limit)?;
    Ok(())
}

/// Answers the last line, if it lacks a newline.
fn answer_last<M: LineMachine>(
    machine: &mut M,
    alloc: Global,
    front: &[u8],
    out: &mut Vec<u8>,
) -> Result<(), Stop<M::Refusal>>
    ensures ok { OnOk result (Answers (Run M.rules machine.old (last_line front.now)) machine.new
        out.old.items out.new.items) }
    ensures err { IfErr result (λ stop. (last_line front.now ≡ front.now ∷ [])
        × IfRefused stop (M.rules.refuses machine.old front.now)) }
{
    if front.is_empty() {
        return Ok(());
    }
    machine.line(alloc, front, out)
}

/// Answers the last line, if it lacks a newline, and the end of the input, and writes the buffered
/// answers.
fn finish<W: Write, M: LineMachine>(
    machine: &mut M,
    alloc: Global,
    front: &[u8],
    out: &mut Vec<u8>,
    sink: &mut Sink<W>,
) -> Result<(), RunFault<M::Refusal>>
    ensures ok { OnOk result (Finishes M.rules front.now
        (stage machine.old out.old.items (W.contents (sink_writer sink.old)))
        machine.new (W.contents (sink_writer sink.new))) }
    ensures err { IfErr result (StopsAtEnd M.rules front.now
        (stage machine.old out.old.items (W.contents (sink_writer sink.old)))
        (W.contents (sink_writer sink.new))) }
    ensures told { (sink_failures sink.new ≡ sink_failures sink.old)
        ⊎ IsErrOf result RunFault.WriteFault }
    ensures write_fault { IsErrOf result RunFault.WriteFault →
        HasRisen (sink_failures sink.old) (sink_failures sink.new) }
    ensures read_fault { IsErrOf result RunFault.ReadFault → ⊥ }
{
    answer_last(machine, alloc, front, out)?;
    machine.end(alloc, out)?;
    if drain(out, sink).is_err() {
        return Err(RunFault::WriteFault);
    }
    Ok(())
}

/// Answers each line that the reader gives, and writes the answers in order.
///
/// Reads at most 4,096 bytes in a turn. A machine sees at most one byte past `limit` of a line.
/// Does not flush the writer, and does not call it if there is nothing to write. Fails with
/// `ReadFault` if the reader fails or after `turns` turns; on any error the machine may have
/// advanced by some lines.
pub fn run_lines<R: Read, W: Write, M: LineMachine>(
    machine: &mut M,
    alloc: Global,
    turns: u64,
    limit: usize,
    source: &mut Source<R>,
    sink: &mut Sink<W>,
) -> Result<(), RunFault<M::Refusal>>
    requires { limit < 2 ^ 63 }

    // All is read and answered, or a prefix of the answers is written.
    ensures ok { OnOk result (AnswersAll M.rules limit
        (R.remaining (source_reader source.old))
        (R.remaining (source_reader source.new)) machine.old machine.new
        (W.contents (sink_writer sink.old)) (W.contents (sink_writer sink.new))) }
    ensures err { IfErr result (StopsEarly M.rules limit
        (R.remaining (source_reader source.old))
        (R.remaining (source_reader source.new)) machine.old
        (W.contents (sink_writer sink.old)) (W.contents (sink_writer sink.new))) }

    // The reader or the writer failed in this call, or the turns are used up.
    ensures read_fault { IsErrOf result RunFault.ReadFault →
        HasRisen (source_failures source.old) (source_failures source.new)
        ⊎ HasRisenBy (source_reads source.old) (source_reads source.new) turns }
    ensures write_fault { IsErrOf result RunFault.WriteFault →
        HasRisen (sink_failures sink.old) (sink_failures sink.new) }

    // A turn is at most one read, and a failure ends the run and is its error.
    ensures turns { source_reads source.new ≤ source_reads source.old + turns }
    ensures told_read { (source_failures source.new ≡ source_failures source.old)
        ⊎ IsErrOf result RunFault.ReadFault }
    ensures told_write { (sink_failures sink.new ≡ sink_failures sink.old)
        ⊎ IsErrOf result RunFault.WriteFault }
{
    let mut front = Vec::new(alloc);
    let mut out = Vec::new(alloc);
    let mut buffer = [0u8; PIECE];
    for _ in 0..turns {
        let count = match source.read(&mut buffer) {
            Ok(count) => count,
            Err(_) => return Err(RunFault::ReadFault),
        };
        if count == 0 {
            return finish(machine, alloc, front.as_slice(), &mut out, sink);
        }
        answer_piece(
            machine,
            alloc,
            limit,
            &mut front,
            &buffer[..count],
            &mut out,
            sink,
        )?;
        if drain(&mut out, sink).is_err() {
            return Err(RunFault::WriteFault);
        }
    }
    Err(RunFault::ReadFault)
}
