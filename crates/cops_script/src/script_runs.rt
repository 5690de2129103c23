//! A script as a whole, over any reader and any writer.
ghost use Rattle.std.specs.Prelude.{◌≡◌, ◌⊎◌, IfErr, IfNone, IfSome, IsErrOf, OnErr, OnOk};
ghost use Rattle.std.specs.Io.KnownBytes.{IsAtEnd, Keeps};
ghost use Rattle.cops_types.specs.Counts.{HasRisen, HasRisenBy};
ghost use Rattle.cops_types.specs.Head.{BadAt, head_of};
ghost use Rattle.cops_script.specs.LineRuns.{IfRunRefused};
ghost use Rattle.cops_types.specs.Lines.{lines_of};
ghost use Rattle.cops_types.specs.Sink.{sink_failures, sink_writer};
ghost use Rattle.cops_types.specs.Source.{source_failures, source_reader, source_reads};
ghost use Rattle.cops_script.specs.ScriptRuns.{WritesFront, WritesScript};
ghost use Rattle.cops_script.specs.declared.scripts.Script.TheVariants.{Head, Running};

use crate::head_machine::{ScriptMachine, new_script};
use crate::script_machine::AllLines;
use crate::scripts::{BadConfig, HeadSoFar, Script};
use crate::{RunFault, Tenancy, run_lines};
use cops_types::{Sink, Source};
use std::alloc::Global;
use std::io::{Read, Write};

/// The most turns of a reader.
pub const TURNS: u64 = 4_294_967_296;

/// The most bytes of a line that may have a form. Reads at most one byte past it.
pub const LONGEST_LINE: usize = 8192;

/// Returns the world of a script, if it is past its head.
fn world_of<W: Drop>(script: Script<W>) -> Option<W>
    ensures running { IfSome result (λ world. script ≡ Running world) }
    ensures head { IfNone result ((head : HeadSoFar) × (script ≡ Head head)) }
{
    match script {
        Script::Head(_) => None,
        Script::Running(world) => Some(world),
    }
}

/// Answers a script in a new world, in at most this many turns.
///
/// The world is left in `world`, so the caller decides when its memory is freed. A script without a
/// whole head leaves none.
pub fn run_script_in<W: Tenancy + Drop, R: Read, O: Write>(
    alloc: Global,
    turns: u64,
    source: &mut Source<R>,
    sink: &mut Sink<O>,
    world: &mut Option<W>,
) -> Result<(), RunFault<BadConfig>>
    // All is read, and each line after the head is answered, or a prefix of the answers is written.
    ensures end { OnOk result (IsAtEnd (R.remaining (source_reader source.new))) }
    ensures ok { OnOk result (IfSome (R.remaining (source_reader source.old)) (λ bytes.
        WritesScript bytes (O.contents (sink_writer sink.old))
        (O.contents (sink_writer sink.new)))) }
    ensures err { OnErr result (IfSome (R.remaining (source_reader source.old)) (λ bytes.
        WritesFront bytes (O.contents (sink_writer sink.old))
        (O.contents (sink_writer sink.new)))) }

    // A bad head is refused, and nothing is written then.
    ensures bad_head { IfErr result (λ fault. IfRunRefused fault (λ bad.
        IfSome (R.remaining (source_reader source.old))
        (λ bytes. head_of (lines_of bytes) ≡ BadAt bad.line))) }
    ensures unwritten { IfErr result (λ fault. IfRunRefused fault (λ bad.
        Keeps (O.contents (sink_writer sink.old)) (O.contents (sink_writer sink.new)))) }

    // The reader or the writer failed in this call, or the turns are used up.
    ensures read_fault { IsErrOf result RunFault.ReadFault →
        HasRisen (source_failures source.old) (source_failures source.new)
        ⊎ HasRisenBy (source_reads source.old) (source_reads source.new) turns }
    ensures write_fault { IsErrOf result RunFault.WriteFault →
        HasRisen (sink_failures sink.old) (sink_failures sink.new) }
{
    let mut machine: ScriptMachine<AllLines, W> = new_script(AllLines);
    let result = run_lines(&mut machine, alloc, turns, LONGEST_LINE, source, sink);
    *world = world_of(machine.script);
    result
}
