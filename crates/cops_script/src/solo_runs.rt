//! A script whose answers are written for one tenant, over any reader and any writer.
ghost use Rattle.std.specs.Prelude.{◌≡◌, ◌⊎◌, IfErr, IfSome, IsErrOf, OnErr, OnOk};
ghost use Rattle.std.specs.Io.KnownBytes.{IsAtEnd, Keeps};
ghost use Rattle.cops_types.specs.Counts.{HasRisen, HasRisenBy};
ghost use Rattle.cops_script.specs.LineRuns.{IfRunRefused};
ghost use Rattle.cops_types.specs.Sink.{sink_failures, sink_writer};
ghost use Rattle.cops_types.specs.Source.{source_failures, source_reader, source_reads};
ghost use Rattle.cops_script.specs.SoloRuns.{IsRefusedFor, WritesSolo, WritesSoloFront};

use crate::head_machine::{ScriptMachine, new_script};
use crate::script_runs::{LONGEST_LINE, TURNS};
use crate::solo_machine::{LinesOf, SoloRefusal};
use crate::solo_scripts::SoloRun;
use crate::{RunFault, Tenancy, run_lines};
use cops_types::{Bytes, Sink, Source};
use std::alloc::Global;
use std::io::{Read, Write};

/// Answers the lines of one name's tenants of a script, each tenant in a new world of its own.
pub fn solo_script_in<W: Tenancy + Drop, R: Read, O: Write>(
    alloc: Global,
    source: &mut Source<R>,
    sink: &mut Sink<O>,
    tenant: &[u8],
) -> Result<(), RunFault<SoloRefusal>>
    // All is read, and each line of these tenants is answered, or a prefix of the answers is
    // written.
    ensures end { OnOk result (IsAtEnd (R.remaining (source_reader source.new))) }
    ensures ok { OnOk result (IfSome (R.remaining (source_reader source.old)) (λ bytes.
        WritesSolo tenant.now bytes (O.contents (sink_writer sink.old))
        (O.contents (sink_writer sink.new)))) }
    ensures err { OnErr result (IfSome (R.remaining (source_reader source.old)) (λ bytes.
        WritesSoloFront tenant.now bytes (O.contents (sink_writer sink.old))
        (O.contents (sink_writer sink.new)))) }

    // A bad head is refused, and so is a name of which no tenant was ever open; nothing is written
    // then.
    ensures refused { IfErr result (λ fault. IfRunRefused fault (λ refusal.
        IfSome (R.remaining (source_reader source.old))
        (λ bytes. IsRefusedFor tenant.now bytes refusal))) }
    ensures unwritten { IfErr result (λ fault. IfRunRefused fault (λ refusal.
        Keeps (O.contents (sink_writer sink.old)) (O.contents (sink_writer sink.new)))) }

    // The reader or the writer failed in this call, or the turns are used up.
    ensures read_fault { IsErrOf result RunFault.ReadFault →
        HasRisen (source_failures source.old) (source_failures source.new)
        ⊎ HasRisenBy (source_reads source.old) (source_reads source.new) 4294967296 }
    ensures write_fault { IsErrOf result RunFault.WriteFault →
        HasRisen (sink_failures sink.old) (sink_failures sink.new) }
{
    let name = Bytes::new(alloc, tenant)?;
    let mut solo: ScriptMachine<LinesOf, SoloRun<W>> = new_script(LinesOf { name });
    run_lines(&mut solo, alloc, TURNS, LONGEST_LINE, source, sink)
}
