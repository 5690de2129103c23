//! Answers one tenant's lines of a script, in a world of its own.
ghost use Rattle.std.specs.Prelude.{◌≡◌, ◌⊎◌, IfErr, IfSome, IsErrOf, OnErr, OnOk};
ghost use Rattle.std.specs.Io.KnownBytes.{IsAtEnd, Keeps};
ghost use Rattle.cops_types.specs.Counts.{HasRisen, HasRisenBy};
ghost use Rattle.cops_types.specs.Sink.{sink_failures, sink_writer};
ghost use Rattle.cops_types.specs.Source.{source_failures, source_reader, source_reads};
ghost use Rattle.cops_script.specs.LineRuns.{IfRunRefused};
ghost use Rattle.cops_script.specs.SoloRuns.{IsRefusedFor, WritesSolo, WritesSoloFront};

use crate::World;
use cops_script::{RunFault, SoloRefusal, solo_script_in};
use cops_types::{Sink, Source};
use std::alloc::Global;
use std::io::{Read, Write};

/// Answers the lines of a script that tenants of one name say, each tenant in a cluster of its own: reads
/// all of it, and writes one line for each line that such a tenant says while it is open.
///
/// Tenants come and go by the host's lines, for which nothing is written.
///
/// Reads and writes as `run_script` does.
pub fn solo_script<R: Read, O: Write>(
    alloc: Global,
    source: &mut Source<R>,
    sink: &mut Sink<O>,
    tenant: &[u8],
) -> Result<(), RunFault<SoloRefusal>>
    // All is read, and each line of these tenants is answered; or a prefix of the replies is written.
    ensures end { OnOk result (IsAtEnd (R.remaining (source_reader source.new))) }
    ensures ok { OnOk result (IfSome (R.remaining (source_reader source.old)) (λ bytes.
        WritesSolo tenant.now bytes (O.contents (sink_writer sink.old))
        (O.contents (sink_writer sink.new)))) }
    ensures err { OnErr result (IfSome (R.remaining (source_reader source.old)) (λ bytes.
        WritesSoloFront tenant.now bytes (O.contents (sink_writer sink.old))
        (O.contents (sink_writer sink.new)))) }

    // A bad head is refused, and a name that no open tenant ever had; nothing is written then.
    ensures refused { IfErr result (λ fault. IfRunRefused fault (λ refusal.
        IfSome (R.remaining (source_reader source.old))
        (λ bytes. IsRefusedFor tenant.now bytes refusal))) }
    ensures unwritten { IfErr result (λ fault. IfRunRefused fault (λ refusal.
        Keeps (O.contents (sink_writer sink.old)) (O.contents (sink_writer sink.new)))) }

    // The reader or the writer failed in this call, or the bound on turns was met.
    ensures read_fault { IsErrOf result RunFault.ReadFault →
        HasRisen (source_failures source.old) (source_failures source.new)
        ⊎ HasRisenBy (source_reads source.old) (source_reads source.new) 4294967296 }
    ensures write_fault { IsErrOf result RunFault.WriteFault →
        HasRisen (sink_failures sink.old) (sink_failures sink.new) }
{
    solo_script_in::<World, R, O>(alloc, source, sink, tenant)
}
