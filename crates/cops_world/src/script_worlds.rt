//! Builds the world that a script leaves, over any reader.
ghost use Rattle.std.specs.Prelude.{◌≡◌, ◌⊎◌, IfErr, IfOk, IfSome, IsErrOf, OnOk};
ghost use Rattle.std.specs.Io.KnownBytes.{IsAtEnd};
ghost use Rattle.cops_types.specs.Counts.{HasRisen, HasRisenBy};
ghost use Rattle.cops_types.specs.Head.{BadAt, head_of};
ghost use Rattle.cops_types.specs.Lines.{lines_of};
ghost use Rattle.cops_types.specs.Source.{source_failures, source_reader, source_reads};
ghost use Rattle.cops_script.specs.LineRuns.{IfRunRefused};
ghost use Rattle.cops_script.specs.ScriptWorlds.{IsLeftBy, IsLeftByRead};
ghost use Rattle.cops_world.specs.Worlds.{HasOpenCluster, open_setup};

use crate::World;
use cops_script::{BadConfig, RunFault, TURNS, script_world_in};
use cops_types::Source;
use std::alloc::Global;
use std::io::Read;

/// Reads a script's head, does what each line after it says, and returns the world. Fails at the first
/// line whose reply would be that memory ran out.
///
/// Reads as `run_script` does, and writes nothing.
pub fn script_world<R: Read>(
    alloc: Global,
    source: &mut Source<R>,
) -> Result<World, RunFault<BadConfig>>
    // All is read, and the world is what it leaves.
    ensures end { OnOk result (IsAtEnd (R.remaining (source_reader source.new))) }
    ensures ok { IfOk result (λ world. IfSome (R.remaining (source_reader source.old))
        (λ bytes. IsLeftBy open_setup HasOpenCluster bytes world)) }
    ensures read { IfOk result (IsLeftByRead open_setup HasOpenCluster
        (R.remaining (source_reader source.old)) (R.remaining (source_reader source.new))) }

    // A bad head is refused.
    ensures bad_head { IfErr result (λ fault. IfRunRefused fault (λ bad.
        IfSome (R.remaining (source_reader source.old))
        (λ bytes. head_of (lines_of bytes) ≡ BadAt bad.line))) }

    // The reader failed in this call, or the bound on turns was met. Nothing is written.
    ensures read_fault { IsErrOf result RunFault.ReadFault →
        HasRisen (source_failures source.old) (source_failures source.new)
        ⊎ HasRisenBy (source_reads source.old) (source_reads source.new) 4294967296 }
    ensures write_fault { IsErrOf result RunFault.WriteFault → ⊥ }
{
    script_world_in::<World, R>(alloc, TURNS, source)
}
