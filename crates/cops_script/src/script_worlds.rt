//! The world after a script, over any reader.
ghost use Rattle.std.specs.Prelude.{◌≡◌, ◌⊎◌, IfErr, IfOk, IfSome, IsErrOf, OnOk};
ghost use Rattle.std.specs.Io.KnownBytes.{IsAtEnd};
ghost use Rattle.cops_types.specs.Counts.{HasRisen, HasRisenBy};
ghost use Rattle.cops_types.specs.Head.{BadAt, head_of};
ghost use Rattle.cops_script.specs.LineRuns.{IfRunRefused};
ghost use Rattle.cops_types.specs.Lines.{lines_of};
ghost use Rattle.cops_types.specs.Source.{source_failures, source_reader, source_reads};
ghost use Rattle.cops_script.specs.ScriptWorlds.{IsLeftBy, IsLeftByRead, IsRunning};
ghost use Rattle.cops_script.specs.declared.scripts.Script.TheVariants.{Running};

use crate::head_machine::{ScriptMachine, new_script};
use crate::script_runs::LONGEST_LINE;
use crate::scripts::{BadConfig, Script};
use crate::silent_machine::SilentLines;
use crate::{RunFault, Tenancy, run_lines};
use cops_types::{Sink, Source};
use std::alloc::Global;
use std::io::Read;

/// Returns the world of a script that is past its head.
fn world_in<W: Drop>(script: Script<W>) -> W
    requires { IsRunning script }
    ensures { script ≡ Running result }
{
    match script {
        Script::Running(world) => world,
        Script::Head(_) => unreachable!(),
    }
}

/// Returns the world after a script, in at most this many turns.
pub fn script_world_in<W: Tenancy + Drop, R: Read>(
    alloc: Global,
    turns: u64,
    source: &mut Source<R>,
) -> Result<W, RunFault<BadConfig>>
    // All is read, and the world is the one after the script.
    ensures end { OnOk result (IsAtEnd (R.remaining (source_reader source.new))) }
    ensures ok { IfOk result (λ world. IfSome (R.remaining (source_reader source.old))
        (λ bytes. IsLeftBy W.setup W.StandsFor bytes world)) }
    ensures read { IfOk result (IsLeftByRead W.setup W.StandsFor
        (R.remaining (source_reader source.old)) (R.remaining (source_reader source.new))) }

    // A bad head is refused.
    ensures bad_head { IfErr result (λ fault. IfRunRefused fault (λ bad.
        IfSome (R.remaining (source_reader source.old))
        (λ bytes. head_of (lines_of bytes) ≡ BadAt bad.line))) }

    // The reader failed in this call, or the turns are used up. Nothing is written.
    ensures read_fault { IsErrOf result RunFault.ReadFault →
        HasRisen (source_failures source.old) (source_failures source.new)
        ⊎ HasRisenBy (source_reads source.old) (source_reads source.new) turns }
    ensures write_fault { IsErrOf result RunFault.WriteFault → ⊥ }
{
    let mut silent: ScriptMachine<SilentLines, W> = new_script(SilentLines);
    let mut sink = Sink::new(Vec::new(alloc));
    match run_lines(&mut silent, alloc, turns, LONGEST_LINE, source, &mut sink) {
        Ok(()) => Ok(world_in(silent.script)),
        Err(fault) => Err(fault),
    }
}
