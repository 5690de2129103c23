//! The head of a script alone.
ghost use Rattle.std.specs.Prelude.{◌≡◌, ◌⊎◌, ◌^◌, ℕ, IfErr, IfOk, IfSome, IsErrOf, IsTrue, List};
ghost use Rattle.cops_types.specs.Counts.{HasRisen, HasRisenBy};
ghost use Rattle.cops_types.specs.Head.{BadAt, Whole, head_of};
ghost use Rattle.cops_script.specs.LineRuns.{IfRunRefused};
ghost use Rattle.cops_types.specs.Lines.{lines_of};
ghost use Rattle.cops_types.specs.Source.{source_failures, source_reader, source_reads};
ghost use Rattle.cops_script.specs.GoodHeads.{is_good};

use crate::bodies::Body;
use crate::head_machine::{ScriptMachine, new_script};
use crate::script_runs::{LONGEST_LINE, TURNS};
use crate::scripts::BadConfig;
use crate::{RunFault, Stop, run_lines};
use cops_types::{Config, Sink, Source};
use std::alloc::Global;
use std::io::Read;

/// Why the reading of a head ends.
#[derive(Drop)]
pub enum HeadEnd {
    /// The head is complete.
    Whole(Config),
    Bad(BadConfig),
}

/// The body that ends with the head.
#[derive(Clone, Copy)]
pub struct HeadAlone;

impl Body<()> for HeadAlone {
    ghost use Rattle.cops_script.specs.LoneHead.{lone_rules};

    type Refusal = HeadEnd;

    ghost rules = { lone_rules };

    fn bad_head(bad: BadConfig) -> HeadEnd {
        HeadEnd::Bad(bad)
    }

    fn begin(&self, _alloc: Global, config: Config) -> Result<(), Stop<HeadEnd>> {
        Err(Stop::Refused(HeadEnd::Whole(config)))
    }

    fn line(
        &self,
        _alloc: Global,
        _state: &mut (),
        _line: &[u8],
        _out: &mut Vec<u8>,
    ) -> Result<(), Stop<HeadEnd>> {
        Ok(())
    }

    fn end(&self, _state: &()) -> Result<(), Stop<HeadEnd>> {
        Ok(())
    }
}

/// Reads the head of a script, up to the line that ends it.
///
/// Reads at most 4,096 bytes a turn, for at most 4,294,967,296 turns, and nothing once the head is
/// complete. Bytes read beyond the head are dropped.
pub fn read_config<R: Read>(
    alloc: Global,
    source: &mut Source<R>,
) -> Result<Config, RunFault<BadConfig>>
    ensures config { IfOk result
        (λ config. IfSome (R.remaining (source_reader source.old)) (λ bytes.
        (lines : List (List ℕ)) × (head_of (lines_of bytes) ≡ Whole config lines))) }
    ensures good { IfOk result (λ config. IsTrue (is_good config)) }
    ensures bad_head { IfErr result (λ fault. IfRunRefused fault (λ bad.
        IfSome (R.remaining (source_reader source.old))
        (λ bytes. head_of (lines_of bytes) ≡ BadAt bad.line))) }

    // The reader failed in this call, or the turns are used up. Nothing is written.
    ensures read_fault { IsErrOf result RunFault.ReadFault →
        HasRisen (source_failures source.old) (source_failures source.new)
        ⊎ HasRisenBy (source_reads source.old) (source_reads source.new) (2 ^ 32) }
    ensures write_fault { IsErrOf result RunFault.WriteFault → ⊥ }
{
    let mut head: ScriptMachine<HeadAlone, ()> = new_script(HeadAlone);
    let mut nothing = Sink::new(Vec::new(alloc));
    let ended = run_lines(&mut head, alloc, TURNS, LONGEST_LINE, source, &mut nothing);
    drop(head);
    drop(nothing);
    match ended {
        Err(RunFault::Refused(HeadEnd::Whole(config))) => Ok(config),
        Err(RunFault::Refused(HeadEnd::Bad(bad))) => Err(RunFault::Refused(bad)),
        Err(RunFault::OutOfMemory) => Err(RunFault::OutOfMemory),
        Err(RunFault::ReadFault) => Err(RunFault::ReadFault),
        Err(RunFault::WriteFault) => unreachable!(),
        Ok(()) => unreachable!(),
    }
}
