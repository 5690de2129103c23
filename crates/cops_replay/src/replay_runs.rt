//! The replay of one tenant's records of an audit: its body behind the head, and its run over any reader and any writer.
ghost use Rattle.std.specs.Prelude.{◌≡◌, [], ◌∷◌, ◌++◌, decimal, IfErr, IfOk, IsTrue, OnOk, ◌⊎◌, ℕ, List, IfSome, IsErrOf, OnErr};
ghost use Rattle.std.specs.Str.{bytes_eq};
ghost use Rattle.std.specs.Io.KnownBytes.{Appends, IsAtEnd, Keeps};
ghost use Rattle.cops_types.specs.HeadLines.{are_sizes};
ghost use Rattle.cops_types.specs.Words.{first_word, newline};
ghost use Rattle.cops_types.specs.Counts.{HasRisen, HasRisenBy};
ghost use Rattle.cops_types.specs.Sink.{sink_failures, sink_writer};
ghost use Rattle.cops_types.specs.Source.{source_failures, source_reader, source_reads};
ghost use Rattle.cops_script.specs.LineAnswers.{IfRefused};
ghost use Rattle.cops_script.specs.LineRuns.{IfRunRefused};
ghost use Rattle.cops_replay.specs.FileHeads.{HaveClocks};
ghost use Rattle.cops_replay.specs.ReplayRules.{IsNotBegun, RefusesOwn, ReplaysOwn, StartsFor};
ghost use Rattle.cops_replay.specs.ReplayText.{replayed_text, starts_great_in, IsReplayOf, RefusesReplayOf, ReplaysFront};

use crate::Replayed;
use crate::audit_machine::{AuditBody, AuditMachine, new_audit};
use crate::layouts::{LAST_EARLY_CLOCK, Layout};
use crate::refusals::ReplayRefusal;
use crate::replayings::{LONGEST_RECORD, Replay};
use cops_script::{BadConfig, RunFault, Stop, run_lines};
use cops_types::texts::push_number;
use cops_types::words::split_word;
use cops_types::{Bytes, Config, RequestError, Sink, Source, Tenant};
use std::alloc::{AllocError, Global};
use std::io::{Read, Write};

/// The body that replays the records of the tenant with this name.
#[derive(Drop)]
pub struct ReplaysOf {
    pub name: Bytes,
}

/// Returns `true` if a tenant's first clock in a file of this layout is too great for today's.
fn starts_great(layout: Layout, tenant: &Tenant) -> bool
    ensures { result ≡ starts_great_in layout tenant.now }
{
    match layout {
        Layout::Early => tenant.first_clock > LAST_EARLY_CLOCK,
        Layout::Today => false,
    }
}

/// Returns a replay for the tenant of this name.
fn begin_replay(
    alloc: Global,
    layout: Layout,
    config: &Config,
    name: &[u8],
) -> Result<Replay, Stop<ReplayRefusal>>
    requires sizes { IsTrue (are_sizes config.now) }
    requires clocks { HaveClocks layout config.now }
    ensures ok { IfOk result (StartsFor layout name.now config.now) }
    ensures err { IfErr result (λ stop. IfRefused stop (IsNotBegun layout name.now config.now)) }
{
    let Some(slot) = config.tenants.slot_of_name(name) else {
        return Err(Stop::Refused(ReplayRefusal::UnknownTenant));
    };
    if starts_great(layout, config.tenants.tenant(slot)) {
        return Err(Stop::Refused(ReplayRefusal::ClockTooGreat));
    }
    match Replay::begin(alloc, layout, config, slot) {
        Ok(replay) => Ok(replay),
        Err(error) => Err(Stop::from(error)),
    }
}

/// Replays a line after the head, if it is the tenant's.
fn replay_own(
    alloc: Global,
    name: &[u8],
    replay: &mut Replay,
    line: &[u8],
) -> Result<(), Stop<ReplayRefusal>>
    ensures ok { OnOk result
        (ReplaysOwn (bytes_eq (first_word line.now) name.now) replay.old line.now replay.new) }
    ensures err { IfErr result (λ stop. IfRefused stop (RefusesOwn name.now replay.old line.now)) }
{
    let (word, _rest) = split_word(line);
    if word != name {
        return Ok(());
    }
    match replay.line(alloc, line) {
        Ok(()) => Ok(()),
        Err(RequestError::Refused(_)) => Err(Stop::Refused(ReplayRefusal::ClockTooGreat)),
        Err(RequestError::OutOfMemory) => Err(Stop::OutOfMemory),
    }
}

/// Appends a word, a number and a newline.
fn push_found(out: &mut Vec<u8>, word: &[u8], number: u64) -> Result<(), AllocError>
    ensures { OnOk result
        (out.new.items ≡ out.old.items ++ (word.now ++ decimal number ++ newline ∷ [])) }
{
    out.extend_from_slice(word)?;
    push_number(out, number)?;
    out.push(b'\n')?;
    Ok(())
}

/// Appends the result of a replay.
fn push_replayed(out: &mut Vec<u8>, found: Replayed) -> Result<(), AllocError>
    ensures { OnOk result (out.new.items ≡ out.old.items ++ replayed_text found) }
{
    match found {
        Replayed::Same(count) => push_found(out, b"same ", count),
        Replayed::FirstDifference(place) => push_found(out, b"differs ", place),
    }
}

impl AuditBody<Replay> for ReplaysOf {
    ghost use Rattle.cops_replay.specs.ReplayRules.{replay_rules};

    type Refusal = ReplayRefusal;

    ghost rules = { replay_rules };

    fn bad_head(bad: BadConfig) -> ReplayRefusal {
        ReplayRefusal::BadConfig(bad)
    }

    fn begin(
        &self,
        alloc: Global,
        layout: Layout,
        config: &Config,
        _out: &mut Vec<u8>,
    ) -> Result<Replay, Stop<ReplayRefusal>> {
        begin_replay(alloc, layout, config, self.name.as_slice())
    }

    fn line(
        &self,
        alloc: Global,
        replay: &mut Replay,
        line: &[u8],
        _out: &mut Vec<u8>,
    ) -> Result<(), Stop<ReplayRefusal>> {
        replay_own(alloc, self.name.as_slice(), replay, line)
    }

    fn end(&self, replay: &Replay, out: &mut Vec<u8>) -> Result<(), Stop<ReplayRefusal>> {
        push_replayed(out, replay.found())?;
        Ok(())
    }
}

/// The most turns of a reader.
pub(crate) const TURNS: u64 = 4_294_967_296;

/// Replays the records of one tenant of an audit, on new nodes that the tenant has to itself. Reads
/// the whole audit. Writes `same N` if each of the tenant's N lines is a record whose reply is
/// computed again; otherwise `differs PLACE`, the place among the tenant's lines, from 1, of the
/// first that is not. A file whose first line is not `layout 2` is read in layout 1.
///
/// Skips lines of other tenants, and lines after a difference. Reads as `run_script` does, and
/// holds the nodes and one line of at most 200,001 bytes. The nodes count their calls in place of
/// an audit, so beyond what they store memory does not grow with the records.
pub fn replay_text<R: Read, O: Write>(
    alloc: Global,
    source: &mut Source<R>,
    sink: &mut Sink<O>,
    tenant: &[u8],
) -> Result<(), RunFault<ReplayRefusal>>
    // All is read, and the result is written, or a prefix of it.
    ensures end { OnOk result (IsAtEnd (R.remaining (source_reader source.new))) }
    ensures ok { OnOk result (IfSome (R.remaining (source_reader source.old)) (λ bytes.
        (text : List ℕ) × IsReplayOf tenant.now bytes text
        × Appends (O.contents (sink_writer sink.old)) (O.contents (sink_writer sink.new)) text)) }
    ensures err { OnErr result (IfSome (R.remaining (source_reader source.old)) (λ bytes.
        ReplaysFront tenant.now bytes (O.contents (sink_writer sink.old))
        (O.contents (sink_writer sink.new)))) }

    // A bad head is refused; so is a tenant that the head lacks, and a file of layout 1 in which a
    // clock of the tenant is too great. Nothing is written then.
    ensures refused { IfErr result (λ fault. IfRunRefused fault (λ refusal.
        IfSome (R.remaining (source_reader source.old))
        (λ bytes. RefusesReplayOf tenant.now bytes refusal))) }
    ensures unwritten { IfErr result (λ fault. IfRunRefused fault (λ refusal.
        Keeps (O.contents (sink_writer sink.old)) (O.contents (sink_writer sink.new)))) }

    // The reader or the writer failed in this call, or the turns are used up.
    ensures read_fault { IsErrOf result RunFault.ReadFault →
        HasRisen (source_failures source.old) (source_failures source.new)
        ⊎ HasRisenBy (source_reads source.old) (source_reads source.new) 4294967296 }
    ensures write_fault { IsErrOf result RunFault.WriteFault →
        HasRisen (sink_failures sink.old) (sink_failures sink.new) }
{
    let name = Bytes::new(alloc, tenant)?;
    let mut replay: AuditMachine<ReplaysOf, Replay> = new_audit(ReplaysOf { name });
    run_lines(&mut replay, alloc, TURNS, LONGEST_RECORD, source, sink)
}
