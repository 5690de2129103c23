//! The migration of an audit of layout 1 to layout 2: its machine, line by line, and its run over any reader and any writer.
ghost use Rattle.std.specs.Prelude.{◌≡◌, ◌++◌, IfErr, IfNone, IfOk, IfSome, None, OnOk, Some, ◌⊎◌, Err, IsErrOf, Ok, OnErr};
ghost use Rattle.std.specs.Io.KnownBytes.{Appends, IsAtEnd};
ghost use Rattle.cops_types.specs.Head.{AtStart};
ghost use Rattle.cops_types.specs.Counts.{HasRisen, HasRisenBy};
ghost use Rattle.cops_types.specs.Sink.{AppendsFront, sink_failures, sink_writer};
ghost use Rattle.cops_types.specs.Source.{source_failures, source_reader, source_reads};
ghost use Rattle.cops_script.specs.LineAnswers.{Answers, IfRefused};
ghost use Rattle.cops_script.specs.LineRuns.{IfRunRefused};
ghost use Rattle.cops_replay.specs.AuditText.{ended};
ghost use Rattle.cops_replay.specs.declared.migrations.OldPart.TheVariants.{Head};
ghost use Rattle.cops_replay.specs.MigratedText.{record_fault, migration_of, OldHeadEnds, OldHeadGoesOn, OldHeadIsRefused, RecordRefuses, part_answers, part_refuses, records_in};

use crate::heads::push_head;
use crate::layouts::{LAST_EARLY_CLOCK, VersionSet};
use crate::reading::{is_record, old_fault};
use crate::replay_runs::TURNS;
use crate::replayings::LONGEST_RECORD;
use cops_script::{BadConfig, LineMachine, RunFault, Stop, run_lines};
use cops_types::{Config, ConfigReader, Fault, HeadLine, OldConfigReader, Sink, Source};
use std::alloc::{AllocError, Global};
use std::io::{Read, Write};

/// The progress of an audit of layout 1: in its head, or after this many records.
#[derive(Drop)]
pub enum OldPart {
    Head(OldConfigReader),
    Records(u64),
}

/// The state of a migration of an audit of layout 1.
#[derive(Drop)]
pub struct OldAudit {
    pub part: OldPart,
    pub lines: u64,
}

/// Returns an audit before its first line.
pub(crate) fn new_old_audit() -> OldAudit
    ensures part { result.part ≡ Head (Some AtStart) }
    ensures lines { result.lines ≡ 0 }
{
    OldAudit {
        part: OldPart::Head(ConfigReader::layout_1()),
        lines: 0,
    }
}

/// Reads the line of this number in a head of layout 1. Returns the configuration if the line ends
/// it.
///
/// It is not inlined, so that the lines of records need no room for a configuration's reader.
#[inline(never)]
fn read_old_head(
    alloc: Global,
    reader: &mut OldConfigReader,
    line: &[u8],
    number: u64,
) -> Result<Option<Config>, Stop<MigrationRefusal>>
    ensures more { IfOk result
        (λ begun. IfNone begun (OldHeadGoesOn reader.old line.now reader.new)) }
    ensures begun { IfOk result (λ begun. IfSome begun (OldHeadEnds reader.old line.now)) }
    ensures err { IfErr result
        (λ stop. IfRefused stop (OldHeadIsRefused reader.old line.now number)) }
{
    match reader.line(alloc, line) {
        Ok(HeadLine::More) => {
            if reader.has_clocks_to(LAST_EARLY_CLOCK) {
                return Ok(None);
            }
            Err(Stop::Refused(MigrationRefusal::BadLine(BadLine {
                line: number,
                fault: Fault::ClockTooGreat,
            })))
        }
        Ok(HeadLine::Begin(config)) => Ok(Some(config)),
        Ok(HeadLine::BadLine) => Err(Stop::Refused(MigrationRefusal::BadConfig(BadConfig {
            line: number,
        }))),
        Err(error) => Err(Stop::from(error)),
    }
}

/// Returns why a line cannot be migrated as a record, if it cannot.
fn record_fault(alloc: Global, line: &[u8]) -> Result<Option<Fault>, AllocError>
    ensures { IfOk result (λ fault. fault ≡ record_fault line.now) }
{
    if line.len() > LONGEST_RECORD {
        return Ok(Some(Fault::Syntax));
    }
    let early = is_record(alloc, VersionSet::Both, line)?;
    if early {
        return Ok(None);
    }
    Ok(Some(old_fault(alloc, line)?))
}

/// Appends a line, with its newline.
pub(crate) fn push_line(out: &mut Vec<u8>, line: &[u8]) -> Result<(), AllocError>
    ensures { OnOk result (out.new.items ≡ out.old.items ++ ended line.now) }
{
    out.extend_from_slice(line)?;
    out.push(b'\n')?;
    Ok(())
}

/// Appends the line of this number, with its newline, if it is a record.
fn move_record(
    alloc: Global,
    line: &[u8],
    number: u64,
    out: &mut Vec<u8>,
) -> Result<(), Stop<MigrationRefusal>>
    ensures moved { OnOk result (record_fault line.now ≡ None) }
    ensures text { OnOk result (out.new.items ≡ out.old.items ++ ended line.now) }
    ensures err { IfErr result (λ stop. IfRefused stop (RecordRefuses line.now number)) }
{
    match record_fault(alloc, line)? {
        None => {
            push_line(out, line)?;
            Ok(())
        }
        Some(fault) => Err(Stop::Refused(MigrationRefusal::BadLine(BadLine {
            line: number,
            fault,
        }))),
    }
}

/// Appends the answer to the line of this number.
fn answer_line(
    part: &mut OldPart,
    alloc: Global,
    line: &[u8],
    number: u64,
    out: &mut Vec<u8>,
) -> Result<(), Stop<MigrationRefusal>>
    ensures ok { OnOk result
        (Answers (part_answers part.old line.now) part.new out.old.items out.new.items) }
    ensures err { IfErr result (λ stop. IfRefused stop (part_refuses part.old line.now number)) }
{
    match part {
        OldPart::Head(reader) => {
            let Some(config) = read_old_head(alloc, reader, line, number)? else {
                return Ok(());
            };
            push_head(out, &config, config.tenants.as_slice())?;
            *part = OldPart::Records(0);
            Ok(())
        }
        OldPart::Records(count) => {
            move_record(alloc, line, number, out)?;
            *count = count.saturating_add(1);
            Ok(())
        }
    }
}

impl LineMachine for OldAudit {
    ghost use Rattle.cops_replay.specs.MigratedText.{migration_rules};

    type Refusal = MigrationRefusal;

    ghost rules = { migration_rules };

    fn line(
        &mut self,
        alloc: Global,
        line: &[u8],
        out: &mut Vec<u8>,
    ) -> Result<(), Stop<MigrationRefusal>> {
        let number = self.lines.saturating_add(1);
        answer_line(&mut self.part, alloc, line, number, out)?;
        self.lines = number;
        Ok(())
    }

    fn end(&mut self, _alloc: Global, _out: &mut Vec<u8>) -> Result<(), Stop<MigrationRefusal>> {
        match &self.part {
            OldPart::Head(_reader) => {
                Err(Stop::Refused(MigrationRefusal::BadConfig(BadConfig {
                    line: self.lines.saturating_add(1),
                })))
            }
            OldPart::Records(_count) => Ok(()),
        }
    }
}

/// A tenant's line or a record that cannot be migrated.
#[derive(Clone, Copy, Debug, PartialEq, Eq)]
pub struct BadLine {
    /// Counted from 1.
    pub line: u64,
    /// `Syntax` or `ClockTooGreat`.
    pub fault: Fault,
}

/// Why an audit is not migrated: its first bad line.
#[derive(Clone, Copy, Debug, PartialEq, Eq)]
pub enum MigrationRefusal {
    /// The line may not follow in a head of layout 1.
    BadConfig(BadConfig),
    BadLine(BadLine),
}

/// The number of migrated records.
#[derive(Clone, Copy, Debug, PartialEq, Eq)]
pub struct Migrated {
    pub records: u64,
}

/// Returns the number of records.
fn records_of(part: &OldPart) -> u64
    ensures { result ≡ records_in part.now }
{
    match *part {
        OldPart::Head(_) => 0,
        OldPart::Records(count) => count,
    }
}

/// Migrates an audit of layout 1: writes the line `layout 2`, the head in its one form, and the
/// unchanged record lines. A record's tenant need not be in the head.
///
/// Ends at the first line that may not follow in layout 1, such as a line `layout 2`; or that is longer
/// than 200,000 bytes; or that has a first clock or a version's clock above 281474976710654, which
/// has no next one in layout 2.
///
/// Reads as `run_script` does, and holds the head and one line of at most 200,001 bytes.
pub fn migrate_text<R: Read, O: Write>(
    alloc: Global,
    source: &mut Source<R>,
    sink: &mut Sink<O>,
) -> Result<Migrated, RunFault<MigrationRefusal>>
    // All is read and migrated.
    ensures end { OnOk result (IsAtEnd (R.remaining (source_reader source.new))) }
    ensures ok { IfOk result (λ migrated. IfSome (R.remaining (source_reader source.old)) (λ bytes.
        (migration_of bytes).outcome ≡ Ok migrated.records)) }
    ensures text { OnOk result (IfSome (R.remaining (source_reader source.old)) (λ bytes.
        Appends (O.contents (sink_writer sink.old)) (O.contents (sink_writer sink.new))
        (migration_of bytes).text)) }

    // Or a prefix of the text before the first bad line is written, and that line is returned.
    ensures front { OnErr result (IfSome (R.remaining (source_reader source.old)) (λ bytes.
        AppendsFront (O.contents (sink_writer sink.old)) (O.contents (sink_writer sink.new))
        (migration_of bytes).text)) }
    ensures refused { IfErr result (λ fault. IfRunRefused fault (λ refusal.
        IfSome (R.remaining (source_reader source.old))
        (λ bytes. (migration_of bytes).outcome ≡ Err refusal))) }

    // The reader or the writer failed in this call, or the turns are used up.
    ensures read_fault { IsErrOf result RunFault.ReadFault →
        HasRisen (source_failures source.old) (source_failures source.new)
        ⊎ HasRisenBy (source_reads source.old) (source_reads source.new) 4294967296 }
    ensures write_fault { IsErrOf result RunFault.WriteFault →
        HasRisen (sink_failures sink.old) (sink_failures sink.new) }
{
    let mut audit = new_old_audit();
    match run_lines(&mut audit, alloc, TURNS, LONGEST_RECORD, source, sink) {
        Ok(()) => Ok(Migrated {
            records: records_of(&audit.part),
        }),
        Err(fault) => Err(fault),
    }
}
