//! The extraction of one tenant's part of an audit: its body behind the head, and its run over any reader and any writer.
ghost use Rattle.std.specs.Prelude.{◌≡◌, ◌++◌, ℕ, List, None, IfErr, OnOk, flat_map, ◌⊎◌, IfSome, IsErrOf, OnErr};
ghost use Rattle.std.specs.Io.KnownBytes.{IsAtEnd, Keeps};
ghost use Rattle.cops_types.specs.Slots.{slot_of_name};
ghost use Rattle.cops_types.specs.Counts.{HasRisen, HasRisenBy};
ghost use Rattle.cops_types.specs.Sink.{sink_failures, sink_writer};
ghost use Rattle.cops_types.specs.Source.{source_failures, source_reader, source_reads};
ghost use Rattle.cops_script.specs.LineAnswers.{IfRefused};
ghost use Rattle.cops_script.specs.LineRuns.{IfRunRefused};
ghost use Rattle.cops_replay.specs.AuditText.{ended};
ghost use Rattle.cops_replay.specs.ExtractionRules.{IsLoneHead, own_text};
ghost use Rattle.cops_replay.specs.OwnParts.{layout_lines, lone_head_lines, RefusesPartOf, WritesPart, WritesPartFront};
ghost use Rattle.cops_replay.specs.declared.refusals.PartRefusal.TheVariants.{UnknownTenant};

use crate::audit_machine::{AuditBody, AuditMachine, new_audit};
use crate::heads::{push_begin, push_cluster, push_layout, push_tenant};
use crate::layouts::Layout;
use crate::migrations::push_line;
use crate::refusals::PartRefusal;
use crate::replay_runs::TURNS;
use crate::replayings::LONGEST_RECORD;
use cops_script::{BadConfig, RunFault, Stop, run_lines};
use cops_types::words::split_word;
use cops_types::{Bytes, Config, Sink, Source, Tenant};
use std::alloc::{AllocError, Global};
use std::io::{Read, Write};

/// The body that extracts the part of the tenant with this name.
#[derive(Drop)]
pub struct PartOf {
    pub name: Bytes,
}

/// Appends the line that names the layout, if files of this layout have one.
fn push_layout_of(out: &mut Vec<u8>, layout: Layout) -> Result<(), AllocError>
    ensures { OnOk result (out.new.items ≡ out.old.items ++ flat_map ended (layout_lines layout)) }
{
    match layout {
        Layout::Today => push_layout(out),
        Layout::Early => Ok(()),
    }
}

/// Appends a head whose only tenant is this one.
fn push_lone_head(
    out: &mut Vec<u8>,
    layout: Layout,
    config: &Config,
    tenant: &Tenant,
) -> Result<(), AllocError>
    ensures { OnOk result (out.new.items ≡ out.old.items
        ++ flat_map ended (layout_lines layout ++ lone_head_lines config.now tenant.now)) }
{
    push_layout_of(out, layout)?;
    push_cluster(out, config)?;
    push_tenant(out, tenant)?;
    push_begin(out)?;
    Ok(())
}

/// Appends the head of the part of the tenant with this name.
fn begin_part(
    out: &mut Vec<u8>,
    layout: Layout,
    config: &Config,
    name: &[u8],
) -> Result<(), Stop<PartRefusal>>
    ensures ok { OnOk result ((text : List ℕ) × IsLoneHead layout name.now config.now text
        × (out.new.items ≡ out.old.items ++ text)) }
    ensures err { IfErr result (λ stop. IfRefused stop (λ refusal. refusal ≡ UnknownTenant)) }
    ensures unknown { IfErr result
        (λ stop. IfRefused stop (λ refusal. slot_of_name config.now.tenants name.now ≡ None)) }
{
    let Some(slot) = config.tenants.slot_of_name(name) else {
        return Err(Stop::Refused(PartRefusal::UnknownTenant));
    };
    push_lone_head(out, layout, config, config.tenants.tenant(slot))?;
    Ok(())
}

/// Appends a line after the head, with its newline, if it is the tenant's.
fn push_own(name: &[u8], line: &[u8], out: &mut Vec<u8>) -> Result<(), AllocError>
    ensures { OnOk result (out.new.items ≡ out.old.items ++ own_text name.now line.now) }
{
    let (word, _rest) = split_word(line);
    if word != name {
        return Ok(());
    }
    push_line(out, line)
}

impl AuditBody<()> for PartOf {
    ghost use Rattle.cops_replay.specs.ExtractionRules.{part_rules};

    type Refusal = PartRefusal;

    ghost rules = { part_rules };

    fn bad_head(bad: BadConfig) -> PartRefusal {
        PartRefusal::BadConfig(bad)
    }

    fn begin(
        &self,
        _alloc: Global,
        layout: Layout,
        config: &Config,
        out: &mut Vec<u8>,
    ) -> Result<(), Stop<PartRefusal>> {
        begin_part(out, layout, config, self.name.as_slice())
    }

    fn line(
        &self,
        _alloc: Global,
        _state: &mut (),
        line: &[u8],
        out: &mut Vec<u8>,
    ) -> Result<(), Stop<PartRefusal>> {
        push_own(self.name.as_slice(), line, out)?;
        Ok(())
    }

    fn end(&self, _state: &(), _out: &mut Vec<u8>) -> Result<(), Stop<PartRefusal>> {
        Ok(())
    }
}

/// Extracts one tenant's part of an audit, an audit that a replay for the tenant reads as the whole
/// one. Writes the line of the layout, if the file has one, the sizes, the tenant's line with its
/// token in lower case and hyphens, and the lines that begin with the tenant's name, unchanged. Of a
/// line that is longer than 200,001 bytes, which is no record, only these are written.
///
/// The lines need not be records, and their clocks may be too great for a replay. Reads as
/// `run_script` does, and holds the head and one line of at most 200,001 bytes.
pub fn extract_text<R: Read, O: Write>(
    alloc: Global,
    source: &mut Source<R>,
    sink: &mut Sink<O>,
    tenant: &[u8],
) -> Result<(), RunFault<PartRefusal>>
    // All is read, and the part is written, or a prefix of it.
    ensures end { OnOk result (IsAtEnd (R.remaining (source_reader source.new))) }
    ensures ok { OnOk result (IfSome (R.remaining (source_reader source.old)) (λ bytes.
        WritesPart tenant.now bytes (O.contents (sink_writer sink.old))
        (O.contents (sink_writer sink.new)))) }
    ensures err { OnErr result (IfSome (R.remaining (source_reader source.old)) (λ bytes.
        WritesPartFront tenant.now bytes (O.contents (sink_writer sink.old))
        (O.contents (sink_writer sink.new)))) }

    // A bad head is refused, and so is a tenant that the head lacks. Nothing is written then.
    ensures refused { IfErr result (λ fault. IfRunRefused fault (λ refusal.
        IfSome (R.remaining (source_reader source.old))
        (λ bytes. RefusesPartOf tenant.now bytes refusal))) }
    ensures unwritten { IfErr result (λ fault. IfRunRefused fault (λ refusal.
        Keeps (O.contents (sink_writer sink.old)) (O.contents (sink_writer sink.new)))) }

    // The reader or the writer failed in this call, or the turns are used up.
    ensures read_fault { IsErrOf result RunFault.ReadFault →
        HasRisen (source_failures source.old) (source_failures source.new)
        ⊎ HasRisenBy (source_reads source.old) (source_reads source.new) 4294967296 }
    ensures write_fault { IsErrOf result RunFault.WriteFault →
        HasRisen (sink_failures sink.old) (sink_failures sink.new) }
{
    let name = Bytes::new(alloc, tenant)?;
    let mut part: AuditMachine<PartOf, ()> = new_audit(PartOf { name });
    run_lines(&mut part, alloc, TURNS, LONGEST_RECORD, source, sink)
}
