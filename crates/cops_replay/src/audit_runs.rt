//! The audit of a script, and one tenant's part of it, over any reader and any writer.
ghost use Rattle.std.specs.Prelude.{◌≡◌, ◌⊎◌, ℕ, List, IfErr, IfSome, IsErrOf, OnErr, OnOk, [], ◌∷◌, None, Some};
ghost use Rattle.std.specs.Io.KnownBytes.{Appends, IsAtEnd, Keeps};
ghost use Rattle.cops_types.specs.declared.faults.Fault.TheVariants.{WriteFault};
ghost use Rattle.cops_types.specs.Counts.{HasRisen, HasRisenBy};
ghost use Rattle.cops_types.specs.Head.{BadAt, head_of};
ghost use Rattle.cops_types.specs.Lines.{lines_of};
ghost use Rattle.cops_types.specs.RequestErrors.{IfRefusal, OnRefusal};
ghost use Rattle.cops_types.specs.Sink.{AppendsFront, sink_failures, sink_writer};
ghost use Rattle.cops_types.specs.Source.{source_failures, source_reader, source_reads};
ghost use Rattle.cops_types.specs.TenantConfig.{TenantConfig};
ghost use Rattle.cops_types.specs.OpenSlots.{open_at};
ghost use Rattle.cops_node.specs.Clusters.{nodes_of, shape_of};
ghost use Rattle.cops_script.specs.LineRuns.{IfRunRefused};
ghost use Rattle.cops_script.specs.Script.{Written};
ghost use Rattle.cops_replay.specs.AuditText.{HasShape, ReplaysSame, audit_text};
ghost use Rattle.cops_replay.specs.AuditRuns.{HasItsTenants, IsOfWriting, ReplaysSameFor, WritesAudit, WritesAuditFront, audit_out, open_config, open_nodes, AreFormed, AreFormedFor, SaysSameFor};
ghost use Rattle.cops_replay.specs.OwnParts.{IsOwnAuditOf, IsSlotFormed, LacksTenant, RefusesOwnAuditOf, SaysSameOwn, WritesOwnAudit, WritesOwnAuditFront, WritesSlot, WritesSlotFront, as_part_fault, slot_audit};

use crate::audits::{write_audit_at, write_open_audit};
use crate::refusals::PartRefusal;
use cops_script::{BadConfig, RunFault};
use cops_types::{RequestError, Sink, Source, Tenant};
use cops_world::{World, script_world};
use std::alloc::Global;
use std::io::{Read, Write};

/// Writes the audit of the open tenants of a world, by slot.
fn write_open<O: Write>(
    alloc: Global,
    sink: &mut Sink<O>,
    world: &World,
) -> Result<(), RequestError>
    requires { HasItsTenants world.now }
    ensures ok { OnOk result
        (Appends (O.contents (sink_writer sink.old)) (O.contents (sink_writer sink.new))
        (audit_text (open_config world.now) (open_nodes world.now))) }
    ensures front { AppendsFront (O.contents (sink_writer sink.old))
        (O.contents (sink_writer sink.new))
        (audit_text (open_config world.now) (open_nodes world.now)) }
    ensures replays { (config : TenantConfig) (slot : ℕ) →
        HasShape config (shape_of world.now.setup.head) →
        ReplaysSame config (nodes_of config slot world.now.nodes) }
    ensures formed { OnOk result (AreFormed (open_config world.now) (open_nodes world.now)) }
    ensures fault { IfRefusal result (λ fault. fault ≡ WriteFault) }
    ensures write_fault { OnRefusal result
        (HasRisen (sink_failures sink.old) (sink_failures sink.new)) }
{
    let nodes = world.nodes();
    write_open_audit(alloc, sink, world.config(), world.tenants(), nodes)
}

/// Writes the audit of the nodes of a world.
fn write_world<O: Write>(
    alloc: Global,
    sink: &mut Sink<O>,
    world: &World,
) -> Result<(), RunFault<BadConfig>>
    requires { HasItsTenants world.now }
    ensures ok { OnOk result
        (Appends (O.contents (sink_writer sink.old)) (O.contents (sink_writer sink.new))
        (audit_text (open_config world.now) (open_nodes world.now))) }
    ensures front { AppendsFront (O.contents (sink_writer sink.old))
        (O.contents (sink_writer sink.new))
        (audit_text (open_config world.now) (open_nodes world.now)) }
    ensures replays { (config : TenantConfig) (slot : ℕ) →
        HasShape config (shape_of world.now.setup.head) →
        ReplaysSame config (nodes_of config slot world.now.nodes) }
    ensures formed { OnOk result (AreFormed (open_config world.now) (open_nodes world.now)) }
    ensures fault { IfErr result IsOfWriting }
    ensures write_fault { IsErrOf result RunFault.WriteFault →
        HasRisen (sink_failures sink.old) (sink_failures sink.new) }
{
    match write_open(alloc, sink, world) {
        Ok(()) => Ok(()),
        Err(RequestError::Refused(_)) => Err(RunFault::WriteFault),
        Err(RequestError::OutOfMemory) => Err(RunFault::OutOfMemory),
    }
}

/// Writes the audit of a script. Reads the script to its end as `run_script` does and executes it.
/// Then writes the nodes' audits of the open tenants, in slot order, with the head in its one form.
///
/// It holds the world, and no copy of the text. If memory runs out for a line of the script, it
/// ends and nothing is written.
///
/// The world is left in `world`, so the caller decides when its memory is freed.
pub fn audit_text_in<R: Read, O: Write>(
    alloc: Global,
    source: &mut Source<R>,
    sink: &mut Sink<O>,
    world: &mut Option<World>,
) -> Result<(), RunFault<BadConfig>>
    // All is read, and the audit is written, or a prefix of it.
    ensures end { OnOk result (IsAtEnd (R.remaining (source_reader source.new))) }
    ensures ok { OnOk result (IfSome (R.remaining (source_reader source.old)) (λ bytes.
        WritesAudit bytes (O.contents (sink_writer sink.old))
        (O.contents (sink_writer sink.new)))) }
    ensures err { OnErr result (IfSome (R.remaining (source_reader source.old)) (λ bytes.
        WritesAuditFront bytes (O.contents (sink_writer sink.old))
        (O.contents (sink_writer sink.new)))) }

    // A replay of any tenant's records in it finds them all the same.
    ensures replays { OnOk result (IfSome (R.remaining (source_reader source.old))
        (λ bytes. ReplaysSameFor (head_of (lines_of bytes)))) }

    // So does a replay of the text for any tenant.
    ensures says_same { OnOk result (IfSome (R.remaining (source_reader source.old)) (λ bytes.
        (text : List ℕ) → audit_out bytes ≡ Written text →
        SaysSameFor (head_of (lines_of bytes)) text)) }

    // Each record in it has the form of a line, and so a tenant's part can be cut out of it.
    ensures formed { OnOk result (IfSome (R.remaining (source_reader source.old)) (λ bytes.
        AreFormedFor (head_of (lines_of bytes)))) }

    // A bad head is refused, and nothing is written then.
    ensures bad_head { IfErr result (λ fault. IfRunRefused fault (λ bad.
        IfSome (R.remaining (source_reader source.old))
        (λ bytes. head_of (lines_of bytes) ≡ BadAt bad.line))) }
    ensures unwritten { IfErr result (λ fault. IfRunRefused fault (λ bad.
        Keeps (O.contents (sink_writer sink.old)) (O.contents (sink_writer sink.new)))) }

    // The reader or the writer failed in this call, or the turns are used up.
    ensures read_fault { IsErrOf result RunFault.ReadFault →
        HasRisen (source_failures source.old) (source_failures source.new)
        ⊎ HasRisenBy (source_reads source.old) (source_reads source.new) 4294967296 }
    ensures write_fault { IsErrOf result RunFault.WriteFault →
        HasRisen (sink_failures sink.old) (sink_failures sink.new) }
{
    let made = match script_world(alloc, source) {
        Ok(made) => made,
        Err(fault) => return Err(fault),
    };
    let result = write_world(alloc, sink, &made);
    *world = Some(made);
    result
}

/// Writes the audit of a script, as `audit_text_in` does, and frees the world.
pub fn audit_text<R: Read, O: Write>(
    alloc: Global,
    source: &mut Source<R>,
    sink: &mut Sink<O>,
) -> Result<(), RunFault<BadConfig>>
    // All is read, and the audit is written, or a prefix of it.
    ensures end { OnOk result (IsAtEnd (R.remaining (source_reader source.new))) }
    ensures ok { OnOk result (IfSome (R.remaining (source_reader source.old)) (λ bytes.
        WritesAudit bytes (O.contents (sink_writer sink.old))
        (O.contents (sink_writer sink.new)))) }
    ensures err { OnErr result (IfSome (R.remaining (source_reader source.old)) (λ bytes.
        WritesAuditFront bytes (O.contents (sink_writer sink.old))
        (O.contents (sink_writer sink.new)))) }

    // A replay of any tenant's records in it finds them all the same.
    ensures replays { OnOk result (IfSome (R.remaining (source_reader source.old))
        (λ bytes. ReplaysSameFor (head_of (lines_of bytes)))) }

    // So does a replay of the text for any tenant.
    ensures says_same { OnOk result (IfSome (R.remaining (source_reader source.old)) (λ bytes.
        (text : List ℕ) → audit_out bytes ≡ Written text →
        SaysSameFor (head_of (lines_of bytes)) text)) }

    // Each record in it has the form of a line, and so a tenant's part can be cut out of it.
    ensures formed { OnOk result (IfSome (R.remaining (source_reader source.old)) (λ bytes.
        AreFormedFor (head_of (lines_of bytes)))) }

    // A bad head is refused, and nothing is written then.
    ensures bad_head { IfErr result (λ fault. IfRunRefused fault (λ bad.
        IfSome (R.remaining (source_reader source.old))
        (λ bytes. head_of (lines_of bytes) ≡ BadAt bad.line))) }
    ensures unwritten { IfErr result (λ fault. IfRunRefused fault (λ bad.
        Keeps (O.contents (sink_writer sink.old)) (O.contents (sink_writer sink.new)))) }

    // The reader or the writer failed in this call, or the turns are used up.
    ensures read_fault { IsErrOf result RunFault.ReadFault →
        HasRisen (source_failures source.old) (source_failures source.new)
        ⊎ HasRisenBy (source_reads source.old) (source_reads source.new) 4294967296 }
    ensures write_fault { IsErrOf result RunFault.WriteFault →
        HasRisen (sink_failures sink.old) (sink_failures sink.new) }
{
    let mut world = None;
    audit_text_in(alloc, source, sink, &mut world)
}

/// Returns the fault of a script whose head is refused.
fn part_fault(fault: RunFault<BadConfig>) -> RunFault<PartRefusal>
    ensures same { result ≡ as_part_fault fault }
    ensures read { result ≡ RunFault.ReadFault → fault ≡ RunFault.ReadFault }
    ensures write { result ≡ RunFault.WriteFault → fault ≡ RunFault.WriteFault }
{
    match fault {
        RunFault::Refused(bad) => RunFault::Refused(PartRefusal::BadConfig(bad)),
        RunFault::OutOfMemory => RunFault::OutOfMemory,
        RunFault::ReadFault => RunFault::ReadFault,
        RunFault::WriteFault => RunFault::WriteFault,
    }
}

/// Writes the audit of a world's nodes with the tenant of one slot alone.
fn write_slot<O: Write>(
    alloc: Global,
    sink: &mut Sink<O>,
    world: &World,
    slot: u64,
    tenant: Tenant,
) -> Result<(), RequestError>
    requires tenants { HasItsTenants world.now }
    requires there { open_at slot world.now.setup.tenants ≡ Some tenant }
    ensures ok { OnOk result (Appends (O.contents (sink_writer sink.old))
        (O.contents (sink_writer sink.new)) (slot_audit world.now slot tenant)) }
    ensures front { AppendsFront (O.contents (sink_writer sink.old))
        (O.contents (sink_writer sink.new)) (slot_audit world.now slot tenant) }
    ensures replays { (config : TenantConfig) (slot : ℕ) →
        HasShape config (shape_of world.now.setup.head) →
        ReplaysSame config (nodes_of config slot world.now.nodes) }
    ensures formed { OnOk result (IsSlotFormed world.now slot tenant) }
    ensures fault { IfRefusal result (λ fault. fault ≡ WriteFault) }
    ensures write_fault { OnRefusal result
        (HasRisen (sink_failures sink.old) (sink_failures sink.new)) }
{
    let nodes = world.nodes();
    let tenants = [tenant];
    let slots = [slot];
    write_audit_at(alloc, sink, world.config(), &tenants, &slots, nodes)
}

/// Writes the audit of the open tenant of this name, if there is one.
fn write_own<O: Write>(
    alloc: Global,
    sink: &mut Sink<O>,
    world: &World,
    name: &[u8],
) -> Result<(), RunFault<PartRefusal>>
    requires { HasItsTenants world.now }
    ensures ok { OnOk result (WritesSlot world.now name.now (O.contents (sink_writer sink.old))
        (O.contents (sink_writer sink.new))) }
    ensures front { OnErr result (WritesSlotFront world.now name.now
        (O.contents (sink_writer sink.old)) (O.contents (sink_writer sink.new))) }
    ensures replays { OnOk result ((config : TenantConfig) (slot : ℕ) →
        HasShape config (shape_of world.now.setup.head) →
        ReplaysSame config (nodes_of config slot world.now.nodes)) }
    ensures refused { IfErr result (λ fault. IfRunRefused fault (LacksTenant world.now name.now)) }
    ensures unwritten { IfErr result (λ fault. IfRunRefused fault
        (λ refusal. Keeps (O.contents (sink_writer sink.old))
        (O.contents (sink_writer sink.new)))) }
    ensures read_fault { IsErrOf result RunFault.ReadFault → ⊥ }
    ensures write_fault { IsErrOf result RunFault.WriteFault →
        HasRisen (sink_failures sink.old) (sink_failures sink.new) }
{
    let tenants = world.tenants();
    let Some(slot) = tenants.slot_of_name(name) else {
        return Err(RunFault::Refused(PartRefusal::UnknownTenant));
    };
    let tenant = tenants.tenant_in(slot);
    match write_slot(alloc, sink, world, slot, *tenant) {
        Ok(()) => Ok(()),
        Err(RequestError::Refused(_)) => Err(RunFault::WriteFault),
        Err(RequestError::OutOfMemory) => Err(RunFault::OutOfMemory),
    }
}

/// Writes one tenant's part of the audit of a script: the line of the layout, the sizes, the line of
/// the open tenant of this name, and a line for each of its calls, by node. No other tenant's name,
/// token or line is in it.
///
/// Reads the script to its end as `run_script` does and executes it. It holds the world, and no copy
/// of the text. If memory runs out for a line of the script, also for another tenant's, it ends and
/// nothing is written.
///
/// `own_audits_are_parts` says that `extract_text` cuts the same bytes out of what `audit_text`
/// writes.
///
/// The world is left in `world`, so the caller decides when its memory is freed.
pub fn audit_part_text<R: Read, O: Write>(
    alloc: Global,
    source: &mut Source<R>,
    sink: &mut Sink<O>,
    tenant: &[u8],
    world: &mut Option<World>,
) -> Result<(), RunFault<PartRefusal>>
    // All is read, and the part is written, or a prefix of it.
    ensures end { OnOk result (IsAtEnd (R.remaining (source_reader source.new))) }
    ensures ok { OnOk result (IfSome (R.remaining (source_reader source.old)) (λ bytes.
        WritesOwnAudit tenant.now bytes (O.contents (sink_writer sink.old))
        (O.contents (sink_writer sink.new)))) }
    ensures err { OnErr result (IfSome (R.remaining (source_reader source.old)) (λ bytes.
        WritesOwnAuditFront tenant.now bytes (O.contents (sink_writer sink.old))
        (O.contents (sink_writer sink.new)))) }

    // A replay of it for the tenant finds all its records the same.
    ensures says_same { OnOk result (IfSome (R.remaining (source_reader source.old)) (λ bytes.
        (part : List ℕ) → IsOwnAuditOf tenant.now bytes part →
        SaysSameOwn (head_of (lines_of bytes)) tenant.now part)) }

    // A bad head is refused, and so is a name that no tenant has at the end. Nothing is written then.
    ensures refused { IfErr result (λ fault. IfRunRefused fault (λ refusal.
        IfSome (R.remaining (source_reader source.old))
        (λ bytes. RefusesOwnAuditOf tenant.now bytes refusal))) }
    ensures unwritten { IfErr result (λ fault. IfRunRefused fault (λ refusal.
        Keeps (O.contents (sink_writer sink.old)) (O.contents (sink_writer sink.new)))) }

    // The reader or the writer failed in this call, or the turns are used up.
    ensures read_fault { IsErrOf result RunFault.ReadFault →
        HasRisen (source_failures source.old) (source_failures source.new)
        ⊎ HasRisenBy (source_reads source.old) (source_reads source.new) 4294967296 }
    ensures write_fault { IsErrOf result RunFault.WriteFault →
        HasRisen (sink_failures sink.old) (sink_failures sink.new) }
{
    let made = match script_world(alloc, source) {
        Ok(made) => made,
        Err(fault) => return Err(part_fault(fault)),
    };
    let result = write_own(alloc, sink, &made, tenant);
    *world = Some(made);
    result
}
