//! Audits as text, of all tenants and of the open ones.
ghost use Rattle.std.specs.Prelude.{◌≡◌, ◌<◌, ◌++◌, ℕ, List, map, length, IfOk, OnOk, IsTrue, Some};
ghost use Rattle.std.specs.List.{AllByRecursion, range_with_len};
ghost use Rattle.std.specs.Io.KnownBytes.{Appends};
ghost use Rattle.cops_types.specs.declared.faults.Fault.TheVariants.{WriteFault};
ghost use Rattle.cops_types.specs.Counts.{HasRisen};
ghost use Rattle.cops_types.specs.Head.{Whole, head_of};
ghost use Rattle.cops_types.specs.HeadLines.{are_sizes};
ghost use Rattle.cops_types.specs.RequestErrors.{IfRefusal, OnRefusal};
ghost use Rattle.cops_types.specs.Sink.{AppendsFront, sink_failures, sink_writer};
ghost use Rattle.cops_types.specs.TenantConfig.{tenant_config};
ghost use Rattle.cops_node.specs.Clusters.{HasTenant, IsCluster, shape_of};
ghost use Rattle.cops_node.specs.Parts.{AuditFits, place_at, solo_of};
ghost use Rattle.cops_model.specs.Place.{place_of};
ghost use Rattle.cops_replay.specs.declared.Record.{Record};
ghost use Rattle.cops_replay.specs.AuditText.{AreNodesOf, audit_of, ended, his_nodes, record_of, records_of, records_text, tenants_text, AreNodesAt, audit_at, nodes_at, with_tenants, AreNodesOfOpen, open_audit_of, open_config_of, open_nodes_of, open_slots, open_tenants};
ghost use Rattle.cops_replay.specs.Pages.{PutsText, page};
ghost use Rattle.cops_replay.specs.RecordText.{has_form, is_record, record_line};
ghost use Rattle.cops_replay.specs.AuditRuns.{AllReplaySame, AreFormed, HaveLines, SaysSame};

use crate::heads::push_head;
use crate::pages::{drain, drain_full};
use crate::put_rows::push_row;
use cops_node::{AuditRow, Node, NodeId};
use cops_types::{Config, Name, OpenTenants, RequestError, Sink, Tenant};
use std::alloc::{AllocError, Global};
use std::io::Write;

/// Appends the line of a call in the audit of a node.
fn put_row<W: Write>(
    out: &mut Vec<u8>,
    place: &mut Vec<u8>,
    sink: &mut Sink<W>,
    name: &Name,
    id: NodeId,
    row: &AuditRow,
) -> Result<(), RequestError>
    ensures text { PutsText (ended (record_line name.now (record_of id row.now)))
        (page out.old.items (W.contents (sink_writer sink.old)) (sink_failures sink.old)) result
        (page out.new.items (W.contents (sink_writer sink.new)) (sink_failures sink.new)) }
    ensures formed { OnOk result
        (IsTrue (has_form row.now.reply) → IsTrue (is_record (record_of id row.now))) }
{
    push_row(out, place, name, id, row)?;
    drain_full(out, sink)
}

/// Appends the lines of a tenant's calls in the audit of a node.
fn put_node<W: Write>(
    out: &mut Vec<u8>,
    sink: &mut Sink<W>,
    config: &Config,
    tenant: &Tenant,
    slot: u64,
    id: NodeId,
    node: &Node,
) -> Result<(), RequestError>
    requires { place_at slot node.now ≡ Some (place_of (tenant_config config.now tenant.now) id) }
    ensures text { PutsText (records_text tenant.now.name (map (record_of id)
        (solo_of slot (place_of (tenant_config config.now tenant.now) id) node.now).trail))
        (page out.old.items (W.contents (sink_writer sink.old)) (sink_failures sink.old)) result
        (page out.new.items (W.contents (sink_writer sink.new)) (sink_failures sink.new)) }
    ensures formed { OnOk result
        (AllByRecursion (λ (told : Record). IsTrue (is_record told)) (map (record_of id)
        (solo_of slot (place_of (tenant_config config.now tenant.now) id) node.now).trail)) }
{
    let name = tenant.name;
    let mut row_place = Vec::new(*out.allocator());
    let mut cached = 0;
    for place in 0..node.audit_len(slot) {
        let Some(row) = node.audit_cached(slot, place, &mut cached) else {
            unreachable!()
        };
        if let Err(error) = put_row(out, &mut row_place, sink, &name, id, row) {
            return Err(error);
        }
    }
    Ok(())
}

/// Appends the lines of a tenant's calls, by node.
fn put_tenant<W: Write>(
    out: &mut Vec<u8>,
    sink: &mut Sink<W>,
    config: &Config,
    tenant: &Tenant,
    slot: u64,
    nodes: &[Node],
) -> Result<(), RequestError>
    requires sizes { IsTrue (are_sizes config.now) }
    requires nodes { IsCluster (shape_of config.now) nodes.now }
    requires tenant { HasTenant (tenant_config config.now tenant.now) slot
        (record { shape = shape_of config.now; nodes = nodes.now }) }
    ensures text { PutsText
        (records_text tenant.now.name (records_of (tenant_config config.now tenant.now)
        (his_nodes config.now nodes.now (tenant_config config.now tenant.now) slot)))
        (page out.old.items (W.contents (sink_writer sink.old)) (sink_failures sink.old)) result
        (page out.new.items (W.contents (sink_writer sink.new)) (sink_failures sink.new)) }
    ensures formed { OnOk result (AllByRecursion (λ (told : Record). IsTrue (is_record told))
        (records_of (tenant_config config.now tenant.now)
        (his_nodes config.now nodes.now (tenant_config config.now tenant.now) slot))) }
{
    let shards = config.shards;
    for place in 0..nodes.len() {
        let number = place as u64;
        let id = NodeId {
            dc: number / shards,
            shard: number % shards,
        };
        let node = &nodes[place];
        if let Err(error) = put_node(out, sink, config, tenant, slot, id, node) {
            return Err(error);
        }
    }
    Ok(())
}

/// Appends the lines of all tenants' calls, by tenant. Each tenant has the slot of its place.
fn put_records<W: Write>(
    out: &mut Vec<u8>,
    sink: &mut Sink<W>,
    config: &Config,
    tenants: &[Tenant],
    slots: &[u64],
    nodes: &[Node],
) -> Result<(), RequestError>
    requires sizes { IsTrue (are_sizes config.now) }
    requires nodes { AreNodesAt config.now tenants.now slots.now nodes.now }
    ensures text { PutsText (tenants_text (with_tenants config.now tenants.now)
        (nodes_at config.now slots.now nodes.now) 0 tenants.now)
        (page out.old.items (W.contents (sink_writer sink.old)) (sink_failures sink.old)) result
        (page out.new.items (W.contents (sink_writer sink.new)) (sink_failures sink.new)) }
    ensures formed { OnOk result (AreFormed (with_tenants config.now tenants.now)
        (nodes_at config.now slots.now nodes.now)) }
{
    for place in 0..tenants.len() {
        let tenant = &tenants[place];
        let slot = slots[place];
        if let Err(error) = put_tenant(out, sink, config, tenant, slot, nodes) {
            return Err(error);
        }
    }
    Ok(())
}

/// Writes the audit of a configuration's nodes for these tenants, each of which has the slot of its
/// place: the line of the layout, the head in its one form, and then a line for each call, by
/// tenant, then by node, then by place in the audit.
///
/// Buffers the head or 32 kilobytes, beside one line and the room that a line may take. Does not
/// flush the writer. On `Err` a prefix of the audit may have been written.
pub(crate) fn write_audit_at<W: Write>(
    alloc: Global,
    sink: &mut Sink<W>,
    config: &Config,
    tenants: &[Tenant],
    slots: &[u64],
    nodes: &[Node],
) -> Result<(), RequestError>
    requires sizes { IsTrue (are_sizes config.now) }
    requires nodes { AreNodesAt config.now tenants.now slots.now nodes.now }

    // All is written, or a prefix of it.
    ensures ok { OnOk result (Appends (W.contents (sink_writer sink.old))
        (W.contents (sink_writer sink.new)) (audit_at config.now tenants.now slots.now nodes.now)) }
    ensures front { AppendsFront (W.contents (sink_writer sink.old))
        (W.contents (sink_writer sink.new)) (audit_at config.now tenants.now slots.now nodes.now) }

    // Each record that is written has the form of a line.
    ensures formed { OnOk result (AreFormed (with_tenants config.now tenants.now)
        (nodes_at config.now slots.now nodes.now)) }

    // Memory ran out, or the writer failed in this call.
    ensures fault { IfRefusal result (λ fault. fault ≡ WriteFault) }
    ensures same { OnOk result (sink_failures sink.new ≡ sink_failures sink.old) }
    ensures write_fault { OnRefusal result
        (HasRisen (sink_failures sink.old) (sink_failures sink.new)) }
{
    let mut out = Vec::new(alloc);
    push_head(&mut out, config, tenants)?;
    if let Err(error) = put_records(&mut out, sink, config, tenants, slots, nodes) {
        return Err(error);
    }
    drain(&mut out, sink)
}

/// Theorem: each call in the audit of each node could come to it.
pub(crate) fn audits_fit(nodes: &[Node])
    ensures { AllByRecursion AuditFits nodes.now }
{
    for node in nodes {
        node.audit_fits();
    }
}

/// Returns this many slots, from the first on.
fn first_slots(alloc: Global, count: usize) -> Result<Vec<u64>, AllocError>
    ensures { IfOk result (λ slots. slots.items ≡ range_with_len 0 count) }
{
    let mut slots = Vec::new(alloc);
    for slot in 0..count {
        slots.push(slot as u64)?;
    }
    Ok(slots)
}

/// Writes the audit of a configuration's nodes, which come by number: the line of the layout, the
/// head in its one form, and then a line for each call, by tenant, then by node, then by place in
/// the audit.
///
/// Buffers the head or 32 kilobytes, beside one line and the room that a line may take. Does not
/// flush the writer. On `Err` a prefix of the audit may have been written.
pub fn write_audit<W: Write>(
    alloc: Global,
    sink: &mut Sink<W>,
    config: &Config,
    nodes: &[Node],
) -> Result<(), RequestError>
    requires sizes { IsTrue (are_sizes config.now) }
    requires nodes { AreNodesOf config.now nodes.now }

    // All is written, or a prefix of it.
    ensures ok { OnOk result (Appends (W.contents (sink_writer sink.old))
        (W.contents (sink_writer sink.new)) (audit_of config.now nodes.now)) }
    ensures front { AppendsFront (W.contents (sink_writer sink.old))
        (W.contents (sink_writer sink.new)) (audit_of config.now nodes.now) }

    // Each record that is written has the form of a line.
    ensures formed { OnOk result (AreFormed config.now (his_nodes config.now nodes.now)) }

    // A replay of each tenant's records finds them all the same. A replay of the text says so, if
    // the configuration is that of a head, and no record's line is too long.
    ensures replays { AllReplaySame config.now (his_nodes config.now nodes.now) }
    ensures says_same { (lines rest : List (List ℕ)) → head_of lines ≡ Whole config.now rest →
        HaveLines config.now (his_nodes config.now nodes.now) →
        SaysSame config.now (his_nodes config.now nodes.now) (audit_of config.now nodes.now) }

    // Memory ran out, or the writer failed in this call.
    ensures fault { IfRefusal result (λ fault. fault ≡ WriteFault) }
    ensures same { OnOk result (sink_failures sink.new ≡ sink_failures sink.old) }
    ensures write_fault { OnRefusal result
        (HasRisen (sink_failures sink.old) (sink_failures sink.new)) }
{
    audits_fit(nodes);
    let tenants = config.tenants.as_slice();
    let slots = first_slots(alloc, tenants.len())?;
    write_audit_at(alloc, sink, config, tenants, slots.as_slice(), nodes)
}

/// Returns the open tenants, by slot.
fn open_tenants(alloc: Global, tenants: &[Option<Tenant>]) -> Result<Vec<Tenant>, AllocError>
    ensures { IfOk result (λ found. found.items ≡ open_tenants tenants.now) }
{
    tenants.iter().filter_map(|tenant| *tenant).collect(alloc)
}

/// Returns the slots that have a tenant, rising.
fn open_slots(alloc: Global, tenants: &[Option<Tenant>]) -> Result<Vec<u64>, AllocError>
    ensures { IfOk result (λ slots. slots.items ≡ open_slots tenants.now) }
{
    let mut slots = Vec::new(alloc);
    for slot in 0..tenants.len() {
        if tenants[slot].is_some() {
            slots.push(slot as u64)?;
        }
    }
    Ok(slots)
}

/// Writes the audit of a configuration's nodes, which come by number, for the tenants that are open: as `write_audit` does for
/// those of the configuration, and by slot.
///
/// Buffers the head or 32 kilobytes, beside one line and the room that a line may take. Does not
/// flush the writer. On `Err` a prefix of the audit may have been written.
pub fn write_open_audit<W: Write>(
    alloc: Global,
    sink: &mut Sink<W>,
    config: &Config,
    tenants: &OpenTenants,
    nodes: &[Node],
) -> Result<(), RequestError>
    requires sizes { IsTrue (are_sizes config.now) }
    requires nodes { AreNodesOfOpen config.now tenants.now nodes.now }

    // All is written, or a prefix of it.
    ensures ok { OnOk result (Appends (W.contents (sink_writer sink.old))
        (W.contents (sink_writer sink.new)) (open_audit_of config.now tenants.now nodes.now)) }
    ensures front { AppendsFront (W.contents (sink_writer sink.old))
        (W.contents (sink_writer sink.new)) (open_audit_of config.now tenants.now nodes.now) }

    // Each record that is written has the form of a line.
    ensures formed { OnOk result (AreFormed (open_config_of config.now tenants.now)
        (open_nodes_of config.now tenants.now nodes.now)) }

    // A replay of each open tenant's records finds them all the same. A replay of the text says so, if
    // the configuration with these tenants is that of a head, and no record's line is too long.
    ensures replays { AllReplaySame (open_config_of config.now tenants.now)
        (open_nodes_of config.now tenants.now nodes.now) }
    ensures says_same { (lines rest : List (List ℕ)) →
        head_of lines ≡ Whole (open_config_of config.now tenants.now) rest →
        HaveLines (open_config_of config.now tenants.now)
        (open_nodes_of config.now tenants.now nodes.now) →
        SaysSame (open_config_of config.now tenants.now)
        (open_nodes_of config.now tenants.now nodes.now)
        (open_audit_of config.now tenants.now nodes.now) }

    // Memory ran out, or the writer failed in this call.
    ensures fault { IfRefusal result (λ fault. fault ≡ WriteFault) }
    ensures same { OnOk result (sink_failures sink.new ≡ sink_failures sink.old) }
    ensures write_fault { OnRefusal result
        (HasRisen (sink_failures sink.old) (sink_failures sink.new)) }
{
    audits_fit(nodes);
    let by_slot = tenants.as_slice();
    let found = open_tenants(alloc, by_slot)?;
    let slots = open_slots(alloc, by_slot)?;
    write_audit_at(
        alloc,
        sink,
        config,
        found.as_slice(),
        slots.as_slice(),
        nodes,
    )
}
