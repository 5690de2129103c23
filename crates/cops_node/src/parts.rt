//! A node's state of one tenant, beside the store and the outbox.
ghost use Rattle.std.specs.Prelude.{◌≡◌, ◌+◌, ◌++◌, ◌/◌, ◌^◌, ◌<◌, ◌≤◌, false, max, not, nat_lt, length, slice_set, slice_index_or, replicate, List, None, Some, IfOk, IfSome, OnErr, OnOk};
ghost use Rattle.std.specs.Option.{option_copied};
ghost use Rattle.std.specs.List.{AllByRecursion};
ghost use Rattle.cops_types.specs.Layout.{NODES};
ghost use Rattle.cops_types.specs.Records.{Tracked, mark};
ghost use Rattle.cops_types.specs.Version.{version_le, last_clock};
ghost use Rattle.cops_node.specs.Parts.{AreMarks, IsFresh, IsHome, is_opened_as, mark_in, no_calls, opening_terms, terms_in, terms_of, trail_of};
ghost use Rattle.cops_model.specs.Place.{node_number};

use crate::{AuditPages, Home, Terms};
use cops_outbox::Outbox;
use cops_store::Store;
use cops_types::{Config, Tenant, Version};
use std::alloc::{AllocError, Global};

/// The clock of a slot, and its high-water marks: the version committed last of each data centre's
/// node with this shard.
#[derive(Debug, Drop)]
pub struct Counters {
    pub clock: u64,
    pub marks: Vec<Version>,
}

/// A node's state of one slot: its terms, its `now` and its counters. Its calls are in the audit.
#[derive(Debug, Drop)]
pub struct Part {
    pub moment: u64,
    pub counters: Counters,
    pub terms: Terms,
}

/// The slot and the timestamp of a call.
#[derive(Clone, Copy, Debug)]
pub(crate) struct Caller {
    pub(crate) slot: usize,
    pub(crate) moment: u64,
}

/// The records and the queues of all tenants.
#[derive(Drop)]
pub(crate) struct Storage {
    pub(crate) store: Store,
    pub(crate) outbox: Outbox,
}

// Returns the part of a tenant before any call, at a node of this many data centres.
pub(crate) fn fresh(alloc: Global, data_centres: u64, terms: Terms) -> Result<Part, AllocError>
    ensures fresh { IfOk result (IsFresh data_centres) }
    ensures terms { IfOk result (λ part. part.terms ≡ terms) }
{
    let marks = vec![in alloc; Version::none(); data_centres as usize]?;
    let clock = terms.first_clock;
    Ok(Part {
        terms,
        moment: 0,
        counters: Counters { clock, marks },
    })
}

// Returns the terms of a tenant.
pub(crate) fn terms_for(tenant: &Tenant) -> Terms
    ensures { result ≡ terms_of tenant.now }
{
    Terms {
        first_clock: tenant.first_clock,
        quota: tenant.quota,
    }
}

// Returns the parts of all tenants before any call.
pub(crate) fn fresh_parts(alloc: Global, config: &Config) -> Result<Vec<Option<Part>>, AllocError>
    ensures fresh { IfOk result
        (λ parts. AllByRecursion (λ p. IfSome p (IsFresh config.now.data_centres)) parts.items) }
    ensures terms { IfOk result (λ parts. terms_in parts.items ≡ opening_terms config.now) }
{
    let mut parts = Vec::new(alloc);
    let tenants = config.tenants.as_slice();
    for tenant in tenants {
        let part = fresh(alloc, config.data_centres, terms_for(tenant))?;
        parts.push(Some(part))?;
    }
    Ok(parts)
}

// Adds this many slots without a tenant and without calls.
pub(crate) fn add_vacant(
    alloc: Global,
    parts: &mut Vec<Option<Part>>,
    audit: &mut AuditPages,
    more: usize,
) -> Result<(), AllocError>
    ensures parts { OnOk result (parts.new.items ≡ parts.old.items ++ replicate more None) }
    ensures trails { OnOk result (audit.new.trails ≡ audit.old.trails ++ no_calls more) }
    ensures err { OnErr result ((parts.new.items ≡ parts.old.items) × (audit.new ≡ audit.old)) }
{
    let mut added = vacant(alloc, more)?;
    parts.reserve(more)?;
    audit.add_slots(more)?;
    parts.append(&mut added).unwrap();
    Ok(())
}

// Returns this many slots without a tenant.
fn vacant(alloc: Global, slots: usize) -> Result<Vec<Option<Part>>, AllocError>
    ensures { IfOk result (λ parts. parts.items ≡ replicate slots None) }
{
    let mut parts = Vec::new(alloc);
    for _slot in 0..slots {
        parts.push(None)?;
    }
    Ok(parts)
}

// Returns the part of a slot, if it has a tenant.
pub(crate) fn of(parts: &[Option<Part>], slot: u64) -> Option<&Part>
    ensures { option_copied result ≡ slice_index_or parts.now slot None }
{
    match parts.get(slot as usize) {
        Some(Some(part)) => Some(part),
        _ => None,
    }
}

// Returns `true` if the part is that of a tenant with this first clock and quota.
pub(crate) fn is_of(part: &Part, tenant: &Tenant) -> bool
    ensures { result ≡ is_opened_as tenant.now (Some part.now.terms) }
{
    let own = part.terms.quota;
    let quota = tenant.quota;
    part.terms.first_clock == tenant.first_clock
        && own.versions == quota.versions
        && own.bytes == quota.bytes
        && own.outbox == quota.outbox
        && own.contexts == quota.contexts
        && own.deps == quota.deps
        && own.actors == quota.actors
        && own.audit == quota.audit
}

// Returns `true` if the audit has no room for another call of the slot.
pub(crate) fn is_audit_full(audit: &AuditPages, slot: usize, part: &Part) -> bool
    ensures full { result
        ≡ not (nat_lt (length (trail_of slot audit.now.trails)) part.now.terms.quota.audit) }
    ensures countable { result ≡ false → length (trail_of slot audit.now.trails) + 1 < 2 ^ 64 }
{
    let quota = part.terms.quota;
    audit.len(slot) >= quota.audit
}

// Returns the node's number.
pub(crate) fn own_number(home: &Home) -> u64
    requires { IsHome home.now }
    ensures value { result ≡ node_number home.now.shape.shards home.now.id }
    ensures fits { result < NODES }
{
    let shards = home.shape.shards;
    let id = home.id;
    id.dc * shards + id.shard
}

// Returns the high-water mark of the node of this number. A node of another shard has none.
#[inline(always)]
fn mark_of(home: &Home, counters: &Counters, node: u64) -> Version
    requires { IsHome home.now }
    ensures { result ≡ mark_in home.now counters.now.marks.items node }
{
    let shards = home.shape.shards;
    let shard = home.id.shard;
    if node % shards != shard {
        return Version::none();
    }
    match counters.marks.get((node / shards) as usize) {
        Some(mark) => *mark,
        None => Version::none(),
    }
}

// Returns `true` if a version was committed: the mark of its node has reached it.
#[inline(always)]
pub(crate) fn was_committed(home: &Home, counters: &Counters, version: Version) -> bool
    requires { IsHome home.now }
    ensures { (recs : List Tracked) → AreMarks home.now counters.now.marks.items recs →
        result ≡ version_le version (mark version.node recs) }
{
    version <= mark_of(home, counters, version.node())
}

// Returns the high-water mark of a version's node.
#[inline(always)]
pub(crate) fn mark_for(home: &Home, counters: &Counters, version: Version) -> Version
    requires { IsHome home.now }
    ensures { (recs : List Tracked) → AreMarks home.now counters.now.marks.items recs →
        result ≡ mark version.node recs }
{
    mark_of(home, counters, version.node())
}

// Returns the node's own high-water mark.
#[inline(always)]
pub(crate) fn own_mark(home: &Home, counters: &Counters) -> Version
    requires { IsHome home.now }
    ensures { (recs : List Tracked) → AreMarks home.now counters.now.marks.items recs →
        result ≡ mark ((node_number home.now.shape.shards home.now.id)) recs }
{
    mark_of(home, counters, own_number(home))
}

// Records a committed version: raises the clock to its clock, and makes it the mark of its node.
pub(crate) fn raise(home: &Home, counters: &mut Counters, version: Version)
    requires home { IsHome home.now }
    requires data_centre { version.node / home.now.shape.shards < length counters.old.marks.items }
    ensures clock { counters.new.clock ≡ max counters.old.clock version.clock }
    ensures marks { counters.new.marks.items
        ≡ slice_set counters.old.marks.items (version.node / home.now.shape.shards) version }
    ensures fits { version.clock ≤ last_clock }
{
    counters.clock = counters.clock.max(version.clock());
    let dc = version.node() / home.shape.shards;
    counters.marks[dc as usize] = version;
}
