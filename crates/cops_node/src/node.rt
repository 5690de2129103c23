//! A node for many tenants: one store, one outbox and one audit for all.
ghost use Rattle.std.specs.Prelude.{◌≡◌, ◌≢◌, ℕ, ◌<◌, ◌≤◌, ◌+◌, max, length, map, slice_get, slice_index_or, false, [], List, None, Some, Ok, Err, IsTrue, IsSome, IsOk, IfOk, OnOk, OnErr};
ghost use Rattle.std.specs.List.{AllByRecursion};
ghost use Rattle.std.specs.Option.{option_copied};
ghost use Rattle.cops_types.specs.HeadLines.{are_sizes};
ghost use Rattle.cops_types.specs.Version.{last_clock};
ghost use Rattle.cops_types.specs.RequestErrors.{AnswersUnless};
ghost use Rattle.cops_node.specs.Lacking.{MayLack};
ghost use Rattle.cops_node.specs.Parts.{AuditFits, IsAudited, IsSlotKept, IsSoloTurn, IsTurn, JoinsTrail, admit_refusal, are_clocks, has_audit_room, home_of, is_opened_as, is_taken, no_calls, opening_terms, place_at, place_for, solo_of, terms_at, trail_of};
ghost use Rattle.cops_model.specs.Place.{Place, fits};
ghost use Rattle.cops_node.specs.Shape.{place_in};

use crate::parts::{self, Caller, Part, Storage};
use crate::{AuditPages, AuditRow, Home, NodeCall, NodeId, NodeReply, Terms, part_turns};
use cops_outbox::Outbox;
use cops_store::Store;
use cops_types::{Config, Fault, Machine, Quota, RequestError, Seeds, Tenant};
use std::alloc::{AllocError, Global};
use std::marker::Model;

/// The most slots of a node, and so the most tenants at once.
const MOST_SLOTS: u64 = 64;

/// A node. Contracts see its home, which nothing changes, the terms of each slot that has a tenant,
/// which no call changes, and the audit: the trail of each slot. A slot with a tenant represents
/// the solo node that its own trail leaves.
#[derive(Drop)]
pub struct Node {
    alloc: Global,
    home: Home,
    /// The state of each slot that has a tenant.
    parts: Vec<Option<Part>>,
    /// The calls of all slots.
    audit: AuditPages,
    storage: Storage,
}

impl Model for Node {
    ghost use Rattle.cops_node.specs.Parts.{Shared, IsNode, terms_in};

    ghost Value = { Shared };

    ghost view = { λ n. record { home = n.home; terms = terms_in n.parts.items; audit = n.audit.trails } };

    ghost invariant = { λ n. IsNode n.home n.parts.items n.audit.trails n.storage.store n.storage.outbox };
}

impl Node {
    /// Returns a node of a configuration, before any call. Fails with `AllocError` if memory runs
    /// out.
    pub fn new(alloc: Global, config: &Config, id: NodeId) -> Result<Self, AllocError>
        requires dc_exists { id.dc < config.now.data_centres }
        requires shard_exists { id.shard < config.now.shards }
        requires sizes { IsTrue (are_sizes config.now) }
        requires clocks { IsTrue (are_clocks config.now) }
        ensures { IfOk result (λ node. node
            ≡ record { home = home_of config.now id; terms = opening_terms config.now; audit = no_calls (length config.now.tenants) }) }
    {
        let parts = parts::fresh_parts(alloc, config)?;
        let tenants = parts.len();
        let seeds = Seeds::of_tokens(config.tenants.as_slice());
        let store = Store::seeded(alloc, tenants, seeds)?;
        let outbox = Outbox::new(alloc, config.data_centres as usize, id.dc, tenants)?;
        let audit = AuditPages::new(alloc, tenants)?;
        Ok(Node {
            alloc,
            home: Home::of(config, id),
            parts,
            audit,
            storage: Storage { store, outbox },
        })
    }

    /// Returns the number of slots: those that ever had a tenant, and all before them.
    pub fn slots(&self) -> u64
        ensures { result ≡ length self.now.terms }
    {
        self.parts.len() as u64
    }

    /// Returns `true` if the call may come to this node.
    pub fn fits(&self, call: &NodeCall) -> bool
        ensures { result ≡ fits (place_in self.now.home.shape self.now.home.id) call.now }
    {
        self.home.fits(call)
    }

    /// Returns the number of calls in the trail of a slot.
    pub fn audit_len(&self, slot: u64) -> u64
        ensures calls { result ≡ length (trail_of slot self.now.audit) }
        ensures solo { (place : Place) → place_at slot self.now ≡ Some place →
            result ≡ length (solo_of slot place self.now).trail }
    {
        self.audit.len(slot as usize)
    }

    /// Returns the call at an index of the trail of a slot.
    pub fn audit(&self, slot: u64, place: u64) -> Option<&AuditRow>
        ensures call { option_copied result ≡ slice_get (trail_of slot self.now.audit) place }
        ensures solo { (own : Place) → place_at slot self.now ≡ Some own →
            option_copied result ≡ slice_get (solo_of slot own self.now).trail place }
        ensures vacant { place_at slot self.now ≡ None → result ≡ None }
    {
        self.audit.get(slot as usize, place)
    }

    /// Returns the call at an index of the trail of a slot, as `audit` does. `cached` is 0 at first. If
    /// calls are read in order, most are found without a search.
    pub fn audit_cached(&self, slot: u64, place: u64, cached: &mut usize) -> Option<&AuditRow>
        ensures call { option_copied result ≡ slice_get (trail_of slot self.now.audit) place }
        ensures solo { (own : Place) → place_at slot self.now ≡ Some own →
            option_copied result ≡ slice_get (solo_of slot own self.now).trail place }
        ensures vacant { place_at slot self.now ≡ None → result ≡ None }
    {
        self.audit.get_cached(slot as usize, place, cached)
    }

    /// Theorem: each call in the audit could come to this node.
    pub fn audit_fits(&self)
        ensures { AuditFits self.now }
    {
        let _parts = &self.parts;
    }

    /// Returns `true` if the slot has a tenant with this one's first clock and quota.
    pub fn opened_as(&self, slot: u64, tenant: &Tenant) -> bool
        ensures { result ≡ is_opened_as tenant.now (terms_at slot self.now) }
    {
        match parts::of(&self.parts, slot) {
            Some(part) => parts::is_of(part, tenant),
            None => false,
        }
    }

    // Returns `true` if the slot has a tenant, or is beyond the node's limit.
    pub(crate) fn is_taken(&self, slot: u64) -> bool
        ensures { result ≡ is_taken slot self.now }
    {
        slot >= MOST_SLOTS || parts::of(&self.parts, slot).is_some()
    }

    /// Gives a free slot to a tenant with this first clock, at most `Version::LAST_CLOCK`, and
    /// quota. The tenant starts with an empty node. The call is not audited. Is refused if the slot
    /// is not free; memory can run out only otherwise.
    pub fn admit(&mut self, slot: u64, first_clock: u64, quota: Quota) -> Result<(), RequestError>
        requires { first_clock ≤ last_clock }
        ensures answer { AnswersUnless (admit_refusal slot self.old) result }
        ensures taken { IsTrue (is_taken slot self.old) →
            result ≡ Err (RequestError.Refused Fault.NoSlot) }
        ensures place { OnOk result
            (place_at slot self.new ≡ Some (place_for self.old.home first_clock quota)) }
        ensures empty { OnOk result (trail_of slot self.new.audit ≡ []) }
        ensures slots { OnOk result
            (length self.new.terms ≡ max (length self.old.terms) (slot + 1)) }
        ensures others { (other : ℕ) → other ≢ slot → IsSlotKept other self.old self.new }
        ensures home { self.new.home ≡ self.old.home }
        ensures err { OnErr result (self.new ≡ self.old) }
    {
        if self.is_taken(slot) {
            return Err(RequestError::Refused(Fault::NoSlot));
        }
        self.give(slot, first_clock, quota)?;
        Ok(())
    }

    // Gives a slot that is free to a tenant. Fails with `AllocError` if memory runs out.
    pub(crate) fn give(
        &mut self,
        slot: u64,
        first_clock: u64,
        quota: Quota,
    ) -> Result<(), AllocError>
        requires clock { first_clock ≤ last_clock }
        requires free { is_taken slot self.old ≡ false }
        ensures place { OnOk result
            (place_at slot self.new ≡ Some (place_for self.old.home first_clock quota)) }
        ensures empty { OnOk result (trail_of slot self.new.audit ≡ []) }
        ensures slots { OnOk result
            (length self.new.terms ≡ max (length self.old.terms) (slot + 1)) }
        ensures others { (other : ℕ) → other ≢ slot → IsSlotKept other self.old self.new }
        ensures home { self.new.home ≡ self.old.home }
        ensures err { OnErr result (self.new ≡ self.old) }
    {
        let terms = Terms { first_clock, quota };
        let slot = slot as usize;
        let part = parts::fresh(self.alloc, self.home.shape.data_centres, terms)?;
        self.storage.store.admit(slot)?;
        self.storage.outbox.admit(slot)?;
        let more = (slot + 1).saturating_sub(self.parts.len());
        parts::add_vacant(self.alloc, &mut self.parts, &mut self.audit, more)?;
        self.parts[slot] = Some(part);
        Ok(())
    }

    /// Drops a slot's tenant: its records, queues, clock, marks and audit. Allocates nothing. The
    /// call is not audited. Fails with `UnknownTenant` if the slot has no tenant.
    pub fn close(&mut self, slot: u64) -> Result<(), Fault>
        ensures vacant { place_at slot self.old ≡ None → result ≡ Err Fault.UnknownTenant }
        ensures open { IsSome (place_at slot self.old) → IsOk result }
        ensures place { place_at slot self.new ≡ None }
        ensures empty { trail_of slot self.new.audit ≡ [] }
        ensures slots { length self.new.terms ≡ length self.old.terms }
        ensures others { (other : ℕ) → other ≢ slot → IsSlotKept other self.old self.new }
        ensures home { self.new.home ≡ self.old.home }
        ensures err { OnErr result (self.new ≡ self.old) }
    {
        if parts::of(&self.parts, slot).is_none() {
            return Err(Fault::UnknownTenant);
        }
        let slot = slot as usize;
        self.storage.store.drop_slot(slot);
        self.storage.outbox.drop_slot(slot);
        self.audit.clear(slot);
        self.parts[slot] = None;
        Ok(())
    }

    /// Makes a call for the tenant of a slot. If the slot has no tenant or its audit is full, that
    /// is the reply and nothing changes; a full audit comes first, however much memory there is.
    /// Fails with `AllocError` if memory runs out; then nothing changed.
    pub fn step(&mut self, slot: u64, moment: u64, call: NodeCall) -> Result<NodeReply, AllocError>
        requires { IsTrue (fits (place_in self.old.home.shape self.old.home.id) call) }
        ensures turn { IfOk result (λ reply. (place : Place) → place_at slot self.old ≡ Some place →
            IsSoloTurn slot moment call reply place self.old self.new) }
        ensures noted { IfOk result (λ reply.
            IsSome (place_at slot self.old) → JoinsTrail slot moment call reply self.old self.new) }
        ensures full { (place : Place) → place_at slot self.old ≡ Some place →
            has_audit_room slot place self.old ≡ false →
            result ≡ Ok (NodeReply.Refused Fault.AuditFull) }
        ensures vacant { place_at slot self.old ≡ None →
            result ≡ Ok (NodeReply.Refused Fault.UnknownTenant) }
        ensures unchanged { place_at slot self.old ≡ None → self.new ≡ self.old }
        ensures others { (other : ℕ) → other ≢ slot →
            trail_of other self.new.audit ≡ trail_of other self.old.audit }
        ensures home { self.new.home ≡ self.old.home }
        ensures terms { self.new.terms ≡ self.old.terms }
        ensures err { OnErr result (self.new ≡ self.old) }
        ensures lacks { OnErr result (MayLack self.old slot call) }
    {
        if slot >= self.parts.len() as u64 {
            return Ok(NodeReply::Refused(Fault::UnknownTenant));
        }
        let slot = slot as usize;
        match &mut self.parts[slot] {
            Some(part) => {
                let reply = part_turns::turn(
                    self.alloc,
                    &self.home,
                    part,
                    &mut self.audit,
                    &mut self.storage,
                    Caller { slot, moment },
                    call,
                )?;
                Ok(reply)
            }
            None => Ok(NodeReply::Refused(Fault::UnknownTenant)),
        }
    }
}

impl Machine for Node {
    ghost use Rattle.cops_node.specs.Lacking.{MayLack};
    ghost use Rattle.cops_node.specs.Parts.{FitsNode, IsMachineTurn, home_in};

    type Call = NodeCall;

    type Reply = NodeReply;

    /// The node without its tenants.
    type Place = Home;

    ghost place = { home_in };

    ghost fits = { FitsNode };

    ghost turns = { IsMachineTurn };

    ghost may_lack = { MayLack };

    fn turn(&mut self, slot: u64, moment: u64, call: NodeCall) -> Result<NodeReply, AllocError> {
        self.step(slot, moment, call)
    }
}
