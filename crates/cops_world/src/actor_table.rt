//! The actors of all tenants: one table, by slot and name.
ghost use Rattle.std.specs.Option.{option_copied};
ghost use Rattle.std.specs.Prelude.{◌≡◌, ◌<◌, ◌+◌, [], replicate, is_some, Some, None, true, false, IfOk, OnErr};
ghost use Rattle.cops_world.specs.ActorTables.{IsClearedOf, Places, PutsBack, actor_at, count_at, actor_place};
ghost use Rattle.cops_world.specs.ActorsStand.{actor_ended};
ghost use Rattle.cops_world.specs.declared.actors.Actor.{Actor as Kept};

use crate::actors::{Actor, ActorId};
use crate::guesses::Guesses;
use crate::rings::{self, ActorRow, Ring};
use cops_types::Seeds;
use indexmap::IndexMap;
use std::alloc::{AllocError, Global};
use std::marker::Model;

/// The actors of all tenants. Contracts see each with its slot and its name, and the number of slots.
#[derive(Drop)]
pub struct ActorTable {
    rows: IndexMap<ActorId, ActorRow, Seeds>,
    rings: Vec<Ring>,
}

impl Model for ActorTable {
    ghost use Rattle.cops_world.specs.ActorRings.{AreKeptIn, table_in};
    ghost use Rattle.cops_world.specs.ActorTables.{Table};

    ghost Value = { Table };

    ghost view = { λ t. table_in t.rows.entries t.rings.items };

    ghost invariant = { λ t. AreKeptIn t.rows.entries t.rings.items };
}

impl ActorTable {
    ghost use Rattle.std.specs.Borrow.{Lends, sem};
    ghost use Rattle.indexmap.specs.IndexMap.{set_value_at};
    ghost use Rattle.cops_world.specs.contracts.actor_table.ActorTable.{the_row};
    ghost use Rattle.cops_world.specs.contracts.actors.Actor.{the_row as actor_row};

    /// Creates an empty table for this many slots. Fails with `AllocError` if memory runs out.
    ///
    /// Whoever does not know the seeds cannot choose names that collide.
    pub(crate) fn new(alloc: Global, slots: usize, seeds: Seeds) -> Result<Self, AllocError>
        ensures { IfOk result (λ table. table ≡ record { slots = slots; actors = [] }) }
    {
        let nothing = Ring { first: 0, count: 0 };
        Ok(ActorTable {
            rows: IndexMap::with_hasher(alloc, seeds),
            rings: vec![in alloc; nothing; slots]?,
        })
    }

    /// Returns the number of actors of a slot.
    pub(crate) fn count(&self, slot: u64) -> usize
        requires { slot < self.now.slots }
        ensures { result ≡ count_at self.now slot }
    {
        let ring = &self.rings[slot as usize];
        ring.count
    }

    /// Returns whether there is an actor of this slot and name.
    pub(crate) fn has(&self, id: &ActorId) -> bool
        ensures { result ≡ is_some (actor_at self.now id.now) }
    {
        self.rows.contains_key(id)
    }

    /// Returns the actor of this slot and name.
    pub(crate) fn actor(&self, id: &ActorId) -> Option<&Actor>
        ensures { option_copied result ≡ actor_at self.now id.now }
    {
        match self.rows.get(id) {
            Some(row) => Some(&row.actor),
            None => None,
        }
    }

    /// Returns the place of an actor. Hashes nothing if the cached index is right.
    #[inline(always)]
    pub(crate) fn place_of(&self, guess: usize, id: &ActorId) -> Option<usize>
        ensures index { result ≡ actor_place id.now self.now }
        ensures found { is_some result ≡ is_some (actor_at self.now id.now) }
    {
        match self.rows.get_index(guess) {
            Some((at, _)) if id == at => Some(guess),
            _ => self.rows.get_index_of(id),
        }
    }

    /// Lends the actor at a place.
    pub(crate) fn actor_mut(&mut self, place: usize, id: &ActorId) -> &mut Actor
        requires { Some place ≡ actor_place id.now self.old }
        ensures* lent { sem 𝓛 (Lends the_row actor_row self.entry result
            (λ actor. record self.old { actors = set_value_at self.old.actors place actor })) }
        ensures before { actor_at self.old id.now ≡ Some result.now }
        ensures back { (actor : Kept) → PutsBack self.old id.now actor
            (record self.old { actors = set_value_at self.old.actors place actor }) }
        ensures place { (actor : Kept) → Some place ≡ actor_place id.now
            (record self.old { actors = set_value_at self.old.actors place actor }) }
    {
        let row = &mut self.rows[place];
        &mut row.actor
    }

    /// Adds an actor behind the others, and caches its place, unless there is one of its slot and
    /// name. Returns whether it did. Fails with `AllocError` if memory runs out.
    pub(crate) fn put_new(
        &mut self,
        guesses: &mut Guesses,
        id: ActorId,
        actor: Actor,
    ) -> Result<bool, AllocError>
        requires slot { id.slot < self.old.slots }
        ensures free { IfOk result (λ added. added ≡ true → actor_at self.old id ≡ None) }
        ensures ok { IfOk result
            (λ added. added ≡ true → Places self.old id (Some actor) self.new) }
        ensures count { IfOk result
            (λ added. added ≡ true → count_at self.new id.slot ≡ count_at self.old id.slot + 1) }
        ensures taken { IfOk result
            (λ added. added ≡ false → is_some (actor_at self.old id) ≡ true) }
        ensures same { IfOk result (λ added. added ≡ false → self.new ≡ self.old) }
        ensures err { OnErr result (self.new ≡ self.old) }
        ensures lacks { OnErr result (actor_at self.old id ≡ None) }
    {
        guesses.note(Guesses::cell_of(&id), self.rows.len());
        rings::add(&mut self.rows, &mut self.rings, id, actor)
    }

    /// Returns whether the actor at a place is a carrier that has ended.
    pub(crate) fn has_ended(&self, place: usize, id: &ActorId) -> bool
        requires { Some place ≡ actor_place id.now self.now }
        ensures { (actor : Kept) → actor_at self.now id.now ≡ Some actor →
            result ≡ actor_ended actor }
    {
        let row = &self.rows[place];
        row.actor.has_ended()
    }

    /// Removes the actor at a place.
    pub(crate) fn take_out(&mut self, place: usize, id: &ActorId)
        requires { Some place ≡ actor_place id.now self.old }
        ensures out { Places self.old id.now None self.new }
        ensures count { count_at self.new id.now.slot + 1 ≡ count_at self.old id.now.slot }
    {
        rings::remove(&mut self.rows, &mut self.rings, place);
    }

    /// Removes all actors of a slot. Visits its own, and those that take their places.
    pub(crate) fn clear(&mut self, slot: u64)
        requires { slot < self.old.slots }
        ensures { IsClearedOf slot self.old self.new }
    {
        rings::clear(&mut self.rows, &mut self.rings, slot);
    }
}
