//! The rows of all tenants' actors: those of a slot are linked in a ring.
ghost use Rattle.std.specs.Prelude.{◌≡◌, ◌<◌, ◌+◌, ◌-◌, ◌^◌, ◌==◌, ℕ, None, Some, true, false, is_some, length, slice_get, slice_set, if◌then◌else◌, IfOk, OnErr, OnOk};
ghost use Rattle.std.specs.List.{IsDistinct, swap_remove};
ghost use Rattle.std.specs.Map.{keys_of, lookup};
ghost use Rattle.std.specs.Option.{option_map};
ghost use Rattle.indexmap.specs.IndexMap.{index_map_len, insert_entry};
ghost use Rattle.cops_world.specs.ActorTables.{IsClearedOf, Places, actor_at, count_at, same_actor};
ghost use Rattle.cops_world.specs.ActorRings.{AreKeptIn, AreRings, Links, actors_in, first_in, holed, linked, links_at, longer, passed_to, ring_at, table_in};
ghost use Rattle.cops_world.specs.declared.actors.ActorId.{ActorId as Id};
ghost use Rattle.cops_world.specs.declared.rings.ActorRow.{ActorRow as Row};

use crate::actors::{Actor, ActorId};
use cops_types::Seeds;
use indexmap::IndexMap;
use indexmap::map::Entry as Place;
use std::alloc::AllocError;

/// An actor, and the places of the rows before and behind it in the ring of its slot.
#[derive(Drop)]
pub struct ActorRow {
    pub actor: Actor,
    pub before: usize,
    pub behind: usize,
}

/// The ring of a slot: the place of a row in it, and the number of its rows.
#[derive(Clone, Copy, Debug)]
pub struct Ring {
    pub first: usize,
    pub count: usize,
}

// Makes two rows neighbours.
fn link(rows: &mut IndexMap<ActorId, ActorRow, Seeds>, at: usize, next: usize)
    requires at { at < index_map_len rows.old }
    requires next { next < index_map_len rows.old }
    ensures actors { actors_in rows.new.entries ≡ actors_in rows.old.entries }
    ensures links { (place : ℕ) → links_at rows.new.entries place
        ≡ option_map (linked at next place) (links_at rows.old.entries place) }
{
    let row = &mut rows[at];
    row.behind = next;
    let row = &mut rows[next];
    row.before = at;
}

// Makes the neighbours of a row neighbours of each other.
fn pass_over(rows: &mut IndexMap<ActorId, ActorRow, Seeds>, place: usize)
    requires place { place < index_map_len rows.old }
    requires before { (own : Links) → links_at rows.old.entries place ≡ Some own →
        own.before < index_map_len rows.old }
    requires behind { (own : Links) → links_at rows.old.entries place ≡ Some own →
        own.behind < index_map_len rows.old }
    ensures actors { actors_in rows.new.entries ≡ actors_in rows.old.entries }
    ensures links { (own : Links) → links_at rows.old.entries place ≡ Some own →
        (q : ℕ) → links_at rows.new.entries q
        ≡ option_map (linked own.before own.behind q) (links_at rows.old.entries q) }
{
    let row = &rows[place];
    let before = row.before;
    let behind = row.behind;
    link(rows, before, behind);
}

// Makes the neighbours of a row those of another place.
fn hand_over(rows: &mut IndexMap<ActorId, ActorRow, Seeds>, from: usize, to: usize)
    requires from { from < index_map_len rows.old }
    requires to { to < index_map_len rows.old }
    requires before { (own : Links) → links_at rows.old.entries from ≡ Some own →
        own.before < index_map_len rows.old }
    requires behind { (own : Links) → links_at rows.old.entries from ≡ Some own →
        own.behind < index_map_len rows.old }
    ensures actors { actors_in rows.new.entries ≡ actors_in rows.old.entries }
    ensures links { (own : Links) → links_at rows.old.entries from ≡ Some own →
        (q : ℕ) → links_at rows.new.entries q
        ≡ option_map (λ l. linked to own.behind q (linked own.before to q l))
        (links_at rows.old.entries q) }
{
    let row = &rows[from];
    let before = row.before;
    let behind = row.behind;
    link(rows, before, to);
    link(rows, to, behind);
}

// Lets a ring begin elsewhere if it began at this place.
fn begin_behind(rings: &mut Vec<Ring>, slot: u64, from: usize, to: usize)
    requires { slot < length rings.old.items }
    ensures { rings.new.items
        ≡ slice_set rings.old.items slot (passed_to from to (ring_at slot rings.old.items)) }
{
    let ring = &mut rings[slot as usize];
    if ring.first == from {
        ring.first = to;
    }
}

// Returns the slot of a row.
fn slot_of(rows: &IndexMap<ActorId, ActorRow, Seeds>, place: usize) -> u64
    requires { place < index_map_len rows.now }
    ensures { (own : Links) → links_at rows.now.entries place ≡ Some own → result ≡ own.slot }
{
    match rows.get_index(place) {
        Some((id, _)) => id.slot,
        None => unreachable!(),
    }
}

// Takes a row out of the ring of its slot.
fn take_out(rows: &mut IndexMap<ActorId, ActorRow, Seeds>, rings: &mut Vec<Ring>, place: usize)
    requires place { place < index_map_len rows.old }
    requires rings { AreRings (links_at rows.old.entries) (length rings.old.items)
        (first_in rings.old.items) }
    ensures actors { actors_in rows.new.entries ≡ actors_in rows.old.entries }
    ensures rings { AreRings (holed place (links_at rows.new.entries)) (length rings.new.items)
        (first_in rings.new.items) }
    ensures len { length rings.new.items ≡ length rings.old.items }
    ensures counts { (slot : ℕ) →
        (ring_at slot rings.new.items).count ≡ (ring_at slot rings.old.items).count }
{
    let slot = slot_of(rows, place);
    let row = &rows[place];
    let behind = row.behind;
    pass_over(rows, place);
    begin_behind(rings, slot, place, behind);
}

// Makes the neighbours of the last row those of a place that is in no ring, unless it is the last.
fn make_way(rows: &mut IndexMap<ActorId, ActorRow, Seeds>, rings: &mut Vec<Ring>, place: usize)
    requires place { place < index_map_len rows.old }
    requires rings { AreRings (holed place (links_at rows.old.entries)) (length rings.old.items)
        (first_in rings.old.items) }
    ensures actors { actors_in rows.new.entries ≡ actors_in rows.old.entries }
    ensures rings { (e : ActorId × Row) → AreRings (links_at (swap_remove rows.new.entries place e))
        (length rings.new.items) (first_in rings.new.items) }
    ensures len { length rings.new.items ≡ length rings.old.items }
    ensures counts { (slot : ℕ) →
        (ring_at slot rings.new.items).count ≡ (ring_at slot rings.old.items).count }
{
    let last = rows.len() - 1;
    if last == place {
        return;
    }
    let slot = slot_of(rows, last);
    hand_over(rows, last, place);
    begin_behind(rings, slot, last, place);
}

// Removes the row at a place. The last row takes its place.
#[inline(never)]
pub(crate) fn remove(
    rows: &mut IndexMap<ActorId, ActorRow, Seeds>,
    rings: &mut Vec<Ring>,
    place: usize,
)
    requires place { place < index_map_len rows.old }
    requires kept { AreKeptIn rows.old.entries rings.old.items }
    ensures kept { AreKeptIn rows.new.entries rings.new.items }
    ensures out { (id : Id) (row : Row) → slice_get rows.old.entries place ≡ Some (id, row) →
        Places (table_in rows.old.entries rings.old.items) id None
        (table_in rows.new.entries rings.new.items) }
    ensures count { (id : Id) (row : Row) → slice_get rows.old.entries place ≡ Some (id, row) →
        count_at (table_in rows.new.entries rings.new.items) id.slot + 1
        ≡ count_at (table_in rows.old.entries rings.old.items) id.slot }
{
    let slot = slot_of(rows, place);
    take_out(rows, rings, place);
    make_way(rows, rings, place);
    let ring = &mut rings[slot as usize];
    ring.count -= 1;
    let _over = rows.swap_remove_index(place);
}

// Puts a row between the last and the first of a ring, or makes it the ring's only row.
fn lead_in(rows: &mut IndexMap<ActorId, ActorRow, Seeds>, ring: &mut Ring, at: usize)
    requires at { at < index_map_len rows.old }
    requires counted { ring.old.count + 1 < 2 ^ 64 }
    requires first { 0 < ring.old.count → ring.old.first < index_map_len rows.old }
    requires before { 0 < ring.old.count → (own : Links) →
        links_at rows.old.entries ring.old.first ≡ Some own → own.before < index_map_len rows.old }
    ensures ring { ring.new ≡ longer at ring.old }
    ensures actors { actors_in rows.new.entries ≡ actors_in rows.old.entries }
    ensures alone { ring.old.count ≡ 0 → rows.new.entries ≡ rows.old.entries }
    ensures links { 0 < ring.old.count → (own : Links) →
        links_at rows.old.entries ring.old.first ≡ Some own →
        (q : ℕ) → links_at rows.new.entries q
        ≡ option_map (λ l. linked at ring.old.first q (linked own.before at q l))
        (links_at rows.old.entries q) }
{
    if ring.count == 0 {
        ring.first = at;
        ring.count = 1;
        return;
    }
    ring.count += 1;
    let first = ring.first;
    let row = &rows[first];
    let last = row.before;
    link(rows, last, at);
    link(rows, at, first);
}

// Adds a row behind the others, unless there is one of its slot and name. Returns whether it did.
// Fails with `AllocError` if memory runs out. Hashes once.
fn append(
    rows: &mut IndexMap<ActorId, ActorRow, Seeds>,
    id: ActorId,
    row: ActorRow,
) -> Result<bool, AllocError>
    ensures free { IfOk result
        (λ added. added ≡ true → lookup (same_actor id) rows.old.entries ≡ None) }
    ensures entries { IfOk result (λ added.
        added ≡ true → rows.new.entries ≡ insert_entry same_actor rows.old.entries id row) }
    ensures updates { IfOk result
        (λ added. added ≡ true → (q : Id) → lookup (same_actor q) rows.new.entries
        ≡ (if same_actor id q then Some row else lookup (same_actor q) rows.old.entries)) }
    ensures taken { IfOk result
        (λ added. added ≡ false → is_some (lookup (same_actor id) rows.old.entries) ≡ true) }
    ensures same { IfOk result (λ added. added ≡ false → rows.new.entries ≡ rows.old.entries) }
    ensures err { OnErr result (rows.new.entries ≡ rows.old.entries) }
    ensures lacks { OnErr result (lookup (same_actor id) rows.old.entries ≡ None) }
    ensures unique { IsDistinct same_actor (keys_of rows.new.entries) }
{
    match rows.entry(id)? {
        Place::Occupied(_place) => Ok(false),
        Place::Vacant(place) => {
            place.insert(row);
            Ok(true)
        }
    }
}

// Adds an actor behind the others, unless there is one of its slot and name. Returns whether it did.
// Fails with `AllocError` if memory runs out, and changes nothing then.
pub(crate) fn add(
    rows: &mut IndexMap<ActorId, ActorRow, Seeds>,
    rings: &mut Vec<Ring>,
    id: ActorId,
    actor: Actor,
) -> Result<bool, AllocError>
    requires slot { id.slot < length rings.old.items }
    requires kept { AreKeptIn rows.old.entries rings.old.items }
    ensures kept { AreKeptIn rows.new.entries rings.new.items }
    ensures free { IfOk result
        (λ added. added ≡ true → actor_at (table_in rows.old.entries rings.old.items) id ≡ None) }
    ensures ok { IfOk result
        (λ added. added ≡ true → Places (table_in rows.old.entries rings.old.items) id (Some actor)
        (table_in rows.new.entries rings.new.items)) }
    ensures count { IfOk result
        (λ added. added ≡ true → count_at (table_in rows.new.entries rings.new.items) id.slot
        ≡ count_at (table_in rows.old.entries rings.old.items) id.slot + 1) }
    ensures taken { IfOk result (λ added.
        added ≡ false → is_some (actor_at (table_in rows.old.entries rings.old.items) id) ≡ true) }
    ensures same { IfOk result (λ added. added ≡ false →
        table_in rows.new.entries rings.new.items ≡ table_in rows.old.entries rings.old.items) }
    ensures err { OnErr result
        (table_in rows.new.entries rings.new.items ≡ table_in rows.old.entries rings.old.items) }
    ensures lacks { OnErr result (actor_at (table_in rows.old.entries rings.old.items) id ≡ None) }
{
    let at = rows.len();
    let slot = id.slot as usize;
    let row = ActorRow {
        actor,
        before: at,
        behind: at,
    };
    let added = append(rows, id, row)?;
    if !added {
        return Ok(false);
    }
    let ring = &mut rings[slot];
    lead_in(rows, ring, at);
    Ok(true)
}

// Removes all rows of a slot, and visits no others but those that take their places.
pub(crate) fn clear(rows: &mut IndexMap<ActorId, ActorRow, Seeds>, rings: &mut Vec<Ring>, slot: u64)
    requires slot { slot < length rings.old.items }
    requires kept { AreKeptIn rows.old.entries rings.old.items }
    ensures kept { AreKeptIn rows.new.entries rings.new.items }
    ensures cleared { IsClearedOf slot (table_in rows.old.entries rings.old.items)
        (table_in rows.new.entries rings.new.items) }
{
    while rings[slot as usize].count > 0 {
        let ring = rings[slot as usize];
        remove(rows, rings, ring.first);
    }
}
