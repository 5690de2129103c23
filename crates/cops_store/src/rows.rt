//! The rows of the table that all slots share: a chain each, with its slot and key.
ghost use Rattle.std.specs.Prelude.{◌≡◌, ◌<◌, ◌≤◌, ◌+◌, ℕ, List, not, filter, false, true, IfOk, IfSome, IsOk, IsTrue, OnOk, OnErr, None, Some};
ghost use Rattle.std.specs.List.{IsDistinct};
ghost use Rattle.std.specs.Map.{keys_of};
ghost use Rattle.std.specs.Option.{option_copied};
ghost use Rattle.indexmap.specs.IndexMap.{index_map_len};
ghost use Rattle.cops_store.specs.Chains.{KeptChain, Rises, is_covered, placed};
ghost use Rattle.cops_store.specs.Contents.{is_ripe as may_go};
ghost use Rattle.cops_store.specs.Tables.{AreCountable, IsFreed, chains_of, with_key};
ghost use Rattle.cops_store.specs.Lines.{same_place, row_of, chain_in, linked_in, HasRecordRoom, IsRowLine, IsAt, IsNewRow, IsRechained, IsLineTurn};

use crate::chain::Chain;
use crate::links::Link;
use crate::usage::InUse;
use cops_types::{Key, Record, Seeds};
use indexmap::map::Entry as Place;
use indexmap::{Equivalent, IndexMap};
use std::alloc::{AllocError, Global};
use std::hash::{Hash, Hasher};
use std::mem::replace;

/// A key of a slot.
#[derive(Clone, Copy, Debug, PartialEq, Eq)]
pub struct SlotKey {
    pub slot: usize,
    pub key: Key,
}

/// A key of a slot that is only looked up, and not copied.
#[derive(Clone, Copy, PartialEq, Eq)]
pub(crate) struct SlotKeyRef<'a> {
    pub slot: usize,
    pub key: &'a Key,
}

impl Hash for SlotKey {
    ghost use Rattle.std.proofs.Common.{ap};
    ghost use Rattle.cops_types.specs.KeyHashes.{hashed_key_in};
    ghost use Rattle.cops_store.specs.declared.rows.SlotKey.{SlotKey};
    ghost use Rattle.cops_store.specs.Places.{same_place_is};

    ghost hash_input = { λ place. hashed_key_in place.slot place.key };

    ghost respects_eq = { λ place other same. ap (λ (p : SlotKey). hashed_key_in p.slot p.key) (same_place_is place other same) };

    #[inline(always)]
    fn hash<H: Hasher>(&self, state: &mut H) {
        self.key.hash_in(self.slot as u64, state);
    }
}

impl Hash for SlotKeyRef<'_> {
    ghost use Rattle.std.proofs.Common.{ap};
    ghost use Rattle.cops_types.specs.KeyHashes.{hashed_key_in};
    ghost use Rattle.cops_store.specs.declared.rows.SlotKey.{SlotKey};
    ghost use Rattle.cops_store.specs.Places.{same_place_is};

    ghost hash_input = { λ q. hashed_key_in q.slot q.key.now };

    ghost respects_eq = { λ q other same. ap (λ (p : SlotKey). hashed_key_in p.slot p.key) (same_place_is (record { slot = q.slot; key = q.key.now }) (record { slot = other.slot; key = other.key.now }) same) };

    #[inline(always)]
    fn hash<H: Hasher>(&self, state: &mut H) {
        self.key.hash_in(self.slot as u64, state);
    }
}

impl Equivalent<SlotKey> for SlotKeyRef<'_> {
    ghost use Rattle.std.proofs.Common.{ap};
    ghost use Rattle.cops_types.specs.KeyHashes.{hashed_key_in};
    ghost use Rattle.cops_store.specs.declared.rows.SlotKey.{SlotKey};
    ghost use Rattle.cops_store.specs.Places.{same_place_is};

    ghost equivalent = { λ q. same_place (record { slot = q.slot; key = q.key.now }) };

    // A copied key of that slot is hashed alike, and is equal to the same ones.
    ghost respects_hash = { λ q place same. ap (λ (p : SlotKey). hashed_key_in p.slot p.key) (same_place_is (record { slot = q.slot; key = q.key.now }) place same) };

    ghost respects_eq = { λ q place other same. ap (λ (p : SlotKey). same_place p other) (same_place_is (record { slot = q.slot; key = q.key.now }) place same) };

    fn equivalent(&self, place: &SlotKey) -> bool {
        self.slot == place.slot && *self.key == place.key
    }
}

/// A chain, and the key of the slot's next one.
#[derive(Drop)]
pub struct Row {
    pub chain: Chain,
    pub next: Link,
}

/// The chains of a slot: the key of the first, and their number.
#[derive(Drop)]
pub struct Line {
    pub first: Link,
    pub count: usize,
}

// Returns a line without chains. Allocates nothing.
pub(crate) fn no_chains() -> Line
    ensures { result ≡ record { first = None; count = 0 } }
{
    Line {
        first: Link::end(),
        count: 0,
    }
}

// Returns `true` if the row of the slot's key is at that index.
#[inline(always)]
fn is_at(rows: &IndexMap<SlotKey, Row, Seeds>, index: usize, slot: usize, key: &Key) -> bool
    ensures { IsTrue result → IsAt rows.now.entries index slot key.now }
{
    match rows.get_index(index) {
        Some((at, _)) => at.slot == slot && *key == at.key,
        None => false,
    }
}

// Returns the chain of the slot's key. Hashes nothing if the guess is right.
#[inline(always)]
pub(crate) fn chain_of<'a>(
    rows: &'a IndexMap<SlotKey, Row, Seeds>,
    guess: usize,
    slot: usize,
    key: &Key,
) -> Option<&'a Chain>
    ensures value { option_copied result ≡ chain_in (row_of rows.now.entries slot key.now) }
{
    match rows.get_index(guess) {
        Some((at, row)) if at.slot == slot && *key == at.key => Some(&row.chain),
        _ => looked_up(rows, slot, key),
    }
}

// Returns the chain of the slot's key, wherever it is.
#[inline(never)]
fn looked_up<'a>(
    rows: &'a IndexMap<SlotKey, Row, Seeds>,
    slot: usize,
    key: &Key,
) -> Option<&'a Chain>
    ensures value { option_copied result ≡ chain_in (row_of rows.now.entries slot key.now) }
{
    match rows.get(SlotKeyRef { slot, key }) {
        Some(row) => Some(&row.chain),
        None => None,
    }
}

// Returns the index of the slot's key. Hashes nothing if the guess is right.
pub(crate) fn index_of(
    rows: &IndexMap<SlotKey, Row, Seeds>,
    guess: usize,
    slot: usize,
    key: &Key,
) -> Option<usize>
    ensures at { IfSome result (λ i. IsAt rows.now.entries i slot key.now) }
    ensures none { result ≡ None → row_of rows.now.entries slot key.now ≡ None }
{
    if is_at(rows, guess, slot, key) {
        return Some(guess);
    }
    rows.get_index_of(SlotKeyRef { slot, key })
}

// Makes room for one more record of the slot's key, and returns the index of its row. Tries the
// guess first, which may be any number.
#[inline(always)]
pub(crate) fn make_room(
    alloc: Global,
    rows: &mut IndexMap<SlotKey, Row, Seeds>,
    line: &mut Line,
    guess: usize,
    slot: usize,
    key: &Key,
) -> Result<usize, AllocError>
    requires line { IsRowLine (row_of rows.old.entries slot) line.old }
    requires unique { IsDistinct same_place (keys_of rows.old.entries) }
    requires counted { line.old.count ≤ index_map_len rows.old }
    ensures at { IfOk result (λ i. IsAt rows.new.entries i slot key.now) }
    ensures turn { IsLineTurn rows.old.entries rows.new.entries slot line.old line.new }
    ensures chains { OnOk result (chains_of (linked_in (row_of rows.new.entries slot) line.new)
        ≡ with_key key.now (chains_of (linked_in (row_of rows.old.entries slot) line.old))) }
    ensures err { OnErr result (chains_of (linked_in (row_of rows.new.entries slot) line.new)
        ≡ chains_of (linked_in (row_of rows.old.entries slot) line.old)) }
    ensures room { OnOk result (HasRecordRoom (chain_in (row_of rows.new.entries slot key.now))) }
    ensures succeeds { HasRecordRoom (chain_in (row_of rows.old.entries slot key.now)) →
        IsOk result }
{
    if is_at(rows, guess, slot, key) {
        let row = &mut rows[guess];
        row.chain.reserve()?;
        return Ok(guess);
    }
    find_room(alloc, rows, line, slot, key)
}

// Makes room for one more record of the slot's key, wherever its row is, and returns the index.
// Hashes the key once.
#[inline(never)]
fn find_room(
    alloc: Global,
    rows: &mut IndexMap<SlotKey, Row, Seeds>,
    line: &mut Line,
    slot: usize,
    key: &Key,
) -> Result<usize, AllocError>
    requires line { IsRowLine (row_of rows.old.entries slot) line.old }
    requires counted { line.old.count ≤ index_map_len rows.old }
    ensures at { IfOk result (λ i. IsAt rows.new.entries i slot key.now) }
    ensures turn { IsLineTurn rows.old.entries rows.new.entries slot line.old line.new }
    ensures chains { OnOk result (chains_of (linked_in (row_of rows.new.entries slot) line.new)
        ≡ with_key key.now (chains_of (linked_in (row_of rows.old.entries slot) line.old))) }
    ensures err { OnErr result (chains_of (linked_in (row_of rows.new.entries slot) line.new)
        ≡ chains_of (linked_in (row_of rows.old.entries slot) line.old)) }
    ensures room { OnOk result (HasRecordRoom (chain_in (row_of rows.new.entries slot key.now))) }
    ensures succeeds { HasRecordRoom (chain_in (row_of rows.old.entries slot key.now)) →
        IsOk result }
{
    let (i, is_new) = find_or_add(alloc, rows, &mut line.first, slot, key)?;
    if is_new {
        // No line has more rows than the table, so one more can be counted.
        let _rows = rows.len();
        line.count += 1;
        return Ok(i);
    }
    let row = &mut rows[i];
    row.chain.reserve()?;
    Ok(i)
}

// Returns the index of the slot's key, and whether it is new: without a row, adds one whose chain
// has room for a record, as the first of its line.
fn find_or_add(
    alloc: Global,
    rows: &mut IndexMap<SlotKey, Row, Seeds>,
    first: &mut Link,
    slot: usize,
    key: &Key,
) -> Result<(usize, bool), AllocError>
    ensures at { IfOk result (λ found. IsAt rows.new.entries found.0 slot key.now) }
    ensures there { IfOk result (λ found.
        found.1 ≡ false → (rows.new.entries ≡ rows.old.entries) × (first.new ≡ first.old)) }
    ensures added { IfOk result
        (λ found. found.1 ≡ true → IsNewRow rows.old.entries rows.new.entries slot key.now first.old
        × (first.new ≡ Some key.now)) }
    ensures err { OnErr result ((rows.new.entries ≡ rows.old.entries) × (first.new ≡ first.old)) }
    ensures lacks { OnErr result (row_of rows.old.entries slot key.now ≡ None) }
    ensures unique { IsDistinct same_place (keys_of rows.new.entries) }
{
    match rows.entry(SlotKey { slot, key: *key })? {
        Place::Occupied(place) => Ok((place.index(), false)),
        Place::Vacant(place) => {
            let link = Link::to(alloc, key)?;
            let i = place.index();
            let row = Row {
                chain: Chain::new(alloc),
                next: replace(first, link),
            };
            place.insert(row);
            Ok((i, true))
        }
    }
}

// Adds a record to the chain at the index, into reserved room. Returns `true` if something becomes
// stale that is not noted.
pub(crate) fn put(rows: &mut IndexMap<SlotKey, Row, Seeds>, i: usize, record_of: Record) -> bool
    requires at { (slot : ℕ) × (key : List ℕ) × IsAt rows.old.entries i slot key
        × HasRecordRoom (chain_in (row_of rows.old.entries slot key))
        × IfSome (chain_in (row_of rows.old.entries slot key)) (λ chain. Rises chain.items) }
    requires unique { IsDistinct same_place (keys_of rows.old.entries) }
    ensures { (slot : ℕ) (key : List ℕ) → IsAt rows.old.entries i slot key → (old : KeptChain)
        × (new : KeptChain) × IsRechained rows.old.entries rows.new.entries slot key old new
        × (new.items ≡ placed record_of old.items)
        × (result ≡ not (is_covered record_of.at old.items)) }
{
    let row = &mut rows[i];
    let is_due = !row.chain.is_covered(record_of.at);
    row.chain.put(record_of);
    is_due
}

// Removes what may go from the chain at the index, and returns its use.
pub(crate) fn clean_at(
    rows: &mut IndexMap<SlotKey, Row, Seeds>,
    i: usize,
    now: u64,
    trans_time: u64,
) -> InUse
    requires at { (slot : ℕ) × (key : List ℕ) × IsAt rows.old.entries i slot key
        × IfSome (chain_in (row_of rows.old.entries slot key)) (λ chain. AreCountable chain.items) }
    requires unique { IsDistinct same_place (keys_of rows.old.entries) }
    ensures { (slot : ℕ) (key : List ℕ) → IsAt rows.old.entries i slot key → (old : KeptChain)
        × (new : KeptChain) × IsRechained rows.old.entries rows.new.entries slot key old new
        × (new.items ≡ filter (λ k. not (may_go now trans_time k.stale)) old.items)
        × IsFreed result old.items new.items }
{
    let row = &mut rows[i];
    row.chain.clean(now, trans_time)
}

// Removes the first row of a slot's line.
fn release(rows: &mut IndexMap<SlotKey, Row, Seeds>, slot: usize, line: &mut Line)
    requires line { IsRowLine (row_of rows.old.entries slot) line.old }
    requires unique { IsDistinct same_place (keys_of rows.old.entries) }
    requires some { 0 < line.old.count }
    ensures turn { IsLineTurn rows.old.entries rows.new.entries slot line.old line.new }
    ensures count { line.new.count + 1 ≡ line.old.count }
{
    let key = line.first.key().unwrap();
    let place = SlotKeyRef { slot, key: &key };
    let row = rows.swap_remove(place).unwrap();
    line.first = row.next;
    line.count -= 1;
}

// Removes all rows of a slot's line.
pub(crate) fn clear(rows: &mut IndexMap<SlotKey, Row, Seeds>, slot: usize, line: &mut Line)
    requires line { IsRowLine (row_of rows.old.entries slot) line.old }
    requires unique { IsDistinct same_place (keys_of rows.old.entries) }
    ensures turn { IsLineTurn rows.old.entries rows.new.entries slot line.old line.new }
    ensures count { line.new.count ≡ 0 }
{
    for _row in 0..line.count {
        release(rows, slot, line);
    }
}
