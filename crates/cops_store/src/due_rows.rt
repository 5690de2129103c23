//! The garbage-collection entries of all slots, in one table: those of a slot are linked.
ghost use Rattle.std.specs.Prelude.{◌≡◌, ◌<◌, ◌≤◌, ◌+◌, ◌^◌, ◌++◌, ◌∷◌, [], ℕ, false, min, count_by, is_some, slice_get, drop, OnOk, IsOk, IsTrue, Some};
ghost use Rattle.cops_store.specs.Contents.{is_ripe as may_go};
ghost use Rattle.cops_store.specs.Dues.{extended_dues as line_with, IsDueAdded, IsDueGone, IsDueLine, IsDueMoved, IsDueTurn, IsDueRowOf, due_cell, dues_in, next_due, no_dues, passed};
ghost use Rattle.slab.specs.Slab.{HasRoomFor, slab_len};

use crate::chain;
use crate::kept_due::KeptDue;
use crate::table::Due;
use cops_types::Key;
use slab::Slab;
use std::alloc::{AllocError, Global};
use std::boxed::Box;
use std::marker::Model;

/// A garbage-collection entry of a slot, and the place of the slot's next one.
#[derive(Debug, Drop)]
pub struct DueRow {
    pub slot: usize,
    pub due: KeptDue,
    pub next: usize,
}

/// The garbage-collection entries of a slot, in the order in which they were added: the places of
/// the first and the last, their number, and a timestamp before which nothing is stale.
#[derive(Clone, Copy, Debug)]
pub struct DueLine {
    pub first: usize,
    pub last: usize,
    pub count: usize,
    pub least: u64,
}

// Stores an entry of the slot in the table, and links it to the last one of the line.
fn link(rows: &mut Slab<DueRow>, line: &DueLine, slot: usize, due: KeptDue) -> usize
    requires room { HasRoomFor rows.old 1 }
    requires line { IsDueLine rows.old.slots slot line.now }
    ensures added { IsDueAdded rows.old.slots rows.new.slots slot line.now.last
        line.now.count result due }
    ensures len { slab_len rows.new ≡ slab_len rows.old + 1 }
{
    let at = rows.insert_reserved(DueRow { slot, due, next: 0 });
    if line.count > 0 {
        let last = &mut rows[line.last];
        last.next = at;
    }
    at
}

// Puts the first entry of a line behind the last, with another timestamp, and returns the place of
// the one that is then the first.
fn move_behind(rows: &mut Slab<DueRow>, first: usize, last: usize, stale: u64) -> usize
    requires first { (slot : ℕ) × IsDueRowOf rows.old.slots slot first }
    requires last { (slot : ℕ) × IsDueRowOf rows.old.slots slot last }
    ensures moved { IsDueMoved rows.old.slots rows.new.slots first last stale result }
    ensures len { slab_len rows.new ≡ slab_len rows.old }
    ensures capacity { rows.new.capacity ≡ rows.old.capacity }
{
    let end = &mut rows[last];
    end.next = first;
    // An entry that is alone has become its own next.
    let row = &mut rows[first];
    row.due.put_off(stale);
    row.next
}

// Removes an entry from the table, and returns the place of the line's next one.
fn release(rows: &mut Slab<DueRow>, first: usize) -> usize
    requires row { (slot : ℕ) × IsDueRowOf rows.old.slots slot first }
    ensures gone { IsDueGone rows.old.slots rows.new.slots first }
    ensures rest { result ≡ next_due (due_cell rows.old.slots first) }
    ensures len { slab_len rows.new + 1 ≡ slab_len rows.old }
    ensures room { HasRoomFor rows.new 1 }
{
    let row = rows.remove(first);
    row.next
}

impl DueLine {
    // Returns a line without entries.
    pub(crate) fn new() -> Self
        ensures { result ≡ no_dues }
    {
        DueLine {
            first: 0,
            last: 0,
            count: 0,
            least: u64::MAX,
        }
    }

    // Returns the line with one more row at its end.
    fn extended(&self, at: usize, stale: u64) -> DueLine
        requires { self.now.count + 1 < 2 ^ 64 }
        ensures { result ≡ line_with at stale self.now }
    {
        DueLine {
            first: if self.count == 0 { at } else { self.first },
            last: at,
            count: self.count + 1,
            least: self.least.min(stale),
        }
    }

    // Returns `true` if something may be removed.
    pub(crate) fn is_ripe(&self, now: u64, trans_time: u64) -> bool
        ensures { result ≡ may_go now trans_time (Some self.now.least) }
    {
        chain::is_ripe(Some(self.least), now, trans_time)
    }
}

/// The garbage-collection entries of all slots. Contracts see the entry at each place, and whether
/// room for one more is reserved.
#[derive(Debug, Drop)]
pub struct DueRows {
    rows: Slab<DueRow>,
    /// A block for the next long key.
    block: Option<Box<Key>>,
    /// There is room for one more entry. Entries that are removed make no difference to it, so a
    /// slot's room doesn't depend on the entries of others.
    is_ready: bool,
}

impl Model for DueRows {
    ghost use Rattle.std.specs.Prelude.{IsTrue, IsSome};
    ghost use Rattle.slab.specs.Slab.{HasRoomFor};
    ghost use Rattle.cops_store.specs.Dues.{Dues};

    ghost Value = { Dues };

    ghost view = { λ d. record { slots = d.rows.slots; room = d.is_ready } };

    ghost invariant = { λ d. IsTrue d.is_ready → HasRoomFor d.rows 1 × IsSome d.block };
}

impl DueRows {
    // Returns a table without entries. Allocates nothing.
    pub(crate) fn new(alloc: Global) -> Self
        ensures { result ≡ record { slots = []; room = false } }
    {
        DueRows {
            rows: Slab::new(alloc),
            block: None,
            is_ready: false,
        }
    }

    // Makes room for one more entry. Any key may fill the block.
    #[inline(always)]
    pub(crate) fn reserve(&mut self, alloc: Global, key: &Key) -> Result<(), AllocError>
        ensures slots { self.new.slots ≡ self.old.slots }
        ensures room { OnOk result (IsTrue self.new.room) }
        ensures succeeds { IsTrue self.old.room → IsOk result }
    {
        if !self.is_ready {
            self.rows.reserve(1)?;
            if self.block.is_none() {
                self.block = Some(Box::new(alloc, *key)?);
            }
            self.is_ready = true;
        }
        Ok(())
    }

    // Adds an entry of the slot at the end of its line, into reserved room.
    pub(crate) fn push(&mut self, line: &mut DueLine, slot: usize, due: Due)
        requires room { IsTrue self.old.room }
        requires line { IsDueLine self.old.slots slot line.old }
        requires counted { line.old.count ≤ count_by is_some self.old.slots }
        ensures turn { IsDueTurn self.old.slots self.new.slots slot line.old line.new }
        ensures dues { dues_in self.new.slots line.new
            ≡ dues_in self.old.slots line.old ++ due ∷ [] }
        ensures least { line.new.least ≡ min line.old.least due.stale }
    {
        let stale = due.stale;
        let kept = KeptDue::of(due, &mut self.block);
        let at = link(&mut self.rows, line, slot, kept);
        // No line has more rows than the table, so one more can be counted.
        let _rows = self.rows.len();
        *line = line.extended(at, stale);
        self.is_ready = false;
    }

    // Returns the first entry of a line.
    pub(crate) fn first(&self, line: &DueLine) -> &KeptDue
        requires line { (slot : ℕ) × IsDueLine self.now.slots slot line.now }
        requires some { 0 < line.now.count }
        ensures { slice_get (dues_in self.now.slots line.now) 0 ≡ Some result.now }
    {
        let row = &self.rows[line.first];
        &row.due
    }

    // Takes the first entry of a line to its end, with another timestamp.
    pub(crate) fn pass(&mut self, line: &mut DueLine, stale: u64)
        requires line { (slot : ℕ) × IsDueLine self.old.slots slot line.old }
        requires some { 0 < line.old.count }
        ensures turn { (slot : ℕ) → IsDueLine self.old.slots slot line.old →
            IsDueTurn self.old.slots self.new.slots slot line.old line.new }
        ensures dues { dues_in self.new.slots line.new
            ≡ passed stale (dues_in self.old.slots line.old) }
        ensures count { line.new.count ≡ line.old.count }
        ensures least { line.new.least ≡ line.old.least }
    {
        let at = line.first;
        line.first = move_behind(&mut self.rows, at, line.last, stale);
        line.last = at;
    }

    // Removes the first entry of a line.
    pub(crate) fn drop_first(&mut self, line: &mut DueLine)
        requires line { (slot : ℕ) × IsDueLine self.old.slots slot line.old }
        requires some { 0 < line.old.count }
        ensures turn { (slot : ℕ) → IsDueLine self.old.slots slot line.old →
            IsDueTurn self.old.slots self.new.slots slot line.old line.new }
        ensures dues { dues_in self.new.slots line.new ≡ drop 1 (dues_in self.old.slots line.old) }
        ensures count { line.new.count + 1 ≡ line.old.count }
        ensures least { line.new.least ≡ line.old.least }
        ensures room { self.new.room ≡ self.old.room }
    {
        line.first = release(&mut self.rows, line.first);
        line.count -= 1;
    }

    // Removes all entries of a line.
    pub(crate) fn clear(&mut self, line: &mut DueLine)
        requires line { (slot : ℕ) × IsDueLine self.old.slots slot line.old }
        ensures turn { (slot : ℕ) → IsDueLine self.old.slots slot line.old →
            IsDueTurn self.old.slots self.new.slots slot line.old line.new }
        ensures cleared { line.new ≡ no_dues }
        ensures room { self.new.room ≡ self.old.room }
    {
        for _row in 0..line.count {
            self.drop_first(line);
        }
        *line = DueLine::new();
    }
}
