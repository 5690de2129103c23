//! The table of all entries that wait, and the line of each slot in it.
ghost use Rattle.std.specs.Prelude.{◌≡◌, ◌≢◌, ℕ, ◌+◌, ◌-◌, ◌<◌, ◌≤◌, ◌^◌, ◌==◌, ◌++◌, [], ◌∷◌, drop, length, slice_index_or, count_by, is_some, if◌then◌else◌, Some, None, IfOk, nat_le, not, ◌&&◌};
ghost use Rattle.std.specs.Option.{option_copied};
ghost use Rattle.std.specs.List.{list_any, range_with_len, AllByRecursion};
ghost use Rattle.slab.specs.Slab.{HasRoomFor, slab_len};
ghost use Rattle.cops_outbox.specs.Queues.{is_front};
ghost use Rattle.cops_outbox.specs.Lines.{IsAdded, IsCleared, IsEmpty, IsGone, IsLine, IsLonger, IsNeeded, IsQueueChain, IsRowOf, IsShorter, cell_at, entries_in, extended as span_with, next_in, nowhere, span_at};
ghost use Rattle.cops_model.specs.SoloNode.{front};

use cops_types::{Entry, Version};
use slab::Slab;
use std::alloc::{AllocError, Global};

/// An entry of a slot, and the place of the slot's next one.
#[derive(Debug, Drop)]
pub struct Row {
    pub slot: usize,
    pub entry: Entry,
    pub next: usize,
}

/// The last rows of a line: the place of the first of them, and their number.
#[derive(Clone, Copy, Debug)]
pub struct Span {
    pub first: usize,
    pub count: usize,
}

/// The rows of a slot: the place of the last, the span of all stored rows, and those that each data
/// centre has not acknowledged.
#[derive(Debug, Drop)]
pub struct Line {
    pub last: usize,
    pub kept: Span,
    pub waits: Vec<Span>,
}

// Returns a line without rows.
pub(crate) fn empty(alloc: Global, data_centres: usize) -> Result<Line, AllocError>
    ensures { IfOk result (IsEmpty data_centres) }
{
    let nowhere = Span { first: 0, count: 0 };
    Ok(Line {
        last: 0,
        kept: nowhere,
        waits: vec![in alloc; nowhere; data_centres]?,
    })
}

// Returns this many lines without rows.
pub(crate) fn empty_lines(
    alloc: Global,
    data_centres: usize,
    count: usize,
) -> Result<Vec<Line>, AllocError>
    ensures empty { IfOk result (λ lines. AllByRecursion (IsEmpty data_centres) lines.items) }
    ensures len { IfOk result (λ lines. length lines.items ≡ count) }
{
    let mut lines = Vec::new(alloc);
    for _slot in 0..count {
        lines.push(empty(alloc, data_centres)?)?;
    }
    Ok(lines)
}

// Returns the span with one more row at its end.
fn extended(span: Span, at: usize) -> Span
    requires { span.count + 1 < 2 ^ 64 }
    ensures { result ≡ span_with at span }
{
    Span {
        first: if span.count == 0 { at } else { span.first },
        count: span.count + 1,
    }
}

// Adds a row to those that wait for each data centre except the own.
fn extend_all(waits: &mut [Span], own: u64, at: usize)
    requires { (dc : ℕ) (d : Span) → dc < length waits.old →
        (slice_index_or waits.old dc d).count + 1 < 2 ^ 64 }
    ensures { (dc : ℕ) (d : Span) → dc < length waits.old →
        slice_index_or waits.new dc d ≡ (if dc == own then slice_index_or waits.old dc d
        else span_with at (slice_index_or waits.old dc d)) }
{
    for dc in 0..waits.len() {
        if dc as u64 != own {
            waits[dc] = extended(waits[dc], at);
        }
    }
}

// Stores an entry of the slot in the table, and links it to the last one of the line.
fn link(rows: &mut Slab<Row>, line: &Line, slot: usize, entry: Entry) -> usize
    requires room { HasRoomFor rows.old 1 }
    requires line { IsQueueChain rows.old.slots slot line.now.last line.now.kept.count
        line.now.kept.first }
    ensures added { IsAdded rows.old.slots rows.new.slots slot line.now.last
        line.now.kept.count result entry }
    ensures len { slab_len rows.new ≡ slab_len rows.old + 1 }
{
    let at = rows.insert_reserved(Row {
        slot,
        entry,
        next: 0,
    });
    if line.kept.count > 0 {
        let last = &mut rows[line.last];
        last.next = at;
    }
    at
}

// Appends an entry of the slot to the line, into reserved room.
#[inline(always)]
pub(crate) fn add(rows: &mut Slab<Row>, line: &mut Line, own: u64, slot: usize, entry: Entry)
    requires room { HasRoomFor rows.old 1 }
    requires line { IsLine rows.old.slots own (length line.old.waits.items) slot line.old }
    requires counted { line.old.kept.count ≤ slab_len rows.old }
    requires needed { IsNeeded line.old }
    requires another { (dc : ℕ) × (dc < length line.old.waits.items) × (dc ≢ own) }
    ensures longer { IsLonger rows.old.slots rows.new.slots own slot entry line.old line.new }
    ensures needed { IsNeeded line.new }
{
    let at = link(rows, line, slot, entry);
    // No line has more rows than the table, so one more can be counted.
    let _rows = rows.len();
    line.kept = extended(line.kept, at);
    extend_all(&mut line.waits, own, at);
    line.last = at;
}

// Removes the first row of a line from the table, and returns the rest of the line.
fn release(rows: &mut Slab<Row>, kept: Span) -> Span
    requires row { (slot : ℕ) × IsRowOf rows.old.slots slot kept.first }
    requires some { 0 < kept.count }
    ensures gone { IsGone rows.old.slots rows.new.slots kept.first }
    ensures rest { result
        ≡ record { first = next_in (cell_at rows.old.slots kept.first); count = kept.count - 1 } }
    ensures len { slab_len rows.new + 1 ≡ slab_len rows.old }
{
    let row = rows.remove(kept.first);
    Span {
        first: row.next,
        count: kept.count - 1,
    }
}

// Returns `true` if a data centre has not acknowledged exactly this many.
fn is_waited_for(waits: &[Span], count: usize) -> bool
    ensures { result ≡ list_any (λ (s : Span). s.count == count) waits.now }
{
    waits.iter().any(|span| span.count == count)
}

// Returns the span without its first row.
fn shortened(rows: &Slab<Row>, span: Span) -> Span
    requires row { (slot : ℕ) × IsRowOf rows.now.slots slot span.first }
    requires some { 0 < span.count }
    ensures { result
        ≡ record { first = next_in (cell_at rows.now.slots span.first); count = span.count - 1 } }
{
    let row = &rows[span.first];
    Span {
        first: row.next,
        count: span.count - 1,
    }
}

// Advances the data centre to the next entry; one that all have passed leaves the table.
pub(crate) fn pass(rows: &mut Slab<Row>, line: &mut Line, dc: usize)
    requires dc { dc < length line.old.waits.items }
    requires some { 0 < (span_at dc line.old).count }
    requires line { (own slot : ℕ)
        × IsLine rows.old.slots own (length line.old.waits.items) slot line.old }
    requires needed { IsNeeded line.old }
    ensures needed { IsNeeded line.new }
    ensures shorter { (own slot : ℕ) →
        IsLine rows.old.slots own (length line.old.waits.items) slot line.old →
        IsShorter rows.old.slots rows.new.slots own slot dc line.old line.new }
{
    line.waits[dc] = shortened(rows, line.waits[dc]);
    if !is_waited_for(&line.waits, line.kept.count) {
        line.kept = release(rows, line.kept);
    }
}

// Leaves no row waiting for any data centre.
fn forget_all(waits: &mut [Span])
    ensures { (dc : ℕ) (d : Span) → dc < length waits.old →
        slice_index_or waits.new dc d ≡ nowhere }
{
    for dc in 0..waits.len() {
        waits[dc] = Span { first: 0, count: 0 };
    }
}

// Removes all rows of a line from the table.
pub(crate) fn clear(rows: &mut Slab<Row>, line: &mut Line)
    requires line { (own slot : ℕ)
        × IsLine rows.old.slots own (length line.old.waits.items) slot line.old }
    ensures cleared { (own slot : ℕ) →
        IsLine rows.old.slots own (length line.old.waits.items) slot line.old →
        IsCleared rows.old.slots rows.new.slots own slot line.old line.new }
{
    forget_all(&mut line.waits);
    for _row in 0..line.kept.count {
        line.kept = release(rows, line.kept);
    }
}

// Returns the first entry that waits for a data centre.
pub(crate) fn first<'a>(rows: &'a Slab<Row>, line: &Line, dc: usize) -> Option<&'a Entry>
    requires dc { dc < length line.now.waits.items }
    requires line { (own slot : ℕ)
        × IsLine rows.now.slots own (length line.now.waits.items) slot line.now }
    ensures { option_copied result ≡ front (entries_in rows.now.slots (span_at dc line.now)) }
{
    let span = line.waits[dc];
    if span.count == 0 {
        return None;
    }
    let row = &rows[span.first];
    Some(&row.entry)
}

// Returns `true` if the first entry that waits for a data centre has this version.
pub(crate) fn is_first(rows: &Slab<Row>, line: &Line, dc: usize, version: Version) -> bool
    requires dc { dc < length line.now.waits.items }
    requires line { (own slot : ℕ)
        × IsLine rows.now.slots own (length line.now.waits.items) slot line.now }
    ensures { result ≡ is_front version (front (entries_in rows.now.slots (span_at dc line.now))) }
{
    match first(rows, line, dc) {
        Some(entry) => entry.version() == version,
        None => false,
    }
}

// Returns how many entries wait for a data centre.
pub(crate) fn count(line: &Line, dc: usize) -> usize
    requires { dc < length line.now.waits.items }
    ensures { result ≡ (span_at dc line.now).count }
{
    let span = line.waits[dc];
    span.count
}

// Returns `true` if `limit` entries wait for a data centre except the own.
pub(crate) fn is_any_full(waits: &[Span], own: u64, limit: u64) -> bool
    ensures { result ≡ list_any
        (λ dc. not (dc == own) && nat_le limit (slice_index_or waits.now dc nowhere).count)
        (range_with_len 0 (length waits.now)) }
{
    for (dc, span) in waits.iter().enumerate() {
        if dc as u64 != own && span.count as u64 >= limit {
            return true;
        }
    }
    false
}
