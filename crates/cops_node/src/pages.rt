//! The audit of a node: the calls of all slots, in pages of one table.
ghost use Rattle.std.specs.Prelude.{◌≡◌, ℕ, suc, ◌+◌, ◌^◌, ◌<◌, ◌≤◌, true, [], ◌∷◌, ◌++◌, length, slice_get, slice_set, Some, IsSome, IsTrue, IfOk, OnOk, OnErr};
ghost use Rattle.std.specs.Option.{option_copied};
ghost use Rattle.cops_node.specs.Pages.{PAGE as SIZE, AreNumbered, IsEarlier, IsListTurn, IsPageAdded, IsPageChain, IsPageList, IsPageOf, IsRefilled, number_of_page, page_at, calls_in, calls_of_page, has_room_to, spare_in, spare_of};
ghost use Rattle.cops_node.specs.Parts.{no_calls, noted, trail_of};

use crate::AuditRow;
use slab::Slab;
use std::alloc::{AllocError, Global};
use std::marker::Model;

/// The number of calls in a full page.
const PAGE: usize = 128;

/// The first capacity of a page, except for a slot's first page, whose capacity grows from the
/// least.
const HALF_PAGE: usize = 64;

/// Some calls of one slot in order. A page has its number among the slot's pages, and the places of
/// the page before it and of an earlier one, at which a search skips those between.
#[derive(Debug, Drop)]
pub struct Page {
    pub rows: Vec<AuditRow>,
    pub slot: usize,
    pub number: u64,
    pub before: usize,
    pub skip: usize,
}

/// The pages of a slot: the place of the last one, and their number. Each but the last is full.
#[derive(Clone, Copy, Debug)]
pub struct PageList {
    pub last: usize,
    pub pages: u64,
}

/// The calls of all slots, with their replies: one table of pages. A page has calls of one slot; if
/// the slot is cleared, the page's place is free for any slot. Contracts see the calls of each
/// slot, and how many more can be appended without allocation.
#[derive(Debug, Drop)]
pub struct AuditPages {
    alloc: Global,
    pages: Slab<Page>,
    lists: Vec<PageList>,
}

impl Model for AuditPages {
    ghost use Rattle.std.specs.Prelude.{map};
    ghost use Rattle.cops_node.specs.Pages.{ArePages, AuditLists, calls_in, spare_for};

    ghost Value = { AuditLists };

    ghost view = { λ a. record { trails = map (calls_in a.pages.slots) a.lists.items; spare = map (spare_for a.pages.slots) a.lists.items } };

    ghost invariant = { λ a. ArePages a.pages.slots a.lists.items };
}

// Returns a list without pages.
fn no_list() -> PageList
    ensures { result ≡ record { last = 0; pages = 0 } }
{
    PageList { last: 0, pages: 0 }
}

// Returns `true` if the list has a last page that is not full.
#[inline(always)]
fn has_room(pages: &Slab<Page>, list: &PageList) -> bool
    requires { (slot : ℕ) × IsPageList pages.now.slots slot list.now }
    ensures { result ≡ has_room_to pages.now.slots list.now.pages list.now.last }
{
    if list.pages == 0 {
        return false;
    }
    let page = &pages[list.last];
    page.rows.len() < PAGE
}

// Returns the number of calls in the pages of the list.
#[inline(always)]
fn count_of(pages: &Slab<Page>, list: &PageList) -> u64
    requires { (slot : ℕ) × IsPageList pages.now.slots slot list.now }
    ensures { result ≡ length (calls_in pages.now.slots list.now) }
{
    if list.pages == 0 {
        return 0;
    }
    let page = &pages[list.last];
    (list.pages - 1) * (PAGE as u64) + page.rows.len() as u64
}

// Returns the number of the page at a place.
fn number_at(pages: &Slab<Page>, at: usize) -> u64
    requires { IsSome (page_at pages.now.slots at) }
    ensures { result ≡ number_of_page (page_at pages.now.slots at) }
{
    let page = &pages[at];
    page.number
}

// Reserves memory for one more call in a page.
fn widen(pages: &mut Slab<Page>, at: usize) -> Result<(), AllocError>
    requires { IsSome (page_at pages.old.slots at) }
    ensures ok { OnOk result (length (calls_of_page (page_at pages.old.slots at)) < SIZE →
        0 < spare_in (page_at pages.new.slots at)) }
    ensures calls { IsRefilled pages.old.slots pages.new.slots at
        (calls_of_page (page_at pages.old.slots at)) }
{
    let page = &mut pages[at];
    page.rows.reserve(1)
}

// Appends a call to a page, into reserved memory.
fn append(pages: &mut Slab<Page>, at: usize, row: AuditRow)
    requires { 0 < spare_in (page_at pages.old.slots at) }
    ensures { IsRefilled pages.old.slots pages.new.slots at
        (calls_of_page (page_at pages.old.slots at) ++ row ∷ []) }
{
    let page = &mut pages[at];
    page.rows.push_reserved(row);
}

// Returns the page to which the page behind the last one skips. The distances are such that a
// search takes steps in the logarithm of the number of pages.
fn skip_behind(pages: &Slab<Page>, list: &PageList) -> usize
    requires { (slot rows : ℕ) × IsPageChain pages.now.slots slot rows list.now.pages list.now.last
        × AreNumbered pages.now.slots slot }
    ensures { (slot rows : ℕ) → IsPageChain pages.now.slots slot rows list.now.pages list.now.last →
        IsEarlier pages.now.slots slot list.now.pages result }
{
    if list.pages == 0 {
        return list.last;
    }
    let last = &pages[list.last];
    if last.number == 0 {
        return list.last;
    }
    let near = &pages[last.skip];
    if near.number == 0 {
        return list.last;
    }
    let far = &pages[near.skip];
    if last.number - near.number == near.number - far.number {
        near.skip
    } else {
        list.last
    }
}

// Makes a new page, without calls and with room for one at least, the last of the list.
fn add_page(
    alloc: Global,
    pages: &mut Slab<Page>,
    list: &mut PageList,
    slot: usize,
) -> Result<(), AllocError>
    requires list { IsPageList pages.old.slots slot list.old }
    requires full { IsPageChain pages.old.slots slot SIZE list.old.pages list.old.last }
    ensures ok { OnOk result (IsPageAdded pages.old.slots pages.new.slots slot list.old list.new) }
    ensures spare { OnOk result (0 < spare_in (page_at pages.new.slots list.new.last)) }
    ensures err { OnErr result ((pages.new.slots ≡ pages.old.slots) × (list.new ≡ list.old)) }
{
    let old = *list;
    let mut rows = Vec::new(alloc);
    rows.reserve(if old.pages == 0 { 1 } else { HALF_PAGE })?;
    pages.reserve(1)?;
    let skip = skip_behind(pages, list);
    let at = pages.insert_reserved(Page {
        slot,
        number: old.pages,
        before: old.last,
        skip,
        rows,
    });
    *list = PageList {
        last: at,
        pages: old.pages + 1,
    };
    Ok(())
}

// Returns a page before the one at `at`, and not before the one of this number.
fn earlier(pages: &Slab<Page>, at: usize, number: u64) -> usize
    requires { (slot n rows : ℕ) × IsPageChain pages.now.slots slot rows (suc n) at
        × AreNumbered pages.now.slots slot × (number < n) }
    ensures { (slot n rows : ℕ) → IsPageChain pages.now.slots slot rows (suc n) at →
        AreNumbered pages.now.slots slot → number < n → (m rows' : ℕ)
        × IsPageChain pages.now.slots slot rows' (suc m) result × (number ≤ m) × (m < n) }
{
    let page = &pages[at];
    let skipped = &pages[page.skip];
    if skipped.number >= number {
        page.skip
    } else {
        page.before
    }
}

// Returns the place of the page of this number, among those of the slot up to the one at `last`.
fn find(pages: &Slab<Page>, last: usize, number: u64) -> usize
    requires { (slot n rows : ℕ) × IsPageChain pages.now.slots slot rows (suc n) last
        × AreNumbered pages.now.slots slot × (number ≤ n) }
    ensures { (slot n rows : ℕ) → IsPageChain pages.now.slots slot rows (suc n) last →
        AreNumbered pages.now.slots slot → number ≤ n →
        IsPageOf pages.now.slots slot number result }
{
    let mut at = last;
    while number_at(pages, at) > number {
        at = earlier(pages, at, number);
    }
    at
}

// Returns `true` if the slot's page of this number is at a place.
fn is_page_of(pages: &Slab<Page>, slot: usize, number: u64, at: usize) -> bool
    ensures { IsTrue result → IsPageOf pages.now.slots slot number at }
{
    match pages.get(at) {
        Some(page) => page.slot == slot && page.number == number,
        None => false,
    }
}

// Returns the place of the page of this number, as `find` does. Looks at the place `cached` first.
fn find_cached(pages: &Slab<Page>, slot: usize, last: usize, number: u64, cached: usize) -> usize
    requires { (n rows : ℕ) × IsPageChain pages.now.slots slot rows (suc n) last
        × AreNumbered pages.now.slots slot × (number ≤ n) }
    ensures { IsPageOf pages.now.slots slot number result }
{
    if is_page_of(pages, slot, number, cached) {
        return cached;
    }
    find(pages, last, number)
}

// Removes the pages of a list from the table.
fn free(pages: &mut Slab<Page>, list: &mut PageList)
    requires { (slot : ℕ) × IsPageList pages.old.slots slot list.old }
    ensures turn { (slot : ℕ) → IsPageList pages.old.slots slot list.old →
        IsListTurn pages.old.slots pages.new.slots slot list.new }
    ensures none { list.new.pages ≡ 0 }
{
    for _page in 0..list.pages {
        let page = pages.remove(list.last);
        list.last = page.before;
    }
    list.pages = 0;
}

impl AuditPages {
    /// Returns an audit for this many slots, without calls. Fails with `AllocError` if memory runs
    /// out.
    pub fn new(alloc: Global, slots: usize) -> Result<Self, AllocError>
        ensures { IfOk result (λ audit. audit.trails ≡ no_calls slots) }
    {
        Ok(AuditPages {
            alloc,
            pages: Slab::new(alloc),
            lists: vec![in alloc; no_list(); slots]?,
        })
    }

    /// Returns the number of slots.
    pub fn slots(&self) -> usize
        ensures { result ≡ length self.now.trails }
    {
        self.lists.len()
    }

    /// Adds slots without calls. Fails with `AllocError` if memory runs out.
    pub fn add_slots(&mut self, more: usize) -> Result<(), AllocError>
        ensures ok { OnOk result (self.new.trails ≡ self.old.trails ++ no_calls more) }
        ensures err { OnErr result (self.new ≡ self.old) }
    {
        let mut added = vec![in self.alloc; no_list(); more]?;
        self.lists.append(&mut added)?;
        Ok(())
    }

    /// Returns the number of calls of a slot.
    pub fn len(&self, slot: usize) -> u64
        ensures { result ≡ length (trail_of slot self.now.trails) }
    {
        match self.lists.get(slot) {
            Some(list) => count_of(&self.pages, list),
            None => 0,
        }
    }

    /// Returns the call of a slot at an index, which counts from 0.
    pub fn get(&self, slot: usize, place: u64) -> Option<&AuditRow>
        ensures { option_copied result ≡ slice_get (trail_of slot self.now.trails) place }
    {
        let list = match self.lists.get(slot) {
            Some(list) => *list,
            None => return None,
        };
        if place >= count_of(&self.pages, &list) {
            return None;
        }
        let at = find(&self.pages, list.last, place / (PAGE as u64));
        let page = &self.pages[at];
        page.rows.get(place as usize % PAGE)
    }

    /// Returns the call of a slot at an index, as `get` does. `cached` may be any number; it becomes the
    /// place of the call's page, so the next call of that page is found without a search.
    pub fn get_cached(&self, slot: usize, place: u64, cached: &mut usize) -> Option<&AuditRow>
        ensures { option_copied result ≡ slice_get (trail_of slot self.now.trails) place }
    {
        let list = match self.lists.get(slot) {
            Some(list) => *list,
            None => return None,
        };
        if place >= count_of(&self.pages, &list) {
            return None;
        }
        let number = place / (PAGE as u64);
        let there = find_cached(&self.pages, slot, list.last, number, *cached);
        *cached = there;
        let page = &self.pages[there];
        page.rows.get(place as usize % PAGE)
    }

    /// Reserves memory for one more call of a slot. Fails with `AllocError` if memory runs out.
    pub fn reserve(&mut self, slot: usize) -> Result<(), AllocError>
        requires { slot < length self.old.trails }
        ensures ok { OnOk result (0 < spare_of slot self.new) }
        ensures trails { self.new.trails ≡ self.old.trails }
    {
        let list = &mut self.lists[slot];
        if has_room(&self.pages, list) {
            widen(&mut self.pages, list.last)
        } else {
            add_page(self.alloc, &mut self.pages, list, slot)?;
            Ok(())
        }
    }

    /// Appends a call of a slot, into reserved memory.
    pub fn push(&mut self, slot: usize, row: AuditRow)
        requires slot { slot < length self.old.trails }
        requires room { 0 < spare_of slot self.old }
        requires countable { length (trail_of slot self.old.trails) + 1 < 2 ^ 64 }
        ensures { self.new.trails ≡ noted slot row self.old.trails }
    {
        let list = &mut self.lists[slot];
        append(&mut self.pages, list.last, row);
    }

    /// Drops all calls of a slot, and gives its pages back. Allocates nothing.
    pub fn clear(&mut self, slot: usize)
        requires { slot < length self.old.trails }
        ensures { self.new.trails ≡ slice_set self.old.trails slot [] }
    {
        free(&mut self.pages, &mut self.lists[slot]);
    }
}

#[cfg(test)]
impl AuditPages {
    // Returns the number of places in the table, used or free.
    pub(crate) fn places(&self) -> usize {
        self.pages.capacity()
    }
}
