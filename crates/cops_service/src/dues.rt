//! When each tenant's part of a node is due for garbage collection.
ghost use Rattle.std.specs.Prelude.{◌≡◌, ◌≢◌, ◌+◌, ◌-◌, ◌*◌, ◌/◌, ◌%◌, ◌^◌, ◌<◌, ◌≤◌, ◌↔◌, ◌⊎◌, [], None, false, true, min, slice_get, slice_set, IfOk, IfNone, IfSome, IsSomeAnd, IsTrue};
ghost use Rattle.std.specs.Duration.{as_nanos};
ghost use Rattle.std.specs.Vec.{vec_capacity, vec_len};
ghost use Rattle.cops_service.specs.Noted.{place_number};
ghost use Rattle.cops_service.specs.Dueness.{IsVisited, due_in_life};

use crate::notes::{Noted, Notes, Sizes, TenantNode, Visit};
use cops_types::Config;
use std::alloc::{AllocError, Global};
use std::time::Duration;

/// Means no time.
const NEVER: u64 = u64::MAX;

/// A failed collection is tried again after this many milliseconds.
const AGAIN: u64 = 1000;

/// The longest rest, in milliseconds.
const LONGEST_REST: u64 = 60_000;

/// The result of one collection.
#[derive(Clone, Copy)]
pub(crate) enum Collected {
    /// It removed this many versions.
    Removed(u64),
    /// It was refused.
    Refused,
}

#[derive(Clone, Copy)]
struct Due {
    // `true` if `kept` lists the place.
    is_kept: bool,
    // The life of its versions. The entry of an earlier life is forgotten.
    life: u64,
    // `true` if the place is to be collected at once.
    is_asked: bool,
    // When the oldest version that no collection has covered is due.
    at: u64,
    // When the latest version came.
    latest: u64,
}

impl Due {
    // Returns a place of this life that isn't due.
    fn none(life: u64) -> Due
        ensures { result ≡ record {
          is_kept = false;
          life = life;
          is_asked = false;
          at = NEVER;
          latest = 0;
        } }
    {
        Due {
            is_kept: false,
            life,
            is_asked: false,
            at: NEVER,
            latest: 0,
        }
    }

    // Returns the same place to be collected at once.
    fn asked(self) -> Due
        ensures { result ≡ record self { is_asked = true } }
    {
        Due {
            is_asked: true,
            ..self
        }
    }

    // Returns the same place after a version came at this time.
    fn grown(self, now: u64, trans_time: u64) -> Due
        ensures { result ≡ record self {
          latest = now;
          at = min self.at (min (now + trans_time + 1) NEVER);
        } }
    {
        Due {
            latest: now,
            at: self.at.min(due_after(now, trans_time)),
            ..self
        }
    }

    // Returns the same place after a collection at this time.
    fn collected(self, time: u64, came: Collected, trans_time: u64) -> Due
        ensures later { time < self.at → result ≡ record self { is_asked = false } }
        ensures refused { self.at ≤ time → came ≡ Collected.Refused →
            result ≡ record self { is_asked = false; at = min (time + AGAIN) NEVER } }
        ensures covered { self.at ≤ time → came ≢ Collected.Refused →
            min (self.latest + trans_time + 1) NEVER ≤ time →
            result ≡ record self { is_asked = false; at = NEVER } }
        ensures grown { self.at ≤ time → came ≢ Collected.Refused →
            time < min (self.latest + trans_time + 1) NEVER →
            result ≡ record self {
              is_asked = false;
              at = min (self.latest + trans_time + 1) NEVER;
            } }
    {
        let at = if self.at > time {
            self.at
        } else {
            match came {
                Collected::Refused => time.saturating_add(AGAIN),
                Collected::Removed(_) => due_again(self.latest, trans_time, time),
            }
        };
        Due {
            is_asked: false,
            at,
            ..self
        }
    }

    // Returns `true` if the place is due or to be collected at once.
    fn is_ready(&self, now: u64) -> bool
        ensures { IsTrue result ↔ IsTrue self.now.is_asked ⊎ (self.now.at ≤ now) }
    {
        self.is_asked || self.at <= now
    }
}

/// The places where a version may be stale, each with the time from which a collection removes it.
///
/// A collection covers each version that became stale longer ago than the transaction time. No call allocates.
#[derive(Drop)]
pub(crate) struct Dues {
    sizes: Sizes,
    trans_time: u64,
    dues: Vec<Due>,
    kept: Vec<TenantNode>,
    // A lower bound of the times at which kept places are due.
    next: u64,
}

impl Dues {
    /// Returns a schedule in which no place of the configuration is due.
    pub(crate) fn new(
        alloc: Global,
        config: &Config,
        sizes: Sizes,
        places: usize,
    ) -> Result<Self, AllocError>
        ensures places { IfOk result (λ dues. vec_len dues.dues ≡ places) }
        ensures none { IfOk result (λ dues. (dues.kept.items ≡ []) × (dues.next ≡ NEVER)) }
        ensures room { IfOk result (λ dues. places ≤ vec_capacity dues.kept) }
        ensures trans_time { IfOk result (λ dues. dues.trans_time ≡ config.now.trans_time) }
        ensures sizes { IfOk result (λ dues. dues.sizes ≡ sizes) }
    {
        let none = Due::none(0);
        Ok(Dues {
            sizes,
            trans_time: config.trans_time,
            dues: Vec::from_elem(alloc, none, places)?,
            kept: Vec::with_capacity(alloc, places)?,
            next: NEVER,
        })
    }

    /// Records that a version came at the place, or was refused by quota.
    pub(crate) fn note(&mut self, visit: &Visit, now: u64)
        ensures next { self.new.next ≤ self.old.next }
        ensures visited { let number = place_number self.old.sizes visit.now.place % 2 ^ 64 in
            IfSome (slice_get self.old.dues.items number) (λ due. IsSomeAnd
            (slice_get self.new.dues.items number)
            (IsVisited visit.now.at_once now self.old.trans_time
            (due_in_life visit.now.place.life due))) }
    {
        let number = visit.place.number(self.sizes) as usize;
        self.forget_earlier(&visit.place);
        let Some(due) = self.dues.get_mut(number) else {
            return;
        };
        if visit.at_once {
            *due = due.asked();
            self.next = 0;
        } else {
            *due = due.grown(now, self.trans_time);
            self.next = self.next.min(due.at);
        }
        let is_new = !due.is_kept && (due.is_asked || due.at != NEVER);
        if is_new && self.kept.len() < self.kept.capacity() {
            due.is_kept = true;
            self.kept.push_reserved(visit.place);
        }
    }

    // Forgets the place if something is due there of another life.
    fn forget_earlier(&mut self, place: &TenantNode)
        ensures next { self.new.next ≡ self.old.next }
        ensures settings { (self.new.sizes ≡ self.old.sizes)
            × (self.new.trans_time ≡ self.old.trans_time) }
        ensures forgotten { let number = place_number self.old.sizes place.now % 2 ^ 64 in
            IfSome (slice_get self.old.dues.items number) (λ due. self.new.dues.items
            ≡ slice_set self.old.dues.items number (due_in_life place.now.life due)) }
        ensures none { let number = place_number self.old.sizes place.now % 2 ^ 64 in
            IfNone (slice_get self.old.dues.items number)
            (self.new.dues.items ≡ self.old.dues.items) }
    {
        let sizes = self.sizes;
        let number = place.number(sizes);
        let Some(due) = self.dues.get_mut(number as usize) else {
            return;
        };
        if due.life == place.life {
            return;
        }
        let is_kept = due.is_kept;
        *due = Due::none(place.life);
        if is_kept {
            self.kept.retain(|other| other.number(sizes) != number);
        }
    }

    /// Returns the time until a place is due, if one will be.
    pub(crate) fn rest(&self, now: u64) -> Option<Duration>
        ensures never { self.now.next ≡ NEVER → result ≡ None }
        ensures rest { self.now.next ≢ NEVER → IsSomeAnd result (λ rest.
            as_nanos rest ≡ min (self.now.next - now) LONGEST_REST * 1_000_000) }
    {
        rest_until(self.next, now)
    }

    /// Lists the places that are due or to be collected at once. The list must be empty, with room for all.
    pub(crate) fn ready(&self, now: u64, ready: &mut Vec<TenantNode>)
        ensures { now < self.now.next → ready.new.items ≡ ready.old.items }
    {
        if now < self.next {
            return;
        }
        for place in self.kept.as_slice() {
            if self.is_ready(place, now) && ready.len() < ready.capacity() {
                ready.push_reserved(*place);
            }
        }
    }

    // Returns `true` if the place is due or to be collected at once.
    fn is_ready(&self, place: &TenantNode, now: u64) -> bool
        ensures ready { IsTrue result → IsSomeAnd
            (slice_get self.now.dues.items (place_number self.now.sizes place.now % 2 ^ 64))
            (λ due. IsTrue due.is_asked ⊎ (due.at ≤ now)) }
        ensures only { IfSome
            (slice_get self.now.dues.items (place_number self.now.sizes place.now % 2 ^ 64))
            (λ due. IsTrue due.is_asked ⊎ (due.at ≤ now) → IsTrue result) }
    {
        let due = self.dues.get(place.number(self.sizes) as usize);
        due.is_some_and(|due| due.is_ready(now))
    }

    /// Records a collection of the place at this time. A refused one is tried again after `AGAIN`.
    pub(crate) fn collected(&mut self, place: &TenantNode, time: u64, came: Collected)
        ensures { (self.new.kept.items ≡ self.old.kept.items) × (self.new.next ≡ self.old.next) }
    {
        let Some(due) = self.dues.get_mut(place.number(self.sizes) as usize) else {
            return;
        };
        *due = due.collected(time, came, self.trans_time);
    }

    /// Forgets the places where nothing is due.
    pub(crate) fn settle(&mut self) {
        let sizes = self.sizes;
        let dues = &mut self.dues;
        let mut next = NEVER;
        self.kept.retain(|place| match dues.get_mut(place.number(sizes) as usize) {
            Some(due) => {
                due.is_kept = due.at != NEVER;
                next = next.min(due.at);
                due.is_kept
            }
            None => false,
        });
        self.next = next;
    }
}

// Returns when a place is due again after a collection, from the time of its latest version.
fn due_again(latest: u64, trans_time: u64, time: u64) -> u64
    ensures later { time < min (latest + trans_time + 1) NEVER →
        result ≡ min (latest + trans_time + 1) NEVER }
    ensures never { min (latest + trans_time + 1) NEVER ≤ time → result ≡ NEVER }
{
    let at = due_after(latest, trans_time);
    if at > time { at } else { NEVER }
}

// Returns the time from which a collection removes what becomes stale at this time.
fn due_after(time: u64, trans_time: u64) -> u64
    ensures { result ≡ min (time + trans_time + 1) NEVER }
{
    time.saturating_add(trans_time).saturating_add(1)
}

/// Returns the time from `now` until `time`, or none if `time` never comes.
pub(crate) fn rest_until(time: u64, now: u64) -> Option<Duration>
    ensures never { time ≡ NEVER → result ≡ None }
    ensures rest { time ≢ NEVER → IsSomeAnd result (λ rest.
        as_nanos rest ≡ min (time - now) LONGEST_REST * 1_000_000) }
{
    if time == NEVER {
        return None;
    }
    Some(Duration::from_millis(time.saturating_sub(now).min(LONGEST_REST)))
}

/// The collector's state: the work items that it took, the places that it collects now, and what is due.
#[derive(Drop)]
pub(crate) struct Collecting {
    pub(crate) visits: Vec<Visit>,
    pub(crate) places: Vec<TenantNode>,
    pub(crate) dues: Dues,
}

impl Collecting {
    /// Returns a state in which nothing is due.
    pub(crate) fn new(alloc: Global, config: &Config, notes: &Notes) -> Result<Self, AllocError>
        ensures empty { IfOk result (λ work. (work.visits.items ≡ []) × (work.places.items ≡ [])) }
        ensures visits { IfOk result
            (λ work. vec_len notes.now.grown.are_listed ≤ vec_capacity work.visits) }
        ensures places { IfOk result (λ work. vec_capacity work.visits ≤ vec_capacity work.places) }
        ensures dues { IfOk result (λ work. vec_len work.dues.dues ≡ vec_capacity work.visits / 2) }
        ensures none { IfOk result (λ work. work.dues.next ≡ NEVER) }
    {
        let visits = notes.grown.room(alloc)?;
        let places = Vec::with_capacity(alloc, visits.capacity())?;
        let dues = Dues::new(alloc, config, notes.sizes, visits.capacity() / 2)?;
        Ok(Collecting {
            visits,
            places,
            dues,
        })
    }

    /// Records the work items that were taken, and lists the places to collect now.
    pub(crate) fn sort(&mut self, now: u64)
        ensures { self.new.visits.items ≡ [] }
    {
        for visit in self.visits.as_slice() {
            self.dues.note(visit, now);
        }
        self.visits.clear();
        self.places.clear();
        self.dues.ready(now, &mut self.places);
    }
}
