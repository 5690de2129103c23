//! Streams that wait for their next try, since their head could not be carried.
ghost use Rattle.std.specs.Prelude.{◌≡◌, ◌≢◌, ◌-◌, ◌*◌, ◌%◌, ◌^◌, ◌<◌, ◌≤◌, [], None, false, max, min, slice_get, slice_set, IfNone, IfOk, IfSome, IsSomeAnd};
ghost use Rattle.std.specs.Duration.{as_nanos};
ghost use Rattle.std.specs.Vec.{vec_capacity, vec_len};
ghost use Rattle.cops_service.specs.Dueness.{WaitsLonger, pause_in_life};
ghost use Rattle.cops_service.specs.Noted.{stream_number};

use crate::dues::rest_until;
use crate::notes::{Noted, Notes, Sizes, Stream};
use std::alloc::{AllocError, Global};
use std::sync::Wait;
use std::time::Duration;

/// The first pause before a stream is tried again, in milliseconds. Each later pause is twice as long.
const SHORTEST: u64 = 5;

/// The longest pause.
const LONGEST: u64 = 1000;

#[derive(Clone, Copy)]
struct Pause {
    is_kept: bool,
    // The life of its stream. The pause of an earlier life is forgotten.
    life: u64,
    // The pause's length.
    length: u64,
    // The pause ends then.
    over: u64,
}

/// Streams that wait, each for a pause. No call allocates.
#[derive(Drop)]
pub(crate) struct Waiting {
    sizes: Sizes,
    pauses: Vec<Pause>,
    kept: Vec<Stream>,
    // A lower bound of the ends of the pauses.
    next: u64,
}

impl Waiting {
    /// Returns a state in which no stream waits.
    pub(crate) fn new(alloc: Global, notes: &Notes, streams: usize) -> Result<Self, AllocError>
        ensures streams { IfOk result (λ waiting. vec_len waiting.pauses ≡ streams) }
        ensures none { IfOk result (λ waiting.
            (waiting.kept.items ≡ []) × (waiting.next ≡ 2 ^ 64 - 1)) }
        ensures room { IfOk result (λ waiting. streams ≤ vec_capacity waiting.kept) }
        ensures sizes { IfOk result (λ waiting. waiting.sizes ≡ notes.now.sizes) }
    {
        let none = Pause {
            is_kept: false,
            life: 0,
            length: 0,
            over: 0,
        };
        Ok(Waiting {
            sizes: notes.sizes,
            pauses: Vec::from_elem(alloc, none, streams)?,
            kept: Vec::with_capacity(alloc, streams)?,
            next: u64::MAX,
        })
    }

    /// Keeps a stream that could not be carried, for a pause twice as long as its last.
    pub(crate) fn keep(&mut self, stream: &Stream, now: u64)
        ensures next { self.new.next ≤ self.old.next }
        ensures kept { let number = stream_number self.old.sizes stream.now % 2 ^ 64 in
            IfSome (slice_get self.old.pauses.items number) (λ pause. IsSomeAnd
            (slice_get self.new.pauses.items number)
            (WaitsLonger now (pause_in_life stream.now.from.life pause))) }
    {
        self.forget_earlier(stream);
        let Some(pause) = self.pauses.get_mut(stream.number(self.sizes) as usize) else {
            return;
        };
        pause.length = longer(pause.length);
        pause.over = now.saturating_add(pause.length);
        self.next = self.next.min(pause.over);
        if !pause.is_kept && self.kept.len() < self.kept.capacity() {
            pause.is_kept = true;
            self.kept.push_reserved(*stream);
        }
    }

    // Forgets the stream if it waits in another life.
    fn forget_earlier(&mut self, stream: &Stream)
        ensures next { (self.new.next ≡ self.old.next) × (self.new.sizes ≡ self.old.sizes) }
        ensures forgotten { let number = stream_number self.old.sizes stream.now % 2 ^ 64 in
            IfSome (slice_get self.old.pauses.items number) (λ pause. self.new.pauses.items
            ≡ slice_set self.old.pauses.items number (pause_in_life stream.now.from.life pause)) }
        ensures none { let number = stream_number self.old.sizes stream.now % 2 ^ 64 in
            IfNone (slice_get self.old.pauses.items number)
            (self.new.pauses.items ≡ self.old.pauses.items) }
    {
        let sizes = self.sizes;
        let number = stream.number(sizes);
        let Some(pause) = self.pauses.get_mut(number as usize) else {
            return;
        };
        if pause.life == stream.life() {
            return;
        }
        let is_kept = pause.is_kept;
        *pause = Pause {
            is_kept: false,
            life: stream.life(),
            length: 0,
            over: pause.over,
        };
        if is_kept {
            self.kept.retain(|other| other.number(sizes) != number);
        }
    }

    /// Forgets a stream that went on, is empty, or whose life has ended.
    pub(crate) fn forget(&mut self, stream: &Stream)
        ensures next { (self.new.next ≡ self.old.next) × (self.new.sizes ≡ self.old.sizes) }
        ensures forgotten { let number = stream_number self.old.sizes stream.now % 2 ^ 64 in
            IfSome (slice_get self.old.pauses.items number) (λ pause. self.new.pauses.items
            ≡ slice_set self.old.pauses.items number
            (record pause { is_kept = false; length = 0 })) }
        ensures none { let number = stream_number self.old.sizes stream.now % 2 ^ 64 in
            IfNone (slice_get self.old.pauses.items number)
            (self.new.pauses.items ≡ self.old.pauses.items) }
    {
        let number = stream.number(self.sizes);
        let Some(pause) = self.pauses.get_mut(number as usize) else {
            return;
        };
        pause.length = 0;
        if !pause.is_kept {
            return;
        }
        pause.is_kept = false;
        let sizes = self.sizes;
        self.kept.retain(|other| other.number(sizes) != number);
    }

    /// Returns the time until a pause ends, if a stream waits.
    pub(crate) fn rest(&self, now: u64) -> Option<Duration>
        ensures never { self.now.next ≡ 2 ^ 64 - 1 → result ≡ None }
        ensures rest { self.now.next ≢ 2 ^ 64 - 1 → IsSomeAnd result (λ rest.
            as_nanos rest ≡ min (self.now.next - now) 60_000 * 1_000_000) }
    {
        rest_until(self.next, now)
    }

    /// Lists the streams whose pause is over as work items.
    pub(crate) fn note_ready<R: Wait>(&mut self, rt: &R, notes: &Notes, now: u64)
        ensures kept { self.new.kept.items ≡ self.old.kept.items }
        ensures none { now < self.old.next → self.new.next ≡ self.old.next }
        ensures later { self.old.next ≤ now → now ≤ self.new.next }
    {
        if now < self.next {
            return;
        }
        let mut next = u64::MAX;
        for stream in self.kept.as_slice() {
            match self.pauses.get(stream.number(self.sizes) as usize) {
                Some(pause) if pause.over > now => next = next.min(pause.over),
                _ => notes.sent.add(rt, *stream),
            }
        }
        self.next = next;
    }

    /// Lists this tenant's streams as work items.
    pub(crate) fn note_tenant<R: Wait>(&self, rt: &R, notes: &Notes, slot: u64, life: u64) {
        for stream in self.kept.as_slice() {
            if stream.from.slot == slot && stream.from.life == life {
                notes.sent.add(rt, *stream);
            }
        }
    }

    /// Lists all of them as work items.
    pub(crate) fn note_all<R: Wait>(&self, rt: &R, notes: &Notes) {
        for stream in self.kept.as_slice() {
            notes.sent.add(rt, *stream);
        }
    }
}

// Returns the pause after one of this length.
fn longer(length: u64) -> u64
    ensures { result ≡ max SHORTEST (min (length * 2) LONGEST) }
{
    length.saturating_mul(2).clamp(SHORTEST, LONGEST)
}
