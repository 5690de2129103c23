//! Cached indices of all slots' keys in their table.

use crate::rows::{Row, SlotKey};
use cops_types::{Key, Seeds};
use indexmap::IndexMap;
use std::alloc::{AllocError, Global};
use std::hash::{FoldHasher, Hasher};

/// The number of cells in a bucket.
const CELLS: usize = 4;

/// The number of buckets for the first keys.
const FEWEST: usize = 2;

/// The indices at which keys were found last. A bucket has those of several keys, the latest first.
/// A cell has an index in its low bits and some of the key's hash in the others. It may hold any
/// number: the caller compares the key at the index.
#[derive(Drop)]
pub struct Guesses {
    /// A power of two of buckets, or none.
    buckets: Vec<[u32; CELLS]>,
    /// The low bits of a cell: as many as number the cells.
    low: u32,
}

/// The bucket of a slot's key, and bits of which its cell has the high ones. Both are from a hash
/// that takes no seeds: keys that share it only share a bucket.
#[derive(Clone, Copy)]
pub(crate) struct Place {
    bucket: usize,
    high: u32,
}

// Returns a number that depends on the slot and the key alone.
#[inline(always)]
fn number_of(slot: usize, key: &Key) -> u64 {
    let mut hasher = FoldHasher::default();
    key.hash_in(slot as u64, &mut hasher);
    hasher.finish()
}

impl Guesses {
    // Returns an empty cache. Allocates nothing.
    pub(crate) fn new(alloc: Global) -> Self {
        Guesses {
            buckets: Vec::new(alloc),
            low: 0,
        }
    }

    // Returns the place of a slot's key.
    #[inline(always)]
    pub(crate) fn place_of(&self, slot: usize, key: &Key) -> Place {
        let number = number_of(slot, key);
        Place {
            bucket: number as usize & (self.low as usize / CELLS),
            high: ((number >> 32) & 0xFFFF_FFFF) as u32,
        }
    }

    // Returns the index in a cell of that place, or any other.
    #[inline(always)]
    pub(crate) fn guess(&self, place: Place) -> usize {
        match self.buckets.get(place.bucket) {
            Some(cells) => {
                let cell = matching(cells, place.high, self.low);
                (cell & self.low) as usize
            }
            None => 0,
        }
    }

    // Returns the cached index for a slot's key.
    #[inline(always)]
    pub(crate) fn guess_for(&self, slot: usize, key: &Key) -> usize {
        self.guess(self.place_of(slot, key))
    }

    // Stores an index as the latest of a bucket, whose oldest leaves, unless it was guessed.
    #[inline(always)]
    pub(crate) fn note(&mut self, place: Place, guess: usize, index: usize) {
        if guess != index {
            self.enter(place, index);
        }
    }

    // Stores an index as the latest of a bucket, whose oldest leaves.
    #[inline(always)]
    fn enter(&mut self, place: Place, index: usize) {
        let high = place.high & !self.low;
        let low = (index & 0xFFFF_FFFF) as u32 & self.low;
        if let Some(cells) = self.buckets.get_mut(place.bucket) {
            let [first, second, third, _] = *cells;
            *cells = [high | low, first, second, third];
        }
    }

    // Makes enough cells for one key more than the table has.
    #[inline(always)]
    pub(crate) fn reserve(
        &mut self,
        rows: &IndexMap<SlotKey, Row, Seeds>,
    ) -> Result<(), AllocError> {
        if rows.len() / (CELLS / 2) < self.buckets.len() {
            return Ok(());
        }
        self.grow(rows)
    }

    // Doubles the number of cells, or makes the first, and enters the keys of the table.
    #[inline(never)]
    fn grow(&mut self, rows: &IndexMap<SlotKey, Row, Seeds>) -> Result<(), AllocError> {
        let buckets = self.buckets.len().saturating_mul(2).max(FEWEST);
        let alloc = *self.buckets.allocator();
        self.buckets = vec![in alloc; [0; CELLS]; buckets]?;
        self.low = (buckets.saturating_mul(CELLS).saturating_sub(1) & 0xFFFF_FFFF) as u32;
        for index in 0..rows.len() {
            if let Some((at, _)) = rows.get_index(index) {
                let place = self.place_of(at.slot, &at.key);
                self.enter(place, index);
            }
        }
        Ok(())
    }
}

// Returns the first cell with these high bits, or the last one.
#[inline(always)]
fn matching(cells: &[u32; CELLS], high: u32, low: u32) -> u32 {
    let [first, second, third, last] = *cells;
    if first ^ high <= low {
        return first;
    }
    if second ^ high <= low {
        return second;
    }
    if third ^ high <= low {
        return third;
    }
    last
}
