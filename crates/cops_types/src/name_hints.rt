//! Cached slots of names: a name that is often looked up is not hashed in full.

use std::alloc::{AllocError, Global};

/// The number of cached slots.
const HINTS: usize = 1024;

/// The slot that was cached last for the names of each cell. Several names share a cell, so the
/// caller checks the slot's name. A wrong slot costs only time.
#[derive(Debug, Drop)]
pub struct NameHints {
    slots: Vec<u64>,
}

impl NameHints {
    /// Returns an empty cache.
    pub(crate) fn new(alloc: Global) -> Result<Self, AllocError> {
        Ok(NameHints {
            slots: vec![in alloc; 0; HINTS]?,
        })
    }

    /// Returns the cached slot for the name, which may be wrong.
    pub(crate) fn slot(&self, name: &[u8]) -> u64 {
        match self.slots.get(cell_of(name)) {
            Some(slot) => *slot,
            None => 0,
        }
    }

    /// Caches the slot of a name.
    pub(crate) fn note(&mut self, name: &[u8], slot: u64) {
        if let Some(hint) = self.slots.get_mut(cell_of(name)) {
            *hint = slot;
        }
    }
}

/// Returns the index of the cell for a name. Names that differ in length, first byte or last two
/// bytes mostly get different cells.
fn cell_of(name: &[u8]) -> usize {
    match name {
        [first, .., before, last] => {
            let ends = usize::from(*first) * 29 + usize::from(*before) * 32 + usize::from(*last);
            (ends + name.len() % HINTS * 263) % HINTS
        }
        [first, last] => (usize::from(*first) * 32 + usize::from(*last)) % HINTS,
        [only] => usize::from(*only),
        [] => 0,
    }
}
