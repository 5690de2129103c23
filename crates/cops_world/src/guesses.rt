//! Cached indices: where each actor was last in the table.
ghost use Rattle.std.specs.Prelude.{◌≡◌, ◌<◌, replicate, slice_index_or, slice_set, IfOk};

use crate::actors::ActorId;
use std::alloc::{AllocError, Global};
use std::hash::{FoldHasher, Hash, Hasher};

/// The size of the cache.
const GUESSES: usize = 1024;

/// Where actors joined, or were found last. Several share an entry, so it may be any number.
#[derive(Drop)]
pub struct Guesses {
    places: Vec<usize>,
}

impl Guesses {
    /// Creates a cache that says nothing yet.
    pub(crate) fn new(alloc: Global) -> Result<Self, AllocError>
        ensures { IfOk result (λ guesses. guesses.places.items ≡ replicate GUESSES 0) }
    {
        Ok(Guesses {
            places: vec![in alloc; 0; GUESSES]?,
        })
    }

    /// Returns the entry of an actor.
    pub(crate) fn cell_of(id: &ActorId) -> usize
        ensures { result < GUESSES }
    {
        let mut hasher = FoldHasher::default();
        id.hash(&mut hasher);
        hasher.finish() as usize % GUESSES
    }

    /// Returns the cached index of an entry.
    pub(crate) fn guess(&self, cell: usize) -> usize
        ensures { result ≡ slice_index_or self.now.places.items cell 0 }
    {
        match self.places.get(cell) {
            Some(place) => *place,
            None => 0,
        }
    }

    /// Sets the cached index of an entry.
    pub(crate) fn note(&mut self, cell: usize, place: usize)
        ensures { self.new.places.items ≡ slice_set self.old.places.items cell place }
    {
        if let Some(guess) = self.places.get_mut(cell) {
            *guess = place;
        }
    }
}
