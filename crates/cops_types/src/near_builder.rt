ghost use Rattle.std.specs.Prelude.{◌≡◌, ◌<◌, ◌≤◌, [], ◌∷◌, length, slice_index_or, IfOk, OnOk, OnErr, false};
ghost use Rattle.std.specs.List.{list_any};
ghost use Rattle.cops_types.specs.Growing.{HasRoomForOne};
ghost use Rattle.cops_types.specs.Pairs.{IsNear, holds, pair_cmp, is_over, without_held};
ghost use Rattle.cops_types.specs.declared.faults.Fault.TheVariants.{DependenciesFull};
ghost use Rattle.cops_types.specs.Refusal.{refused_if};
ghost use Rattle.cops_types.specs.RequestErrors.{AnswersUnless};
ghost use Rattle.cops_types.specs.Search.{add_item};

use crate::deps::OwnedDeps;
use crate::growing_pairs::GrowingPairs;
use crate::keys::Key;
use crate::near::Near;
use crate::pairs::Pair;
use crate::request_errors::RequestError;
use std::alloc::{AllocError, Global};
use std::marker::Model;

/// Growing nearest dependencies. Contracts see the pairs, strictly rising by key and then by
/// version, how many more fit without allocation, and whether pairs with long keys do.
#[derive(Debug, Drop)]
pub struct NearBuilder {
    pairs: GrowingPairs,
}

impl Model for NearBuilder {
    ghost use Rattle.cops_types.specs.Growing.{Growing};
    ghost use Rattle.cops_types.specs.Pairs.{IsNear};

    ghost Value = { Growing };

    ghost view = { λ n. n.pairs };

    ghost invariant = { λ n. IsNear n.pairs.pairs };
}

impl NearBuilder {
    /// Returns an empty list of nearest dependencies.
    pub fn empty(alloc: Global) -> Self
        ensures { result.pairs ≡ [] }
    {
        NearBuilder {
            pairs: GrowingPairs::empty(alloc),
        }
    }

    /// Returns a copy with room for `more` pairs in the same form. Fails with `AllocError` if
    /// memory runs out.
    pub fn with_room(&self, more: usize) -> Result<Self, AllocError>
        ensures pairs { IfOk result (λ copy. copy.pairs ≡ self.now.pairs) }
        ensures room { IfOk result (λ copy. more ≤ copy.spare) }
        ensures form { IfOk result (λ copy. copy.takes_long ≡ self.now.takes_long) }
    {
        Ok(NearBuilder {
            pairs: self.pairs.with_room(more)?,
        })
    }

    /// Returns the number of pairs.
    pub fn len(&self) -> usize
        ensures len { result ≡ length self.now.pairs }
        ensures in_order { IsNear self.now.pairs }
    {
        self.pairs.len()
    }

    /// Returns the pair at a place.
    pub fn pair(&self, place: usize) -> Pair
        requires { place < length self.now.pairs }
        ensures { result ≡ slice_index_or self.now.pairs place result }
    {
        self.pairs.pair(place)
    }

    /// Returns `true` if it has a pair that the deps hold exactly.
    pub fn has_held(&self, deps: &OwnedDeps) -> bool
        ensures { result ≡ list_any (holds deps.now) self.now.pairs }
    {
        self.pairs.has_held(deps)
    }

    /// Reserves memory for one more pair with the key. Fails with `AllocError` if memory runs out.
    pub fn reserve_for(&mut self, key: &Key) -> Result<(), AllocError>
        ensures ok { OnOk result (HasRoomForOne self.new key.now) }
        ensures room { OnOk result (0 < self.new.spare) }
        ensures pairs { self.new.pairs ≡ self.old.pairs }
        ensures spare { self.old.spare ≤ self.new.spare }
        ensures form { self.new.takes_long ≡ false → self.old.takes_long ≡ false }
        ensures err { OnErr result (self.new ≡ self.old) }
    {
        self.pairs.reserve_for(key)
    }

    /// Keeps this pair alone, in reserved room.
    pub fn set_only(&mut self, pair: Pair)
        requires { HasRoomForOne self.old pair.key }
        ensures { self.new.pairs ≡ pair ∷ [] }
    {
        self.pairs.set_only(&pair);
    }

    /// Adds a pair, unless it is there already. Is refused if the list would exceed `limit`.
    pub fn add(&mut self, pair: Pair, limit: u64) -> Result<(), RequestError>
        ensures ok { OnOk result (self.new.pairs ≡ add_item pair_cmp pair self.old.pairs) }
        ensures refused { AnswersUnless (refused_if
            (is_over limit (add_item pair_cmp pair self.old.pairs)) DependenciesFull) result }
        ensures err { OnErr result (self.new ≡ self.old) }
    {
        self.pairs.put_near(&pair, limit)
    }

    /// Removes each pair that the deps hold exactly.
    pub fn drop_held(&mut self, deps: &OwnedDeps)
        ensures { self.new.pairs ≡ without_held deps.now self.old.pairs }
    {
        self.pairs.drop_held(deps);
    }

    /// Returns these pairs as a shared list: the one copy is made here. Fails with `AllocError` if
    /// memory runs out.
    pub fn to_near(&self) -> Result<Near, AllocError>
        ensures { IfOk result (λ near. near ≡ self.now.pairs) }
    {
        Ok(Near::of_packed(self.pairs.to_packed()?))
    }
}
