ghost use Rattle.std.specs.Arc.{arc_value};
ghost use Rattle.std.specs.Prelude.{◌≡◌, ◌<◌, [], length, slice_index_or, IfOk, IsTrue, OnOk, OnErr, ◌↔◌};
ghost use Rattle.cops_types.specs.Pairs.{pair_cmp, pairs_eq, is_over};
ghost use Rattle.cops_types.specs.Same.{same_pairs, same_equivalence};
ghost use Rattle.cops_types.specs.declared.faults.Fault.TheVariants.{DependenciesFull};
ghost use Rattle.cops_types.specs.Refusal.{refused_if};
ghost use Rattle.cops_types.specs.RequestErrors.{AnswersUnless};
ghost use Rattle.cops_types.specs.Search.{add_item};
ghost use Rattle.std.specs.Cmp.{partial_equiv_from_equiv};

use crate::growing_pairs::GrowingPairs;
use crate::packed::PackedPairs;
use crate::pairs::Pair;
use crate::records::KeptParts;
use crate::request_errors::RequestError;
use std::alloc::{AllocError, Global};
use std::marker::Model;
use std::sync::Arc;

/// The nearest dependencies in memory of their own. Contracts see the list of pairs, strictly
/// rising by key and then by version.
#[derive(Debug, Drop)]
pub struct OwnedNear {
    pairs: PackedPairs,
}

impl Model for OwnedNear {
    ghost use Rattle.std.specs.Prelude.{List};
    ghost use Rattle.cops_types.specs.declared.pairs.Pair.{Pair};

    ghost Value = { List Pair };

    ghost use Rattle.cops_types.specs.Pairs.{IsNear};

    ghost view = { λ n. n.pairs };

    ghost invariant = { λ n. IsNear n.pairs };
}

impl OwnedNear {
    ghost use Rattle.cops_types.specs.Pairs.{IsNear};

    /// Returns the number of pairs.
    pub fn len(&self) -> usize
        ensures { result ≡ length self.now }
    {
        self.pairs.len()
    }

    /// Returns the pair at a place.
    pub fn pair(&self, place: usize) -> Pair
        requires { place < length self.now }
        ensures { result ≡ slice_index_or self.now place result }
    {
        self.pairs.pair(place)
    }

    /// Returns all pairs, in their stored form.
    pub(crate) fn packed(&self) -> &PackedPairs
        ensures value { result.now ≡ self.now }
        ensures in_order { IsNear self.now }
    {
        &self.pairs
    }

    /// Returns the same pairs, in other memory.
    pub(crate) fn copy(&self, alloc: Global) -> Result<Self, AllocError>
        ensures { IfOk result (λ near. near ≡ self.now) }
    {
        Ok(OwnedNear {
            pairs: self.pairs.copy(alloc)?,
        })
    }
}

impl PartialEq for OwnedNear {
    ghost eq = { pairs_eq };

    ghost laws = { partial_equiv_from_equiv (same_equivalence same_pairs) };

    fn eq(&self, other: &OwnedNear) -> bool
        ensures value { result ≡ pairs_eq self.now other.now }
        ensures exact { IsTrue result ↔ (self.now ≡ other.now) }
    {
        self.pairs.is_same(&other.pairs)
    }
}

impl Eq for OwnedNear {
    ghost laws = { same_equivalence same_pairs };
}

/// The memory that holds nearest dependencies: their own, or that of an entry.
#[derive(Debug, Drop)]
enum NearHolder {
    Own(OwnedNear),
    Entry(Arc<KeptParts>),
}

/// The nearest dependencies. Contracts see the list of pairs, strictly rising by key and then by
/// version.
#[derive(Debug, Drop)]
pub struct Near {
    holder: NearHolder,
}

impl Model for Near {
    ghost use Rattle.std.specs.Prelude.{List};
    ghost use Rattle.cops_types.specs.declared.pairs.Pair.{Pair};

    ghost Value = { List Pair };

    ghost use Rattle.cops_types.specs.Holders.{held_near};

    ghost view = { λ n. held_near n.holder };
}

impl Near {
    ghost use Rattle.cops_types.specs.Pairs.{IsNear};

    /// Returns an empty list of nearest dependencies.
    pub fn empty(alloc: Global) -> Self
        ensures { result ≡ [] }
    {
        Near::of(OwnedNear {
            pairs: PackedPairs::empty(alloc),
        })
    }

    /// Copies pairs that are in order. Fails with `AllocError` if memory runs out.
    pub fn copy_of(alloc: Global, pairs: &[Pair]) -> Result<Self, AllocError>
        requires { IsNear pairs.now }
        ensures { IfOk result (λ near. near ≡ pairs.now) }
    {
        Ok(Near::of(OwnedNear {
            pairs: PackedPairs::copy_of(alloc, pairs)?,
        }))
    }

    /// Wraps packed pairs that are in order.
    pub(crate) fn of_packed(pairs: PackedPairs) -> Self
        requires { IsNear pairs }
        ensures { result ≡ pairs }
    {
        Near::of(OwnedNear { pairs })
    }

    /// Wraps nearest dependencies in memory of their own.
    pub(crate) fn of(near: OwnedNear) -> Self
        ensures { result ≡ near }
    {
        Near {
            holder: NearHolder::Own(near),
        }
    }

    /// Returns the nearest dependencies of an entry, over the entry's memory.
    pub(crate) fn of_entry(parts: Arc<KeptParts>) -> Self
        ensures { result ≡ (arc_value parts).near }
    {
        Near {
            holder: NearHolder::Entry(parts),
        }
    }

    /// Returns the nearest dependencies, from whichever memory holds them.
    pub fn owned(&self) -> &OwnedNear
        ensures { result.now ≡ self.now }
    {
        match &self.holder {
            NearHolder::Own(near) => near,
            NearHolder::Entry(parts) => &parts.near,
        }
    }

    /// Returns the nearest dependencies in memory of their own. Those of an entry are copied.
    pub(crate) fn into_owned(self, alloc: Global) -> Result<OwnedNear, AllocError>
        ensures { IfOk result (λ near. near ≡ self) }
    {
        match self.holder {
            NearHolder::Own(near) => Ok(near),
            NearHolder::Entry(parts) => parts.near.copy(alloc),
        }
    }

    /// Returns the number of pairs.
    pub fn len(&self) -> usize
        ensures { result ≡ length self.now }
    {
        self.owned().len()
    }

    /// Returns the pair at a place.
    pub fn pair(&self, place: usize) -> Pair
        requires { place < length self.now }
        ensures { result ≡ slice_index_or self.now place result }
    {
        self.owned().pair(place)
    }

    /// Returns all pairs, in their stored form.
    pub(crate) fn packed(&self) -> &PackedPairs
        ensures value { result.now ≡ self.now }
        ensures in_order { IsNear self.now }
    {
        self.owned().packed()
    }

    /// Returns the same nearest dependencies: shares those of an entry and copies others. Fails
    /// with `AllocError` if memory runs out.
    pub fn copy(&self, alloc: Global) -> Result<Self, AllocError>
        ensures { IfOk result (λ near. near ≡ self.now) }
    {
        match &self.holder {
            NearHolder::Own(near) => Ok(Near::of(near.copy(alloc)?)),
            NearHolder::Entry(parts) => shared_near(alloc, parts),
        }
    }

    /// Adds a pair, unless it is there already. Is refused if the list would exceed `limit`.
    pub fn add(&mut self, pair: Pair, limit: u64) -> Result<(), RequestError>
        ensures ok { OnOk result (self.new ≡ add_item pair_cmp pair self.old) }
        ensures refused { AnswersUnless
            (refused_if (is_over limit (add_item pair_cmp pair self.old)) DependenciesFull) result }
        ensures err { OnErr result (self.new ≡ self.old) }
    {
        let alloc = self.packed().allocator();
        let mut pairs = GrowingPairs::of_packed(alloc, self.packed(), 1)?;
        pairs.put_near(&pair, limit)?;
        *self = Near::of_packed(pairs.to_packed()?);
        Ok(())
    }
}

/// Returns one more owner of an entry's nearest dependencies. Copies them if the count of owners is
/// full.
pub(crate) fn shared_near(alloc: Global, parts: &Arc<KeptParts>) -> Result<Near, AllocError>
    ensures { IfOk result (λ near. near ≡ (arc_value parts.now).near) }
{
    match parts.clone() {
        Ok(parts) => Ok(Near::of_entry(parts)),
        Err(_) => Ok(Near::of(parts.near.copy(alloc)?)),
    }
}

impl PartialEq for Near {
    ghost eq = { pairs_eq };

    ghost laws = { partial_equiv_from_equiv (same_equivalence same_pairs) };

    fn eq(&self, other: &Near) -> bool
        ensures value { result ≡ pairs_eq self.now other.now }
        ensures exact { IsTrue result ↔ (self.now ≡ other.now) }
    {
        *self.owned() == *other.owned()
    }
}

impl Eq for Near {
    ghost laws = { same_equivalence same_pairs };
}
