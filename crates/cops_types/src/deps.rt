ghost use Rattle.std.specs.Arc.{arc_value};
ghost use Rattle.std.specs.Prelude.{◌≡◌, ◌<◌, ◌≤◌, ◌==◌, [], ◌∷◌, length, slice_index_or, IfOk, IfSome, IsTrue, OnOk, OnErr, ◌↔◌};
ghost use Rattle.cops_types.specs.Pairs.{holds, pairs_eq, version_of, joined, is_over, greatest_clock as greatest_clock_of};
ghost use Rattle.cops_types.specs.Same.{same_pairs, same_equivalence};
ghost use Rattle.cops_types.specs.declared.faults.Fault.TheVariants.{DependenciesFull};
ghost use Rattle.cops_types.specs.Refusal.{refused_if};
ghost use Rattle.cops_types.specs.RequestErrors.{AnswersUnless};
ghost use Rattle.cops_types.specs.Version.{last_clock};
ghost use Rattle.std.specs.Cmp.{partial_equiv_from_equiv};

use crate::growing_pairs::GrowingPairs;
use crate::keys::Key;
use crate::packed::{PackedPairs, ShortPair};
use crate::pairs::Pair;
use crate::records::KeptParts;
use crate::request_errors::RequestError;
use crate::versions::Version;
use std::alloc::{AllocError, Global};
use std::marker::Model;
use std::sync::Arc;

/// Dependencies in memory of their own: at most one version for each key. Contracts see the list of
/// pairs, strictly rising by key.
#[derive(Debug, Drop)]
pub struct OwnedDeps {
    pairs: PackedPairs,
}

impl Model for OwnedDeps {
    ghost use Rattle.std.specs.Prelude.{List};
    ghost use Rattle.cops_types.specs.declared.pairs.Pair.{Pair};

    ghost Value = { List Pair };

    ghost use Rattle.cops_types.specs.Pairs.{IsDeps};

    ghost view = { λ d. d.pairs };

    ghost invariant = { λ d. IsDeps d.pairs };
}

impl OwnedDeps {
    ghost use Rattle.cops_types.specs.Pairs.{IsDeps};

    /// Returns the number of pairs.
    pub fn len(&self) -> usize
        ensures { result ≡ length self.now }
    {
        self.pairs.len()
    }

    /// Returns `true` if there is no pair.
    pub fn is_empty(&self) -> bool
        ensures value { result ≡ (length self.now == 0) }
        ensures in_order { IsDeps self.now }
    {
        self.pairs.len() == 0
    }

    /// Returns the pair at a place.
    pub fn pair(&self, place: usize) -> Pair
        requires { place < length self.now }
        ensures { result ≡ slice_index_or self.now place result }
    {
        self.pairs.pair(place)
    }

    /// Returns all pairs, in their stored form.
    pub(crate) fn packed(&self) -> &PackedPairs
        ensures value { result.now ≡ self.now }
        ensures in_order { IsDeps self.now }
    {
        &self.pairs
    }

    /// Returns all pairs, if their keys are stored in the short form.
    #[inline(always)]
    pub fn short(&self) -> Option<&[ShortPair]>
        ensures { IfSome result (λ pairs. pairs.now ≡ self.now) }
    {
        self.pairs.short()
    }

    /// Returns the version of a key, 0.0 if there is none.
    pub fn version_of(&self, key: &Key) -> Version
        ensures { result ≡ version_of key.now self.now }
    {
        self.pairs.version_of(key)
    }

    /// Returns the greatest clock among the pairs, 0 if there is none.
    pub fn greatest_clock(&self) -> u64
        ensures value { result ≡ greatest_clock_of self.now }
        ensures fits { result ≤ last_clock }
    {
        self.pairs.greatest_clock()
    }

    /// Returns `true` if it holds exactly this pair.
    pub(crate) fn holds(&self, pair: &Pair) -> bool
        ensures { result ≡ holds self.now pair.now }
    {
        self.pairs.holds(pair)
    }

    /// Returns the same pairs, in other memory.
    pub(crate) fn copy(&self, alloc: Global) -> Result<Self, AllocError>
        ensures { IfOk result (λ deps. deps ≡ self.now) }
    {
        Ok(OwnedDeps {
            pairs: self.pairs.copy(alloc)?,
        })
    }
}

impl PartialEq for OwnedDeps {
    ghost eq = { pairs_eq };

    ghost laws = { partial_equiv_from_equiv (same_equivalence same_pairs) };

    fn eq(&self, other: &OwnedDeps) -> bool
        ensures value { result ≡ pairs_eq self.now other.now }
        ensures exact { IsTrue result ↔ (self.now ≡ other.now) }
    {
        self.pairs.is_same(&other.pairs)
    }
}

impl Eq for OwnedDeps {
    ghost laws = { same_equivalence same_pairs };
}

/// The memory that holds dependencies: their own, or that of an entry.
#[derive(Debug, Drop)]
enum DepsHolder {
    Own(OwnedDeps),
    Entry(Arc<KeptParts>),
}

/// The dependencies of a put or a context: at most one version for each key. Contracts see the list
/// of pairs, strictly rising by key.
#[derive(Debug, Drop)]
pub struct Deps {
    holder: DepsHolder,
}

impl Model for Deps {
    ghost use Rattle.std.specs.Prelude.{List};
    ghost use Rattle.cops_types.specs.declared.pairs.Pair.{Pair};

    ghost Value = { List Pair };

    ghost use Rattle.cops_types.specs.Holders.{held_deps};

    ghost view = { λ d. held_deps d.holder };
}

impl Deps {
    ghost use Rattle.cops_types.specs.Pairs.{IsDeps};

    /// Returns an empty list of dependencies.
    pub fn empty(alloc: Global) -> Self
        ensures { result ≡ [] }
    {
        Deps::of(OwnedDeps {
            pairs: PackedPairs::empty(alloc),
        })
    }

    /// Copies pairs that are in order. Fails with `AllocError` if memory runs out.
    pub fn copy_of(alloc: Global, pairs: &[Pair]) -> Result<Self, AllocError>
        requires { IsDeps pairs.now }
        ensures { IfOk result (λ deps. deps ≡ pairs.now) }
    {
        Ok(Deps::of(OwnedDeps {
            pairs: PackedPairs::copy_of(alloc, pairs)?,
        }))
    }

    /// Wraps packed pairs that are in order.
    pub(crate) fn of_packed(pairs: PackedPairs) -> Self
        requires { IsDeps pairs }
        ensures { result ≡ pairs }
    {
        Deps::of(OwnedDeps { pairs })
    }

    /// Wraps dependencies in memory of their own.
    pub(crate) fn of(deps: OwnedDeps) -> Self
        ensures { result ≡ deps }
    {
        Deps {
            holder: DepsHolder::Own(deps),
        }
    }

    /// Returns the dependencies of an entry, over the entry's memory.
    pub(crate) fn of_entry(parts: Arc<KeptParts>) -> Self
        ensures { result ≡ (arc_value parts).deps }
    {
        Deps {
            holder: DepsHolder::Entry(parts),
        }
    }

    /// Returns the dependencies, from whichever memory holds them.
    pub fn owned(&self) -> &OwnedDeps
        ensures { result.now ≡ self.now }
    {
        match &self.holder {
            DepsHolder::Own(deps) => deps,
            DepsHolder::Entry(parts) => &parts.deps,
        }
    }

    /// Returns the dependencies in memory of their own. Those of an entry are copied.
    pub(crate) fn into_owned(self, alloc: Global) -> Result<OwnedDeps, AllocError>
        ensures { IfOk result (λ deps. deps ≡ self) }
    {
        match self.holder {
            DepsHolder::Own(deps) => Ok(deps),
            DepsHolder::Entry(parts) => parts.deps.copy(alloc),
        }
    }

    /// Returns the number of pairs.
    pub fn len(&self) -> usize
        ensures { result ≡ length self.now }
    {
        self.owned().len()
    }

    /// Returns the pair at a place.
    pub fn pair(&self, place: usize) -> Pair
        requires { place < length self.now }
        ensures { result ≡ slice_index_or self.now place result }
    {
        self.owned().pair(place)
    }

    /// Returns all pairs, in their stored form.
    pub(crate) fn packed(&self) -> &PackedPairs
        ensures value { result.now ≡ self.now }
        ensures in_order { IsDeps self.now }
    {
        self.owned().packed()
    }

    /// Returns the version of a key, 0.0 if there is none.
    pub fn version_of(&self, key: &Key) -> Version
        ensures { result ≡ version_of key.now self.now }
    {
        self.owned().version_of(key)
    }

    /// Returns the greatest clock among the pairs, 0 if there is none.
    pub fn greatest_clock(&self) -> u64
        ensures value { result ≡ greatest_clock_of self.now }
        ensures fits { result ≤ last_clock }
    {
        self.owned().greatest_clock()
    }

    /// Returns `true` if it holds exactly this pair.
    pub(crate) fn holds(&self, pair: &Pair) -> bool
        ensures { result ≡ holds self.now pair.now }
    {
        self.owned().holds(pair)
    }

    /// Returns the same dependencies: shares those of an entry and copies others. Fails with
    /// `AllocError` if memory runs out.
    pub fn copy(&self, alloc: Global) -> Result<Self, AllocError>
        ensures { IfOk result (λ deps. deps ≡ self.now) }
    {
        match &self.holder {
            DepsHolder::Own(deps) => Ok(Deps::of(deps.copy(alloc)?)),
            DepsHolder::Entry(parts) => shared_deps(alloc, parts),
        }
    }

    /// Adds a pair and keeps the greatest version of each key. Is refused if the list would exceed
    /// `limit`.
    pub fn add(&mut self, pair: Pair, limit: u64) -> Result<(), RequestError>
        ensures ok { OnOk result (self.new ≡ joined self.old (pair ∷ [])) }
        ensures refused { AnswersUnless
            (refused_if (is_over limit (joined self.old (pair ∷ []))) DependenciesFull) result }
        ensures err { OnErr result (self.new ≡ self.old) }
    {
        let alloc = self.packed().allocator();
        let mut pairs = GrowingPairs::of_packed(alloc, self.packed(), 1)?;
        pairs.put_within(&pair, limit)?;
        *self = Deps::of_packed(pairs.to_packed()?);
        Ok(())
    }

    /// Adds all pairs of another list and keeps the greatest version of each key. Is refused if the
    /// list would exceed `limit`.
    pub fn join(&mut self, other: &Deps, limit: u64) -> Result<(), RequestError>
        ensures ok { OnOk result (self.new ≡ joined self.old other.now) }
        ensures refused { AnswersUnless
            (refused_if (is_over limit (joined self.old other.now)) DependenciesFull) result }
        ensures err { OnErr result (self.new ≡ self.old) }
    {
        let alloc = self.packed().allocator();
        let mut pairs = GrowingPairs::of_packed(alloc, self.packed(), 0)?;
        pairs.join(other.packed(), limit)?;
        *self = Deps::of_packed(pairs.to_packed()?);
        Ok(())
    }
}

/// Returns a copy of an entry's dependencies.
#[inline(never)]
fn copied_deps(alloc: Global, parts: &Arc<KeptParts>) -> Result<Deps, AllocError>
    ensures { IfOk result (λ deps. deps ≡ (arc_value parts.now).deps) }
{
    Ok(Deps::of(parts.deps.copy(alloc)?))
}

/// Returns one more owner of an entry's dependencies. Copies them if the count of owners is full.
pub(crate) fn shared_deps(alloc: Global, parts: &Arc<KeptParts>) -> Result<Deps, AllocError>
    ensures { IfOk result (λ deps. deps ≡ (arc_value parts.now).deps) }
{
    match parts.clone() {
        Ok(parts) => Ok(Deps::of_entry(parts)),
        Err(_) => copied_deps(alloc, parts),
    }
}

impl PartialEq for Deps {
    ghost eq = { pairs_eq };

    ghost laws = { partial_equiv_from_equiv (same_equivalence same_pairs) };

    fn eq(&self, other: &Deps) -> bool
        ensures value { result ≡ pairs_eq self.now other.now }
        ensures exact { IsTrue result ↔ (self.now ≡ other.now) }
    {
        *self.owned() == *other.owned()
    }
}

impl Eq for Deps {
    ghost laws = { same_equivalence same_pairs };
}
