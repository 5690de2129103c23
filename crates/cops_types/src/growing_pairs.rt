//! Pairs that grow in place, for contexts, in the smallest form that fits.
ghost use Rattle.std.specs.Prelude.{◌≡◌, ◌<◌, ◌≤◌, ◌+◌, [], ◌∷◌, length, insert, set, slice_index_or, MatchResult, IfOk, IfSome, IsTrue, OnOk, OnErr, false, vec_len, vec_capacity, ◌↔◌};
ghost use Rattle.std.specs.List.{HoldsAt, list_any};
ghost use Rattle.std.specs.List.Sorted.{IsSearchInRange, IsPartitionPoint};
ghost use Rattle.std.specs.declared.cmp.Ordering.TheVariants.{Less, Equal, Greater};
ghost use Rattle.cops_types.specs.Growing.{HasRoomFor, HasRoomForOne, Takes};
ghost use Rattle.cops_types.specs.Key.{key_cmp};
ghost use Rattle.cops_types.specs.Pairs.{IsDeps, IsNear, pair_cmp, has_key, holds, joined, is_over, without_held};
ghost use Rattle.cops_types.specs.Refusal.{refused_if};
ghost use Rattle.cops_types.specs.RequestErrors.{AnswersUnless};
ghost use Rattle.cops_types.specs.Search.{add_item};

use crate::deps::OwnedDeps;
use crate::faults::Fault;
use crate::keys::Key;
use crate::packed::{PackedPairs, ShortPair};
use crate::pair_lists;
use crate::pairs::Pair;
use crate::request_errors::RequestError;
use crate::versions::Version;
use std::alloc::{AllocError, Global};
use std::marker::Model;

/// Short pairs, or pairs in full.
#[derive(Debug, Drop)]
enum GrowingRows {
    Short(Vec<ShortPair>),
    Full(Vec<Pair>),
}

/// Pairs that grow in place: in the short form as long as all keys are short, and in full from the
/// first long key on. Contracts see the pairs, how many more fit without allocation, and whether
/// pairs with long keys do.
#[derive(Debug, Drop)]
pub(crate) struct GrowingPairs {
    rows: GrowingRows,
}

impl Model for GrowingPairs {
    ghost use Rattle.cops_types.specs.Growing.{Growing};
    ghost use Rattle.cops_types.specs.GrowingForms.{growing_of};

    ghost Value = { Growing };

    ghost view = { λ g. growing_of g.rows };
}

impl GrowingPairs {
    /// Returns an empty list of pairs.
    pub(crate) fn empty(alloc: Global) -> Self
        ensures { result.pairs ≡ [] }
    {
        GrowingPairs {
            rows: GrowingRows::Short(Vec::new(alloc)),
        }
    }

    /// Returns a copy of packed pairs, with room for more in the same form.
    pub(crate) fn of_packed(
        alloc: Global,
        pairs: &PackedPairs,
        more: usize,
    ) -> Result<Self, AllocError>
        ensures pairs { IfOk result (λ copy. copy.pairs ≡ pairs.now) }
        ensures room { IfOk result (λ copy. more ≤ copy.spare) }
    {
        let rows = match pairs.short() {
            Some(pairs) => GrowingRows::Short(pair_lists::copy_with_room(alloc, pairs, more)?),
            None => GrowingRows::Full(pair_lists::copy_of_packed(alloc, pairs, more)?),
        };
        Ok(GrowingPairs { rows })
    }

    /// Returns a copy, with room for more pairs in the same form.
    pub(crate) fn with_room(&self, more: usize) -> Result<Self, AllocError>
        ensures pairs { IfOk result (λ copy. copy.pairs ≡ self.now.pairs) }
        ensures room { IfOk result (λ copy. more ≤ copy.spare) }
        ensures form { IfOk result (λ copy. copy.takes_long ≡ self.now.takes_long) }
    {
        let alloc = self.allocator();
        let rows = match &self.rows {
            GrowingRows::Short(pairs) => {
                GrowingRows::Short(pair_lists::copy_with_room(alloc, pairs.as_slice(), more)?)
            }
            GrowingRows::Full(pairs) => {
                GrowingRows::Full(pair_lists::copy_with_room(alloc, pairs.as_slice(), more)?)
            }
        };
        Ok(GrowingPairs { rows })
    }

    /// Returns the same pairs in full, with room for more.
    fn in_full(&self, more: usize) -> Result<Vec<Pair>, AllocError>
        ensures items { IfOk result (λ full. full.items ≡ self.now.pairs) }
        ensures room { IfOk result (λ full. vec_len full + more ≤ vec_capacity full) }
    {
        let alloc = self.allocator();
        match &self.rows {
            GrowingRows::Short(pairs) => pair_lists::in_full(alloc, pairs.as_slice(), more),
            GrowingRows::Full(pairs) => pair_lists::copy_with_room(alloc, pairs.as_slice(), more),
        }
    }

    /// Returns the handle for memory.
    fn allocator(&self) -> Global {
        match &self.rows {
            GrowingRows::Short(pairs) => *pairs.allocator(),
            GrowingRows::Full(pairs) => *pairs.allocator(),
        }
    }

    /// Returns all pairs, if they are short ones.
    #[inline(always)]
    fn short(&self) -> Option<&[ShortPair]>
        ensures { IfSome result (λ pairs. pairs.now ≡ self.now.pairs) }
    {
        match &self.rows {
            GrowingRows::Short(pairs) => Some(pairs.as_slice()),
            GrowingRows::Full(_) => None,
        }
    }

    /// Returns the number of pairs.
    pub(crate) fn len(&self) -> usize
        ensures { result ≡ length self.now.pairs }
    {
        match &self.rows {
            GrowingRows::Short(pairs) => pairs.len(),
            GrowingRows::Full(pairs) => pairs.len(),
        }
    }

    /// Returns how many more pairs fit without allocation.
    fn spare(&self) -> usize
        ensures { result ≡ self.now.spare }
    {
        match &self.rows {
            GrowingRows::Short(pairs) => pairs.capacity() - pairs.len(),
            GrowingRows::Full(pairs) => pairs.capacity() - pairs.len(),
        }
    }

    /// Returns the pair at a place.
    pub(crate) fn pair(&self, place: usize) -> Pair
        requires { place < length self.now.pairs }
        ensures { result ≡ slice_index_or self.now.pairs place result }
    {
        match &self.rows {
            GrowingRows::Short(pairs) => pairs.as_slice()[place].pair(),
            GrowingRows::Full(pairs) => pairs.as_slice()[place],
        }
    }

    /// Returns the version of the pair at a place.
    fn version(&self, place: usize) -> Version
        requires { place < length self.now.pairs }
        ensures { HoldsAt (λ p. p.version ≡ result) self.now.pairs place }
    {
        match &self.rows {
            GrowingRows::Short(pairs) => pairs.as_slice()[place].version(),
            GrowingRows::Full(pairs) => pairs.as_slice()[place].version,
        }
    }

    /// Returns `true` if pairs with the key fit the present form.
    #[inline(always)]
    fn takes(&self, key: &Key) -> bool
        ensures { IsTrue result ↔ Takes self.now key.now }
    {
        match &self.rows {
            GrowingRows::Short(_) => key.len() <= 15,
            GrowingRows::Full(_) => true,
        }
    }

    /// Reserves memory for one more pair in the same form.
    fn reserve_one(&mut self) -> Result<(), AllocError>
        ensures ok { OnOk result (0 < self.new.spare) }
        ensures pairs { self.new.pairs ≡ self.old.pairs }
        ensures form { self.new.takes_long ≡ self.old.takes_long }
        ensures spare { self.old.spare ≤ self.new.spare }
        ensures err { OnErr result (self.new ≡ self.old) }
    {
        match &mut self.rows {
            GrowingRows::Short(pairs) => pairs.reserve(1),
            GrowingRows::Full(pairs) => pairs.reserve(1),
        }
    }

    /// Converts the pairs to the full form, with room for one more.
    #[inline(never)]
    fn turn_full(&mut self) -> Result<(), AllocError>
        ensures ok { OnOk result (0 < self.new.spare) }
        ensures form { OnOk result (IsTrue self.new.takes_long) }
        ensures pairs { self.new.pairs ≡ self.old.pairs }
        ensures spare { self.old.spare ≤ self.new.spare }
        ensures err { OnErr result (self.new ≡ self.old) }
    {
        let full = self.in_full(self.spare().saturating_add(1))?;
        self.rows = GrowingRows::Full(full);
        Ok(())
    }

    /// Reserves memory for one more pair with the key.
    pub(crate) fn reserve_for(&mut self, key: &Key) -> Result<(), AllocError>
        ensures fits { OnOk result (Takes self.new key.now) }
        ensures ok { OnOk result (0 < self.new.spare) }
        ensures pairs { self.new.pairs ≡ self.old.pairs }
        ensures spare { self.old.spare ≤ self.new.spare }
        ensures form { self.new.takes_long ≡ false → self.old.takes_long ≡ false }
        ensures err { OnErr result (self.new ≡ self.old) }
    {
        if self.takes(key) {
            self.reserve_one()
        } else {
            self.turn_full()
        }
    }

    /// Sets the pair at a place.
    fn set(&mut self, place: usize, pair: &Pair)
        requires within { place < length self.old.pairs }
        requires fits { Takes self.old pair.now.key }
        ensures pairs { self.new.pairs ≡ set self.old.pairs place pair.now }
        ensures form { self.new.takes_long ≡ self.old.takes_long }
        ensures spare { self.new.spare ≡ self.old.spare }
    {
        match &mut self.rows {
            GrowingRows::Short(pairs) => pairs[place] = ShortPair::of(pair),
            GrowingRows::Full(pairs) => pairs[place] = *pair,
        }
    }

    /// Inserts a pair at a place, into reserved room.
    fn insert_reserved(&mut self, place: usize, pair: &Pair)
        requires within { place ≤ length self.old.pairs }
        requires fits { Takes self.old pair.now.key }
        requires room { 0 < self.old.spare }
        ensures pairs { self.new.pairs ≡ insert self.old.pairs place pair.now }
        ensures form { self.new.takes_long ≡ self.old.takes_long }
        ensures spare { self.old.spare ≤ self.new.spare + 1 }
    {
        match &mut self.rows {
            GrowingRows::Short(pairs) => {
                pair_lists::insert_reserved(pairs, place, ShortPair::of(pair))
            }
            GrowingRows::Full(pairs) => pair_lists::insert_reserved(pairs, place, *pair),
        }
    }

    /// Keeps this pair alone, in reserved room.
    pub(crate) fn set_only(&mut self, pair: &Pair)
        requires { HasRoomForOne self.old pair.now.key }
        ensures { self.new.pairs ≡ pair.now ∷ [] }
    {
        match &mut self.rows {
            GrowingRows::Short(pairs) => pair_lists::set_only(pairs, ShortPair::of(pair)),
            GrowingRows::Full(pairs) => pair_lists::set_only(pairs, *pair),
        }
    }

    /// Returns the index of the key, or the index at which it belongs.
    fn place_of(&self, key: &Key) -> Result<usize, usize>
        requires { IsDeps self.now.pairs }
        ensures within { IsSearchInRange result (length self.now.pairs) }
        ensures place { MatchResult result
            (HoldsAt (λ p. key_cmp p.key key.now ≡ Equal) self.now.pairs)
            (IsPartitionPoint (λ p. key_cmp p.key key.now ≡ Less)
            (λ p. key_cmp p.key key.now ≡ Greater) self.now.pairs) }
    {
        match &self.rows {
            GrowingRows::Short(pairs) => pair_lists::place_of(pairs.as_slice(), key),
            GrowingRows::Full(pairs) => pair_lists::place_of(pairs.as_slice(), key),
        }
    }

    /// Returns the index of the pair, or the index at which it belongs.
    fn place_of_pair(&self, pair: &Pair) -> Result<usize, usize>
        requires { IsNear self.now.pairs }
        ensures within { IsSearchInRange result (length self.now.pairs) }
        ensures place { MatchResult result
            (HoldsAt (λ p. pair_cmp p pair.now ≡ Equal) self.now.pairs)
            (IsPartitionPoint (λ p. pair_cmp p pair.now ≡ Less)
            (λ p. pair_cmp p pair.now ≡ Greater) self.now.pairs) }
    {
        match &self.rows {
            GrowingRows::Short(pairs) => pair_lists::place_of_pair(pairs.as_slice(), pair),
            GrowingRows::Full(pairs) => pair_lists::place_of_pair(pairs.as_slice(), pair),
        }
    }

    /// Adds a pair to the greatest version of each key, in reserved room. Returns `true` if exactly
    /// this pair was there.
    pub(crate) fn put_reserved(&mut self, pair: &Pair) -> bool
        requires in_order { IsDeps self.old.pairs }
        requires room { HasRoomFor self.old pair.now.key }
        ensures known { result ≡ holds self.old.pairs pair.now }
        ensures pairs { self.new.pairs ≡ joined self.old.pairs (pair.now ∷ []) }
        ensures in_order { IsDeps self.new.pairs }
        ensures form { self.new.takes_long ≡ self.old.takes_long }
        ensures spare { self.old.spare ≤ self.new.spare + 1 }
    {
        match self.place_of(&pair.key) {
            Ok(place) => {
                let version = self.version(place);
                if version < pair.version {
                    self.set(place, pair);
                    return false;
                }
                version == pair.version
            }
            Err(place) => {
                self.insert_reserved(place, pair);
                false
            }
        }
    }

    /// Adds a pair to the greatest version of each key, unless the list would exceed the limit.
    pub(crate) fn put_within(&mut self, pair: &Pair, limit: u64) -> Result<(), RequestError>
        requires { IsDeps self.old.pairs }
        ensures ok { OnOk result (self.new.pairs ≡ joined self.old.pairs (pair.now ∷ [])) }
        ensures in_order { IsDeps self.new.pairs }
        ensures refused { AnswersUnless (refused_if
            (is_over limit (joined self.old.pairs (pair.now ∷ []))) Fault.DependenciesFull) result }
    {
        self.reserve_for(&pair.key)?;
        let _ = self.put_reserved(pair);
        if limit < self.len() as u64 {
            return Err(RequestError::Refused(Fault::DependenciesFull));
        }
        Ok(())
    }

    /// Returns `true` if pairs in order have some version of the key.
    pub(crate) fn has_key(&self, key: &Key) -> bool
        requires { IsDeps self.now.pairs }
        ensures { result ≡ has_key self.now.pairs key.now }
    {
        match self.place_of(key) {
            Ok(_) => true,
            Err(_) => false,
        }
    }

    /// Returns `true` if pairs with one version for each key have the key at exactly this version.
    pub(crate) fn has_version(&self, key: &Key, version: Version) -> bool
        requires { IsDeps self.now.pairs }
        ensures known { result
            ≡ holds self.now.pairs (record { key = key.now; version = version }) }
        ensures same { IsTrue result → self.now.pairs
            ≡ joined self.now.pairs (record { key = key.now; version = version } ∷ []) }
    {
        match self.place_of(key) {
            Ok(place) => self.version(place) == version,
            Err(_) => false,
        }
    }

    /// Returns `true` if pairs in order have the key at no lesser version: the pair then changes
    /// nothing. The contract covers `true` only.
    fn has_as_new(&self, pair: &Pair) -> bool
        requires { IsDeps self.now.pairs }
        ensures { IsTrue result → self.now.pairs ≡ joined self.now.pairs (pair.now ∷ []) }
    {
        match self.place_of(&pair.key) {
            Ok(place) => {
                let is_older = self.version(place) < pair.version;
                !is_older
            }
            Err(_) => false,
        }
    }

    /// Returns `true` if packed pairs would change nothing in pairs in order: each of their keys is
    /// there, at no lesser version. The contract covers `true` only. Walks lists of short pairs of
    /// similar length; searches others key by key.
    pub(crate) fn has_all_as_new(&self, more: &PackedPairs) -> bool
        requires { IsDeps self.now.pairs }
        ensures { IsTrue result → self.now.pairs ≡ joined self.now.pairs more.now }
    {
        match self.short() {
            Some(pairs) => match more.short() {
                Some(short) => {
                    if short.len() < pairs.len() / 8 {
                        return self.has_each_as_new(more);
                    }
                    pair_lists::has_all_short(pairs, short)
                }
                None => self.has_each_as_new(more),
            },
            None => self.has_each_as_new(more),
        }
    }

    /// Does the same with a search for each pair.
    #[inline(never)]
    fn has_each_as_new(&self, more: &PackedPairs) -> bool
        requires { IsDeps self.now.pairs }
        ensures { IsTrue result → self.now.pairs ≡ joined self.now.pairs more.now }
    {
        for place in 0..more.len() {
            if !self.has_as_new(&more.pair(place)) {
                return false;
            }
        }
        true
    }

    /// Returns the greatest version of each key of two lists.
    fn joined_with(&self, more: &PackedPairs) -> Result<Self, AllocError>
        requires pairs { IsDeps self.now.pairs }
        requires more { IsDeps more.now }
        ensures { IfOk result (λ list. list.pairs ≡ joined self.now.pairs more.now) }
    {
        match self.short() {
            Some(pairs) => match more.short() {
                Some(short) => {
                    let merged = pair_lists::merged_short(self.allocator(), pairs, short)?;
                    Ok(GrowingPairs {
                        rows: GrowingRows::Short(merged),
                    })
                }
                None => self.joined_in_full(more),
            },
            None => self.joined_in_full(more),
        }
    }

    /// Does the same in full, pair by pair.
    #[inline(never)]
    fn joined_in_full(&self, more: &PackedPairs) -> Result<Self, AllocError>
        requires { IsDeps self.now.pairs }
        ensures { IfOk result (λ list. list.pairs ≡ joined self.now.pairs more.now) }
    {
        let full = self.in_full(more.len())?;
        let mut list = GrowingPairs {
            rows: GrowingRows::Full(full),
        };
        for place in 0..more.len() {
            let _ = list.put_reserved(&more.pair(place));
        }
        Ok(list)
    }

    /// Joins packed pairs and keeps the greatest version of each key, unless the list would exceed
    /// the limit.
    pub(crate) fn join(&mut self, more: &PackedPairs, limit: u64) -> Result<(), RequestError>
        requires pairs { IsDeps self.old.pairs }
        requires more { IsDeps more.now }
        ensures ok { OnOk result (self.new.pairs ≡ joined self.old.pairs more.now) }
        ensures in_order { IsDeps self.new.pairs }
        ensures refused { AnswersUnless (refused_if (is_over limit (joined self.old.pairs more.now))
            Fault.DependenciesFull) result }
        ensures err { OnErr result (self.new ≡ self.old) }
    {
        let list = self.joined_with(more)?;
        if limit < list.len() as u64 {
            return Err(RequestError::Refused(Fault::DependenciesFull));
        }
        *self = list;
        Ok(())
    }

    /// Returns `true` if it has a pair that the deps hold exactly.
    #[inline(always)]
    pub(crate) fn has_held(&self, deps: &OwnedDeps) -> bool
        ensures { result ≡ list_any (holds deps.now) self.now.pairs }
    {
        match self.short() {
            Some(pairs) => match deps.packed().short() {
                Some(deps) => pair_lists::has_held_short(pairs, deps),
                None => self.has_held_in_full(deps),
            },
            None => self.has_held_in_full(deps),
        }
    }

    /// Does the same for pairs in any form.
    #[inline(never)]
    fn has_held_in_full(&self, deps: &OwnedDeps) -> bool
        ensures { result ≡ list_any (holds deps.now) self.now.pairs }
    {
        match &self.rows {
            GrowingRows::Short(pairs) => pairs.iter().any(|pair| deps.holds(&pair.pair())),
            GrowingRows::Full(pairs) => pairs.iter().any(|pair| deps.holds(pair)),
        }
    }

    /// Inserts a pair at a place.
    fn insert_near(&mut self, place: usize, pair: &Pair) -> Result<(), AllocError>
        requires { place ≤ length self.old.pairs }
        ensures ok { OnOk result (self.new.pairs ≡ insert self.old.pairs place pair.now) }
        ensures err { OnErr result (self.new ≡ self.old) }
    {
        self.reserve_for(&pair.key)?;
        self.insert_reserved(place, pair);
        Ok(())
    }

    /// Adds a pair to pairs without duplicates, unless the list would exceed the limit.
    pub(crate) fn put_near(&mut self, pair: &Pair, limit: u64) -> Result<(), RequestError>
        requires { IsNear self.old.pairs }
        ensures ok { OnOk result (self.new.pairs ≡ add_item pair_cmp pair.now self.old.pairs) }
        ensures in_order { IsNear self.new.pairs }
        ensures refused { AnswersUnless (refused_if (is_over limit
            (add_item pair_cmp pair.now self.old.pairs)) Fault.DependenciesFull) result }
        ensures err { OnErr result (self.new ≡ self.old) }
    {
        let len = self.len() as u64;
        match self.place_of_pair(pair) {
            Ok(_) => {
                if limit < len {
                    return Err(RequestError::Refused(Fault::DependenciesFull));
                }
            }
            Err(place) => {
                if limit <= len {
                    return Err(RequestError::Refused(Fault::DependenciesFull));
                }
                self.insert_near(place, pair)?;
            }
        }
        Ok(())
    }

    /// Removes each pair that the deps hold exactly. Usually there is none, and nothing is moved.
    pub(crate) fn drop_held(&mut self, deps: &OwnedDeps)
        requires { IsNear self.old.pairs }
        ensures pairs { self.new.pairs ≡ without_held deps.now self.old.pairs }
        ensures in_order { IsNear self.new.pairs }
    {
        if self.has_held(deps) {
            self.take_out_held(deps);
        }
    }

    /// Removes each pair that the deps hold exactly.
    #[inline(never)]
    fn take_out_held(&mut self, deps: &OwnedDeps)
        ensures { self.new.pairs ≡ without_held deps.now self.old.pairs }
    {
        match &mut self.rows {
            GrowingRows::Short(pairs) => pair_lists::take_out_held(pairs, deps),
            GrowingRows::Full(pairs) => pair_lists::take_out_held(pairs, deps),
        }
    }

    /// Returns the same pairs, packed.
    pub(crate) fn to_packed(&self) -> Result<PackedPairs, AllocError>
        ensures { IfOk result (λ packed. packed ≡ self.now.pairs) }
    {
        let alloc = self.allocator();
        match &self.rows {
            GrowingRows::Short(pairs) => PackedPairs::copy_of_short(alloc, pairs.as_slice()),
            GrowingRows::Full(pairs) => PackedPairs::copy_of(alloc, pairs.as_slice()),
        }
    }
}
