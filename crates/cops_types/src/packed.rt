//! Stored lists of pairs: a list whose keys are all short takes less memory.
ghost use Rattle.std.specs.Prelude.{◌≡◌, ◌<◌, ◌≤◌, ◌+◌, ◌*◌, ◌++◌, [], length, take, slice_index_or, MatchResult, IfOk, IfSome, IsTrue, ◌↔◌, nat_le};
ghost use Rattle.std.specs.List.{HoldsAt, list_all};
ghost use Rattle.std.specs.List.Sorted.{IsSearchInRange, IsPartitionPoint};
ghost use Rattle.std.specs.declared.cmp.Ordering.TheVariants.{Less, Equal, Greater};
ghost use Rattle.cops_types.specs.Key.{key_cmp, key_eq};
ghost use Rattle.cops_types.specs.Packed.{SHORT, has_short_key};
ghost use Rattle.cops_types.specs.PackedRows.{pairs_of};
ghost use Rattle.cops_types.specs.PairForms.{is_pair};
ghost use Rattle.cops_types.specs.Pairs.{IsDeps, holds, pair_eq, pairs_eq, version_of, greatest_clock as greatest_clock_of};
ghost use Rattle.cops_types.specs.Same.{same_pair, same_equivalence};
ghost use Rattle.cops_types.specs.Version.{last_clock};
ghost use Rattle.cops_types.specs.Words.{list_text, more_text, pair_text};
ghost use Rattle.std.specs.Cmp.{partial_equiv_from_equiv};

use crate::fronts::order_of_fronts;
use crate::keys::Key;
use crate::pair_lists::place_of;
use crate::pairs::Pair;
use crate::placed::{put_byte, put_front, put_pairs, put_version};
use crate::versions::Version;
use std::alloc::{AllocError, Global};
use std::cmp::Ordering;
use std::marker::Model;
use std::slice;

/// The most pairs that are compared one after another.
const FEW: usize = 8;

/// A pair whose key has at most 15 bytes. Contracts see an ordinary pair.
#[derive(Clone, Copy, Debug)]
pub struct ShortPair {
    bytes: [u8; 15],
    len: u8,
    version: Version,
}

impl Model for ShortPair {
    ghost use Rattle.std.specs.Prelude.{length, take};
    ghost use Rattle.cops_types.specs.declared.pairs.Pair.{Pair};

    ghost Value = { Pair };

    ghost use Rattle.cops_types.specs.Key.{is_key};
    ghost use Rattle.cops_types.specs.Padding.{IsPadded, padded, padded-take};

    ghost view = { λ p. record { key = take p.len p.bytes; version = p.version } };

    ghost invariant = { λ p. IsPadded 15 is_key p.bytes p.len };

    ghost inverse = { λ pair. record { bytes = padded 15 pair.key; len = length pair.key; version = pair.version } };

    ghost inverse_ok = { λ p h i. record { bytes = (padded-take 15 is_key p.bytes p.len h).0 i; len = (padded-take 15 is_key p.bytes p.len h).1 i; version = p.version } };
}

impl ShortPair {
    /// Converts a pair with a short key.
    pub(crate) fn of(pair: &Pair) -> Self
        requires { length pair.now.key ≤ SHORT }
        ensures { result ≡ pair.now }
    {
        ShortPair {
            bytes: pair.key.cells(),
            len: pair.key.len() as u8,
            version: pair.version,
        }
    }

    /// Returns the same pair in full.
    pub(crate) fn pair(&self) -> Pair
        ensures { result ≡ self.now }
    {
        Pair {
            key: Key::of_cells(&self.bytes, usize::from(self.len)),
            version: self.version,
        }
    }

    /// Returns the version.
    #[inline(always)]
    pub fn version(&self) -> Version
        ensures { result ≡ self.now.version }
    {
        self.version
    }

    /// Returns the number of bytes of the key.
    #[inline(always)]
    pub fn key_len(&self) -> u8
        ensures value { result ≡ length self.now.key }
        ensures short { result ≤ SHORT }
    {
        self.len
    }

    /// Writes the key at `at`, which needs room for a short one. Returns the place behind it.
    #[inline(always)]
    pub fn put_key(&self, bytes: &mut [u8], at: usize) -> usize
        requires { at + SHORT ≤ length bytes.old }
        ensures text { take result bytes.new ≡ take at bytes.old ++ self.now.key }
        ensures end { result ≡ at + length self.now.key }
    {
        put_front(bytes, at, &self.bytes, usize::from(self.len))
    }

    /// Returns `true` if this is the key.
    #[inline(always)]
    fn has_key(&self, key: &Key) -> bool
        ensures { result ≡ key_eq self.now.key key.now }
    {
        self.key_order(key) == Ordering::Equal
    }

    /// Compares the key with that of another short pair.
    #[inline(always)]
    pub(crate) fn order_to_short(&self, other: &ShortPair) -> Ordering
        ensures { result ≡ key_cmp self.now.key other.now.key }
    {
        order_of_fronts(&self.bytes, &other.bytes, 7)
    }

    /// Returns `true` if the key is that of another short pair.
    #[inline(always)]
    pub(crate) fn has_key_of(&self, other: &ShortPair) -> bool
        ensures { result ≡ key_eq self.now.key other.now.key }
    {
        self.order_to_short(other) == Ordering::Equal
    }

    /// Returns `true` if another short pair is the same.
    #[inline(always)]
    fn is_short_pair(&self, other: &ShortPair) -> bool
        ensures { result ≡ pair_eq other.now self.now }
    {
        other.has_key_of(self) && other.version == self.version
    }

    /// Returns `true` if this is the pair.
    #[inline(always)]
    fn is_pair(&self, pair: &Pair) -> bool
        ensures { result ≡ pair_eq pair.now self.now }
    {
        self.has_key(&pair.key) && pair.version == self.version
    }

    /// Writes the key, a colon and the version at a place.
    #[inline(always)]
    fn put(&self, bytes: &mut [u8], at: usize) -> usize
        requires { at + 106 ≤ length bytes.old }
        ensures text { take result bytes.new ≡ take at bytes.old ++ pair_text self.now }
        ensures end { result ≤ at + 106 }
        ensures formed { IsTrue (is_pair self.now) }
    {
        let colon = put_front(bytes, at, &self.bytes, usize::from(self.len));
        let version = put_byte(bytes, colon, b':');
        put_version(bytes, version, self.version)
    }

    /// Compares the key with another.
    #[inline(always)]
    pub(crate) fn key_order(&self, key: &Key) -> Ordering
        ensures { result ≡ key_cmp self.now.key key.now }
    {
        let order = order_of_fronts(&self.bytes, key.front(), 7);
        if order != Ordering::Equal {
            return order;
        }
        if key.len() <= 15 {
            Ordering::Equal
        } else {
            Ordering::Less
        }
    }
}

impl PartialEq for ShortPair {
    ghost eq = { pair_eq };

    ghost laws = { partial_equiv_from_equiv (same_equivalence same_pair) };

    fn eq(&self, other: &ShortPair) -> bool {
        self.bytes[..usize::from(self.len)] == other.bytes[..usize::from(other.len)]
            && self.version == other.version
    }
}

/// One pair with a short key in place, several of them, or pairs in full.
#[derive(Debug, Drop)]
enum Rows {
    One(ShortPair),
    Short(Vec<ShortPair>),
    Full(Vec<Pair>),
}

/// Pairs in the smallest form that fits. Contracts see their list. One pair with a short key needs
/// no allocation.
#[derive(Debug, Drop)]
pub(crate) struct PackedPairs {
    alloc: Global,
    rows: Rows,
}

impl Model for PackedPairs {
    ghost use Rattle.std.specs.Prelude.{List};
    ghost use Rattle.cops_types.specs.declared.pairs.Pair.{Pair};

    ghost Value = { List Pair };

    ghost use Rattle.cops_types.specs.PackedRows.{pairs_of};

    ghost view = { λ p. pairs_of p.rows };
}

/// Returns `true` if each key is short.
fn are_short(pairs: &[Pair]) -> bool
    ensures { result ≡ list_all has_short_key pairs.now }
{
    pairs.iter().all(|pair| pair.key.len() <= 15)
}

/// Converts the pairs, which all have short keys.
fn shortened(alloc: Global, pairs: &[Pair]) -> Result<Vec<ShortPair>, AllocError>
    requires { IsTrue (list_all has_short_key pairs.now) }
    ensures { IfOk result (λ list. list.items ≡ pairs.now) }
{
    let mut list = Vec::with_capacity(alloc, pairs.len())?;
    for pair in pairs {
        list.push(ShortPair::of(pair))?;
    }
    Ok(list)
}

/// Returns the rows of these pairs, which all have short keys.
fn short_rows(alloc: Global, pairs: &[Pair]) -> Result<Rows, AllocError>
    requires { IsTrue (list_all has_short_key pairs.now) }
    ensures { IfOk result (λ rows. pairs_of rows ≡ pairs.now) }
{
    if pairs.len() == 1 {
        return Ok(Rows::One(ShortPair::of(&pairs[0])));
    }
    Ok(Rows::Short(shortened(alloc, pairs)?))
}

/// Writes each pair after a comma at a place.
fn put_more_short(bytes: &mut [u8], at: usize, pairs: &[ShortPair]) -> usize
    requires { at + 107 * length pairs.now ≤ length bytes.old }
    ensures text { take result bytes.new ≡ take at bytes.old ++ more_text pairs.now }
    ensures end { result ≤ at + 107 * length pairs.now }
    ensures formed { IsTrue (list_all is_pair pairs.now) }
{
    let mut end = at;
    for pair in pairs {
        let after = put_byte(bytes, end, b',');
        end = pair.put(bytes, after);
    }
    end
}

/// Writes the pairs separated by commas, or a hyphen for none, at a place.
fn put_short(bytes: &mut [u8], at: usize, pairs: &[ShortPair]) -> usize
    requires { at + 107 * length pairs.now + 1 ≤ length bytes.old }
    ensures text { take result bytes.new ≡ take at bytes.old ++ list_text pairs.now }
    ensures end { result ≤ at + 107 * length pairs.now + 1 }
    ensures formed { IsTrue (list_all is_pair pairs.now) }
{
    match pairs {
        [] => put_byte(bytes, at, b'-'),
        [first, rest @ ..] => {
            let end = first.put(bytes, at);
            put_more_short(bytes, end, rest)
        }
    }
}

/// Returns the index of the key among short pairs, or the index at which it belongs.
fn place_among_short(pairs: &[ShortPair], key: &Key) -> Result<usize, usize>
    requires { IsDeps pairs.now }
    ensures within { IsSearchInRange result (length pairs.now) }
    ensures place { MatchResult result
        (HoldsAt (λ p. key_cmp p.key key.now ≡ Equal) pairs.now)
        (IsPartitionPoint (λ p. key_cmp p.key key.now ≡ Less)
        (λ p. key_cmp p.key key.now ≡ Greater) pairs.now) }
{
    pairs.binary_search_by(|pair| pair.key_order(key))
}

/// Returns the version of a key among short pairs in order, 0.0 if there is none. Few pairs are
/// compared one after another.
fn version_among_short(pairs: &[ShortPair], key: &Key) -> Version
    requires { IsDeps pairs.now }
    ensures { result ≡ version_of key.now pairs.now }
{
    if pairs.len() > FEW {
        return version_among_many(pairs, key);
    }
    for pair in pairs {
        if pair.has_key(key) {
            return pair.version();
        }
    }
    Version::none()
}

/// Does the same by binary search.
#[inline(never)]
fn version_among_many(pairs: &[ShortPair], key: &Key) -> Version
    requires { IsDeps pairs.now }
    ensures { result ≡ version_of key.now pairs.now }
{
    match place_among_short(pairs, key) {
        Ok(place) => pairs[place].version(),
        Err(_) => Version::none(),
    }
}

/// Returns `true` if short pairs with one version for each key hold exactly this pair. Few pairs
/// are compared one after another.
fn is_among_short(pairs: &[ShortPair], pair: &Pair) -> bool
    requires { IsDeps pairs.now }
    ensures { result ≡ holds pairs.now pair.now }
{
    if pairs.len() > FEW {
        return is_among_many(pairs, pair);
    }
    pairs.iter().any(|other| other.is_pair(pair))
}

/// Does the same by binary search.
#[inline(never)]
fn is_among_many(pairs: &[ShortPair], pair: &Pair) -> bool
    requires { IsDeps pairs.now }
    ensures { result ≡ holds pairs.now pair.now }
{
    match place_among_short(pairs, &pair.key) {
        Ok(place) => pairs[place].version() == pair.version,
        Err(_) => false,
    }
}

/// Returns `true` if short pairs with one version for each key hold exactly this short pair, in the
/// same way.
#[inline(always)]
pub(crate) fn has_short(pairs: &[ShortPair], pair: &ShortPair) -> bool
    requires { IsDeps pairs.now }
    ensures { result ≡ holds pairs.now pair.now }
{
    if pairs.len() > FEW {
        return has_short_among_many(pairs, pair);
    }
    pairs.iter().any(|other| other.is_short_pair(pair))
}

/// Does the same by binary search.
#[inline(never)]
fn has_short_among_many(pairs: &[ShortPair], pair: &ShortPair) -> bool
    requires { IsDeps pairs.now }
    ensures { result ≡ holds pairs.now pair.now }
{
    is_among_many(pairs, &pair.pair())
}

/// Returns `true` if two pairs are the same.
fn is_same_pair(pair: Pair, other: Pair) -> bool
    ensures { IsTrue result ↔ (pair ≡ other) }
{
    pair == other
}

/// Returns `true` if two lists of short pairs are the same.
fn are_same_short(pairs: &[ShortPair], others: &[ShortPair]) -> bool
    ensures { IsTrue result ↔ (pairs.now ≡ others.now) }
{
    pairs == others
}

/// Returns `true` if two lists of pairs in full are the same.
fn are_same_full(pairs: &[Pair], others: &[Pair]) -> bool
    ensures { IsTrue result ↔ (pairs.now ≡ others.now) }
{
    pairs == others
}

impl PackedPairs {
    /// Returns an empty list of pairs.
    pub(crate) fn empty(alloc: Global) -> Self
        ensures { result ≡ [] }
    {
        PackedPairs {
            alloc,
            rows: Rows::Short(Vec::new(alloc)),
        }
    }

    /// Copies pairs, with at most one allocation.
    pub(crate) fn copy_of(alloc: Global, pairs: &[Pair]) -> Result<Self, AllocError>
        ensures { IfOk result (λ packed. packed ≡ pairs.now) }
    {
        let rows = if are_short(pairs) {
            short_rows(alloc, pairs)?
        } else {
            Rows::Full(Vec::from_slice(alloc, pairs)?)
        };
        Ok(PackedPairs { alloc, rows })
    }

    /// Copies short pairs, with at most one allocation.
    pub(crate) fn copy_of_short(alloc: Global, pairs: &[ShortPair]) -> Result<Self, AllocError>
        ensures { IfOk result (λ packed. packed ≡ pairs.now) }
    {
        let rows = if pairs.len() == 1 {
            Rows::One(pairs[0])
        } else {
            Rows::Short(Vec::from_slice(alloc, pairs)?)
        };
        Ok(PackedPairs { alloc, rows })
    }

    /// Returns all pairs, if their keys are stored in the short form.
    #[inline(always)]
    pub(crate) fn short(&self) -> Option<&[ShortPair]>
        ensures { IfSome result (λ pairs. pairs.now ≡ self.now) }
    {
        match &self.rows {
            Rows::One(pair) => Some(slice::from_ref(pair)),
            Rows::Short(pairs) => Some(pairs.as_slice()),
            Rows::Full(_) => None,
        }
    }

    /// Returns the number of pairs.
    pub(crate) fn len(&self) -> usize
        ensures { result ≡ length self.now }
    {
        match &self.rows {
            Rows::One(_) => 1,
            Rows::Short(pairs) => pairs.len(),
            Rows::Full(pairs) => pairs.len(),
        }
    }

    /// Returns the pair at a place.
    pub(crate) fn pair(&self, place: usize) -> Pair
        requires { place < length self.now }
        ensures { result ≡ slice_index_or self.now place result }
    {
        match &self.rows {
            Rows::One(pair) => pair.pair(),
            Rows::Short(pairs) => pairs.as_slice()[place].pair(),
            Rows::Full(pairs) => pairs.as_slice()[place],
        }
    }

    /// Writes the pairs separated by commas, or a hyphen for none, at a place.
    pub(crate) fn put(&self, bytes: &mut [u8], at: usize) -> usize
        requires { at + 107 * length self.now + 1 ≤ length bytes.old }
        ensures text { take result bytes.new ≡ take at bytes.old ++ list_text self.now }
        ensures end { result ≤ at + 107 * length self.now + 1 }
        ensures formed { IsTrue (list_all is_pair self.now) }
    {
        match &self.rows {
            Rows::One(pair) => pair.put(bytes, at),
            Rows::Short(pairs) => put_short(bytes, at, pairs.as_slice()),
            Rows::Full(pairs) => put_pairs(bytes, at, pairs.as_slice()),
        }
    }

    /// Compares the key at a place with another.
    #[inline(always)]
    pub(crate) fn key_order(&self, place: usize, key: &Key) -> Ordering
        requires { place < length self.now }
        ensures { HoldsAt (λ p. key_cmp p.key key.now ≡ result) self.now place }
    {
        match &self.rows {
            Rows::One(pair) => pair.key_order(key),
            Rows::Short(pairs) => pairs.as_slice()[place].key_order(key),
            Rows::Full(pairs) => pairs.as_slice()[place].key.cmp(key),
        }
    }

    /// Returns the version of the pair at a place.
    pub(crate) fn version(&self, place: usize) -> Version
        requires { place < length self.now }
        ensures { HoldsAt (λ p. p.version ≡ result) self.now place }
    {
        match &self.rows {
            Rows::One(pair) => pair.version(),
            Rows::Short(pairs) => pairs.as_slice()[place].version(),
            Rows::Full(pairs) => pairs.as_slice()[place].version,
        }
    }

    /// Returns the handle for memory.
    pub(crate) fn allocator(&self) -> Global {
        self.alloc
    }

    /// Returns the same pairs, in other memory.
    pub(crate) fn copy(&self, alloc: Global) -> Result<Self, AllocError>
        ensures { IfOk result (λ packed. packed ≡ self.now) }
    {
        let rows = match &self.rows {
            Rows::One(pair) => Rows::One(*pair),
            Rows::Short(pairs) => Rows::Short(Vec::from_slice(alloc, pairs.as_slice())?),
            Rows::Full(pairs) => Rows::Full(Vec::from_slice(alloc, pairs.as_slice())?),
        };
        Ok(PackedPairs { alloc, rows })
    }

    /// Returns `true` if both have the same pairs.
    pub(crate) fn is_same(&self, other: &PackedPairs) -> bool
        ensures { IsTrue result ↔ (self.now ≡ other.now) }
    {
        match &self.rows {
            Rows::One(_) => self.is_same_by_pair(other),
            Rows::Short(pairs) => match &other.rows {
                Rows::Short(others) => are_same_short(pairs.as_slice(), others.as_slice()),
                _ => self.is_same_by_pair(other),
            },
            Rows::Full(pairs) => match &other.rows {
                Rows::Full(others) => are_same_full(pairs.as_slice(), others.as_slice()),
                _ => self.is_same_by_pair(other),
            },
        }
    }

    /// Does the same for lists in different forms.
    fn is_same_by_pair(&self, other: &PackedPairs) -> bool
        ensures { IsTrue result ↔ (self.now ≡ other.now) }
    {
        if self.len() != other.len() {
            return false;
        }
        for place in 0..self.len() {
            if !is_same_pair(self.pair(place), other.pair(place)) {
                return false;
            }
        }
        true
    }

    /// Returns the index of the key, or the index at which it belongs.
    fn place_of(&self, key: &Key) -> Result<usize, usize>
        requires { IsDeps self.now }
        ensures within { IsSearchInRange result (length self.now) }
        ensures place { MatchResult result
            (HoldsAt (λ p. key_cmp p.key key.now ≡ Equal) self.now)
            (IsPartitionPoint (λ p. key_cmp p.key key.now ≡ Less)
            (λ p. key_cmp p.key key.now ≡ Greater) self.now) }
    {
        match &self.rows {
            Rows::One(pair) => place_among_short(slice::from_ref(pair), key),
            Rows::Short(pairs) => place_among_short(pairs.as_slice(), key),
            Rows::Full(pairs) => place_of(pairs.as_slice(), key),
        }
    }

    /// Returns the version of a key among pairs in order, 0.0 if there is none.
    pub(crate) fn version_of(&self, key: &Key) -> Version
        requires { IsDeps self.now }
        ensures { result ≡ version_of key.now self.now }
    {
        match self.short() {
            Some(pairs) => version_among_short(pairs, key),
            None => self.version_by_place(key),
        }
    }

    /// Does the same for pairs in any form.
    #[inline(never)]
    fn version_by_place(&self, key: &Key) -> Version
        requires { IsDeps self.now }
        ensures { result ≡ version_of key.now self.now }
    {
        match self.place_of(key) {
            Ok(place) => self.version(place),
            Err(_) => Version::none(),
        }
    }

    /// Returns `true` if pairs with one version for each key hold exactly this pair.
    pub(crate) fn holds(&self, pair: &Pair) -> bool
        requires { IsDeps self.now }
        ensures { result ≡ holds self.now pair.now }
    {
        match self.short() {
            Some(pairs) => is_among_short(pairs, pair),
            None => self.holds_at_place(pair),
        }
    }

    /// Does the same for pairs in any form.
    #[inline(never)]
    fn holds_at_place(&self, pair: &Pair) -> bool
        requires { IsDeps self.now }
        ensures { result ≡ holds self.now pair.now }
    {
        match self.place_of(&pair.key) {
            Ok(place) => self.version(place) == pair.version,
            Err(_) => false,
        }
    }

    /// Returns the greatest clock among the pairs.
    pub(crate) fn greatest_clock(&self) -> u64
        ensures value { result ≡ greatest_clock_of self.now }
        ensures fits { result ≤ last_clock }
    {
        let mut greatest = 0;
        for place in 0..self.len() {
            greatest = greatest.max(self.version(place).clock());
        }
        greatest
    }
}
