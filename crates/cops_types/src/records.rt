ghost use Rattle.std.specs.Prelude.{◌≡◌, ◌≤◌, ◌+◌, ◌++◌, ◌↔◌, length, take, IfOk, IsTrue};
ghost use Rattle.std.specs.Cmp.{partial_equiv_from_equiv};
ghost use Rattle.cops_types.specs.Key.{is_key};

use crate::deps::{Deps, OwnedDeps, shared_deps};
use crate::keys::Key;
use crate::near::{Near, OwnedNear, shared_near};
use crate::short_keys::KeptKey;
use crate::values::{OwnedValue, Value, shared_value};
use crate::versions::Version;
use std::alloc::{AllocError, Global};
use std::marker::Model;
use std::sync::Arc;

/// The parts of a put's entry: the pair and its value, its dependencies, and the version that this
/// origin sent before it.
#[derive(Debug, Drop)]
pub struct EntryParts {
    pub key: Key,
    pub version: Version,
    pub value: Value,
    pub deps: Deps,
    pub near: Near,
    pub prev: Version,
}

/// The stored parts of an entry, with the key in little memory. Values and lists that share the
/// entry's memory own a reference to it.
#[derive(Debug, Drop)]
pub(crate) struct KeptParts {
    key: KeptKey,
    version: Version,
    pub(crate) value: OwnedValue,
    pub(crate) deps: OwnedDeps,
    pub(crate) near: OwnedNear,
    prev: Version,
}

/// A put's entry, which one data centre sends to another. Contracts see its parts; a copy shares
/// them.
#[derive(Debug, Drop)]
pub struct Entry {
    parts: Arc<KeptParts>,
}

impl Model for Entry {
    ghost use Rattle.std.specs.Arc.{arc_value};
    ghost use Rattle.cops_types.specs.declared.records.EntryParts.{EntryParts};

    ghost Value = { EntryParts };

    ghost use Rattle.cops_types.specs.KeptEntry.{unpacked_parts};

    ghost view = { λ e. unpacked_parts (arc_value e.parts) };
}

/// An entry that a node committed, with the node's `now` at that time.
#[derive(Debug, Drop)]
pub struct Record {
    pub entry: Entry,
    pub at: u64,
}

impl Entry {
    /// Returns the entry of these parts. Fails with `AllocError` if memory runs out.
    pub fn new(alloc: Global, parts: EntryParts) -> Result<Self, AllocError>
        ensures { IfOk result (λ entry. entry ≡ parts) }
    {
        let kept = KeptParts {
            key: KeptKey::of(alloc, parts.key)?,
            version: parts.version,
            value: parts.value.into_owned(alloc)?,
            deps: parts.deps.into_owned(alloc)?,
            near: parts.near.into_owned(alloc)?,
            prev: parts.prev,
        };
        Ok(Entry {
            parts: Arc::new(alloc, kept)?,
        })
    }

    /// Returns the key.
    pub fn key(&self) -> Key
        ensures { result ≡ self.now.key }
    {
        self.parts.key.key()
    }

    /// Writes the key at `at`. Returns the place behind it.
    #[inline(always)]
    pub fn put_key(&self, bytes: &mut [u8], at: usize) -> usize
        requires { at + 64 ≤ length bytes.old }
        ensures text { take result bytes.new ≡ take at bytes.old ++ self.now.key }
        ensures end { result ≤ at + 64 }
        ensures formed { IsTrue (is_key self.now.key) }
    {
        self.parts.key.put(bytes, at)
    }

    /// Returns the version.
    pub fn version(&self) -> Version
        ensures { result ≡ self.now.version }
    {
        self.parts.version
    }

    /// Returns the value.
    pub fn value(&self) -> &OwnedValue
        ensures { result.now ≡ self.now.value }
    {
        &self.parts.value
    }

    /// Returns the dependencies.
    pub fn deps(&self) -> &OwnedDeps
        ensures { result.now ≡ self.now.deps }
    {
        &self.parts.deps
    }

    /// Returns the nearest dependencies.
    pub fn near(&self) -> &OwnedNear
        ensures { result.now ≡ self.now.near }
    {
        &self.parts.near
    }

    /// Returns the value, over the entry's memory. Fails with `AllocError` if memory runs out.
    pub fn shared_value(&self, alloc: Global) -> Result<Value, AllocError>
        ensures { IfOk result (λ value. value ≡ self.now.value) }
    {
        shared_value(alloc, &self.parts)
    }

    /// Returns the dependencies, over the entry's memory. Fails with `AllocError` if memory runs
    /// out.
    pub fn shared_deps(&self, alloc: Global) -> Result<Deps, AllocError>
        ensures { IfOk result (λ deps. deps ≡ self.now.deps) }
    {
        shared_deps(alloc, &self.parts)
    }

    /// Returns the nearest dependencies, over the entry's memory. Fails with `AllocError` if memory
    /// runs out.
    pub fn shared_near(&self, alloc: Global) -> Result<Near, AllocError>
        ensures { IfOk result (λ near. near ≡ self.now.near) }
    {
        shared_near(alloc, &self.parts)
    }

    /// Returns the version that the origin sent before.
    pub fn prev(&self) -> Version
        ensures { result ≡ self.now.prev }
    {
        self.parts.prev
    }

    /// Returns the record of this entry, committed at the timestamp `at`.
    pub fn committed(self, at: u64) -> Record
        ensures { result ≡ record { entry = self; at = at } }
    {
        Record { entry: self, at }
    }

    /// Returns a copy of the parts.
    fn to_parts(&self, alloc: Global) -> Result<EntryParts, AllocError>
        ensures { IfOk result (λ parts. parts ≡ self.now) }
    {
        Ok(EntryParts {
            key: self.key(),
            version: self.version(),
            value: Value::of(self.value().copy(alloc)?),
            deps: Deps::of(self.deps().copy(alloc)?),
            near: Near::of(self.near().copy(alloc)?),
            prev: self.prev(),
        })
    }

    /// Returns the same entry, over memory of its own.
    #[inline(never)]
    fn copy_apart(&self, alloc: Global) -> Result<Self, AllocError>
        ensures { IfOk result (λ entry. entry ≡ self.now) }
    {
        Entry::new(alloc, self.to_parts(alloc)?)
    }

    /// Returns the same entry, over the same memory. Copies it if the count of owners is full.
    /// Fails with `AllocError` if memory runs out.
    #[inline(always)]
    pub fn copy(&self, alloc: Global) -> Result<Self, AllocError>
        ensures { IfOk result (λ entry. entry ≡ self.now) }
    {
        match self.parts.clone() {
            Ok(parts) => Ok(Entry { parts }),
            Err(_) => self.copy_apart(alloc),
        }
    }
}

impl PartialEq for Entry {
    ghost use Rattle.cops_types.specs.Same.{entry_eq, same_entries, same_equivalence};

    ghost eq = { entry_eq };

    ghost laws = { partial_equiv_from_equiv (same_equivalence same_entries) };

    fn eq(&self, other: &Entry) -> bool
        ensures value { result ≡ entry_eq self.now other.now }
        ensures exact { IsTrue result ↔ (self.now ≡ other.now) }
    {
        self.version() == other.version()
            && self.key() == other.key()
            && self.prev() == other.prev()
            && *self.value() == *other.value()
            && *self.near() == *other.near()
            && *self.deps() == *other.deps()
    }
}

impl Eq for Entry {
    ghost use Rattle.cops_types.specs.Same.{same_entries, same_equivalence};

    ghost laws = { same_equivalence same_entries };
}

impl Record {
    pub fn key(&self) -> Key
        ensures { result ≡ self.now.entry.key }
    {
        self.entry.key()
    }

    pub fn version(&self) -> Version
        ensures { result ≡ self.now.entry.version }
    {
        self.entry.version()
    }
}

/// A stored record, with the timestamp from which it is stale.
#[derive(Debug, Drop)]
pub struct Dated {
    pub record_of: Record,
    pub stale: Option<u64>,
}
