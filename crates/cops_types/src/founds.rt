//! What a reader finds under a key.
ghost use Rattle.std.specs.Prelude.{◌≡◌, IfOk, IsTrue, ◌↔◌};
ghost use Rattle.std.specs.Cmp.{partial_equiv_from_equiv};
ghost use Rattle.cops_types.specs.Founds.{found_in};

use crate::deps::{Deps, OwnedDeps};
use crate::keys::Key;
use crate::near::Near;
use crate::records::{Entry, EntryParts};
use crate::values::{OwnedValue, Value};
use crate::versions::Version;
use std::alloc::{AllocError, Global};
use std::marker::Model;

/// The parts of what was found: a version, its value and its dependencies.
#[derive(Debug, Drop)]
pub struct FoundParts {
    pub version: Version,
    pub value: Value,
    pub deps: Deps,
}

/// What a reader finds under a key. It owns one reference to an entry; a value and dependencies
/// would need two. Contracts see its parts.
#[derive(Debug, Drop)]
pub struct Found {
    entry: Entry,
}

impl Model for Found {
    ghost use Rattle.cops_types.specs.declared.founds.FoundParts.{FoundParts};
    ghost use Rattle.cops_types.specs.Founds.{found_in};

    ghost Value = { FoundParts };

    ghost view = { λ f. found_in f.entry };
}

/// Returns the key of an entry that is made for its other parts alone.
fn no_key() -> Key {
    match Key::new(b"_") {
        Ok(key) => key,
        Err(_) => unreachable!(),
    }
}

impl Found {
    /// Returns what was found, from its parts. Copies those that lie in an entry. Fails with
    /// `AllocError` if memory runs out.
    pub fn new(alloc: Global, parts: FoundParts) -> Result<Self, AllocError>
        ensures { IfOk result (λ found. found ≡ parts) }
    {
        let entry = EntryParts {
            key: no_key(),
            version: parts.version,
            value: parts.value,
            deps: parts.deps,
            near: Near::empty(alloc),
            prev: Version::none(),
        };
        Ok(Found {
            entry: Entry::new(alloc, entry)?,
        })
    }

    /// Returns what a reader finds in this entry.
    #[inline(always)]
    pub fn of(entry: Entry) -> Self
        ensures { result ≡ found_in entry }
    {
        Found { entry }
    }

    /// Returns the version.
    pub fn version(&self) -> Version
        ensures { result ≡ self.now.version }
    {
        self.entry.version()
    }

    /// Returns the value.
    pub fn value(&self) -> &OwnedValue
        ensures { result.now ≡ self.now.value }
    {
        self.entry.value()
    }

    /// Returns the dependencies.
    pub fn deps(&self) -> &OwnedDeps
        ensures { result.now ≡ self.now.deps }
    {
        self.entry.deps()
    }

    /// Returns the same, over the same memory. Fails with `AllocError` if memory runs out.
    pub fn copy(&self, alloc: Global) -> Result<Self, AllocError>
        ensures { IfOk result (λ found. found ≡ self.now) }
    {
        Ok(Found {
            entry: self.entry.copy(alloc)?,
        })
    }
}

impl PartialEq for Found {
    ghost use Rattle.cops_types.specs.Same.{same_equivalence};
    ghost use Rattle.cops_types.specs.Founds.{found_eq, same_founds};

    ghost eq = { found_eq };

    ghost laws = { partial_equiv_from_equiv (same_equivalence same_founds) };

    fn eq(&self, other: &Found) -> bool
        ensures value { result ≡ found_eq self.now other.now }
        ensures exact { IsTrue result ↔ (self.now ≡ other.now) }
    {
        self.version() == other.version()
            && *self.value() == *other.value()
            && *self.deps() == *other.deps()
    }
}

impl Eq for Found {
    ghost use Rattle.cops_types.specs.Same.{same_equivalence};
    ghost use Rattle.cops_types.specs.Founds.{same_founds};

    ghost laws = { same_equivalence same_founds };
}
