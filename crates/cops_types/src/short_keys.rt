//! Keys of few bytes, for entries and audits.
ghost use Rattle.std.specs.Prelude.{◌≡◌, ◌≤◌, ◌+◌, ◌++◌, length, take, IfSome, IfOk, IsTrue};
ghost use Rattle.cops_types.specs.Key.{is_key};

use crate::keys::Key;
use crate::placed::{put_front, put_key};
use std::alloc::{AllocError, Global};
use std::boxed::Box;
use std::marker::Model;

/// A key of at most 15 bytes, in 16. Contracts see the list of its bytes.
#[derive(Debug, Drop)]
pub struct ShortKey {
    bytes: [u8; 15],
    len: u8,
}

impl Model for ShortKey {
    ghost use Rattle.std.specs.Prelude.{List, ℕ, take};
    ghost use Rattle.cops_types.specs.Key.{is_key};
    ghost use Rattle.cops_types.specs.Padding.{IsPadded};

    ghost Value = { List ℕ };

    ghost view = { λ k. take k.len k.bytes };

    ghost invariant = { λ k. IsPadded 15 is_key k.bytes k.len };
}

impl ShortKey {
    /// Returns the key in the short form, if it has at most 15 bytes.
    pub fn of(key: &Key) -> Option<Self>
        ensures { IfSome result (λ short. short ≡ key.now) }
    {
        if key.len() > 15 {
            return None;
        }
        Some(ShortKey {
            bytes: key.cells(),
            len: key.len() as u8,
        })
    }

    /// Returns the same key in full.
    pub fn key(&self) -> Key
        ensures { result ≡ self.now }
    {
        Key::of_cells(&self.bytes, usize::from(self.len))
    }

    /// Writes the key at `at`. Returns the place behind it.
    #[inline(always)]
    pub fn put(&self, bytes: &mut [u8], at: usize) -> usize
        requires { at + 64 ≤ length bytes.old }
        ensures text { take result bytes.new ≡ take at bytes.old ++ self.now }
        ensures end { result ≤ at + 64 }
        ensures formed { IsTrue (is_key self.now) }
    {
        put_front(bytes, at, &self.bytes, usize::from(self.len))
    }
}

/// A key in place, or in a block of its own.
#[derive(Debug, Drop)]
enum KeyForm {
    Short(ShortKey),
    Long(Box<Key>),
}

/// A key in 24 bytes; one of more than 15 bytes needs a block beside. Contracts see the list of its
/// bytes.
#[derive(Debug, Drop)]
pub(crate) struct KeptKey {
    form: KeyForm,
}

impl Model for KeptKey {
    ghost use Rattle.std.specs.Prelude.{List, ℕ};

    ghost Value = { List ℕ };

    ghost use Rattle.cops_types.specs.KeyForms.{formed_key};

    ghost view = { λ k. formed_key k.form };
}

impl KeptKey {
    /// Converts the key for storage.
    pub(crate) fn of(alloc: Global, key: Key) -> Result<Self, AllocError>
        ensures { IfOk result (λ kept. kept ≡ key) }
    {
        match ShortKey::of(&key) {
            Some(short) => Ok(KeptKey {
                form: KeyForm::Short(short),
            }),
            None => Ok(KeptKey {
                form: KeyForm::Long(Box::new(alloc, key)?),
            }),
        }
    }

    /// Writes the key at a place.
    #[inline(always)]
    pub(crate) fn put(&self, bytes: &mut [u8], at: usize) -> usize
        requires { at + 64 ≤ length bytes.old }
        ensures text { take result bytes.new ≡ take at bytes.old ++ self.now }
        ensures end { result ≤ at + 64 }
        ensures formed { IsTrue (is_key self.now) }
    {
        match &self.form {
            KeyForm::Short(key) => key.put(bytes, at),
            KeyForm::Long(key) => put_key(bytes, at, key),
        }
    }

    /// Returns the same key in full.
    pub(crate) fn key(&self) -> Key
        ensures { result ≡ self.now }
    {
        match &self.form {
            KeyForm::Short(key) => key.key(),
            KeyForm::Long(key) => **key,
        }
    }
}
