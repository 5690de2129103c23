//! A garbage-collection entry as the table stores it.
ghost use Rattle.std.specs.Prelude.{◌≡◌, IsSome};

use crate::table::Due;
use cops_types::{Key, ShortKey};
use std::boxed::Box;
use std::marker::Model;

/// A key in place, or one in a block of its own.
#[derive(Debug, Drop)]
pub enum DueKey {
    Short(ShortKey),
    Long(Box<Key>),
}

/// A garbage-collection entry in 32 bytes. A key of more than 15 bytes needs a block beside.
/// Contracts see the entry.
#[derive(Debug, Drop)]
pub struct KeptDue {
    form: DueKey,
    stale: u64,
}

impl Model for KeptDue {
    ghost use Rattle.cops_store.specs.declared.table.Due.{Due};

    ghost Value = { Due };

    ghost use Rattle.cops_store.specs.DueKeys.{due_key};

    ghost view = { λ d. record { key = due_key d.form; stale = d.stale } };
}

impl KeptDue {
    // Converts an entry for storage. A long key takes the block.
    pub(crate) fn of(due: Due, block: &mut Option<Box<Key>>) -> Self
        requires { IsSome block.old }
        ensures { result ≡ due }
    {
        let form = match ShortKey::of(&due.key) {
            Some(short) => DueKey::Short(short),
            None => {
                let mut taken = block.take().unwrap();
                *taken = due.key;
                DueKey::Long(taken)
            }
        };
        KeptDue {
            form,
            stale: due.stale,
        }
    }

    // Returns the entry's key.
    pub(crate) fn key(&self) -> Key
        ensures { result ≡ self.now.key }
    {
        match &self.form {
            DueKey::Short(key) => key.key(),
            DueKey::Long(key) => **key,
        }
    }

    // Returns the timestamp before which nothing of the key's chain is stale.
    pub(crate) fn stale(&self) -> u64
        ensures { result ≡ self.now.stale }
    {
        self.stale
    }

    // Gives the entry another timestamp.
    pub(crate) fn put_off(&mut self, stale: u64)
        ensures { self.new ≡ record { key = self.old.key; stale = stale } }
    {
        self.stale = stale;
    }
}
