//! The key of a slot's next chain.
ghost use Rattle.std.specs.Prelude.{◌≡◌, IfOk, None, Some};

use cops_types::{Key, ShortKey};
use std::alloc::{AllocError, Global};
use std::boxed::Box;
use std::marker::Model;

/// A key in place, one in a block of its own, or none.
#[derive(Debug, Drop)]
pub enum LinkForm {
    End,
    Short(ShortKey),
    Long(Box<Key>),
}

/// The key of a slot's next chain, if there is one, in 24 bytes. A key of more than 15 bytes needs
/// a block beside.
#[derive(Debug, Drop)]
pub struct Link {
    form: LinkForm,
}

impl Model for Link {
    ghost use Rattle.std.specs.Prelude.{List, ℕ, Option};

    ghost Value = { Option (List ℕ) };

    ghost use Rattle.cops_store.specs.Links.{linked_key};

    ghost view = { λ l. linked_key l.form };
}

impl Link {
    // Returns the end of a line. Allocates nothing.
    pub(crate) fn end() -> Self
        ensures { result ≡ None }
    {
        Link {
            form: LinkForm::End,
        }
    }

    // Returns a link to the key.
    pub(crate) fn to(alloc: Global, key: &Key) -> Result<Self, AllocError>
        ensures { IfOk result (λ link. link ≡ Some key.now) }
    {
        match ShortKey::of(key) {
            Some(short) => Ok(Link {
                form: LinkForm::Short(short),
            }),
            None => Ok(Link {
                form: LinkForm::Long(Box::new(alloc, *key)?),
            }),
        }
    }

    // Returns the key.
    pub(crate) fn key(&self) -> Option<Key>
        ensures { result ≡ self.now }
    {
        match &self.form {
            LinkForm::End => None,
            LinkForm::Short(key) => Some(key.key()),
            LinkForm::Long(key) => Some(**key),
        }
    }
}
