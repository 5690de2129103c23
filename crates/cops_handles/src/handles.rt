ghost use Rattle.std.specs.Prelude.{◌≡◌, ⊤, ℕ, ◌==◌, slice_index, drop, if◌then◌else◌};
ghost use Rattle.std.specs.Int.{w64, from_be_bytes};
ghost use Rattle.cops_handles.specs.Wire.{wire_of};

use cops_types::Fault;
use std::alloc::AllocError;
use std::marker::{Model, PhantomData};

/// What a table stores under its numbers, and the tag of its handles on the wire.
pub trait Kind {
    type Row: Drop;

    const TAG: u8;

    ghost TAG: { ℕ };
}

/// The number of a row in a table of this kind. Contracts see the number.
pub struct Handle<K: Kind> {
    number: u64,
    kind: PhantomData<K>,
}

impl<K: Kind> Model for Handle<K> {
    ghost use Rattle.std.specs.Prelude.{ℕ};

    ghost Value = { ℕ };

    ghost view = { λ h. h.number };

    ghost inverse = { λ n. record { number = n; kind = record {} } };
}

impl<K: Kind> Clone for Handle<K> {
    ghost is_clone = { λ handle copy. copy ≡ handle };

    ghost is_infallible = { λ _. ⊤ };

    fn clone(&self) -> Result<Self, AllocError> {
        Ok(Handle::of_number(self.number))
    }
}

impl<K: Kind> Copy for Handle<K> {}

impl<K: Kind> Handle<K> {
    /// Returns the handle of a number, whether or not it is open.
    pub fn of_number(number: u64) -> Self
        ensures { result ≡ number }
    {
        Handle {
            number,
            kind: PhantomData,
        }
    }

    /// Returns the number.
    pub fn number(self) -> u64
        ensures { result ≡ self }
    {
        self.number
    }

    /// Returns the tag of the kind, followed by the number.
    pub fn to_wire(self) -> [u8; 9]
        ensures { result ≡ wire_of K.TAG self }
    {
        let [a, b, c, d, e, f, g, h] = self.number.to_be_bytes();
        [K::TAG, a, b, c, d, e, f, g, h]
    }

    /// Returns the handle that these bytes encode. Fails with `NoContext` if the tag is of another
    /// kind.
    pub fn from_wire(bytes: [u8; 9]) -> Result<Self, Fault>
        ensures { result ≡ (if slice_index bytes 0 == K.TAG
            then Ok (from_be_bytes w64 (drop 1 bytes)) else Err Fault.NoContext) }
    {
        let [tag, a, b, c, d, e, f, g, h] = bytes;
        if tag == K::TAG {
            Ok(Handle::of_number(u64::from_be_bytes([a, b, c, d, e, f, g, h])))
        } else {
            Err(Fault::NoContext)
        }
    }
}
