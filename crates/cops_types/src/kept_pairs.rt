//! Stored pairs: in full, or short ones.
ghost use Rattle.std.specs.Prelude.{◌≡◌};
ghost use Rattle.cops_types.specs.Key.{key_cmp};
ghost use Rattle.cops_types.specs.Pairs.{pair_cmp};

use crate::keys::Key;
use crate::packed::ShortPair;
use crate::pairs::Pair;
use std::cmp::Ordering;

/// A stored pair.
pub(crate) trait KeptPair: Copy {
    ghost use Rattle.cops_types.specs.declared.pairs.Pair.{Pair};

    /// The pair that is stored.
    ghost kept: { Self → Pair };

    /// Returns the pair in full.
    fn in_full(&self) -> Pair
        ensures { result ≡ kept self.now };

    /// Compares the key with another.
    fn order_to_key(&self, key: &Key) -> Ordering
        ensures { result ≡ key_cmp (kept self.now).key key.now };

    /// Compares the pair with another.
    fn order_to_pair(&self, pair: &Pair) -> Ordering
        ensures { result ≡ pair_cmp (kept self.now) pair.now };
}

impl KeptPair for Pair {
    ghost kept = { λ p. p };

    fn in_full(&self) -> Pair {
        *self
    }

    #[inline(always)]
    fn order_to_key(&self, key: &Key) -> Ordering {
        self.key.cmp(key)
    }

    fn order_to_pair(&self, pair: &Pair) -> Ordering {
        self.cmp(pair)
    }
}

impl KeptPair for ShortPair {
    ghost kept = { λ p. p };

    fn in_full(&self) -> Pair {
        self.pair()
    }

    #[inline(always)]
    fn order_to_key(&self, key: &Key) -> Ordering {
        self.key_order(key)
    }

    fn order_to_pair(&self, pair: &Pair) -> Ordering {
        match self.key_order(&pair.key) {
            Ordering::Equal => self.version().cmp(&pair.version),
            order => order,
        }
    }
}
