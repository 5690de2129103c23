ghost use Rattle.std.specs.Prelude.{ℕ};

/// A source of timestamps for the steps of requests, in milliseconds.
pub trait Moments {
    /// Relates a state, the next timestamp that it may give, and the state after it.
    ghost Gives: { Self → ℕ → Self → Type 0 };

    /// Returns the next timestamp.
    fn now(&mut self) -> u64
        ensures { Gives self.old result self.new };
}
