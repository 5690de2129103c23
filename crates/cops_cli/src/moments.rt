//! A service's clock.
ghost use Rattle.std.specs.Prelude.{◌≡◌, ◌/◌, ◌^◌, ◌<◌, ◌≤◌};
ghost use Rattle.std.specs.Duration.{as_nanos};

use cops_wire::Moments;
use std::time::{Clock, Duration};

/// Milliseconds since 1970. It reads the system's clock once, and adds the time of a monotonic
/// clock. So it doesn't jump when the system's clock is set.
#[derive_where(Clone, Copy)]
pub(crate) struct SteadyMoments<'a, R: Clock> {
    clock: &'a R,
    // The monotonic clock at the start.
    start: Duration,
    // The system's clock at the start, in milliseconds since 1970; 0 if it can't be read.
    first: u64,
}

impl<'a, R: Clock> SteadyMoments<'a, R> {
    /// Reads both clocks.
    pub(crate) fn new(clock: &'a R) -> SteadyMoments<'a, R> {
        SteadyMoments {
            clock,
            start: clock.monotonic().unwrap_or(Duration::ZERO),
            first: match clock.since_1970() {
                Ok(time) => millis(time),
                Err(_) => 0,
            },
        }
    }
}

impl<R: Clock> Moments for SteadyMoments<'_, R> {
    // No timestamp is before the first. The first stays.
    ghost Gives = { λ old moment new. (old.first ≤ moment) × (new.first ≡ old.first) };

    fn now(&mut self) -> u64 {
        match self.clock.monotonic() {
            Ok(time) => self
                .first
                .saturating_add(millis(time.saturating_sub(self.start))),
            Err(_) => self.first,
        }
    }
}

// Returns a time in milliseconds, or 0 if it doesn't fit a `u64`.
fn millis(time: Duration) -> u64
    ensures fits { as_nanos time / 1_000_000 < 2 ^ 64 → result ≡ as_nanos time / 1_000_000 }
    ensures over { 2 ^ 64 ≤ as_nanos time / 1_000_000 → result ≡ 0 }
{
    u64::try_from(time.as_millis()).unwrap_or(0)
}
