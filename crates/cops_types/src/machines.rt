//! The state machines that a gate protects.
ghost use Rattle.std.specs.Prelude.{◌≡◌, ℕ, OnErr, IfOk};

use std::alloc::AllocError;

/// A state that calls change one at a time.
pub trait Machine {
    type Call: Drop;

    type Reply;

    /// The machine's place, as contracts see it. No value of it need exist.
    type Place;

    ghost place: { Self → Self.Place };

    /// The calls of a slot that a place accepts.
    ghost fits: { Self.Place → ℕ → Self.Call → Type 0 };

    /// One turn: the state before, the slot, the timestamp, the call, the reply and the state
    /// after.
    ghost turns: { Self → ℕ → ℕ → Self.Call → Self.Reply → Self → Type 0 };

    /// The calls of a slot that may run out of memory in this state.
    ghost may_lack: { Self → ℕ → Self.Call → Type 0 };

    /// Makes one turn. Fails with `AllocError` only if memory runs out and the state permits it;
    /// then nothing has changed.
    fn turn(&mut self, slot: u64, moment: u64, call: Self::Call) -> Result<Self::Reply, AllocError>
        requires { fits (place self.old) slot call }
        ensures reply { IfOk result (λ r. turns self.old slot moment call r self.new) }
        ensures refused { OnErr result (self.new ≡ self.old) }
        ensures lacks { OnErr result (may_lack self.old slot call) }
        ensures place { place self.new ≡ place self.old };
}
