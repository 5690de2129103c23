ghost use Rattle.std.specs.Prelude.{ℕ, List};
ghost use Rattle.cops_model.specs.Log.{LogStep};
ghost use Rattle.cops_repl.specs.Bounds.{IsDeliveryBounded};
ghost use Rattle.cops_model.specs.Carrier.{Stream};

/// Theorem: whatever the nodes reply, a carrier without an answer has had at most one reply for
/// each near pair of the entry that it pulled, and three more.
pub fn replies_are_few()
    ensures { (shards : ℕ) (stream : Stream) (log : List LogStep) →
        IsDeliveryBounded shards stream log }
{}
