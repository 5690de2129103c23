ghost use Rattle.std.specs.Prelude.{◌≡◌, ℕ, ◌+◌, ◌≤◌, List, length, false};
ghost use Rattle.cops_model.specs.Log.{LogStep, replies_of};
ghost use Rattle.cops_model.specs.Carrier.{Stream, carrier_next, has_answer, near_pairs};

/// Theorem: a carrier without an answer has had at most as many replies as the entry has near
/// pairs, and two more; one more reply at the latest ends it.
pub fn carriers_end()
    ensures { (shards : ℕ) (stream : Stream) (log : List LogStep) →
        has_answer (carrier_next shards stream log) ≡ false →
        length (replies_of log) ≤ near_pairs (replies_of log) + 2 }
{}
