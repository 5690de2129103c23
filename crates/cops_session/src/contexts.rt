//! The contexts of a session, by their handles.
ghost use Rattle.std.specs.Prelude.{◌≡◌, [], ◌∷◌, List, not, IfOk, OnOk, OnErr};
ghost use Rattle.cops_types.specs.declared.faults.Fault.TheVariants.{DependenciesFull};
ghost use Rattle.cops_types.specs.Context.{Put, all_of, near_of, observations_of, can_put, can_observe};
ghost use Rattle.cops_types.specs.Refusal.{refused_if};
ghost use Rattle.cops_types.specs.RequestErrors.{told_refusal};
ghost use Rattle.cops_context.specs.Lists.{AnswersWithin};
ghost use Rattle.cops_session.specs.Kept.{HasRoomInContext, IsOpen};
ghost use Rattle.cops_model.specs.Session.{OpenContext, context_extended};
ghost use Rattle.cops_session.specs.SessionStands.{ContextsStandFor, obs_in};

use crate::kinds::Contexts;
use cops_handles::{Handle, Table};
use cops_types::{Deps, Key, Near, Pair, Read, RequestError};

/// Returns the two lists that a put of the key sends, and reserves room in the context for that
/// put. Is refused if the put exceeds the limit. Memory can run out only otherwise.
pub(crate) fn prepare_put(
    contexts: &mut Table<Contexts>,
    handle: Handle<Contexts>,
    key: &Key,
    limit: u64,
) -> Result<(Deps, Near), RequestError>
    requires { IsOpen handle contexts.old.rows }
    ensures lists { IfOk result (λ lists. (opens : List OpenContext) →
        ContextsStandFor contexts.old.rows opens →
        (lists.0 ≡ all_of (obs_in handle opens)) × (lists.1 ≡ near_of (obs_in handle opens))) }
    ensures stands { OnOk result ((opens : List OpenContext) →
        ContextsStandFor contexts.old.rows opens → ContextsStandFor contexts.new.rows opens) }
    ensures room { OnOk result (HasRoomInContext handle key.now contexts.new.rows) }
    ensures told { (opens : List OpenContext) → ContextsStandFor contexts.old.rows opens →
        refused_if (not (can_put limit (obs_in handle opens) key.now)) DependenciesFull
        ≡ told_refusal result }
    ensures numbers { contexts.new ≡ record contexts.old { rows = contexts.new.rows } }
    ensures err { OnErr result (contexts.new ≡ contexts.old) }
{
    contexts.row_mut(handle).put_args(key, limit)
}

/// Adds a pair that was put to the context, into reserved room.
#[inline(always)]
pub(crate) fn see_put(contexts: &mut Table<Contexts>, handle: Handle<Contexts>, pair: &Pair)
    requires { HasRoomInContext handle pair.now.key contexts.old.rows }
    ensures stands { (opens : List OpenContext) → ContextsStandFor contexts.old.rows opens →
        ContextsStandFor contexts.new.rows (context_extended handle (Put pair.now ∷ []) opens) }
    ensures numbers { contexts.new ≡ record contexts.old { rows = contexts.new.rows } }
{
    contexts.row_mut(handle).after_put(*pair);
}

/// Adds reads to the context, in order: all of them or none. Is refused if a list would exceed the
/// limit.
pub(crate) fn see_reads(
    contexts: &mut Table<Contexts>,
    handle: Handle<Contexts>,
    reads: &[Read],
    limit: u64,
) -> Result<(), RequestError>
    requires { IsOpen handle contexts.old.rows }
    ensures stands { OnOk result ((opens : List OpenContext) →
        ContextsStandFor contexts.old.rows opens →
        ContextsStandFor contexts.new.rows
        (context_extended handle (observations_of reads.now) opens)) }
    ensures told { (opens : List OpenContext) → ContextsStandFor contexts.old.rows opens →
        AnswersWithin (can_observe limit (obs_in handle opens) (observations_of reads.now)) result }
    ensures numbers { contexts.new ≡ record contexts.old { rows = contexts.new.rows } }
    ensures err { OnErr result (contexts.new ≡ contexts.old) }
{
    contexts.row_mut(handle).observe_all(reads, limit)
}
