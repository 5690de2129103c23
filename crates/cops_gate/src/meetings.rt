//! How seats are split and end, and how one seat learns what another has seen.
ghost use Rattle.std.specs.Prelude.{◌≡◌, true, false, [], Some};
ghost use Rattle.cops_gate.specs.Accounts.{no_account};
ghost use Rattle.cops_gate.specs.declared.board.Stage.TheVariants.{Idle};
ghost use Rattle.cops_gate.specs.History.{turns_of, IsWhole};
ghost use Rattle.cops_gate.specs.Plays.{fork_view, forked_view, fresh_view, joined_view, numbered_view, told_view, HasRoom, IsTableFor, KnowsTurnsOf, SeesOn};
ghost use Rattle.cops_gate.specs.Rule.{start};

use crate::board::{Board, BoardSeat};
use crate::plays::{End, Fork, Glance, Learn, Share, Tell};
use cops_types::Machine;

// Returns what a seat has seen, for another one to hear.
pub(crate) fn note<M: Machine>(board: &Board<M>, place: &mut BoardSeat<M>) -> BoardSeat<M>
    requires { (place.old.table_id ≡ board.now.shared.table_id)
        × IsTableFor board.now.shared.table_id board.now.shared.key.value.states.items }
    ensures same { (place.new.table_id ≡ place.old.table_id) × (place.new.id ≡ place.old.id)
        × (place.new.me ≡ place.old.me) }
    ensures new { (result.table_id ≡ place.old.table_id)
        × (result.me ≡ (fresh_view place.old.me.0, [])) }
{
    board.shared.split_seat::<Share>(place)
}

// Returns a new seat that has seen the same, and does not know its number.
pub(crate) fn fork<M: Machine>(board: &Board<M>, place: &mut BoardSeat<M>) -> BoardSeat<M>
    requires board { (place.old.table_id ≡ board.now.shared.table_id)
        × IsTableFor board.now.shared.table_id board.now.shared.key.value.states.items }
    requires numbered { place.old.me.0.numbered ≡ true }
    ensures same { (place.new.table_id ≡ place.old.table_id) × (place.new.id ≡ place.old.id)
        × (place.new.me ≡ (forked_view place.old.me.0, place.old.me.1)) }
    ensures new { (result.table_id ≡ place.old.table_id)
        × (result.me ≡ (fork_view place.old.me.0, [])) }
{
    board.shared.split_seat::<Fork>(place)
}

// Gives a new seat its number.
pub(crate) fn learn<M: Machine>(board: &Board<M>, place: &mut BoardSeat<M>)
    requires board { (place.old.table_id ≡ board.now.shared.table_id)
        × IsTableFor board.now.shared.table_id board.now.shared.key.value.states.items }
    requires new { (place.old.me.0.is_seat ≡ true) × (place.old.me.0.numbered ≡ false) }
    ensures same { (place.new.table_id ≡ place.old.table_id) × (place.new.id ≡ place.old.id)
        × (place.new.me.1 ≡ place.old.me.1) }
    ensures numbered { (n : _) × (place.new.me.0 ≡ numbered_view n place.old.me.0)
        × (turns_of n place.old.me.0.seen ≡ []) }
{
    board.shared.load::<Learn>(place, 0);
}

// Adds what a note has seen, and all turns so far.
pub(crate) fn hear<M: Machine>(board: &Board<M>, place: &mut BoardSeat<M>, told: BoardSeat<M>)
    requires board { (place.old.table_id ≡ board.now.shared.table_id)
        × IsTableFor board.now.shared.table_id board.now.shared.key.value.states.items }
    requires idle { (place.old.me.0.stage ≡ Idle) × (place.old.me.0.numbered ≡ true) }
    requires told { (told.table_id ≡ place.old.table_id) × (told.me.1 ≡ [])
        × (told.me.0.stage ≡ Idle) × (told.me.0.numbered ≡ false) }
    requires note { (told.me.0.is_seat ≡ false) × (told.me.0.account ≡ no_account) }
    ensures same { (place.new.table_id ≡ place.old.table_id) × (place.new.id ≡ place.old.id)
        × (place.new.me.1 ≡ place.old.me.1) × (place.new.me.0.stage ≡ Idle) }
    ensures sees { SeesOn (told_view place.old.me.0 told.me.0) place.new.me.0 }
    ensures legal { place.old.me.0.opening ≡ Some (start board.now.shared.key.value) →
        IsWhole M.turns board.now.shared.key.value.states.items place.new.me.0.seen }
    ensures room { HasRoom place.old.me.0.opening place.new.me.0.seen }
{
    board.shared.join_seat::<Tell>(place, told);
    board.shared.load::<Glance>(place, 0);
}

// Ends a seat into another one, which has seen all its turns.
pub(crate) fn end<M: Machine>(board: &Board<M>, place: &mut BoardSeat<M>, ended: BoardSeat<M>)
    requires board { (place.old.table_id ≡ board.now.shared.table_id)
        × IsTableFor board.now.shared.table_id board.now.shared.key.value.states.items }
    requires numbered { (place.old.me.0.numbered ≡ true) × (ended.me.0.numbered ≡ true) }
    requires idle { (ended.table_id ≡ place.old.table_id) × (ended.me.1 ≡ [])
        × (ended.me.0.stage ≡ Idle) }
    requires seen { KnowsTurnsOf place.old.me.0.seen ended.me.0 }
    ensures { (place.new.table_id ≡ place.old.table_id) × (place.new.id ≡ place.old.id)
        × (place.new.me ≡ (joined_view place.old.me.0 ended.me.0, place.old.me.1)) }
{
    board.shared.join_seat::<End>(place, ended);
}
