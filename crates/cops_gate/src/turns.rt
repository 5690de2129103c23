//! The parts of one turn: drawing a ticket, waiting for it, and publishing the turn. The first try
//! of a draw and of a wait is separate from the loop behind it: alone at a node, a turn needs no
//! more.
ghost use Rattle.std.specs.Prelude.{◌≡◌, ◌≢◌, ◌+◌, ◌^◌, ◌<◌, true, [], ◌∷◌, ◌++◌, ◌≤◌, length, Some, None, OnErr, IfSome, IfNone, IfOk};
ghost use Rattle.cops_gate.specs.declared.board.Stage.TheVariants.{Idle, Waits, Holds};
ghost use Rattle.cops_gate.specs.History.{entry, turn, Leads, Grows, LeavesLacking};
ghost use Rattle.cops_gate.specs.Notes.{entry_of};
ghost use Rattle.cops_gate.specs.Rule.{Met, start};
ghost use Rattle.cops_gate.specs.Plays.{at_stage, spent_view, HasRoom, HasTurned, GetsAt, IsIdle, IsSeatAt, PublishedAt};
ghost use mathlib.Core.Option.{some};
ghost use lib.ListN.{get_elem?};

use crate::board::{Board, BoardSeat, LAST};
use crate::note::Note;
use crate::plays::{Draw, Look, Publish, Said};
use crate::waiting::{Sleepers, hold_back};
use cops_types::Machine;
use std::alloc::AllocError;
use std::marker::Brand;
use std::snapshot::Snapshot;
use std::sync::Wait;

// Draws a node's next ticket, if it is the expected one. Returns the ticket that it found.
#[inline(always)]
fn draw_once<M: Machine>(
    board: &Board<M>,
    place: &mut BoardSeat<M>,
    node: usize,
    expected: u64,
) -> u64
    requires board { IsSeatAt board.now.shared.table_id board.now.shared.key.value.states.items node
        place.old }
    requires opened { place.old.me.0.opening ≡ Some (start board.now.shared.key.value) }
    requires idle { (place.old.me.0.stage ≡ Idle) × (place.old.me.0.numbered ≡ true) }
    requires expected { expected < 2 ^ 62 }
    ensures same { (place.new.table_id ≡ place.old.table_id) × (place.new.id ≡ place.old.id)
        × (place.new.me.1 ≡ place.old.me.1) }
    ensures most { result ≤ 2 ^ 62 }
    ensures again { Met node place.old.me.0.spent → result ≡ 2 ^ 62 }
    ensures room { HasRoom place.old.me.0.opening place.old.me.0.seen }
    ensures hit { result ≡ expected → place.new.me.0 ≡ at_stage (Waits node result) place.old.me.0 }
    ensures miss { result ≢ expected → result ≢ 2 ^ 62 → place.new.me.0 ≡ place.old.me.0 }
    ensures end { result ≢ expected → result ≡ 2 ^ 62 →
        place.new.me.0 ≡ spent_view node place.old.me.0 }
{
    board
        .shared
        .compare_exchange::<Draw>(place, 16 * node, expected, expected + 1)
}

// Returns the ticket that a node serves. If it is the seat's, the seat gets the slot.
#[inline(always)]
fn look_once<M: Machine>(
    board: &Board<M>,
    place: &mut BoardSeat<M>,
    node: usize,
    ticket: u64,
) -> u64
    requires board { IsSeatAt board.now.shared.table_id board.now.shared.key.value.states.items node
        place.old }
    requires opened { place.old.me.0.opening ≡ Some (start board.now.shared.key.value) }
    requires waits { (place.old.me.0.stage ≡ Waits node ticket) × (place.old.me.0.numbered ≡ true) }
    ensures same { (place.new.table_id ≡ place.old.table_id) × (place.new.id ≡ place.old.id) }
    ensures served { result ≡ ticket → GetsAt M.turns M.place
        board.now.shared.key.value.states.items node ticket place.old.me place.new.me }
    ensures waits { result ≢ ticket → place.new.me ≡ place.old.me }
{
    let _ticket = ticket;
    board.shared.load::<Look>(place, 16 * node + 1)
}

// Draws the next ticket, if one is left.
pub(crate) fn draw<M: Machine, R: Wait>(
    rt: &R,
    board: &Board<M>,
    sleepers: &Sleepers,
    place: &mut BoardSeat<M>,
    node: usize,
) -> Option<u64>
    requires board { IsSeatAt board.now.shared.table_id board.now.shared.key.value.states.items node
        place.old }
    requires opened { place.old.me.0.opening ≡ Some (start board.now.shared.key.value) }
    requires idle { (place.old.me.0.stage ≡ Idle) × (place.old.me.0.numbered ≡ true) }
    ensures same { (place.new.table_id ≡ place.old.table_id) × (place.new.id ≡ place.old.id)
        × (place.new.me.1 ≡ place.old.me.1) }
    ensures some { IfSome result (λ t. (t < 2 ^ 62)
        × (place.new.me.0 ≡ at_stage (Waits node t) place.old.me.0)) }
    ensures none { IfNone result (place.new.me.0 ≡ spent_view node place.old.me.0) }
    ensures again { Met node place.old.me.0.spent → result ≡ None }
    ensures room { HasRoom place.old.me.0.opening place.old.me.0.seen }
{
    let likely = hold_back(rt, board, node, sleepers);
    let found = draw_once(board, place, node, likely);
    if found == likely {
        return Some(found);
    }
    if found == LAST {
        return None;
    }
    draw_again(rt, board, place, node, found)
}

// Draws the next ticket after another thread drew the likely one.
#[cold]
#[inline(never)]
fn draw_again<M: Machine, R: Wait>(
    rt: &R,
    board: &Board<M>,
    place: &mut BoardSeat<M>,
    node: usize,
    mut next: u64,
) -> Option<u64>
    requires board { IsSeatAt board.now.shared.table_id board.now.shared.key.value.states.items node
        place.old }
    requires opened { place.old.me.0.opening ≡ Some (start board.now.shared.key.value) }
    requires idle { (place.old.me.0.stage ≡ Idle) × (place.old.me.0.numbered ≡ true) }
    requires next { next < 2 ^ 62 }
    ensures same { (place.new.table_id ≡ place.old.table_id) × (place.new.id ≡ place.old.id)
        × (place.new.me.1 ≡ place.old.me.1) }
    ensures some { IfSome result (λ t. (t < 2 ^ 62)
        × (place.new.me.0 ≡ at_stage (Waits node t) place.old.me.0)) }
    ensures none { IfNone result (place.new.me.0 ≡ spent_view node place.old.me.0) }
    ensures again { Met node place.old.me.0.spent → result ≡ None }
    ensures room { HasRoom place.old.me.0.opening place.old.me.0.seen }
{
    for _ in rt.forever() {
        let found = draw_once(board, place, node, next);
        if found == next {
            return Some(found);
        }
        if found == LAST {
            return None;
        }
        next = found;
    }
    unreachable!()
}

// Waits until the ticket is served. Then the seat gets the slot.
pub(crate) fn wait<M: Machine, R: Wait>(
    rt: &R,
    board: &Board<M>,
    sleepers: &Sleepers,
    place: &mut BoardSeat<M>,
    node: usize,
    ticket: u64,
)
    requires board { IsSeatAt board.now.shared.table_id board.now.shared.key.value.states.items node
        place.old }
    requires waits { (place.old.me.0.stage ≡ Waits node ticket) × (place.old.me.0.numbered ≡ true) }
    requires opened { place.old.me.0.opening ≡ Some (start board.now.shared.key.value) }
    ensures same { (place.new.table_id ≡ place.old.table_id) × (place.new.id ≡ place.old.id) }
    ensures slot { GetsAt M.turns M.place board.now.shared.key.value.states.items node ticket
        place.old.me place.new.me }
{
    if look_once(board, place, node, ticket) != ticket {
        wait_on(rt, board, sleepers, place, node, ticket);
    }
}

// Waits while an earlier ticket is served.
#[cold]
#[inline(never)]
fn wait_on<M: Machine, R: Wait>(
    rt: &R,
    board: &Board<M>,
    sleepers: &Sleepers,
    place: &mut BoardSeat<M>,
    node: usize,
    ticket: u64,
)
    requires board { IsSeatAt board.now.shared.table_id board.now.shared.key.value.states.items node
        place.old }
    requires waits { (place.old.me.0.stage ≡ Waits node ticket) × (place.old.me.0.numbered ≡ true) }
    requires opened { place.old.me.0.opening ≡ Some (start board.now.shared.key.value) }
    ensures same { (place.new.table_id ≡ place.old.table_id) × (place.new.id ≡ place.old.id) }
    ensures slot { GetsAt M.turns M.place board.now.shared.key.value.states.items node ticket
        place.old.me place.new.me }
{
    let mut tries = 0u32;
    for _ in rt.forever() {
        let serving = look_once(board, place, node, ticket);
        if serving == ticket {
            return;
        }
        sleepers.wait_in_line(rt, board, node, tries, serving);
        tries = tries.saturating_add(1);
    }
    unreachable!()
}

// Makes a turn of the machine, in place in the slot that the seat holds.
#[inline(always)]
fn turn_in_slot<M: Machine>(
    board: &Board<M>,
    place: &mut BoardSeat<M>,
    node: usize,
    slot: u64,
    moment: u64,
    call: M::Call,
) -> Result<M::Reply, AllocError>
    requires board { IsSeatAt board.now.shared.table_id board.now.shared.key.value.states.items node
        place.old }
    requires holds { (machine : M) × (place.old.me.1 ≡ (node, machine) ∷ [])
        × M.fits (M.place machine) slot call }
    ensures same { (place.new.table_id ≡ place.old.table_id) × (place.new.id ≡ place.old.id)
        × (place.new.me.0 ≡ place.old.me.0) }
    ensures turned { (before : M) → place.old.me.1 ≡ (node, before) ∷ [] → (after : M)
        × (place.new.me.1 ≡ (node, after) ∷ []) × (M.place after ≡ M.place before)
        × IfOk result (λ reply. M.turns before slot moment call reply after)
        × OnErr result (after ≡ before) × OnErr result (M.may_lack before slot call) }
{
    place.slot_mut(&board.shared, node).turn(slot, moment, call)
}

// Returns the slot with the machine in it, and serves the node's next ticket.
fn publish<M: Machine, T: Said<M::Call, M::Reply>>(
    board: &Board<M>,
    place: &mut BoardSeat<M>,
    node: usize,
    ticket: u64,
    note: Note<M::Call, M::Reply>,
)
    requires board { IsSeatAt board.now.shared.table_id board.now.shared.key.value.states.items node
        place.old }
    requires ticket { ticket < 2 ^ 62 }
    requires note { T.entry ≡ entry_of note }
    requires opened { place.old.me.0.opening ≡ Some (start board.now.shared.key.value) }
    requires stage { (place.old.me.0.stage ≡ Holds node ticket) × (place.old.me.0.numbered ≡ true) }
    requires turn { HasTurned M.turns M.place board.now.shared.key.value.states.items node T.entry
        place.old.me }
    ensures same { (place.new.table_id ≡ place.old.table_id) × (place.new.id ≡ place.old.id) }
    ensures me { (place.new.me.1 ≡ []) × PublishedAt M.turns M.place
        (start board.now.shared.key.value) node T.entry place.old.me.0 place.new.me.0 }
    ensures room { HasRoom (Some (start board.now.shared.key.value)) place.new.me.0.seen }
{
    drop(note);
    board
        .shared
        .store::<Publish<T>>(place, 16 * node + 1, ticket + 1);
}

// A ticket of a node, and the seat as it was when it had drawn it, before it waited.
pub(crate) struct DrawnTicket<M: Machine> {
    pub(crate) node: usize,
    pub(crate) number: u64,
    pub(crate) seat: Snapshot<BoardSeat<M>>,
}

// Makes the turn of the ticket that is served; without memory it is a no-op turn.
//
// The answer is returned as it comes, and no call is made here that may wait. Looking at the
// answer, joining two branches or waiting would copy its parts once more. It is inlined, so that
// the call isn't put together and taken apart again on its way to the machine.
#[inline(always)]
pub(crate) fn serve<M: Machine>(
    board: &Board<M>,
    sleepers: &Sleepers,
    place: &mut BoardSeat<M>,
    drawn: DrawnTicket<M>,
    slot: u64,
    moment: u64,
    call: M::Call,
) -> Result<M::Reply, AllocError>
    requires board { IsSeatAt board.now.shared.table_id board.now.shared.key.value.states.items drawn.node
        place.old }
    requires ticket { drawn.number < 2 ^ 62 }
    requires numbered { (drawn.seat.value.me.0.numbered ≡ true) × (drawn.seat.value.me.1 ≡ []) }
    requires opened { drawn.seat.value.me.0.opening ≡ Some (start board.now.shared.key.value) }
    requires gets { GetsAt M.turns M.place board.now.shared.key.value.states.items drawn.node drawn.number
        drawn.seat.value.me place.old.me }
    requires fits { (first : M) → get_elem? board.now.shared.key.value.states.items drawn.node
        ≡ some first → M.fits (M.place first) slot call }
    ensures same { (place.new.table_id ≡ place.old.table_id) × (place.new.id ≡ place.old.id) }
    ensures idle { IsIdle drawn.seat.value.me.0 place.new.me }
    ensures room { HasRoom (Some (start board.now.shared.key.value)) place.new.me.0.seen }
    ensures reply { IfOk result (λ r.
        Grows M.turns board.now.shared.key.value.states.items drawn.seat.value.me.0.number drawn.node
        drawn.seat.value.me.0.seen (Some (entry slot moment call r)) place.new.me.0.seen) }
    ensures refused { OnErr result (Grows M.turns board.now.shared.key.value.states.items
        drawn.seat.value.me.0.number drawn.node drawn.seat.value.me.0.seen None place.new.me.0.seen) }
    ensures lacks { OnErr result
        (LeavesLacking M.turns M.may_lack board.now.shared.key.value.states.items
        drawn.seat.value.me.0.number drawn.node slot call place.new.me.0.seen) }
{
    let DrawnTicket {
        node,
        number,
        seat: _,
    } = drawn;
    let asked = Snapshot::of(&call);
    let answer = turn_in_slot(board, place, node, slot, moment, call);
    let note = Note {
        slot,
        moment,
        call: asked,
        answer: Snapshot::of(&answer),
    };
    publish::<M, Brand>(board, place, node, number, note);
    sleepers.wake(board, node, number + 1);
    answer
}
