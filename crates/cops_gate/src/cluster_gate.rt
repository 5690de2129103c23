//! A gate of several machines, and its seats.
ghost use Rattle.std.specs.Prelude.{◌≡◌, ◌≢◌, ℕ, ◌+◌, ◌*◌, ◌<◌, ◌^◌, length, ◌≤◌, ◌⊎◌, [], true, ◌∷◌, ◌++◌, Some, None, Err, IfOk, IfErr, IfSome, IsSome, OnErr, replicate, false, slice_set, vec_capacity};
ghost use Rattle.std.specs.List.{AllByRecursion};
ghost use Rattle.std.specs.Mem.Slots.{slots_items, slots_filled, slots_len, IsFull};
ghost use Rattle.std.specs.Mem.Slots.Ownership.{Filled};
ghost use mathlib.Core.Option.{some};
ghost use lib.ListN.{get_elem?};
ghost use Rattle.cops_types.specs.declared.faults.Fault.TheVariants.{GateSpent};
ghost use Rattle.cops_types.specs.declared.request_errors.RequestError.TheVariants.{OutOfMemory, Refused as RefusedWith};
ghost use Rattle.cops_types.specs.RequestErrors.{IfRefusal};
ghost use Rattle.cops_gate.specs.declared.board.Stage.TheVariants.{Idle};
ghost use Rattle.cops_gate.specs.History.{entry, turns_of, StartsWith, IsWhole, LeavesLacking};
ghost use Rattle.cops_gate.specs.Rule.{AreServed, Met, serving_at, ticket_at};
ghost use Rattle.cops_gate.specs.Plays.{HasRoom, IsTableFor};
ghost use Rattle.cops_gate.specs.Accounts.{IsComplete, fork_of, no_account};
ghost use Rattle.cops_gate.specs.Seats.{AreAtRest, ClosesWith, Extends, HasAllOf, IsAtRest, Known, Origin, Testimony, all_joined, all_spent, first_seat, gate_home, joined_by, split_off};

use crate::board::{Beginning, Board, BoardSeat};
use crate::meetings::{end, fork, hear, learn, note};
use crate::turns::{DrawnTicket, draw, serve, wait};
use crate::waiting::Sleepers;
use atomic_table::{Closed, Refused, Table};
use cops_types::{Fault, Machine, RequestError};
use std::alloc::{AllocError, AllocFailed, Global};
use std::marker::Model;
use std::snapshot::Snapshot;
use std::sync::Wait;

/// The machines of all nodes behind one gate. Contracts see the identity of the gate, and the states
/// that it opened with.
#[derive(Drop)]
pub struct ClusterGate<M: Machine> {
    board: Board<M>,
    sleepers: Vec<Sleepers>,
}

impl<M: Machine> Model for ClusterGate<M> {
    ghost Value = { Origin M };

    ghost view = { λ g. record { table = g.board.shared.table_id; opening = g.board.shared.key.value.states.items; ticket = g.board.shared.key.value.ticket } };

    ghost invariant = { λ g. IsTableFor g.board.shared.table_id g.board.shared.key.value.states.items × (length g.sleepers.items ≡ length g.board.shared.key.value.states.items) };
}

/// The right to make turns at each node. Contracts see its number, the history of all nodes that it
/// has seen, the nodes at which it has met the last ticket, and its account of the seats that were
/// split off.
pub struct ClusterSeat<M: Machine> {
    place: BoardSeat<M>,
}

impl<M: Machine> Model for ClusterSeat<M> {
    ghost Value = { Known M M.Call M.Reply };

    ghost view = { λ s. record { gate = record { table = s.place.table_id; opening = s.place.me.0.opening }; number = s.place.me.0.number; history = s.place.me.0.seen; spent = s.place.me.0.spent; account = s.place.me.0.account } };

    ghost invariant = { λ s. (s.place.me.1 ≡ []) × (s.place.me.0.stage ≡ Idle) × (s.place.me.0.numbered ≡ true) };
}

/// A witness of all that a seat had seen when it was made. It tells other seats, makes no turn, and no seat counts it. Contracts
/// see the gate and the history.
pub struct Witness<M: Machine> {
    place: BoardSeat<M>,
}

impl<M: Machine> Model for Witness<M> {
    ghost Value = { Testimony M M.Call M.Reply };

    ghost view = { λ w. record { gate = record { table = w.place.table_id; opening = w.place.me.0.opening }; history = w.place.me.0.seen } };

    ghost invariant = { λ w. (w.place.me.1 ≡ []) × (w.place.me.0.stage ≡ Idle) × (w.place.me.0.numbered ≡ false) × (w.place.me.0.is_seat ≡ false) × (w.place.me.0.account ≡ no_account) };
}

impl<M: Machine> ClusterGate<M> {
    /// Opens a gate with these machines, numbered from 0. Returns the gate and its first seat. Fails
    /// if memory runs out, and returns the machines.
    pub fn open(
        alloc: Global,
        machines: Vec<M>,
    ) -> Result<(ClusterGate<M>, ClusterSeat<M>), AllocFailed<Vec<M>>>
        requires { (0 < length machines.items) × (length machines.items ≤ 2 ^ 32) }
        ensures ok { IfOk result (λ r. (r.0.opening ≡ machines.items) × (r.0.ticket ≡ 0)
            × (r.1 ≡ first_seat r.0)) }
        ensures refused { IfErr result (λ back. back.value.items ≡ machines.items) }
    {
        ClusterGate::open_at(alloc, machines, 0)
    }

    /// Does the same with a number for the first ticket of each node.
    pub fn open_at(
        alloc: Global,
        machines: Vec<M>,
        ticket: u64,
    ) -> Result<(ClusterGate<M>, ClusterSeat<M>), AllocFailed<Vec<M>>>
        requires machines { (0 < length machines.items) × (length machines.items ≤ 2 ^ 32) }
        requires ticket { ticket ≤ 2 ^ 62 }
        ensures ok { IfOk result (λ r. (r.0.opening ≡ machines.items) × (r.0.ticket ≡ ticket)
            × (r.1 ≡ first_seat r.0)) }
        ensures refused { IfErr result (λ back. back.value.items ≡ machines.items) }
    {
        let count = machines.len();
        let sleepers = match sleepers_of(alloc, count) {
            Ok(sleepers) => sleepers,
            Err(AllocError) => return Err(AllocFailed { value: machines }),
        };
        let words = match words_of(alloc, count, ticket) {
            Ok(words) => words,
            Err(AllocError) => return Err(AllocFailed { value: machines }),
        };
        let beginning = Beginning {
            states: machines,
            ticket,
        };
        let opening = Snapshot::of(&beginning);
        let Beginning { states, ticket: _ } = beginning;
        match Table::new(alloc, words.as_slice(), states, &opening) {
            Ok((board, place)) => Ok((ClusterGate { board, sleepers }, ClusterSeat { place })),
            Err(Refused { slots }) => Err(AllocFailed { value: slots }),
        }
    }

    /// Makes one turn at a node, after the turns of earlier tickets there.
    #[inline(always)]
    pub fn step<R: Wait>(
        &self,
        rt: &R,
        seat: &mut ClusterSeat<M>,
        node: usize,
        slot: u64,
        moment: u64,
        call: M::Call,
    ) -> Result<M::Reply, RequestError>
        requires seat { seat.old.gate ≡ gate_home self.now }
        requires node { node < length self.now.opening }
        requires fits { (first : M) → get_elem? self.now.opening node ≡ some first →
            M.fits (M.place first) slot call }
        ensures same { (seat.new.gate ≡ seat.old.gate) × (seat.new.number ≡ seat.old.number) }
        ensures account { seat.new.account ≡ seat.old.account }
        ensures reply { IfOk result (λ r. Extends M.turns self.now.opening node seat.old
            (Some (entry slot moment call r)) seat.new) }
        ensures refused { IfRefusal result (λ f. f ≡ GateSpent) }
        ensures blank { result ≡ Err OutOfMemory →
            Extends M.turns self.now.opening node seat.old None seat.new }
        ensures lacks { result ≡ Err OutOfMemory → LeavesLacking M.turns M.may_lack self.now.opening
            seat.old.number node slot call seat.new.history }
        ensures spent { result ≡ Err (RefusedWith GateSpent) → (seat.new.history ≡ seat.old.history)
            × (seat.new.spent ≡ node ∷ seat.old.spent) }
        ensures unspent { result ≢ Err (RefusedWith GateSpent) → seat.new.spent ≡ seat.old.spent }
        ensures room { HasRoom seat.new.gate.opening seat.new.history }
        ensures again { Met node seat.old.spent → result ≡ Err (RefusedWith GateSpent) }
    {
        let sleepers = &self.sleepers[node];
        let Some(ticket) = draw(rt, &self.board, sleepers, &mut seat.place, node) else {
            return Err(RequestError::Refused(Fault::GateSpent));
        };
        let drawn = DrawnTicket {
            node,
            number: ticket,
            seat: Snapshot::of(&seat.place),
        };
        wait(rt, &self.board, sleepers, &mut seat.place, node, ticket);
        let place = &mut seat.place;
        let answer = serve(&self.board, sleepers, place, drawn, slot, moment, call);
        match answer {
            Ok(reply) => Ok(reply),
            Err(error) => Err(RequestError::from(error)),
        }
    }

    /// Returns the number of nodes.
    pub fn count(&self) -> usize
        ensures { result ≡ length self.now.opening }
    {
        self.sleepers.len()
    }

    /// Returns a new seat (fork), which has seen the same and has made no turn. If the seat is the
    /// gate's first, it counts the new one.
    pub fn split(&self, seat: &mut ClusterSeat<M>) -> ClusterSeat<M>
        requires { seat.old.gate ≡ gate_home self.now }
        ensures same { seat.new ≡ split_off seat.old }
        ensures new { (result.gate ≡ seat.old.gate) × (result.history ≡ seat.old.history)
            × (result.spent ≡ seat.old.spent) }
        ensures account { result.account ≡ fork_of seat.old.account }
        ensures no_turn { turns_of result.number result.history ≡ [] }
    {
        let mut place = fork(&self.board, &mut seat.place);
        learn(&self.board, &mut place);
        ClusterSeat { place }
    }

    /// Lets the second seat see all that the first has seen, at all nodes (join).
    pub fn meet(&self, from: &mut ClusterSeat<M>, to: &mut ClusterSeat<M>)
        requires from { from.old.gate ≡ gate_home self.now }
        requires to { to.old.gate ≡ gate_home self.now }
        ensures from { from.new ≡ from.old }
        ensures same { (to.new.gate ≡ to.old.gate) × (to.new.number ≡ to.old.number)
            × (to.new.spent ≡ to.old.spent) }
        ensures account { to.new.account ≡ to.old.account }
        ensures seen { StartsWith to.new.history from.old.history
            × StartsWith to.new.history to.old.history }
        ensures legal { IsWhole M.turns self.now.opening to.new.history }
        ensures room { HasRoom to.new.gate.opening to.new.history }
        ensures no_turn { turns_of to.new.number to.new.history
            ≡ turns_of to.old.number to.old.history }
        ensures joined { (j : ℕ) → Met j to.old.account.joined →
            turns_of j to.new.history ≡ turns_of j to.old.history }
    {
        let told = note(&self.board, &mut from.place);
        hear(&self.board, &mut to.place, told);
    }

    /// Returns a witness of all that the seat has seen.
    pub fn witness(&self, seat: &mut ClusterSeat<M>) -> Witness<M>
        requires { seat.old.gate ≡ gate_home self.now }
        ensures same { seat.new ≡ seat.old }
        ensures witness { (result.gate ≡ seat.old.gate) × (result.history ≡ seat.old.history) }
    {
        Witness {
            place: note(&self.board, &mut seat.place),
        }
    }

    /// Lets the seat see all that the witness tells, at all nodes (join).
    pub fn tell(&self, witness: &mut Witness<M>, seat: &mut ClusterSeat<M>)
        requires witness { witness.old.gate ≡ gate_home self.now }
        requires seat { seat.old.gate ≡ gate_home self.now }
        ensures witness { witness.new ≡ witness.old }
        ensures same { (seat.new.gate ≡ seat.old.gate) × (seat.new.number ≡ seat.old.number)
            × (seat.new.spent ≡ seat.old.spent) }
        ensures account { seat.new.account ≡ seat.old.account }
        ensures seen { StartsWith seat.new.history witness.old.history
            × StartsWith seat.new.history seat.old.history }
        ensures legal { IsWhole M.turns self.now.opening seat.new.history }
        ensures room { HasRoom seat.new.gate.opening seat.new.history }
        ensures no_turn { turns_of seat.new.number seat.new.history
            ≡ turns_of seat.old.number seat.old.history }
        ensures joined { (j : ℕ) → Met j seat.old.account.joined →
            turns_of j seat.new.history ≡ turns_of j seat.old.history }
    {
        let told = note(&self.board, &mut witness.place);
        hear(&self.board, &mut seat.place, told);
    }

    /// Ends these seats (join). The last one sees all that they have seen, and in its history the
    /// turns of each are those that it made. Its account has them. It knows at which nodes they met the
    /// last ticket.
    pub fn end_all(&self, mut seats: Vec<ClusterSeat<M>>, last: &mut ClusterSeat<M>)
        requires seats { AllByRecursion (λ (s : Known M M.Call M.Reply).
            s.gate ≡ gate_home self.now) seats.items }
        requires last { last.old.gate ≡ gate_home self.now }
        ensures same { (last.new.gate ≡ last.old.gate) × (last.new.number ≡ last.old.number) }
        ensures account { last.new.account ≡ all_joined last.old.account seats.items }
        ensures spent { last.new.spent ≡ all_spent last.old.spent seats.items }
        ensures given { AllByRecursion (HasAllOf last.new.history) seats.items }
        ensures seen { StartsWith last.new.history last.old.history }
        ensures no_turn { turns_of last.new.number last.new.history
            ≡ turns_of last.old.number last.old.history }
    {
        self.meet_each(&mut seats, last);
        self.end_each(seats, last);
    }

    // Lets a seat see all that these have seen.
    fn meet_each(&self, seats: &mut Vec<ClusterSeat<M>>, last: &mut ClusterSeat<M>)
        requires seats { AllByRecursion (λ (s : Known M M.Call M.Reply).
            s.gate ≡ gate_home self.now) seats.old.items }
        requires last { last.old.gate ≡ gate_home self.now }
        ensures seats { seats.new.items ≡ seats.old.items }
        ensures same { (last.new.gate ≡ last.old.gate) × (last.new.number ≡ last.old.number)
            × (last.new.spent ≡ last.old.spent) }
        ensures account { last.new.account ≡ last.old.account }
        ensures each { AllByRecursion (λ (s : Known M M.Call M.Reply).
            StartsWith last.new.history s.history) seats.old.items }
        ensures seen { StartsWith last.new.history last.old.history }
        ensures no_turn { turns_of last.new.number last.new.history
            ≡ turns_of last.old.number last.old.history }
    {
        for number in 0..seats.len() {
            let from = &mut seats[number];
            self.meet(from, last);
        }
    }

    // Ends these seats into a seat that has seen all that they have seen.
    fn end_each(&self, mut seats: Vec<ClusterSeat<M>>, last: &mut ClusterSeat<M>)
        requires seats { AllByRecursion (λ (s : Known M M.Call M.Reply).
            s.gate ≡ gate_home self.now) seats.items }
        requires last { last.old.gate ≡ gate_home self.now }
        requires each { AllByRecursion (λ (s : Known M M.Call M.Reply).
            StartsWith last.old.history s.history) seats.items }
        ensures same { (last.new.gate ≡ last.old.gate) × (last.new.number ≡ last.old.number)
            × (last.new.history ≡ last.old.history) }
        ensures account { last.new.account ≡ all_joined last.old.account seats.items }
        ensures spent { last.new.spent ≡ all_spent last.old.spent seats.items }
        ensures given { AllByRecursion (HasAllOf last.new.history) seats.items }
    {
        while let Some(seat) = seats.pop() {
            self.end(seat, last);
        }
    }

    // Ends a seat into one that has seen all that it has seen. It sees what that one has seen, so it
    // knows that its own turns there are all that it made.
    fn end(&self, mut seat: ClusterSeat<M>, last: &mut ClusterSeat<M>)
        requires seat { seat.gate ≡ gate_home self.now }
        requires last { last.old.gate ≡ gate_home self.now }
        requires seen { StartsWith last.old.history seat.history }
        ensures last { last.new ≡ joined_by last.old seat }
        ensures given { HasAllOf last.new.history seat }
    {
        self.meet(last, &mut seat);
        end(&self.board, &mut last.place, seat.into_place());
    }
}

impl<M: Machine + Drop> ClusterGate<M> {
    /// Closes the gate. Returns the machines by number, in `room`; none of a node where a ticket that
    /// was drawn has not been served. If each seat that was split off from the first one has ended
    /// into it, and it closes the gate, there is no such ticket.
    pub fn close(self, seat: ClusterSeat<M>, room: Vec<Option<M>>) -> Vec<Option<M>>
        requires seat { seat.gate ≡ gate_home self }
        requires room { (room.items ≡ []) × (length self.opening ≤ vec_capacity room) }
        ensures history { ClosesWith M.turns M.place self seat result.items }
        ensures all { length result.items ≡ length self.opening }
        ensures complete { IsComplete seat.account → AllByRecursion IsSome result.items }
    {
        let ClusterGate { board, sleepers } = self;
        let count = sleepers.len();
        let closed = board.close_with(seat.into_place());
        take_all(closed, count, room)
    }

    /// Closes a gate of one machine. Returns the machine, if each ticket that was drawn has been served.
    pub(crate) fn close_only(self, seat: ClusterSeat<M>) -> Option<M>
        requires seat { seat.gate ≡ gate_home self }
        requires only { length self.opening ≡ 1 }
        ensures history { ClosesWith M.turns M.place self seat (result ∷ []) }
        ensures complete { IsComplete seat.account → IsSome result }
    {
        let ClusterGate { board, sleepers: _ } = self;
        let mut closed = board.close_with(seat.into_place());
        let machine = take_one(&mut closed, 0);
        closed.free();
        machine
    }
}

// Takes the machine of a node out of a closed table. Returns it if all tickets drawn there were served.
fn take_one<M: Drop>(closed: &mut Closed<M, Global>, node: usize) -> Option<M>
    requires words { IsFull closed.old.words × (16 * node + 1 < slots_len closed.old.words) }
    requires slot { (node < slots_len closed.old.slots)
        × Filled (slots_filled closed.old.slots) node (slots_len closed.old.slots) }
    ensures same { (closed.new.words ≡ closed.old.words)
        × (slots_items closed.new.slots ≡ slots_items closed.old.slots)
        × (slots_len closed.new.slots ≡ slots_len closed.old.slots) }
    ensures taken { slots_filled closed.new.slots
        ≡ slice_set (slots_filled closed.old.slots) node false }
    ensures some { IfSome result
        (IsAtRest (slots_items closed.old.words) (slots_items closed.old.slots) node) }
    ensures served { ticket_at (slots_items closed.old.words) node
        ≡ serving_at (slots_items closed.old.words) node → IsSome result }
{
    let (drawn, served) = (closed.word(16 * node), closed.word(16 * node + 1));
    let machine = closed.take(node);
    if drawn == served { Some(machine) } else { None }
}

// Takes the machines of all nodes out of a closed table.
fn take_all<M: Drop>(
    mut closed: Closed<M, Global>,
    count: usize,
    mut machines: Vec<Option<M>>,
) -> Vec<Option<M>>
    requires words { IsFull closed.words × (slots_len closed.words ≡ 16 * count) }
    requires slots { IsFull closed.slots × (slots_len closed.slots ≡ count) }
    requires count { count ≤ 2 ^ 32 }
    requires room { (machines.items ≡ []) × (count ≤ vec_capacity machines) }
    ensures all { length result.items ≡ count }
    ensures left { AreAtRest (slots_items closed.words) (slots_items closed.slots) result.items }
    ensures served { AreServed (slots_items closed.words) count →
        AllByRecursion IsSome result.items }
{
    let mut node = 0;
    while node < count {
        let machine = take_one(&mut closed, node);
        machines.push_reserved(machine);
        node += 1;
    }
    closed.free();
    machines
}

impl<M: Machine> ClusterSeat<M> {
    fn into_place(self) -> BoardSeat<M>
        ensures home { (result.table_id ≡ self.gate.table)
            × (result.me.0.opening ≡ self.gate.opening) × (result.me.0.numbered ≡ true) }
        ensures sight { (result.me.0.seen ≡ self.history) × (result.me.0.number ≡ self.number)
            × (result.me.0.spent ≡ self.spent) }
        ensures account { result.me.0.account ≡ self.account }
        ensures idle { (result.me.1 ≡ []) × (result.me.0.stage ≡ Idle) }
    {
        let ClusterSeat { place } = self;
        place
    }
}

impl<M: Machine> Drop for ClusterSeat<M> {
    fn drop(self) {
        let ClusterSeat { place: _ } = self;
    }
}

impl<M: Machine> Drop for Witness<M> {
    fn drop(self) {
        let Witness { place: _ } = self;
    }
}

// Returns 16 words for each node, each of them the first ticket.
fn words_of(alloc: Global, count: usize, ticket: u64) -> Result<Vec<u64>, AllocError>
    requires { count ≤ 2 ^ 32 }
    ensures { IfOk result (λ v. v.items ≡ replicate (16 * count) ticket) }
{
    Ok(vec![in alloc; ticket; 16 * count]?)
}

// Returns the sleepers of so many nodes.
fn sleepers_of(alloc: Global, count: usize) -> Result<Vec<Sleepers>, AllocError>
    ensures { IfOk result (λ v. length v.items ≡ count) }
{
    let mut all = Vec::new(alloc);
    while all.len() < count {
        all.push(Sleepers::none())?;
    }
    Ok(all)
}
