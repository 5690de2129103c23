//! A gate of one machine, and its seats. It is a gate of several machines with one node.
ghost use Rattle.std.specs.Prelude.{◌≡◌, ◌≢◌, ◌+◌, ◌^◌, length, ◌≤◌, ◌⊎◌, [], ◌∷◌, Some, None, Err, IfOk, IfErr, IfSome, IsSome};
ghost use Rattle.cops_types.specs.declared.faults.Fault.TheVariants.{GateSpent};
ghost use Rattle.cops_types.specs.declared.request_errors.RequestError.TheVariants.{OutOfMemory, Refused};
ghost use Rattle.cops_types.specs.RequestErrors.{IfRefusal};
ghost use Rattle.cops_gate.specs.Filtered.{GrowsThere, LacksThere};
ghost use Rattle.cops_gate.specs.History.{entry, turns_at, turns_of, IsLegal, StartsWith};
ghost use Rattle.cops_gate.specs.Rule.{Met};
ghost use Rattle.cops_gate.specs.Accounts.{IsComplete, fork_of};
ghost use Rattle.cops_gate.specs.Seats.{Known, first_seat, split_off};
ghost use Rattle.cops_gate.specs.Single.{ClosesAlone, SingleOrigin, as_cluster, only, single_home};

use crate::cluster_gate::{ClusterGate, ClusterSeat};
use cops_types::{Machine, RequestError};
use std::alloc::{AllocError, AllocFailed, Global};
use std::marker::Model;
use std::sync::Wait;

/// A machine behind a gate. Contracts see the identity of the gate, and the state that it opened
/// with.
#[derive(Drop)]
pub struct Gate<M: Machine> {
    cluster: ClusterGate<M>,
    // So the view has the opening state. With a field that is a snapshot of it, the prover would not
    // find that threads may share a gate.
    ghost one: { length cluster.opening ≡ 1 },
}

impl<M: Machine> Model for Gate<M> {
    ghost Value = { SingleOrigin M };

    ghost view = { λ g. record { table = g.cluster.table; opening = only g.cluster.opening g.one; ticket = g.cluster.ticket } };
}

/// The right to make turns at a gate. Contracts see its number, the history that it has seen,
/// whether it has met the last ticket, and its account of the seats that were split off.
#[derive(Drop)]
pub struct GateSeat<M: Machine> {
    seat: ClusterSeat<M>,
}

impl<M: Machine> Model for GateSeat<M> {
    ghost Value = { Known M M.Call M.Reply };

    ghost view = { λ s. record { gate = s.seat.gate; number = s.seat.number; history = turns_at 0 s.seat.history; spent = s.seat.spent; account = s.seat.account } };
}

impl<M: Machine> Gate<M> {
    /// Opens a gate with this state. Returns the gate and its first seat. Fails if memory runs
    /// out, and returns the state.
    pub fn first(alloc: Global, state: M) -> Result<(Gate<M>, GateSeat<M>), AllocFailed<M>>
        ensures ok { IfOk result (λ r. (r.0.opening ≡ state) × (r.0.ticket ≡ 0)
            × (r.1 ≡ first_seat (as_cluster r.0))) }
        ensures refused { IfErr result (λ back. back.value ≡ state) }
    {
        Gate::first_at(alloc, state, 0)
    }

    /// Does the same with a number for the first ticket.
    pub fn first_at(
        alloc: Global,
        state: M,
        ticket: u64,
    ) -> Result<(Gate<M>, GateSeat<M>), AllocFailed<M>>
        requires { ticket ≤ 2 ^ 62 }
        ensures ok { IfOk result (λ r. (r.0.opening ≡ state) × (r.0.ticket ≡ ticket)
            × (r.1 ≡ first_seat (as_cluster r.0))) }
        ensures refused { IfErr result (λ back. back.value ≡ state) }
    {
        let mut machines = match Vec::with_capacity(alloc, 1) {
            Ok(machines) => machines,
            Err(AllocError) => return Err(AllocFailed { value: state }),
        };
        machines.push_reserved(state);
        match ClusterGate::open_at(alloc, machines, ticket) {
            Ok((cluster, seat)) => Ok((Gate { cluster }, GateSeat { seat })),
            Err(AllocFailed { value }) => Err(AllocFailed {
                value: only_machine(value),
            }),
        }
    }

    /// Makes one turn, after the turns of earlier tickets.
    pub fn step<R: Wait>(
        &self,
        rt: &R,
        seat: &mut GateSeat<M>,
        slot: u64,
        moment: u64,
        call: M::Call,
    ) -> Result<M::Reply, RequestError>
        requires seat { seat.old.gate ≡ single_home self.now }
        requires fits { M.fits (M.place self.now.opening) slot call }
        ensures same { (seat.new.gate ≡ seat.old.gate) × (seat.new.number ≡ seat.old.number) }
        ensures account { seat.new.account ≡ seat.old.account }
        ensures reply { IfOk result (λ r. GrowsThere M.turns self.now.opening seat.old.number 0
            seat.old.history (Some (entry slot moment call r)) seat.new.history) }
        ensures refused { IfRefusal result (λ f. f ≡ GateSpent) }
        ensures blank { result ≡ Err OutOfMemory → GrowsThere M.turns self.now.opening
            seat.old.number 0 seat.old.history None seat.new.history }
        ensures lacks { result ≡ Err OutOfMemory → LacksThere M.turns M.may_lack self.now.opening
            seat.old.number 0 slot call seat.new.history }
        ensures spent { result ≡ Err (Refused GateSpent) → (seat.new.history ≡ seat.old.history)
            × (seat.new.spent ≡ 0 ∷ seat.old.spent) }
        ensures unspent { result ≢ Err (Refused GateSpent) → seat.new.spent ≡ seat.old.spent }
        ensures room { self.now.ticket + length seat.new.history ≤ 2 ^ 62 }
        ensures again { Met 0 seat.old.spent → result ≡ Err (Refused GateSpent) }
    {
        self.cluster.step(rt, &mut seat.seat, 0, slot, moment, call)
    }

    /// Returns a new seat (fork), which has seen the same and has made no turn. If the seat is the
    /// gate's first, it counts the new one.
    pub fn split(&self, seat: &mut GateSeat<M>) -> GateSeat<M>
        requires { seat.old.gate ≡ single_home self.now }
        ensures same { seat.new ≡ split_off seat.old }
        ensures new { (result.gate ≡ seat.old.gate) × (result.history ≡ seat.old.history)
            × (result.spent ≡ seat.old.spent) }
        ensures account { result.account ≡ fork_of seat.old.account }
        ensures no_turn { turns_of result.number result.history ≡ [] }
    {
        GateSeat {
            seat: self.cluster.split(&mut seat.seat),
        }
    }

    /// Lets the second seat see all that the first has seen (join).
    pub fn meet(&self, from: &mut GateSeat<M>, to: &mut GateSeat<M>)
        requires from { from.old.gate ≡ single_home self.now }
        requires to { to.old.gate ≡ single_home self.now }
        ensures from { from.new ≡ from.old }
        ensures same { (to.new.gate ≡ to.old.gate) × (to.new.number ≡ to.old.number)
            × (to.new.spent ≡ to.old.spent) }
        ensures account { to.new.account ≡ to.old.account }
        ensures seen { StartsWith to.new.history from.old.history
            × StartsWith to.new.history to.old.history }
        ensures legal { IsLegal M.turns self.now.opening to.new.history }
        ensures room { self.now.ticket + length to.new.history ≤ 2 ^ 62 }
        ensures no_turn { turns_of to.new.number to.new.history
            ≡ turns_of to.old.number to.old.history }
    {
        self.cluster.meet(&mut from.seat, &mut to.seat);
    }
}

impl<M: Machine + Drop> Gate<M> {
    /// Closes the gate. Returns the machine, if each ticket that was drawn has been served. This is so
    /// if each seat that was split off from the first one has ended into it, and it closes the gate.
    pub fn close(self, seat: GateSeat<M>) -> Option<M>
        requires { seat.gate ≡ single_home self }
        ensures history { IfSome result (λ m. ClosesAlone M.turns self seat m) }
        ensures place { IfSome result (λ m. M.place m ≡ M.place self.opening) }
        ensures complete { IsComplete seat.account → IsSome result }
    {
        let Gate { cluster } = self;
        let GateSeat { seat } = seat;
        cluster.close_only(seat)
    }
}

// Returns the machine of a gate that was not made.
fn only_machine<M>(mut machines: Vec<M>) -> M
    requires { (m : _) × (machines.items ≡ m ∷ []) }
    ensures { machines.items ≡ result ∷ [] }
{
    let machine = machines.take_last();
    machines.destroy_empty();
    machine
}
