//! A counter behind a gate. The replies to one seat rise, whoever else makes turns in between.
#![tactic(auto)]

ghost use Rattle.std.specs.Prelude.{◌≡◌, ◌≢◌, ◌<◌, ◌≤◌, IfOk, IfSome};
ghost use Rattle.cops_gate.specs.Single.{single_home};
ghost use Rattle.counting_gate.specs.Counted.{HasCounted};

mod counter;

use cops_gate::{Gate, GateSeat};
use cops_types::RequestError;
pub use counter::{Ask, Counter};
use std::sync::Wait;
use std::thread::{Threads, join};

/// Makes two turns of one seat: the second reply is greater.
pub fn two_turns<R: Wait>(
    rt: &R,
    gate: &Gate<Counter>,
    seat: &mut GateSeat<Counter>,
) -> Result<(u64, u64), RequestError>
    requires { seat.old.gate ≡ single_home gate.now }
    ensures { IfOk result (λ r. r.0 < r.1) }
{
    let first = gate.step(rt, seat, 0, 0, Ask::Go)?;
    let second = gate.step(rt, seat, 0, 0, Ask::Go)?;
    Ok((first, second))
}

/// Makes one turn, and closes the gate: the remaining counter has not lost the turn.
pub fn last_turn<R: Wait>(
    rt: &R,
    gate: Gate<Counter>,
    mut seat: GateSeat<Counter>,
) -> Option<(u64, Counter)>
    requires { seat.gate ≡ single_home gate }
    ensures { IfSome result (λ r. r.0 ≤ r.1.count) }
{
    let Ok(reply) = gate.step(rt, &mut seat, 0, 0, Ask::Go) else {
        return None;
    };
    let left = gate.close(seat)?;
    Some((reply, left))
}

// One turn of one thread: its reply, and its seat.
type Turned = Result<(u64, GateSeat<Counter>), RequestError>;

// Makes a turn of a thread.
fn one_turn<R: Wait>(rt: &R, gate: &Gate<Counter>, mut seat: GateSeat<Counter>) -> Turned
    requires { seat.gate ≡ single_home gate.now }
    ensures { IfOk result (λ r. HasCounted gate.now.opening seat r.0 r.1) }
{
    let reply = gate.step(rt, &mut seat, 0, 0, Ask::Go)?;
    Ok((reply, seat))
}

/// Makes a turn, and then one in each of two threads that share the gate: these two replies differ.
pub fn turns_of_two_threads<R: Threads + Wait + Sync>(
    rt: &R,
    gate: &Gate<Counter>,
    mut seat: GateSeat<Counter>,
) -> Result<(u64, u64), RequestError>
    requires { seat.gate ≡ single_home gate.now }
    ensures { IfOk result (λ r. r.0 ≢ r.1) }
{
    let _ = gate.step(rt, &mut seat, 0, 0, Ask::Go)?;
    let other = gate.split(&mut seat);
    let (here, there) = join(
        rt,
        || -> Turned
            requires { seat.gate ≡ single_home gate.now }
            ensures { IfOk result (λ r. HasCounted gate.entry.now.opening seat r.0 r.1) }
        { one_turn(rt, gate, seat) },
        || -> Turned
            requires { other.gate ≡ single_home gate.now }
            ensures { IfOk result (λ r. HasCounted gate.entry.now.opening other r.0 r.1) }
        { one_turn(rt, gate, other) },
    );
    let (here, mut seat) = here?;
    let (there, mut other) = there?;
    gate.meet(&mut other, &mut seat);
    Ok((here, there))
}
