ghost use Rattle.std.specs.Prelude.{◌≡◌, IfOk, IfSome, length};
ghost use Rattle.cops_gate.specs.Seats.{gate_home};

use crate::tests::{Ask, Counter};
use crate::{ClusterGate, ClusterSeat};
use cops_types::{Fault, RequestError};
use std::alloc::{AllocError, Global};
use std::process::Abort;
use std::sync::Wait;
use std::test::Fail;
use std::thread::{Threads, join};

// Returns three counters.
fn three(alloc: Global) -> Result<Vec<Counter>, AllocError>
    ensures { IfOk result (λ v. length v.items ≡ 3) }
{
    let mut all = Vec::with_capacity(alloc, 3)?;
    all.push_reserved(Counter { count: 0 });
    all.push_reserved(Counter { count: 0 });
    all.push_reserved(Counter { count: 0 });
    Ok(all)
}

#[test]
fn the_last_ticket_of_a_node_is_drawn_once(rt: HostRuntime) -> Result<(), Fail> {
    let alloc = rt.alloc();
    let Ok((gate, mut seat)) = ClusterGate::open_at(alloc, three(alloc)?, (1 << 62) - 1) else {
        panic!(rt; "no memory")
    };
    let mut other = gate.split(&mut seat);
    assert!(rt; gate.step(&rt, &mut seat, 1, 0, 0, Ask::Go) == Ok(1));
    assert!(rt;
        gate.step(&rt, &mut seat, 1, 0, 0, Ask::Go) == Err(RequestError::Refused(Fault::GateSpent))
    );
    assert!(rt;
        gate.step(&rt, &mut other, 1, 0, 0, Ask::Go) == Err(RequestError::Refused(Fault::GateSpent))
    );
    assert!(rt; gate.step(&rt, &mut seat, 2, 0, 0, Ask::Go) == Ok(1));
    let room = Vec::with_capacity(alloc, 3)?;
    let left = gate.close(seat, room);
    assert!(rt; left.len() == 3);
    assert!(rt; matches!(&left[0], Some(machine) if machine.count == 0));
    assert!(rt; matches!(&left[1], Some(machine) if machine.count == 1));
    assert!(rt; matches!(&left[2], Some(machine) if machine.count == 1));
    Ok(())
}

#[test]
fn a_turn_without_memory_is_blank(rt: HostRuntime) -> Result<(), Fail> {
    let alloc = rt.alloc();
    let Ok((gate, mut seat)) = ClusterGate::open(alloc, three(alloc)?) else {
        panic!(rt; "no memory")
    };
    assert!(rt; gate.step(&rt, &mut seat, 0, 0, 0, Ask::Go) == Ok(1));
    assert!(rt; gate.step(&rt, &mut seat, 0, 0, 0, Ask::Refuse) == Err(RequestError::OutOfMemory));
    assert!(rt; gate.step(&rt, &mut seat, 2, 0, 0, Ask::Go) == Ok(1));
    assert!(rt; gate.step(&rt, &mut seat, 0, 0, 0, Ask::Go) == Ok(2));
    Ok(())
}

// The number of turns of each thread.
const TURNS: usize = 300;

// Makes the turns of one thread, which goes round the nodes, and returns the sum of the replies.
fn go<R: Wait>(
    rt: &R,
    gate: &ClusterGate<Counter>,
    mut seat: ClusterSeat<Counter>,
    ask: Ask,
) -> Option<(u64, ClusterSeat<Counter>)>
    requires { (seat.gate ≡ gate_home gate.now) × (length gate.now.opening ≡ 3) }
    ensures { IfSome result (λ r. r.1.gate ≡ gate_home gate.now) }
{
    let mut sum = 0u64;
    for turn in 0..TURNS {
        let reply = gate.step(rt, &mut seat, turn % 3, 0, 0, ask).ok()?;
        sum = sum.wrapping_add(reply);
    }
    Some((sum, seat))
}

type Made = Option<(u64, ClusterSeat<Counter>)>;

// Two threads make turns, each with a seat.
fn go_both<R: Threads + Wait + Sync>(
    rt: &R,
    gate: &ClusterGate<Counter>,
    first: ClusterSeat<Counter>,
    second: ClusterSeat<Counter>,
    ask: Ask,
) -> (Made, Made)
    requires { (first.gate ≡ gate_home gate.now) × (second.gate ≡ gate_home gate.now)
        × (length gate.now.opening ≡ 3) }
    ensures { IfSome result.0 (λ r. r.1.gate ≡ gate_home gate.now)
        × IfSome result.1 (λ r. r.1.gate ≡ gate_home gate.now) }
{
    join(
        rt,
        || -> Made
            requires { (first.gate ≡ gate_home gate.now) × (length gate.now.opening ≡ 3) }
            ensures { IfSome result (λ r. r.1.gate ≡ gate_home gate.entry.now) }
        { go(rt, gate, first, ask) },
        || -> Made
            requires { (second.gate ≡ gate_home gate.now) × (length gate.now.opening ≡ 3) }
            ensures { IfSome result (λ r. r.1.gate ≡ gate_home gate.entry.now) }
        { go(rt, gate, second, ask) },
    )
}

// Returns the sum of the replies to one thread.
fn sum_of(rt: &impl Abort, made: Made) -> u64 {
    let Some((sum, _seat)) = made else {
        panic!(rt; "no memory")
    };
    sum
}

#[test]
fn four_threads_take_turns_at_three_nodes(rt: HostRuntime) -> Result<(), Fail> {
    let alloc = rt.alloc();
    let Ok((gate, mut last)) = ClusterGate::open(alloc, three(alloc)?) else {
        panic!(rt; "no memory")
    };
    let first = gate.split(&mut last);
    let second = gate.split(&mut last);
    let third = gate.split(&mut last);
    let fourth = gate.split(&mut last);
    let ((a, b), (c, d)) = join(
        &rt,
        || -> (Made, Made)
            requires { (first.gate ≡ gate_home gate) × (second.gate ≡ gate_home gate)
                × (length gate.opening ≡ 3) }
        { go_both(&rt, &gate, first, second, Ask::Linger) },
        || -> (Made, Made)
            requires { (third.gate ≡ gate_home gate) × (fourth.gate ≡ gate_home gate)
                × (length gate.opening ≡ 3) }
        { go_both(&rt, &gate, third, fourth, Ask::Linger) },
    );
    let sum = sum_of(&rt, a)
        .wrapping_add(sum_of(&rt, b))
        .wrapping_add(sum_of(&rt, c))
        .wrapping_add(sum_of(&rt, d));
    // each node counts to 400
    assert!(rt; sum == 3 * (400 * 401 / 2));
    let room = Vec::with_capacity(alloc, 3)?;
    let left = gate.close(last, room);
    assert!(rt; matches!(&left[0], Some(machine) if machine.count == 400));
    assert!(rt; matches!(&left[1], Some(machine) if machine.count == 400));
    assert!(rt; matches!(&left[2], Some(machine) if machine.count == 400));
    Ok(())
}

#[test]
fn two_threads_take_turns_at_three_nodes(rt: HostRuntime) -> Result<(), Fail> {
    let alloc = rt.alloc();
    for ask in [Ask::Go, Ask::Linger] {
        let Ok((gate, mut last)) = ClusterGate::open(alloc, three(alloc)?) else {
            panic!(rt; "no memory")
        };
        let first = gate.split(&mut last);
        let second = gate.split(&mut last);
        let (a, b) = go_both(&rt, &gate, first, second, ask);
        let (Some((a, first)), Some((b, second))) = (a, b) else {
            panic!(rt; "no memory")
        };
        let mut seats = Vec::with_capacity(alloc, 2)?;
        seats.push_reserved(first);
        seats.push_reserved(second);
        gate.end_all(seats, &mut last);
        let sum = a.wrapping_add(b);
        // each node counts to 200
        assert!(rt; sum == 3 * (200 * 201 / 2));
        let room = Vec::with_capacity(alloc, 3)?;
        let left = gate.close(last, room);
        assert!(rt; matches!(&left[0], Some(machine) if machine.count == 200));
        assert!(rt; matches!(&left[1], Some(machine) if machine.count == 200));
        assert!(rt; matches!(&left[2], Some(machine) if machine.count == 200));
    }
    Ok(())
}

// For runs in which one allocation fails: the states are returned, unchanged.
#[test]
fn refused_memory_hands_the_states_back(rt: HostRuntime) -> Result<(), Fail> {
    let alloc = rt.alloc();
    let counters = three(alloc).expect(&rt, "memory");
    let made = match ClusterGate::open(alloc, counters) {
        Ok(made) => Ok(made),
        Err(back) => {
            assert!(rt; back.value.len() == 3);
            ClusterGate::open(alloc, back.value)
        }
    };
    let Ok((gate, mut seat)) = made else {
        panic!(rt; "a second try")
    };
    assert!(rt; gate.step(&rt, &mut seat, 2, 0, 0, Ask::Go) == Ok(1));
    Ok(())
}
