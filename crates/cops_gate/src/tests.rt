ghost use Rattle.std.specs.Prelude.{◌≡◌, ◌+◌, ◌^◌, ◌≤◌, ◌⊎◌, ℕ, IfSome};
ghost use Rattle.cops_gate.specs.Single.{single_home};

use crate::{Gate, GateSeat};
use cops_types::{Fault, Machine, RequestError};
use std::alloc::{AllocError, Global};
use std::process::Abort;
use std::sync::Wait;
use std::test::Fail;
use std::thread;
use std::thread::{Threads, join};

// A machine that counts its turns.
#[derive(Drop)]
pub(crate) struct Counter {
    pub(crate) count: u64,
}

#[derive(Clone, Copy)]
pub(crate) enum Ask {
    Go,
    // A turn so long that the threads that wait for it sleep.
    Linger,
    Refuse,
}

impl Machine for Counter {
    type Call = Ask;

    type Reply = u64;

    type Place = ();

    ghost use Rattle.cops_gate.specs.declared.tests.Ask.TheVariants.{Refuse};

    ghost place = { λ _. tt };

    ghost fits = { λ _ _ _. Unit {0} };

    ghost turns = { λ before _ _ _ reply after. (after.count ≡ before.count + 1) × (reply ≡ after.count) };

    ghost may_lack = { λ before _ call. (call ≡ Refuse) ⊎ (2 ^ 64 ≤ before.count + 1) };

    fn turn(&mut self, _slot: u64, _moment: u64, call: Ask) -> Result<u64, AllocError> {
        if let Ask::Linger = call {
            linger();
        }
        match call {
            Ask::Go | Ask::Linger if self.count < u64::MAX => {
                self.count += 1;
                Ok(self.count)
            }
            _ => Err(AllocError),
        }
    }
}

// Lets the other threads run.
fn linger() {
    for _ in 0..50u32 {
        thread::yield_now();
    }
}

#[test]
fn the_last_ticket_is_drawn_once(rt: HostRuntime) -> Result<(), Fail> {
    let Ok((gate, mut seat)) = Gate::first_at(rt.alloc(), Counter { count: 0 }, (1 << 62) - 1)
    else {
        panic!(rt; "no memory")
    };
    let mut other = gate.split(&mut seat);
    assert!(rt; gate.step(&rt, &mut seat, 0, 0, Ask::Go) == Ok(1));
    assert!(rt;
        gate.step(&rt, &mut seat, 0, 0, Ask::Go) == Err(RequestError::Refused(Fault::GateSpent))
    );
    assert!(rt;
        gate.step(&rt, &mut seat, 0, 0, Ask::Go) == Err(RequestError::Refused(Fault::GateSpent))
    );
    assert!(rt;
        gate.step(&rt, &mut other, 0, 0, Ask::Go) == Err(RequestError::Refused(Fault::GateSpent))
    );
    let Some(left) = gate.close(seat) else {
        panic!(rt; "a turn was under way")
    };
    assert!(rt; left.count == 1);
    Ok(())
}

#[test]
fn a_turn_without_memory_is_blank(rt: HostRuntime) -> Result<(), Fail> {
    let Ok((gate, mut seat)) = Gate::first(rt.alloc(), Counter { count: 0 }) else {
        panic!(rt; "no memory")
    };
    assert!(rt; gate.step(&rt, &mut seat, 0, 0, Ask::Go) == Ok(1));
    assert!(rt; gate.step(&rt, &mut seat, 0, 0, Ask::Refuse) == Err(RequestError::OutOfMemory));
    assert!(rt; gate.step(&rt, &mut seat, 0, 0, Ask::Go) == Ok(2));
    let Some(left) = gate.close(seat) else {
        panic!(rt; "a turn was under way")
    };
    assert!(rt; left.count == 2);
    Ok(())
}

// For runs in which one allocation fails: the state is returned, unchanged.
#[test]
fn refused_memory_hands_the_state_back(rt: HostRuntime) {
    let made = match Gate::first(rt.alloc(), Counter { count: 7 }) {
        Ok(made) => Ok(made),
        Err(back) => {
            assert!(rt; back.value.count == 7);
            Gate::first(rt.alloc(), back.value)
        }
    };
    let Ok((gate, mut seat)) = made else {
        panic!(rt; "a second try")
    };
    assert!(rt; gate.step(&rt, &mut seat, 0, 0, Ask::Go) == Ok(8));
}

#[test]
fn two_seats_meet(rt: HostRuntime) -> Result<(), Fail> {
    let Ok((gate, mut first)) = Gate::first(rt.alloc(), Counter { count: 0 }) else {
        panic!(rt; "no memory")
    };
    let mut second = gate.split(&mut first);
    assert!(rt; gate.step(&rt, &mut first, 0, 0, Ask::Go) == Ok(1));
    assert!(rt; gate.step(&rt, &mut second, 0, 0, Ask::Go) == Ok(2));
    gate.meet(&mut second, &mut first);
    let Some(left) = gate.close(first) else {
        panic!(rt; "a turn was under way")
    };
    assert!(rt; left.count == 2);
    Ok(())
}

// The number of turns of each thread.
const TURNS: usize = 100;

// Makes the turns of one thread, and returns the replies.
fn go<R: Wait>(
    rt: &R,
    alloc: Global,
    gate: &Gate<Counter>,
    mut seat: GateSeat<Counter>,
    ask: Ask,
) -> Option<(Vec<u64>, GateSeat<Counter>)>
    requires { seat.gate ≡ single_home gate.now }
    ensures { IfSome result (λ r. r.1.gate ≡ single_home gate.now) }
{
    let mut replies = Vec::new(alloc);
    for _ in 0..TURNS {
        let reply = gate.step(rt, &mut seat, 0, 0, ask).ok()?;
        replies.push(reply).ok()?;
    }
    Some((replies, seat))
}

type Made = Option<(Vec<u64>, GateSeat<Counter>)>;

// Two threads make turns, each with a seat.
fn go_both<R: Threads + Wait + Sync>(
    rt: &R,
    alloc: Global,
    gate: &Gate<Counter>,
    first: GateSeat<Counter>,
    second: GateSeat<Counter>,
    ask: Ask,
) -> (Made, Made)
    requires { (first.gate ≡ single_home gate.now) × (second.gate ≡ single_home gate.now) }
    ensures { IfSome result.0 (λ r. r.1.gate ≡ single_home gate.now)
        × IfSome result.1 (λ r. r.1.gate ≡ single_home gate.now) }
{
    join(
        rt,
        || -> Made
            requires { first.gate ≡ single_home gate.now }
            ensures { IfSome result (λ r. r.1.gate ≡ single_home gate.entry.now) }
        { go(rt, alloc, gate, first, ask) },
        || -> Made
            requires { second.gate ≡ single_home gate.now }
            ensures { IfSome result (λ r. r.1.gate ≡ single_home gate.entry.now) }
        { go(rt, alloc, gate, second, ask) },
    )
}

#[test]
fn two_threads_take_turns(rt: HostRuntime) -> Result<(), Fail> {
    let alloc = rt.alloc();
    let Ok((gate, mut first)) = Gate::first(alloc, Counter { count: 0 }) else {
        panic!(rt; "no memory")
    };
    let second = gate.split(&mut first);
    let (a, b) = go_both(&rt, alloc, &gate, first, second, Ask::Go);
    let (Some((a, mut first)), Some((b, mut second))) = (a, b) else {
        panic!(rt; "no memory")
    };
    assert!(rt; a.as_slice().is_sorted() && b.as_slice().is_sorted());
    let mut all = a;
    all.extend_from_slice(b.as_slice())?;
    all.sort()?;
    assert!(rt; all.len() == 200);
    for i in 0..200u64 {
        assert!(rt; all[i as usize] == i + 1);
    }
    gate.meet(&mut second, &mut first);
    let Some(left) = gate.close(first) else {
        panic!(rt; "a turn was under way")
    };
    assert!(rt; left.count == 200);
    Ok(())
}

// Returns the replies of four threads that make turns, each with a seat.
fn go_four<R: Threads + Wait + Sync>(
    rt: &R,
    alloc: Global,
    gate: &Gate<Counter>,
    mut first: GateSeat<Counter>,
    mut third: GateSeat<Counter>,
) -> ((Made, Made), (Made, Made))
    requires { (first.gate ≡ single_home gate.now) × (third.gate ≡ single_home gate.now) }
{
    let second = gate.split(&mut first);
    let fourth = gate.split(&mut third);
    join(
        rt,
        || -> (Made, Made)
            requires { (first.gate ≡ single_home gate.now) × (second.gate ≡ single_home gate.now) }
        { go_both(rt, alloc, gate, first, second, Ask::Linger) },
        || -> (Made, Made)
            requires { (third.gate ≡ single_home gate.now) × (fourth.gate ≡ single_home gate.now) }
        { go_both(rt, alloc, gate, third, fourth, Ask::Linger) },
    )
}

// Adds the replies of one thread, which rise.
fn add(rt: &impl Abort, all: &mut Vec<u64>, made: Made) -> Result<(), Fail> {
    let Some((replies, _seat)) = made else {
        panic!(rt; "no memory")
    };
    assert!(rt; replies.as_slice().is_sorted());
    all.extend_from_slice(replies.as_slice())?;
    Ok(())
}

#[test]
fn those_who_sleep_are_woken(rt: HostRuntime) -> Result<(), Fail> {
    let alloc = rt.alloc();
    let Ok((gate, mut last)) = Gate::first(alloc, Counter { count: 0 }) else {
        panic!(rt; "no memory")
    };
    let first = gate.split(&mut last);
    let third = gate.split(&mut last);
    let ((a, b), (c, d)) = go_four(&rt, alloc, &gate, first, third);
    let mut all = Vec::new(alloc);
    add(&rt, &mut all, a)?;
    add(&rt, &mut all, b)?;
    add(&rt, &mut all, c)?;
    add(&rt, &mut all, d)?;
    all.sort()?;
    assert!(rt; all.len() == 4 * TURNS);
    for i in 0..4 * TURNS {
        assert!(rt; all[i] == i as u64 + 1);
    }
    let Some(left) = gate.close(last) else {
        panic!(rt; "a turn was under way")
    };
    assert!(rt; left.count == 4 * TURNS as u64);
    Ok(())
}
