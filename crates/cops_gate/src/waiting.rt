//! A thread's wait for the machine: it polls, and then sleeps until a turn ends. It reads the words
//! without a seat, so nothing here changes a seat's knowledge.
ghost use Rattle.std.specs.Prelude.{◌<◌, ◌≤◌, ◌^◌, IfOk};
ghost use Rattle.cops_gate.specs.Plays.{AreWords};

use crate::board::{Board, LAST, serving_word, ticket_word};
use cops_types::Machine;
use std::hint;
use std::sync::Wait;
use std::sync::atomic::AtomicU64;
use std::sync::atomic::Ordering::SeqCst;

// The pauses of a thread that holds back, between two looks. With short turns it looks at each
// second or third of them: a thread that makes one turn after another keeps the machine for some,
// with all of its memory in one cache.
const PAUSES: u32 = 64;

// The looks of a thread that holds back, until it sleeps.
const LOOKS: u32 = 64;

// The looks after each sleep. They are few: with more threads than processors, a looking thread
// takes a processor from one that could make a turn.
const LOOKS_AGAIN: u32 = 2;

// A thread sleeps sooner once others have made more turns than this: turns are then so short that
// waking it costs less than a busy processor.
const MOST_PASSED: u64 = 16;

// The tries of a thread in line until it sleeps. Each lasts twice as long as the one before.
const TRIES_IN_LINE: u32 = 12;

// A thread that has slept this often no longer holds back: it draws its ticket and waits in line.
const SLEEPS: u32 = 16;

/// The threads that wait until a turn ends. A turn makes no system call if no thread sleeps, or if
/// one that may go on is awake.
#[derive(Drop)]
pub(crate) struct Sleepers {
    /// The number of sleeping threads with a ticket. They sleep on the serving word.
    in_line: AtomicU64,
    /// 1 while threads without a ticket may sleep, which they do on this word. It is 0 if none
    /// does, and from the end of a turn that wakes one until that thread goes on.
    held_back: AtomicU64,
    /// The number of threads that look, awake and without a ticket, and that began while others
    /// could sleep. While there are any, no thread that holds back is woken.
    awake: AtomicU64,
    // Those of two nodes share no cache line.
    _apart: [u64; 13],
}

impl Sleepers {
    pub(crate) fn none() -> Sleepers {
        Sleepers {
            in_line: AtomicU64::new(0),
            held_back: AtomicU64::new(0),
            awake: AtomicU64::new(0),
            _apart: [0; 13],
        }
    }

    /// Waits for a while with a ticket, longer after more tries. `seen` is the ticket that was
    /// served at the last look.
    ///
    /// The thread is counted before the word is read again, and a turn ends before the count is
    /// read, so no end is missed.
    pub(crate) fn wait_in_line<M: Machine, R: Wait>(
        &self,
        rt: &R,
        board: &Board<M>,
        node: usize,
        tries: u32,
        seen: u64,
    )
        requires { AreWords board.now.shared.table_id node }
    {
        if tries < TRIES_IN_LINE {
            look_in_line(board, node, tries, seen);
        } else {
            self.in_line.fetch_add(1, SeqCst);
            board
                .shared
                .park(rt, serving_word(node), (seen % (1 << 32)) as u32);
            self.in_line.fetch_sub(1, SeqCst);
        }
    }

    // Looks at most this many times, and is counted as awake meanwhile if others may sleep. If no
    // thread sleeps, the count is not needed, and writing it would take its line from the cache of
    // the thread whose turn ends.
    fn look<M: Machine>(&self, board: &Board<M>, node: usize, most: u32) -> Result<u64, u64>
        requires { AreWords board.now.shared.table_id node }
        ensures { IfOk result (λ ticket. ticket < 2 ^ 62) }
    {
        if self.held_back.load(SeqCst) == 0 {
            return look_for_free(board, node, most);
        }
        self.awake.fetch_add(1, SeqCst);
        let found = look_for_free(board, node, most);
        self.awake.fetch_sub(1, SeqCst);
        found
    }

    // Sleeps without a ticket, unless a turn has ended since the last look, which saw this ticket
    // served. A turn that ended after that look is seen here, or finds the word at 1. No thread
    // falls asleep once the turn has taken that down.
    fn sleep<M: Machine, R: Wait>(&self, rt: &R, board: &Board<M>, node: usize, seen: u64)
        requires { AreWords board.now.shared.table_id node }
    {
        self.others_may_sleep();
        if board.shared.peek(serving_word(node)) == seen {
            self.held_back.park(rt, 1);
        }
    }

    // A thread says this before it sleeps. A thread that slept says it before it goes on:
    // it alone was woken.
    fn others_may_sleep(&self) {
        self.held_back.store(1, SeqCst);
    }

    /// Wakes the threads that may go on, now that `serving` is served: all in line, since one of
    /// them may have this ticket, and one of those that hold back. It wakes none of the latter if a
    /// thread is awake that sees this end and wakes others by the end of its own turn. No turn
    /// follows the last ticket, so it then wakes all of them.
    pub(crate) fn wake<M: Machine>(&self, board: &Board<M>, node: usize, serving: u64)
        requires { AreWords board.now.shared.table_id node }
    {
        if self.in_line.load(SeqCst) > 0 {
            wake_in_line(board, node);
        }
        if serving >= LAST {
            self.wake_held_back();
        } else if self.held_back.load(SeqCst) == 1 && self.awake.load(SeqCst) == 0 {
            self.wake_one();
        }
    }

    // Wakes all threads that hold back.
    #[cold]
    #[inline(never)]
    fn wake_held_back(&self) {
        self.held_back.store(0, SeqCst);
        self.held_back.wake_all();
    }

    // Wakes one of the threads that hold back, unless another thread has done so.
    #[cold]
    #[inline(never)]
    fn wake_one(&self) {
        if self.held_back.swap(0, SeqCst) == 1 {
            self.held_back.wake_one();
        }
    }
}

// Wakes all in line.
#[cold]
#[inline(never)]
fn wake_in_line<M: Machine>(board: &Board<M>, node: usize)
    requires { AreWords board.now.shared.table_id node }
{
    board.shared.wake_all(serving_word(node));
}

/// Holds back while others are at the machine, and returns the likely next ticket.
///
/// A ticket that is drawn while others are out is served by a thread that must be awake just then.
/// With more threads than processors, each turn would wait for the system to wake the right one.
pub(crate) fn hold_back<M: Machine, R: Wait>(
    rt: &R,
    board: &Board<M>,
    node: usize,
    sleepers: &Sleepers,
) -> u64
    requires { AreWords board.now.shared.table_id node }
    ensures { result < 2 ^ 62 }
{
    if let Ok(ticket) = free_ticket(board, node) {
        return ticket;
    }
    hold_back_long(rt, board, node, sleepers)
}

// Holds back because others are at the machine.
#[cold]
#[inline(never)]
fn hold_back_long<M: Machine, R: Wait>(
    rt: &R,
    board: &Board<M>,
    node: usize,
    sleepers: &Sleepers,
) -> u64
    requires { AreWords board.now.shared.table_id node }
    ensures { result < 2 ^ 62 }
{
    for sleeps in 0..SLEEPS {
        let most = if sleeps == 0 { LOOKS } else { LOOKS_AGAIN };
        match sleepers.look(board, node, most) {
            Ok(ticket) => {
                if sleeps > 0 {
                    sleepers.others_may_sleep();
                }
                return ticket;
            }
            Err(seen) => sleepers.sleep(rt, board, node, seen),
        }
    }
    sleepers.others_may_sleep();
    below_last(board.shared.peek(ticket_word(node)))
}

// Returns the likely next ticket if no other is out or none remains, and otherwise the one that is
// served.
fn free_ticket<M: Machine>(board: &Board<M>, node: usize) -> Result<u64, u64>
    requires { AreWords board.now.shared.table_id node }
    ensures { IfOk result (λ ticket. ticket < 2 ^ 62) }
{
    let serving = board.shared.peek(serving_word(node));
    let ticket = board.shared.peek(ticket_word(node));
    if ticket == serving || ticket >= LAST {
        Ok(below_last(ticket))
    } else {
        Err(serving)
    }
}

// Looks until no ticket is out, but only this often, and only until others have made some turns.
fn look_for_free<M: Machine>(board: &Board<M>, node: usize, most: u32) -> Result<u64, u64>
    requires { AreWords board.now.shared.table_id node }
    ensures { IfOk result (λ ticket. ticket < 2 ^ 62) }
{
    let first = board.shared.peek(serving_word(node));
    let mut seen = first;
    for _ in 0..most {
        match free_ticket(board, node) {
            Ok(ticket) => return Ok(ticket),
            Err(serving) => seen = serving,
        }
        if seen.saturating_sub(first) > MOST_PASSED {
            return Err(seen);
        }
        for _ in 0..PAUSES {
            hint::spin_loop();
        }
    }
    Err(seen)
}

// Returns the ticket; with exhausted tickets any number does.
fn below_last(ticket: u64) -> u64
    ensures { result < 2 ^ 62 }
{
    if ticket < LAST { ticket } else { 0 }
}

// Looks until a turn has ended, but at most `2 ^ tries` times. No other thread can make a turn
// meanwhile, so it looks often.
fn look_in_line<M: Machine>(board: &Board<M>, node: usize, tries: u32, seen: u64)
    requires words { AreWords board.now.shared.table_id node }
    requires tries { tries < 32 }
{
    for _ in 0..(1u32 << tries) {
        if board.shared.peek(serving_word(node)) != seen {
            return;
        }
        hint::spin_loop();
        hint::spin_loop();
    }
}
