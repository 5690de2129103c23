//! The table that the threads share. Each node has a slot with its machine, and 16 words. It uses two of these: the next
//! ticket to draw, and the ticket that is served. So no two nodes have words in one cache line.
ghost use Rattle.std.specs.Prelude.{◌≡◌, ◌+◌, ◌*◌, ◌<◌, ◌^◌};

use crate::history::Turn;
use atomic_table::{Seat, Table, TableRule};
use cops_types::Machine;
use std::alloc::Global;
use std::collections::LinkedList;
use std::snapshot::Snapshot;

// Returns the place of a node's next ticket.
#[inline(always)]
pub(crate) fn ticket_word(node: usize) -> usize
    requires { node < 2 ^ 32 }
    ensures { result ≡ 16 * node }
{
    16 * node
}

// Returns the place of the ticket that a node serves.
#[inline(always)]
pub(crate) fn serving_word(node: usize) -> usize
    requires { node < 2 ^ 32 }
    ensures { result ≡ 16 * node + 1 }
{
    16 * node + 1
}

// The last value of a ticket word. No one draws it.
pub(crate) const LAST: u64 = 1 << 62;

/// The start of a gate: the machines, and the number of each node's first ticket.
pub struct Beginning<M> {
    pub states: Vec<M>,
    pub ticket: u64,
}

/// The same, as a seat knows it. No value of it is made.
pub struct Opening<M> {
    pub states: LinkedList<M>,
    pub ticket: u64,
}

/// A seat's progress with its turn.
pub enum Stage {
    Idle,
    /// It has drawn this ticket at this node.
    Waits(u64, u64),
    /// This ticket is served at this node, and the seat has the node's slot.
    Holds(u64, u64),
}

/// A seat's account of the seats that were split off (forks). Only the gate's first seat counts them. No value of it is ever made.
pub struct Account {
    /// `true` for the gate's first seat.
    pub is_first: bool,
    /// How many seats were split off from the first seat and have not ended into it.
    pub unjoined: u64,
    /// 1 for a seat that the first seat counts, 0 for any other.
    pub counted: u64,
    /// The numbers of the seats that have ended into this one.
    pub joined: LinkedList<u64>,
}

/// A seat's knowledge. No value of it is ever made.
pub struct View<M, C, R> {
    /// The gate's opening. A seat that has ended does not know it.
    pub opening: Option<Opening<M>>,
    /// `false` for what one seat tells another, and for a seat that has ended.
    pub is_seat: bool,
    pub account: Account,
    pub number: u64,
    /// `true` if the seat knows its number. Until then it has made no turn.
    pub numbered: bool,
    pub seen: LinkedList<Turn<C, R>>,
    /// The turns that it has learned of.
    pub told: LinkedList<Turn<C, R>>,
    pub stage: Stage,
    /// The nodes at which it met the ticket word at its last value.
    pub spent: LinkedList<u64>,
}

pub struct Law;

impl<M: Machine> TableRule<M, View<M, M::Call, M::Reply>, Snapshot<Beginning<M>>> for Law {
    ghost use Rattle.cops_gate.specs.Rule.{Kept, newcomer, start};

    ghost holds = { λ key. Kept M.turns M.place (start key.value) };

    ghost first = { λ key. newcomer (start key.value) };
}

pub type Sight<M> = View<M, <M as Machine>::Call, <M as Machine>::Reply>;

pub type Board<M> = Table<M, Sight<M>, Snapshot<Beginning<M>>, Law, Global>;

pub type BoardSeat<M> = Seat<M, Sight<M>>;
