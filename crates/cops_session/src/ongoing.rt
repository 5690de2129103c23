use crate::kinds::Contexts;
use crate::rounds::Rounds;
use cops_handles::Handle;
use cops_types::{Deps, Key, Near, Value};

/// The running request of a session: its number, its context, and its work.
#[derive(Drop)]
pub struct Ongoing {
    pub number: u64,
    pub context: Handle<Contexts>,
    pub work: Work,
}

/// The work of a request.
#[derive(Debug, Drop)]
pub enum Work {
    Put(PendingPut),
    Get(Reading),
}

/// A put: the pair to store, and the two lists of its context.
#[derive(Debug, Drop)]
pub struct PendingPut {
    pub key: Key,
    pub value: Value,
    pub deps: Deps,
    pub near: Near,
}

/// A get transaction: the number of its restarts, the timestamp of its attempt's first step, and
/// its rounds.
#[derive(Debug, Drop)]
pub struct Reading {
    pub restarts: u64,
    pub start: Option<u64>,
    pub rounds: Rounds,
}
