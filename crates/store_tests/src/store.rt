//! The records of a store.

mod in_turn;
mod memory;
mod records;
