//! Theorems from the contracts of connections, carriers and collections to the actors of a history.
#![tactic(auto)]

mod laws;

pub use laws::{calls_are_recorded, carriers_behave, collections_behave, conversations_behave};
