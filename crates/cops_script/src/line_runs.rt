//! Runs of a machine that answers each line of what is read.

mod fault;
mod machine;
mod run;
mod split;

pub use fault::RunFault;
pub use machine::{LineMachine, Stop};
pub use run::run_lines;
