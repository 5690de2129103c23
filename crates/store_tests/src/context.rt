//! The two lists of a context.

pub(crate) mod lists;
mod memory;
