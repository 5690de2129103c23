//! Sessions and their rounds, over nodes that answer what a test wrote down.

mod memory;
mod rounds;
mod sessions;
