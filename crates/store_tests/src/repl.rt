//! Carriers and collections, over nodes that answer what a test wrote down.

mod carriers;
