//! Tables of rows by number.

mod tables;
