//! Heads, lines of the host, runs over lines, lists, texts, and the tenants that are open.

mod heads;
mod host_lines;
mod line_runs;
mod lists;
mod memory;
mod open_tenants;
mod texts;
