//! Tests of the crates up to `cops_wire`, through their public calls.
#![tactic(auto)]

#[cfg(test)]
mod context;
#[cfg(test)]
mod entries;
#[cfg(test)]
mod handles;
#[cfg(test)]
mod one_tenant;
#[cfg(test)]
mod outbox;
#[cfg(test)]
mod pairs;
#[cfg(test)]
mod repl;
#[cfg(test)]
mod session;
#[cfg(test)]
mod slate;
#[cfg(test)]
mod store;
#[cfg(test)]
mod types;
#[cfg(test)]
mod wire;
