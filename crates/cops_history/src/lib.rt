//! A log of turns at the nodes of a cluster is a list of acts.
#![tactic(auto)]

mod laws;

pub use laws::{
    acts_with_memory_are_of_the_definition, ended_lives_are_unknown, example_is_served,
    legal_histories_may_have_no_log, lives_are_acts, logs_are_acts, nodes_are_left_by_their_turns,
    nodes_hold_what_lives_leave, prefixes_are_acts, served_are_acts, small_life_is_served,
};
