//! One log of the calls at all nodes of a cluster is, for each tenant, a list of acts.
#![tactic(auto)]

mod laws;

pub use laws::{
    actors_call_by_seats, clusters_are_served_causally, crews_run_services,
    lives_of_services_are_served_causally, lives_serve_causally, logs_of_gates_are_whole,
    nodes_are_left_by_acts, prefixes_are_whole, seats_make_calls_of_actors, seats_make_their_turns,
    seats_record_their_turns, services_are_logs_of_lives, services_are_served_clusters,
    small_cluster_is_served, small_service_ran, tenants_are_served_causally,
    tenants_of_services_are_served_causally, threads_make_calls_of_actors, threads_serve_causally,
    whole_logs_are_legal,
};
