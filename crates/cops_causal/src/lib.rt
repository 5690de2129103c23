//! The laws of a tenant's cluster, which hold for every list of its acts.
#![tactic(auto)]

mod calls;
mod causal;
mod laws;

pub use calls::requests_make_few_calls;
pub use causal::{
    a_cluster_alone_has_ample_memory, ample_memory_is_a_run, every_run_is_causal,
    every_transcript_is_causal, runs_tell_what_a_cluster_alone_tells, stutters_leave_a_run,
    values_and_versions_fix_pasts,
};
pub use laws::{
    audited_lists_are_within_the_limit, each_tenant_is_alone, tenants_transcripts_are_causal,
    tenants_with_memory_are_alone,
};
