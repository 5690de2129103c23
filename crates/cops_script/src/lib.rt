//! Scripts: heads, the lines of tenants and of the host, their meaning and the answers, over any
//! world.
#![tactic(auto)]

mod bodies;
mod head_machine;
mod heads;
pub mod host_lines;
mod host_machine;
mod laws;
mod line_runs;
mod lines;
mod lone_tenants;
mod runs;
mod script_machine;
mod script_runs;
mod script_worlds;
mod scripts;
mod silent_machine;
mod solo_machine;
mod solo_runs;
mod solo_scripts;
mod texts;

pub use heads::read_config;
pub use laws::{
    line_is_one_act, long_line_may_be_cut, replies_begin_as_defined, rules_give_one_meaning,
    spared_answers_are_the_output, tenants_lines_are_those_alone,
};
pub use line_runs::{LineMachine, RunFault, Stop, run_lines};
pub use lines::parse_act;
pub use lone_tenants::with_tenant_alone;
pub use runs::{Tenancy, as_reply, run_all};
pub use script_runs::{LONGEST_LINE, TURNS, run_script_in};
pub use script_worlds::script_world_in;
pub use scripts::{BadConfig, HeadSoFar, read_head};
pub use solo_machine::SoloRefusal;
pub use solo_runs::solo_script_in;
pub use texts::push_reply;
