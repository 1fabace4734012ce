//! What a run that broke off would go on with: who is down now, and the plan, the course and a rehearsal of the rest.
#![tactic(auto)]

mod asked;
mod course;
mod fault;
mod journal_match;
mod laws;
mod limits;
mod plan;
mod rehearsal;

pub use asked::Asked;
pub use course::course_from;
pub use fault::{OutlookFault, PreviewFault};
pub use journal_match::read_begun;
pub use laws::{repaired_hosts_run_each_handler, runs_go_on_as_foreseen, runs_go_on_as_planned};
pub use limits::limits_from;
pub use plan::plan_from;
pub use rehearsal::rehearse_from;
