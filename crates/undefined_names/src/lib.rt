//! Names that a step may look up in vain, host by host, told before anything is started.
#![tactic(auto)]

mod before;
mod context;
mod earlier_steps;
mod first;
mod found;
mod gaps;
mod laws;
mod missing;
mod name_status;
mod no_value;
mod partial_eval;
mod places;
mod play_facts;
mod registry;
mod step_location;
mod steps;
mod undefined_read;
mod values;

pub use first::first_missing;
pub use laws::{a_skipped_step_runs_nothing, no_other_name_is_wanted};
pub use no_value::NoValue;
pub use registry::Registry;
pub use step_location::StepLocation;
