//! Every fault of an inventory and a playbook, where a plan of both tells the first alone.
#![tactic(auto)]

mod every;
mod fleet;
mod no_faults;
mod pattern_names;
mod playbook;

pub use every::{EveryFault, list_all_faults};
pub use pattern_names::PatternsTold;
