//! What is expected of the table of limits and of a plan, and the first expectation that one does not meet.
#![tactic(auto)]

mod expectation;
mod fault;
mod judging;
mod printing;
mod reading;
mod unexpected;

pub use expectation::{Expectation, Relation, Unmet};
pub use fault::ListFault;
pub use judging::{unmet_in_plan, unmet_in_table};
pub use printing::{expected_limits, expected_plan};
pub use reading::read_expectations;
pub use unexpected::{ExpectFault, Unexpected};
