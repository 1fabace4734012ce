//! Whether a plan from elsewhere is one, and a least one, or the first thing that is wrong with it.
#![tactic(auto)]

mod batches;
mod check;
mod end;
mod fault;
mod groups;
mod hosts;
mod judge;
mod laws;
mod lines;
mod listing;
mod naming;
mod opening;
mod terms;
mod verdict;
mod worked;
mod wrong;

pub use batches::first_plan_error;
pub use check::check_text;
pub use end::CheckEnd;
pub use fault::CheckFault;
pub use laws::{
    nothing_is_wrong_with_plans, one_check_text, plans_are_told_to_be_valid, valid_is_told_of_plans,
};
pub use wrong::Wrong;
