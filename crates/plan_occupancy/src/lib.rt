//! The command `plan --groups`: below a plan, or each play of a course, how full each limited group is while each batch runs.
#![tactic(auto)]

mod course;
mod down;
mod held;
mod laws;
mod manner;
mod marks;
mod occupancy_report;
mod plan;
mod writing;

pub use course::surveyed_course;
pub use laws::{
    colours_change_no_course, colours_change_no_plan, courses_stay_within_limits,
    one_surveyed_course, one_surveyed_plan, plans_stay_within_limits,
};
pub use plan::surveyed_plan;
