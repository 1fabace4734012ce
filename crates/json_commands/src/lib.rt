//! Commands that answer as JSON: from the bytes of an inventory and of a playbook to one object.
#![tactic(auto)]

mod course;
mod courses;
mod laws;
mod limits;
mod plan;

pub use course::course_json;
pub use laws::{one_course_json, one_plan_json};
pub use limits::limits_json;
pub use plan::plan_json;
