//! The command `plan`: from the bytes of an inventory and of a playbook to the text of the plan.
#![tactic(auto)]

mod end;
mod fault;
mod fleet;
mod laws;
mod plays;
mod printing;

pub use end::{End, end_of};
pub use fault::PlanFault;
pub use fleet::read_fleet;
pub use laws::{one_inventory, one_plan_text};
pub use plays::read_known_plays;
pub use printing::plan_text;
