//! The command `run`: from the bytes of an inventory and of a playbook to the recap of what the plays did.
#![tactic(auto)]

mod beginning;
mod behind;
mod down;
mod end;
mod facts;
mod fault;
mod hosts;
mod inputs;
mod laws;
mod left;
mod lines;
mod manner;
mod objects;
mod plays;
mod printing;
mod recaps;

pub use beginning::Beginning;
pub use end::{RunEnd, end_of};
pub use fault::RunTextFault;
pub use inputs::{Inputs, read_inputs};
pub use laws::{
    one_recap, one_recap_by_plays, recaps_are_of_safe_rolls, runs_from_are_of_safe_rolls,
};
pub use manner::Manner;
pub use plays::run_from;
pub use printing::run_text;
