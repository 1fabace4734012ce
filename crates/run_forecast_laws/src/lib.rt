//! That runs go as rehearsed, as a rehearsal's answers say, and as their course says.
#![tactic(auto)]

mod laws;

pub use laws::{runs_go_as_answered, runs_go_as_rehearsed, runs_open_their_courses};
