//! Groups, fleets, plays and boards for the tests of other crates.
#![tactic(auto)]

mod again;
mod groups;
mod setting;

pub use again::{fleet_again, play_again, vars_again};
pub use groups::{group, limited_again, with};
pub use setting::{Setting, board_of, set_up};
