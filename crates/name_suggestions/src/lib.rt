//! The one of some names that was probably meant where another was written.
#![tactic(auto)]

mod few_edits;
mod nearness;

pub use nearness::{LONGEST, nearest};
