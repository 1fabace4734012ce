//! Hints: what to write where a file has an error, and what each error and each lint rule means.
#![tactic(auto)]

mod ansible_keys;
mod braces;
mod break_advice;
mod condition_rows;
mod conditions;
mod document;
mod entries;
mod expected;
mod fleet;
mod formats;
mod handlers;
mod inventory;
mod keys;
mod line;
mod names;
mod not_json;
mod pattern;
mod places;
mod playbook;
mod rows;
mod shapes;
mod steps;

pub use document::Document;
pub use entries::entry_of;
pub use fleet::fleet_help;
pub use inventory::read_help;
pub use line::{LONGEST_LINE, tell};
pub use pattern::pattern_help;
pub use playbook::play_help;
