//! What is accepted of an inventory and a playbook and probably not meant.
#![tactic(auto)]

mod batches;
mod context;
mod lint;
mod near;
mod playbook;
mod targets;
mod unlimited;

pub use lint::{lint_fleet_text, lint_text};
