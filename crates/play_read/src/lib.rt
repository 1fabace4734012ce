//! From the bytes of a text to its plays, or to its errors.
#![tactic(auto)]

mod argv;
mod clause;
mod command;
mod conditions;
mod document;
mod free;
mod handlers;
mod held;
mod holes;
mod notified;
mod pieces;
mod play;
mod read;
mod split;
mod step;
mod steps;
mod tasks;

pub use play_model::{Play, Step};
pub use playbook_schema::PlayFault;
pub use read::{plays_or_faults, read_play, read_plays};
