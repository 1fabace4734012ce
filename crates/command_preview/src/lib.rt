//! The dry run of the words: which words would run on which host, step by step, before anything is started.
#![tactic(auto)]

mod asking;
mod end;
mod foreseen;
mod hole;
mod holes;
mod hosts;
mod laws;
mod lines;
mod plays;
mod printing;
mod reading;
mod step_preview;
mod wording;

pub use end::WordsEnd;
pub use hosts::{list_hosts, start_play};
pub use laws::steps_run_as_told;
pub use printing::words_text;
pub use reading::{Inputs, read_inputs};
