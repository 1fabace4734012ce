//! A run that broke off is resumed: from its journal and the texts that it began with to what it goes on with.
#![tactic(auto)]

mod beginning;
mod debts;
mod fault;
mod inputs;
mod journals;
mod needs;
mod over;

pub use fault::ResumeFault;
pub use inputs::{Resumption, Wish, begin_inputs, mended_hosts, resume_inputs};
