//! What a step asks of a host.
use crate::outcome::Outcome;

#[derive(Debug, Drop)]
pub enum StepRequest {
    /// The program and its arguments, with the host's values in place of the holes.
    Job { words: Vec<String> },
    /// No program is to run: the step is skipped, a name has no value, or a word is too long.
    Settled(Outcome),
}
