//! How far a roll is.

/// Between two batches; at a step of the open one, counted from 0; or at its end, by a halt at a step or without one.
#[derive(Clone, Copy, Debug, PartialEq, Eq)]
pub enum Stage {
    Between,
    Working(usize),
    Ended(Option<usize>),
}
