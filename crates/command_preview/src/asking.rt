//! What a step asks for, as far as it is known before anything has run.

/// Names are lent by the step.
#[derive(Debug, Drop)]
pub(crate) enum Asking<'s> {
    /// The program and its arguments.
    Job { words: Vec<String> },
    Skipped,
    /// The name has no value.
    Undefined { name: &'s str },
    /// A word is longer than a program may be given.
    TooLong,
}
