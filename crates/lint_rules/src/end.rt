//! How `lint` ends.

/// Whether a warning was printed.
#[derive(Clone, Copy, Debug, PartialEq, Eq)]
pub enum LintEnd {
    Clean,
    Noted,
}
