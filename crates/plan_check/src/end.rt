//! How the check of a plan ends.

/// What became of the plan that was checked.
#[derive(Clone, Copy, Debug, PartialEq, Eq)]
pub enum CheckEnd {
    /// It is a plan, and none has fewer batches.
    Least,
    /// It is a plan, and another one has fewer batches.
    Longer,
    /// It is none.
    Wrong,
    /// A group blocks every plan.
    Blocked,
}
