//! What the conditions of a step make of its row.

/// `undefined` says that a name without a value was met on the way.
#[derive(Clone, Copy, Debug, PartialEq, Eq)]
pub struct Flags {
    pub changed: bool,
    pub failed: bool,
    pub undefined: bool,
}
