//! What is found of a step's end on a host.
use crate::judged::Judged;

/// `changed` and `failed` are those of the row that is registered.
#[derive(Clone, Copy, Debug, PartialEq, Eq)]
pub struct Finding {
    pub changed: bool,
    pub failed: bool,
    pub judged: Judged,
}
