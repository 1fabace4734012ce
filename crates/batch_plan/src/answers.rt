//! What the planner answers.
use crate::batches::Batches;
use group_tree::GroupId;

/// Why no plan has fewer batches: so many hosts wait, and so many of them may go down at once.
#[derive(Clone, Copy, Debug, PartialEq, Eq)]
pub enum Bound {
    Group {
        group: GroupId,
        waiting: usize,
        room: usize,
    },
    Serial {
        waiting: usize,
        size: u32,
    },
    /// Somebody waits.
    OneHost,
    /// Nobody waits.
    Nothing,
}

/// Batches of waiting hosts, and why they are not fewer.
#[derive(Debug, Drop)]
pub struct Plan {
    pub batches: Batches,
    pub bound: Bound,
}

#[derive(Debug, Drop)]
pub enum Answer {
    Planned(Plan),
    /// Hosts of this group wait, and none of its hosts may go down.
    Blocked { group: GroupId, waiting: usize },
}
