//! What can be wrong with batches of known hosts.
use group_tree::{GroupId, HostId};

/// What is wrong; batches have their numbers, from 1.
#[derive(Clone, Copy, Debug, PartialEq, Eq)]
pub enum Wrong {
    /// Nobody stands in the batch.
    Empty {
        batch: usize,
    },
    /// The host doesn't wait.
    NotWaiting {
        batch: usize,
        host: HostId,
    },
    /// The host stood before, in this batch or an earlier one.
    Twice {
        batch: usize,
        host: HostId,
    },
    /// The batch has more hosts than `serial` lets the first one have.
    Size {
        batch: usize,
        hosts: usize,
        size: u32,
    },
    /// More of the batch's hosts are in the group than it has room for.
    Over {
        batch: usize,
        group: GroupId,
        hosts: usize,
        room: usize,
    },
    /// The host waits, and stands in no batch.
    Missing {
        host: HostId,
    },
}
