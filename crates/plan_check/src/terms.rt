//! What a plan is held against.
use domains::Fleet;
use fleet_states::Status;

/// How the hosts of a fleet stand, how many of them a batch may have, and what each group has room for.
#[derive(Clone, Copy)]
pub(crate) struct Terms<'f> {
    pub(crate) fleet: &'f Fleet,
    pub(crate) statuses: &'f [Status],
    pub(crate) cap: Option<u32>,
    pub(crate) rooms: &'f [Option<usize>],
}
