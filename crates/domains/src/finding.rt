//! What keeps numbered hosts and groups from being a fleet.

/// Two limited groups that cross at a host, all by number.
#[derive(Clone, Copy)]
pub(crate) struct Crossing {
    pub(crate) host: usize,
    pub(crate) first: usize,
    pub(crate) second: usize,
}

#[derive(Clone, Copy)]
pub(crate) enum Finding {
    /// There are too many hosts.
    Hosts,
    Nesting(Crossing),
    /// More hosts of the group are off than its limit allows.
    Start {
        group: usize,
        down: usize,
        limit: u16,
    },
}
