//! Numbers of groups and hosts.

/// A group by its place in preorder, from 0 for the outermost.
#[derive(Clone, Copy, Debug, PartialEq, Eq, PartialOrd, Ord, Hash)]
pub struct GroupId {
    pub index: usize,
}

/// A host by its place among the hosts of a fleet, from 0.
#[derive(Clone, Copy, Debug, PartialEq, Eq, PartialOrd, Ord, Hash)]
pub struct HostId {
    pub index: usize,
}
