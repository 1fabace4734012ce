//! A name that is missed.
use group_tree::HostId;

/// A name that a step may look up in vain on a host. Plays and their steps are counted from 1. The name is lent by the play.
#[derive(Clone, Copy, Debug)]
pub(crate) struct UndefinedRead<'p> {
    pub(crate) play: usize,
    pub(crate) step: usize,
    pub(crate) host: HostId,
    pub(crate) name: &'p str,
}
