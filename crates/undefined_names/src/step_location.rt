//! Where a step stands.
use group_tree::HostId;

/// Where a step stands: its place in a play, the play's number in the file, both from 0, and the host on which it would run.
#[derive(Clone, Copy, Debug, PartialEq, Eq)]
pub struct StepLocation {
    pub play: usize,
    pub place: usize,
    pub host: HostId,
}
