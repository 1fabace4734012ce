//! What is answered to a line.
use crate::refusal::Refusal;
use group_tree::HostId;

/// What is answered to a line, of the rehearsal to which the line led.
#[derive(Clone, Copy)]
pub(crate) enum Reply<'f, 'l> {
    Refused(Refusal<'l>),
    /// That it went on by the batches behind so many.
    Advanced { from: usize },
    Marked(HostId),
    Undone,
    NothingToUndo,
    Plan,
    Show,
    /// These hosts of a group.
    Hosts(&'f [HostId]),
    Help,
}
