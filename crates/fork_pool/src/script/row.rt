//! A row of a script.
ghost use Rattle.std.specs.Prelude.{◌≡◌, Decides};
ghost use Rattle.fork_pool.specs.ScriptRows.{line_of};

use group_tree::HostId;
use host_track::Outcome;

/// How the program of a host and step ends.
#[derive(Debug, Drop)]
pub(super) struct Row {
    pub(super) host: HostId,
    pub(super) step: usize,
    pub(super) outcome: Outcome,
}

impl Row {
    pub(super) fn is_same(&self, other: &Row) -> bool
        ensures { Decides result (line_of self.now ≡ line_of other.now) }
    {
        self.host.index == other.host.index
            && self.step == other.step
            && self.outcome == other.outcome
    }
}
