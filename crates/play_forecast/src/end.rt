//! How a play ends.
ghost use Rattle.std.specs.Prelude.{◌≡◌, ◌<◌, ◌+◌, ◌^◌, IfSome};
ghost use Rattle.play_forecast.specs.Courses as model;

use group_tree::GroupId;

/// How a play ends.
#[derive(Clone, Copy, Debug, PartialEq, Eq)]
pub enum End {
    /// Nobody waits any more.
    Finished,
    /// Nobody waits any more, and hosts were set aside.
    Held,
    /// Hosts of this group wait, and none of its hosts may go down.
    Blocked {
        group: GroupId,
    },
    /// So many hosts of a batch of this size had failed by this step, counted from 1, which is more than the play allows.
    TooManyFailed {
        step: usize,
        failed: usize,
        size: usize,
    },
    /// All hosts of a batch have failed.
    AllFailed,
}

/// How a play ends with a batch that halted at this step, counted from 0, or at none, and of which so many hosts failed: too many
/// of them, or all.
pub fn end_with(halt: Option<usize>, failed: usize, size: usize) -> Option<End>
    requires { IfSome halt (λ step. step + 1 < 2 ^ 64) }
    ensures { result ≡ model.end_with halt failed size }
{
    match halt {
        Some(step) => Some(End::TooManyFailed {
            step: step + 1,
            failed,
            size,
        }),
        None if failed == size => Some(End::AllFailed),
        None => None,
    }
}
