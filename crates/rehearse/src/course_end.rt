//! How a course ends.
ghost use Rattle.std.specs.Prelude.{◌≡◌, IfOk};
ghost use Rattle.std.specs.List.{list_any};
ghost use Rattle.rehearse.specs.CourseTexts as model;

use fleet_states::Status;
use play_forecast::End;

/// How the last play of a course ends, as the exit status of a run tells it.
#[derive(Clone, Copy, Debug, PartialEq, Eq)]
pub enum CourseEnd {
    /// Nobody waits any more, and nobody has failed.
    Done,
    /// Nobody waits any more, and hosts have failed.
    Failed,
    /// Hosts wait in a group that has no room, or were set aside.
    Blocked,
    /// Too many hosts of a batch failed, or all of them.
    Stopped,
}

/// Whether the host is down by the course: it has failed, or was at work when a run broke off that goes on so.
fn is_failed(status: Status) -> bool
    ensures { result ≡ model.is_failed status }
{
    match status {
        Status::Failed | Status::Halted => true,
        _ => false,
    }
}

fn any_failed(statuses: &[Status]) -> bool
    ensures { result ≡ list_any (λ status. model.is_failed status) statuses.now }
{
    statuses.iter().any(|status| is_failed(*status))
}

/// How a course ends whose last play ends so, and leaves these statuses.
pub(crate) fn end_of(end: End, statuses: &[Status]) -> CourseEnd
    ensures { result ≡ model.end_of end statuses.now }
{
    match end {
        End::Finished if any_failed(statuses) => CourseEnd::Failed,
        End::Finished => CourseEnd::Done,
        End::Held | End::Blocked { .. } => CourseEnd::Blocked,
        End::TooManyFailed { .. } | End::AllFailed => CourseEnd::Stopped,
    }
}
