//! How a run of a playbook ends.
ghost use Rattle.std.specs.Prelude.{◌≡◌, ◌<◌, length};
ghost use Rattle.std.specs.List.{list_any};
ghost use Rattle.run_command.specs.Ends as model;
ghost use Rattle.run_command.specs.Ends.{IsEndOf};

use fleet_states::Status;
use roll_run::{End, Run};

/// What the recap of a run tells at its end.
#[derive(Clone, Copy, Debug, PartialEq, Eq)]
pub enum RunEnd {
    /// All plays finished, and no host has failed or was stopped at work.
    Done,
    /// All plays finished, and a host has failed, or was stopped at work where a run broke off.
    Failed,
    /// Hosts wait in a group that has no room, or were set aside.
    Blocked,
    /// Too many hosts of a batch failed, or all of them.
    Stopped,
}

/// Whether the host is down by the run: it has failed, or was at work when it, or one that it goes on with, was stopped.
fn is_failed(status: Status) -> bool
    ensures { result ≡ model.is_failed status }
{
    match status {
        Status::Failed | Status::Halted => true,
        _ => false,
    }
}

/// Whether any of these has failed.
fn any_failed(statuses: &[Status]) -> bool
    ensures { result ≡ list_any (λ status. model.is_failed status) statuses.now }
{
    statuses.iter().any(|status| is_failed(*status))
}

/// How a playbook ends whose last play ended so, and left these statuses.
pub fn end_of(end: End, statuses: &[Status]) -> RunEnd
    ensures { result ≡ model.end_of end statuses.now }
{
    match end {
        End::Finished => {
            if any_failed(statuses) {
                RunEnd::Failed
            } else {
                RunEnd::Done
            }
        }
        End::Held => RunEnd::Blocked,
        End::Blocked { group: _ } => RunEnd::Blocked,
        End::TooManyFailed {
            step: _,
            failed: _,
            size: _,
        } => RunEnd::Stopped,
        End::AllFailed => RunEnd::Stopped,
    }
}

/// How a playbook ends of whose plays these are the runs.
pub(crate) fn end_of_runs(runs: &[Run]) -> RunEnd
    requires { 0 < length runs.now }
    ensures { IsEndOf runs.now result }
{
    let place = runs.len() - 1;
    let last = &runs[place];
    end_of(last.end, last.statuses.as_slice())
}
