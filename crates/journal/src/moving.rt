//! Hosts that go from a status to another.
ghost use Rattle.std.specs.Prelude.{◌≡◌, None, Some, option_map, slice_set, if◌then◌else◌};
ghost use Rattle.domains.specs.Ids.{host_numbers};
ghost use Rattle.journal.specs.States as spec;
ghost use Rattle.journal.specs.States.{moved, settled};
ghost use Rattle.journal.specs.Shown.{shown_outcomes};

use crate::entry::Outcome;
use fleet_states::{Status, status_of};
use group_tree::HostId;

/// Whether a status is the one from which hosts are moved, of those from which they may be.
fn stands(before: Status, status: Status) -> bool
    ensures { result ≡ spec.stands before status }
{
    match before {
        Status::Idle => matches!(status, Status::Idle),
        Status::Waiting => matches!(status, Status::Waiting),
        Status::Running => matches!(status, Status::Running),
        _ => false,
    }
}

fn has_status(before: Status, statuses: &[Status], host: HostId) -> bool
    ensures { result ≡ spec.has_status before statuses.now host.index }
{
    host.index < statuses.len() && stands(before, status_of(statuses, host))
}

/// Gives a host a status; a number that no host has is passed over.
pub(crate) fn set_status(statuses: &mut [Status], host: HostId, status: Status)
    ensures { statuses.new ≡ slice_set statuses.old host.index status }
{
    if host.index < statuses.len() {
        statuses[host.index] = status;
    }
}

/// Moves the hosts from a status to another, one behind the other, and says whether each had the first one. Where one hadn't, those before it are moved.
pub(crate) fn move_hosts(
    statuses: &mut [Status],
    before: Status,
    after: Status,
    hosts: &[HostId],
) -> bool
    ensures { (if result then Some statuses.new else None) ≡ moved before after (host_numbers hosts.now) statuses.old }
{
    for host in hosts {
        if !has_status(before, statuses, *host) {
            return false;
        }
        set_status(statuses, *host, after);
    }
    true
}

fn is_over(status: Status) -> bool
    ensures { result ≡ spec.is_over status }
{
    matches!(status, Status::Updated | Status::Failed | Status::Halted)
}

/// Gives the hosts of a batch what became of them, and says whether these are all of them, in their order, and each is over. Where one isn't, those before it have theirs.
pub(crate) fn settle(statuses: &mut [Status], batch: &[HostId], outcomes: &[Outcome]) -> bool
    ensures { (if result then Some statuses.new else None) ≡ settled (host_numbers batch.now) (shown_outcomes outcomes.now) statuses.old }
{
    if batch.len() != outcomes.len() {
        return false;
    }
    for place in 0..batch.len() {
        let outcome = outcomes[place];
        if batch[place].index != outcome.host.index || !is_over(outcome.status) {
            return false;
        }
        set_status(statuses, outcome.host, outcome.status);
    }
    true
}
