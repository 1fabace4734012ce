//! The hosts of a batch, one by one.
ghost use Rattle.std.specs.Prelude.{◌≡◌, ℕ, ◌∷◌, IfNone, List, length};
ghost use Rattle.domains.specs.Ids.{host_numbers};
ghost use Rattle.plan_check.specs.Inside.{AreMarks};
ghost use Rattle.plan_check.specs.PlanErrors as model;
ghost use Rattle.plan_check.specs.PlanErrors.{behind};

use crate::wrong::Wrong;
use fleet_states::{Status, status_of};
use group_tree::HostId;

/// What is wrong with a host of this batch; nothing where it waits and has no mark yet, and then it gets one.
fn wrong_host(statuses: &[Status], stood: &mut [bool], batch: usize, host: HostId) -> Option<Wrong>
    requires { length stood.old ≡ length statuses.now }
    ensures len { length stood.new ≡ length stood.old }
    ensures wrong { (before : List ℕ) → AreMarks stood.old before → result ≡ model.wrong_host statuses.now batch before host.index }
    ensures marked { IfNone result ((before : List ℕ) → AreMarks stood.old before → AreMarks stood.new (host.index ∷ before)) }
{
    if !status_of(statuses, host).is_waiting() {
        return Some(Wrong::NotWaiting { batch, host });
    }
    if stood[host.index] {
        return Some(Wrong::Twice { batch, host });
    }
    stood[host.index] = true;
    None
}

/// What is wrong with the first host of this batch that doesn't wait or has a mark; nothing where there is none, and then all of it get marks.
pub(crate) fn wrong_hosts(
    statuses: &[Status],
    stood: &mut [bool],
    batch: usize,
    hosts: &[HostId],
) -> Option<Wrong>
    requires { length stood.old ≡ length statuses.now }
    ensures len { length stood.new ≡ length stood.old }
    ensures wrong { (before : List ℕ) → AreMarks stood.old before → result ≡ model.wrong_hosts statuses.now batch before (host_numbers hosts.now) }
    ensures marked { IfNone result ((before : List ℕ) → AreMarks stood.old before → AreMarks stood.new (behind before (host_numbers hosts.now))) }
{
    for host in hosts {
        if let Some(wrong) = wrong_host(statuses, stood, batch, *host) {
            return Some(wrong);
        }
    }
    None
}

/// The first host by name that waits and has no mark.
pub(crate) fn wrong_end(statuses: &[Status], stood: &[bool]) -> Option<Wrong>
    requires { length stood.now ≡ length statuses.now }
    ensures { (before : List ℕ) → AreMarks stood.now before → result ≡ model.wrong_end statuses.now before }
{
    for index in 0..statuses.len() {
        if statuses[index].is_waiting() && !stood[index] {
            let host = HostId { index };
            return Some(Wrong::Missing { host });
        }
    }
    None
}
