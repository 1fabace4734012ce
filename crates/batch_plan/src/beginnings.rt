//! The statuses with which a play begins.
ghost use Rattle.std.specs.Prelude.{◌≡◌, ℕ, false, IfOk, []};
ghost use Rattle.domains.specs.Ids.{host_numbers};
ghost use Rattle.domains.specs.FleetViews.{IsSound};
ghost use Rattle.fleet_states.specs.Statuses.{NobodyRuns, changed, is_down, status_at};
ghost use Rattle.fleet_states.specs.Starts.{start_status, start_statuses};
ghost use Rattle.batch_plan.specs.Beginnings as model;
ghost use Rattle.batch_plan.specs.Beginnings.{IsReady, restart_statuses};
ghost use Rattle.batch_plan.specs.Inside.{awaited};

use domains::Fleet;
use fleet_states::Status;
use group_tree::HostId;
use std::alloc::{AllocError, Global};

/// The status of a host that the first play isn't for.
fn rest_at_start(off: bool) -> Status
    ensures { result ≡ start_status off false }
{
    if off { Status::Off } else { Status::Idle }
}

/// The status of a host that a later play isn't for.
fn rest(status: Status) -> Status
    ensures { result ≡ model.restart_status status false }
{
    match status {
        Status::Failed | Status::Halted | Status::Off => status,
        _ => Status::Idle,
    }
}

/// The status of a host that a play is for.
fn await_turn(status: Status) -> Status
    ensures { result ≡ awaited status }
{
    match status {
        Status::Idle => Status::Waiting,
        _ => status,
    }
}

/// Makes these hosts wait where they are idle; a number that no host has is passed over.
pub fn await_turns(statuses: &mut Vec<Status>, target: &[HostId])
    ensures { statuses.new.items ≡ changed awaited (host_numbers target.now) statuses.old.items }
{
    for host in target {
        if host.index < statuses.len() {
            statuses[host.index] = await_turn(statuses[host.index]);
        }
    }
}

/// All hosts of the fleet as the first play finds them, before anybody waits.
fn rest_all_at_start(alloc: Global, fleet: &Fleet) -> Result<Vec<Status>, AllocError>
    ensures statuses { IfOk result (λ statuses. statuses.items ≡ start_statuses fleet.now []) }
    ensures sound { IfOk result (λ _. IsSound fleet.now) }
{
    let mut statuses = Vec::with_capacity(alloc, fleet.hosts())?;
    for index in 0..fleet.hosts() {
        statuses.push(rest_at_start(fleet.is_off(HostId { index })))?;
    }
    Ok(statuses)
}

/// The statuses with which a run begins whose first play is for these hosts: off where the host is off, else waiting
/// where the play is for it, else idle. A host may be named twice. Only want of memory refuses it.
pub fn start(alloc: Global, fleet: &Fleet, target: &[HostId]) -> Result<Vec<Status>, AllocError>
    ensures statuses { IfOk result (λ statuses. statuses.items ≡ start_statuses fleet.now (host_numbers target.now)) }
    ensures ready { IfOk result (λ statuses. IsReady fleet.now statuses.items) }
{
    let mut statuses = rest_all_at_start(alloc, fleet)?;
    await_turns(&mut statuses, target);
    Ok(statuses)
}

/// All hosts as a later play finds them, before anybody waits.
fn rest_all(alloc: Global, fleet: &Fleet, statuses: &[Status]) -> Result<Vec<Status>, AllocError>
    ensures { IfOk result (λ next. next.items ≡ restart_statuses statuses.now []) }
{
    let mut next = Vec::with_capacity(alloc, fleet.hosts())?;
    for status in statuses {
        next.push(rest(*status))?;
    }
    Ok(next)
}

/// The statuses with which a later play begins that is for these hosts: who failed, was halted or is off stays so; of the
/// others those wait that the play is for, and the rest are idle. Where nobody runs, nobody comes up or goes down by it. Only
/// want of memory refuses it.
pub fn restart(
    alloc: Global,
    fleet: &Fleet,
    statuses: &[Status],
    target: &[HostId],
) -> Result<Vec<Status>, AllocError>
    ensures statuses { IfOk result (λ next. next.items ≡ restart_statuses statuses.now (host_numbers target.now)) }
    ensures down { IfOk result (λ next. NobodyRuns statuses.now → (host : ℕ) → is_down (status_at next.items host) ≡ is_down (status_at statuses.now host)) }
    ensures ready { IfOk result (λ next. IsReady fleet.now statuses.now → IsReady fleet.now next.items) }
{
    let mut next = rest_all(alloc, fleet, statuses)?;
    await_turns(&mut next, target);
    Ok(next)
}
