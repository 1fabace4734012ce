//! What the batch that comes next does to the statuses, and how it ends the play, where these hosts fail in it.
ghost use Rattle.std.specs.Prelude.{◌≡◌, ℕ, ◌<◌, IfOk, Some, filter, find, if◌then◌else◌, is_some, length, not, true};
ghost use Rattle.fleet_index.specs.NumberLists.{are_below, has_number};
ghost use Rattle.domains.specs.Ids.{host_numbers};
ghost use Rattle.fleet_states.specs.Batches as spec;
ghost use Rattle.fleet_states.specs.Batches.{fails_in};
ghost use Rattle.rehearse.specs.Stacks as model;
ghost use Rattle.rehearse.specs.Advances.{AreFirstSteps, IsEndOfBatch};

use fleet_states::{Status, end_batch, failed_by, halt};
use group_tree::{HostId, Percentage};
use play_forecast::{Boundary, End, end_with};
use std::alloc::{AllocError, Global};

/// Lets the host fail at the first step; a number that no host has is passed over.
fn let_fail(failing: &mut [Option<usize>], host: HostId)
    ensures len { length failing.new ≡ length failing.old }
    ensures own { host.index < length failing.old → fails_in failing.new host.index ≡ Some 0 }
    ensures others { (other : ℕ) → (other ≡ host.index → ⊥) → fails_in failing.new other ≡ fails_in failing.old other }
{
    if host.index < failing.len() {
        failing[host.index] = Some(0);
    }
}

/// Lets these hosts fail at the first step, and no others.
fn let_all_fail(failing: &mut [Option<usize>], named: &[HostId])
    ensures len { length failing.new ≡ length failing.old }
    ensures steps { (host : ℕ) → host < length failing.old → fails_in failing.new host ≡ (if has_number host (host_numbers named.now) then Some 0 else fails_in failing.old host) }
{
    for host in named {
        let_fail(failing, *host);
    }
}

/// For each host of a fleet of so many the step that fails on it: the first one for these, and none for the others.
pub(crate) fn first_steps(
    alloc: Global,
    hosts: usize,
    named: &[HostId],
) -> Result<Vec<Option<usize>>, AllocError>
    ensures { IfOk result (λ failing. AreFirstSteps hosts (host_numbers named.now) failing.items) }
{
    let mut failing = vec![in alloc; None; hosts]?;
    let_all_fail(failing.as_mut_slice(), named);
    Ok(failing)
}

fn can_fail(failing: &[Option<usize>], host: HostId) -> bool
    ensures { result ≡ is_some (fails_in failing.now host.index) }
{
    match failing.get(host.index) {
        Some(step) => step.is_some(),
        None => false,
    }
}

/// The first of these hosts that can't fail.
fn first_spared(failing: &[Option<usize>], named: &[HostId]) -> Option<HostId>
    ensures { result ≡ find (λ host. not (is_some (fails_in failing.now host.index))) named.now }
{
    named.iter().copied().find(|host| !can_fail(failing, *host))
}

/// The first of the named hosts that does not stand in the batch. Only want of memory refuses it.
pub(crate) fn first_outside(
    alloc: Global,
    hosts: usize,
    batch: &[HostId],
    named: &[HostId],
) -> Result<Option<HostId>, AllocError>
    requires { are_below hosts (host_numbers batch.now) ≡ true }
    ensures { IfOk result (λ outside. outside ≡ model.first_outside (host_numbers batch.now) named.now) }
{
    let failing = first_steps(alloc, hosts, batch)?;
    Ok(first_spared(failing.as_slice(), named))
}

/// Those of these hosts that can fail. Only want of memory refuses it.
fn list_able(
    alloc: Global,
    failing: &[Option<usize>],
    hosts: &[HostId],
) -> Result<Vec<HostId>, AllocError>
    ensures { IfOk result (λ able. able.items ≡ filter (λ host. is_some (fails_in failing.now host.index)) hosts.now) }
{
    hosts
        .iter()
        .copied()
        .filter(|host| can_fail(failing, *host))
        .collect(alloc)
}

/// Those of the hosts that stand in the batch, in their order. Only want of memory refuses it.
pub(crate) fn those_in(
    alloc: Global,
    hosts: usize,
    batch: &[HostId],
    marked: &[HostId],
) -> Result<Vec<HostId>, AllocError>
    requires { are_below hosts (host_numbers batch.now) ≡ true }
    ensures { IfOk result (λ found. found.items ≡ filter (λ host. has_number host.index (host_numbers batch.now)) marked.now) }
{
    let failing = first_steps(alloc, hosts, batch)?;
    list_able(alloc, failing.as_slice(), marked)
}

/// How many hosts of a batch have failed that halted at a step, or at none.
fn failed_in(failing: &[Option<usize>], batch: &[HostId], halt: Option<usize>) -> usize
    ensures { result ≡ spec.failed_in (fails_in failing.now) (host_numbers batch.now) halt }
{
    match halt {
        Some(step) => failed_by(failing, batch, step),
        None => batch
            .iter()
            .filter(|host| can_fail(failing, **host))
            .count(),
    }
}

/// The statuses once the batch of so many steps is over in which hosts fail so, and how it ends the play, if it does. Only want of memory refuses it.
pub(crate) fn close_batch(
    alloc: Global,
    boundary: &Boundary,
    failing: &[Option<usize>],
    max_fail: Option<Percentage>,
    steps: usize,
) -> Result<(Vec<Status>, Option<End>), AllocError>
    ensures { IfOk result (λ (statuses, end). IsEndOfBatch (fails_in failing.now) max_fail steps boundary.now statuses.items end) }
{
    let batch = boundary.next_batch();
    let halt = halt(failing, batch, max_fail, steps);
    let end = end_with(halt, failed_in(failing, batch, halt), batch.len());
    let mut statuses = Vec::from_slice(alloc, boundary.statuses.as_slice())?;
    end_batch(statuses.as_mut_slice(), halt, failing, batch);
    Ok((statuses, end))
}
