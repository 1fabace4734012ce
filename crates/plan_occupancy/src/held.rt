//! Which group holds whom that was set aside.
ghost use Rattle.std.specs.Prelude.{◌≡◌, ◌++◌, ℕ, IfOk, OnErr, OnOk, false, option_map, slice_index_or};
ghost use Rattle.domains.specs.Ids.{host_numbers};
ghost use Rattle.run_diagnosis.specs.Fulls.{first_by, is_full};
ghost use Rattle.plan_occupancy.specs.Surveys.{held_of};
ghost use Rattle.plan_occupancy.specs.Inside.{held_views};

use domains::Fleet;
use fleet_states::Status;
use group_tree::{GroupId, HostId};
use run_diagnosis::{first_full, list_full};
use std::alloc::{AllocError, Global};

/// A host that was set aside, and the outermost of its groups that has no room.
#[derive(Clone, Copy, Debug)]
pub(crate) struct HeldHost {
    pub(crate) host: HostId,
    pub(crate) group: Option<GroupId>,
}

/// The outermost of the host's groups that has no room, where `full` says which have none; a number that no host has is in no group.
fn holder(fleet: &Fleet, full: &[bool], host: HostId) -> Option<GroupId>
    ensures { option_map (λ group. group.index) result ≡ first_by (λ group. slice_index_or full.now group false) fleet.now host.index }
{
    if host.index >= fleet.hosts() {
        return None;
    }
    first_full(fleet, full, host)
}

/// Adds these hosts, each with the group that holds it, where `full` says which groups have no room.
fn append_each(
    fleet: &Fleet,
    statuses: &[Status],
    full: &[bool],
    hosts: &[HostId],
    held: &mut Vec<HeldHost>,
) -> Result<(), AllocError>
    requires full { (group : ℕ) → slice_index_or full.now group false ≡ is_full fleet.now statuses.now group }
    ensures { OnOk result (held_views held.new.items ≡ held_views held.old.items ++ held_of fleet.now (record { statuses = statuses.now; hosts = host_numbers hosts.now })) }
{
    for host in hosts {
        held.push(HeldHost {
            host: *host,
            group: holder(fleet, full, *host),
        })?;
    }
    Ok(())
}

/// Adds these hosts, which were set aside while all stand so, each with the group that holds it. The groups are looked at where there is such a host alone. Only want
/// of memory refuses it.
pub(crate) fn append_held(
    alloc: Global,
    fleet: &Fleet,
    statuses: &[Status],
    hosts: &[HostId],
    held: &mut Vec<HeldHost>,
) -> Result<(), AllocError>
    ensures { OnOk result (held_views held.new.items ≡ held_views held.old.items ++ held_of fleet.now (record { statuses = statuses.now; hosts = host_numbers hosts.now })) }
{
    if hosts.is_empty() {
        return Ok(());
    }
    let full = list_full(alloc, fleet, statuses)?;
    append_each(fleet, statuses, full.as_slice(), hosts, held)
}
