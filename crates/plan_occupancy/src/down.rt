//! Who is down at a play's beginning.
ghost use Rattle.std.specs.Prelude.{◌≡◌, ◌++◌, ◌∷◌, [], IfOk, OnOk, cond};
ghost use Rattle.domains.specs.Ids.{host_numbers};
ghost use Rattle.plan_occupancy.specs.Surveys.{down_hosts};

use domains::Fleet;
use fleet_states::{Status, status_of};
use group_tree::HostId;
use std::alloc::{AllocError, Global};

/// Adds the host where it is down.
fn push_where(hosts: &mut Vec<HostId>, host: HostId, is_down: bool) -> Result<(), AllocError>
    ensures { OnOk result (host_numbers hosts.new.items ≡ host_numbers hosts.old.items ++ cond is_down (host.index ∷ []) []) }
{
    if is_down {
        hosts.push(host)?;
    }
    Ok(())
}

/// The hosts that are down, by name. Only want of memory refuses them.
pub(crate) fn list_down(
    alloc: Global,
    fleet: &Fleet,
    statuses: &[Status],
) -> Result<Vec<HostId>, AllocError>
    ensures { IfOk result (λ hosts. host_numbers hosts.items ≡ down_hosts fleet.now statuses.now) }
{
    let mut hosts = Vec::new(alloc);
    for index in 0..fleet.hosts() {
        let host = HostId { index };
        push_where(&mut hosts, host, status_of(statuses, host).is_down())?;
    }
    Ok(hosts)
}
