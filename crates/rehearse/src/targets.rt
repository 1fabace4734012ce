//! The hosts that a play is for.
ghost use Rattle.std.specs.Prelude.{◌≡◌, ◌≤◌, IfOk, length};
ghost use Rattle.domains.specs.Ids.{host_numbers};
ghost use Rattle.fleet_states.specs.Starts.{start_statuses};
ghost use Rattle.play_forecast.specs.PlayPlans.{targets};

use batch_plan::start;
use domains::Fleet;
use fleet_states::Status;
use group_tree::HostId;
use play_model::Play;
use std::alloc::{AllocError, Global};

/// How many hosts these are. A fleet has so few that the number fits.
pub(crate) fn count(fleet: &Fleet, hosts: &[HostId]) -> u32
    requires { length hosts.now ≤ length fleet.now.hosts }
    ensures { result ≡ length hosts.now }
{
    hosts.len().min(fleet.hosts()) as u32
}

/// The hosts that the play is for. Only want of memory refuses it, where its pattern was looked up.
pub(crate) fn targets_of(
    alloc: Global,
    fleet: &Fleet,
    play: &Play,
) -> Result<Vec<HostId>, AllocError>
    ensures { IfOk result (λ hosts. host_numbers hosts.items ≡ targets fleet.now play.now) }
{
    match fleet.target(alloc, play.pattern()) {
        Ok(hosts) => Ok(hosts),
        Err(_refused) => Err(AllocError),
    }
}

/// The statuses with which a run of the play begins: its hosts wait, but those that are off. Only want of memory refuses it, where its pattern was looked up.
pub(crate) fn start_play(
    alloc: Global,
    fleet: &Fleet,
    play: &Play,
) -> Result<Vec<Status>, AllocError>
    ensures are { IfOk result (λ statuses. statuses.items ≡ start_statuses fleet.now (targets fleet.now play.now)) }
    ensures all { IfOk result (λ statuses. length statuses.items ≡ length fleet.now.hosts) }
{
    let hosts = targets_of(alloc, fleet, play)?;
    start(alloc, fleet, hosts.as_slice())
}
