//! Whether hosts wait, each once, tested without memory.
ghost use Rattle.std.specs.Prelude.{◌≡◌, IsTrue, MatchResult, length};
ghost use Rattle.fleet_index.specs.NumberLists.{are_below};
ghost use Rattle.fleet_states.specs.declared.status.Status.TheVariants.{Running};
ghost use Rattle.domains.specs.Ids.{host_numbers};
ghost use Rattle.fleet_states.specs.Statuses.{changed, are_ready};
ghost use Rattle.down_ledger.specs.Unfit.{IsFirstUnready};

use fleet_states::{Status, status_of};
use group_tree::HostId;

/// Gives all of these hosts the status.
fn set_all(statuses: &mut [Status], hosts: &[HostId], status: Status)
    requires { IsTrue (are_below (length statuses.old) (host_numbers hosts.now)) }
    ensures { statuses.new ≡ changed (λ _. status) (host_numbers hosts.now) statuses.old }
{
    for host in hosts {
        statuses[host.index] = status;
    }
}

/// Makes the hosts running, in the list alone. At a host that is not waiting, or stood before, it puts back those before
/// it and tells which host it is.
fn mark(statuses: &mut [Status], hosts: &[HostId]) -> Result<(), HostId>
    ensures { MatchResult result
        (λ _. IsTrue (are_ready statuses.old (host_numbers hosts.now))
        × (statuses.new ≡ changed (λ _. Running) (host_numbers hosts.now) statuses.old))
        (λ host. IsFirstUnready statuses.old (host_numbers hosts.now) host.index × (statuses.new ≡ statuses.old)) }
{
    for place in 0..hosts.len() {
        let host = hosts[place];
        if !status_of(statuses, host).is_waiting() {
            set_all(statuses, &hosts[..place], Status::Waiting);
            return Err(host);
        }
        statuses[host.index] = Status::Running;
    }
    Ok(())
}

/// Whether the hosts wait, each once; else the first that does not. The statuses serve as marks meanwhile, so that no
/// memory is taken.
pub(crate) fn test_ready(statuses: &mut [Status], hosts: &[HostId]) -> Result<(), HostId>
    ensures same { statuses.new ≡ statuses.old }
    ensures tells { MatchResult result (λ _. IsTrue (are_ready statuses.old (host_numbers hosts.now)))
        (λ host. IsFirstUnready statuses.old (host_numbers hosts.now) host.index) }
{
    match mark(statuses, hosts) {
        Ok(()) => {}
        Err(host) => return Err(host),
    }
    set_all(statuses, hosts, Status::Waiting);
    Ok(())
}
