//! The batch in which a plan has a host.
ghost use Rattle.std.specs.Prelude.{◌≡◌, ◌+◌, ◌==◌, option_map, position};
ghost use Rattle.std.specs.List.{list_any};
ghost use Rattle.fleet_index.specs.NumberLists.{has_number};
ghost use Rattle.rehearse.specs.Hosts as spec;

use batch_plan::{Answer, Batches};
use group_tree::HostId;

/// Whether the host stands among these.
fn stands_in(hosts: &[HostId], host: HostId) -> bool
    ensures { result ≡ list_any (λ other. host.index == other.index) hosts.now }
{
    hosts.iter().any(|other| host.index == other.index)
}

/// The number, from 1, of the first batch in which the host stands.
fn first_with(batches: &Batches, host: HostId) -> Option<usize>
    ensures { result ≡ option_map (λ place. place + 1) (position (has_number host.index) batches.now) }
{
    for place in 0..batches.len() {
        if stands_in(batches.at(place), host) {
            return Some(place + 1);
        }
    }
    None
}

/// The number, from 1, of the batch in which the plan has the host.
pub(crate) fn batch_number(answer: &Answer, host: HostId) -> Option<usize>
    ensures { result ≡ spec.batch_number answer.now host.index }
{
    match answer {
        Answer::Planned(plan) => first_with(&plan.batches, host),
        Answer::Blocked { .. } => None,
    }
}
