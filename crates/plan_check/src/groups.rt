//! The groups of which a batch has too many hosts.
ghost use Rattle.std.specs.Prelude.{◌≡◌, ℕ, ◌+◌, ◌<◌, ◌^◌, true, IfOk, length, slice_index};
ghost use Rattle.fleet_index.specs.NumberLists.{are_below};
ghost use Rattle.domains.specs.Ids.{host_numbers};
ghost use Rattle.domains.specs.FleetViews.{IsSound};
ghost use Rattle.domains.specs.Starts as starts;
ghost use Rattle.fleet_states.specs.Groups.{groups_of};
ghost use Rattle.plan_check.specs.Inside.{AreCounts, AreRooms, AreTerms, first_over};
ghost use Rattle.plan_check.specs.PlanErrors as model;

use crate::terms::Terms;
use crate::wrong::Wrong;
use batch_plan::room;
use domains::Fleet;
use fleet_index::raise_counts;
use fleet_states::Status;
use group_tree::{GroupId, HostId};
use std::alloc::{AllocError, Global};

/// A fleet has so many groups at most.
const GROUPS_BOUND: usize = 1024;

/// What each group has room for. Only want of memory refuses it.
pub(crate) fn list_rooms(
    alloc: Global,
    fleet: &Fleet,
    statuses: &[Status],
) -> Result<Vec<Option<usize>>, AllocError>
    ensures { IfOk result (λ rooms. AreRooms fleet.now statuses.now rooms.items) }
{
    let mut rooms = Vec::new(alloc);
    for index in 0..fleet.groups() {
        rooms.push(room(fleet, statuses, GroupId { index }))?;
    }
    Ok(rooms)
}

/// Counts each host of the batch at each of its limited groups.
fn count_members(fleet: &Fleet, counts: &mut [usize], batch: &[HostId])
    requires len { length counts.old ≡ length fleet.now.groups }
    requires within { are_below (length fleet.now.hosts) (host_numbers batch.now) ≡ true }
    requires few { length batch.now < 2 ^ 63 }
    requires none { (group : ℕ) → group < length counts.old → slice_index counts.old group ≡ 0 }
    ensures { AreCounts fleet.now (host_numbers batch.now) counts.new }
{
    for host in batch {
        raise_counts(counts, fleet.chain(*host));
    }
}

/// Whether the count is more than the room, where there is a bound.
fn exceeds(room: Option<usize>, count: usize) -> bool
    ensures { result ≡ starts.exceeds room count }
{
    match room {
        Some(room) => room < count,
        None => false,
    }
}

fn find_over(rooms: &[Option<usize>], counts: &[usize]) -> Option<usize>
    requires { length rooms.now ≡ length counts.now }
    ensures { result ≡ first_over rooms.now counts.now }
{
    for place in 0..counts.len() {
        if exceeds(rooms[place], counts[place]) {
            return Some(place);
        }
    }
    None
}

/// The first group, in preorder, of which this batch has more hosts than it has room for.
pub(crate) fn wrong_groups(terms: &Terms<'_>, batch: usize, hosts: &[HostId]) -> Option<Wrong>
    requires terms { AreTerms terms.now }
    requires within { are_below (length terms.now.fleet.now.hosts) (host_numbers hosts.now) ≡ true }
    requires few { length hosts.now < 2 ^ 63 }
    ensures { result ≡ model.wrong_groups (groups_of terms.now.fleet.now) terms.now.statuses.now batch (host_numbers hosts.now) }
{
    let mut counts = [0; GROUPS_BOUND];
    let groups = terms.fleet.groups();
    over_room(terms, &mut counts[..groups], batch, hosts)
}

/// The same, by counts that are all 0 yet.
fn over_room(
    terms: &Terms<'_>,
    counts: &mut [usize],
    batch: usize,
    hosts: &[HostId],
) -> Option<Wrong>
    requires sound { IsSound terms.now.fleet.now }
    requires terms { AreTerms terms.now }
    requires len { length counts.old ≡ length terms.now.fleet.now.groups }
    requires within { are_below (length terms.now.fleet.now.hosts) (host_numbers hosts.now) ≡ true }
    requires few { length hosts.now < 2 ^ 63 }
    requires none { (group : ℕ) → group < length counts.old → slice_index counts.old group ≡ 0 }
    ensures { result ≡ model.wrong_groups (groups_of terms.now.fleet.now) terms.now.statuses.now batch (host_numbers hosts.now) }
{
    count_members(terms.fleet, counts, hosts);
    let index = find_over(terms.rooms, counts)?;
    Some(Wrong::Over {
        batch,
        group: GroupId { index },
        hosts: counts[index],
        room: terms.rooms[index].unwrap_or(0),
    })
}
