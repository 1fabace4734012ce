//! How many more hosts of each limited group a batch has room for.
ghost use Rattle.std.specs.Prelude.{◌≡◌, ◌↔◌, ℕ, ◌+◌, ◌<◌, ◌≤◌, ◌^◌, IsTrue, true, cond, length, slice_index};
ghost use Rattle.std.specs.List.{list_all};
ghost use Rattle.fleet_index.specs.NumberLists.{IsRising, are_below, has_number, list_at};
ghost use Rattle.domains.specs.Ids.{group_numbers, host_numbers};
ghost use Rattle.domains.specs.FleetViews.{IsSound};
ghost use Rattle.fleet_states.specs.Groups.{groups_of};
ghost use Rattle.batch_plan.specs.Checks as model;
ghost use Rattle.batch_plan.specs.Checks.{FitInto, KeepPlaces, chain_count, places_in};

use crate::batches::Batches;
use crate::rooms::room;
use domains::Fleet;
use fleet_index::raise_counts;
use fleet_states::Status;
use group_tree::{GroupId, HostId};

/// A fleet has so many groups at most.
const GROUPS_BOUND: usize = 1024;

/// Takes a place of each of these groups; false where one has none left.
fn take(left: &mut [usize], chain: &[GroupId]) -> bool
    requires { IsRising (length left.old) (group_numbers chain.now) }
    ensures len { length left.new ≡ length left.old }
    ensures taken { IsTrue result → (group : ℕ) → group < length left.old
        → slice_index left.new group + cond (has_number group (group_numbers chain.now)) 1 0 ≡ slice_index left.old group }
    ensures enough { ((group : ℕ) → has_number group (group_numbers chain.now) ≡ true → 0 < slice_index left.old group) → IsTrue result }
{
    for group in chain {
        if left[group.index] == 0 {
            return false;
        }
        left[group.index] -= 1;
    }
    true
}

/// Takes the places of all these hosts; false where a group has too few left.
fn take_all(fleet: &Fleet, left: &mut [usize], batch: &[HostId]) -> bool
    requires len { length left.old ≡ length fleet.now.groups }
    requires within { are_below (length fleet.now.hosts) (host_numbers batch.now) ≡ true }
    ensures len { length left.new ≡ length left.old }
    ensures taken { IsTrue result → (group : ℕ) → group < length left.old
        → slice_index left.new group + chain_count fleet.now.chains group (host_numbers batch.now) ≡ slice_index left.old group }
    ensures enough { FitInto fleet.now.chains left.old (host_numbers batch.now) → IsTrue result }
{
    for host in batch {
        if !take(left, fleet.chain(*host)) {
            return false;
        }
    }
    true
}

/// Gives the places of all these hosts back.
fn give_back_all(fleet: &Fleet, left: &mut [usize], batch: &[HostId])
    requires len { length left.old ≡ length fleet.now.groups }
    requires within { are_below (length fleet.now.hosts) (host_numbers batch.now) ≡ true }
    requires small { (group : ℕ) → group < length left.old
        → slice_index left.old group + chain_count fleet.now.chains group (host_numbers batch.now) < 2 ^ 32 }
    ensures len { length left.new ≡ length left.old }
    ensures given { (group : ℕ) → group < length left.old
        → slice_index left.new group ≡ slice_index left.old group + chain_count fleet.now.chains group (host_numbers batch.now) }
{
    for host in batch {
        raise_counts(left, fleet.chain(*host));
    }
}

/// Whether each group has places for all these hosts that are members of it. Where it has, the places are as before.
fn fits(fleet: &Fleet, left: &mut [usize], batch: &[HostId]) -> bool
    requires len { length left.old ≡ length fleet.now.groups }
    requires within { are_below (length fleet.now.hosts) (host_numbers batch.now) ≡ true }
    requires small { (group : ℕ) → group < length left.old → slice_index left.old group < 2 ^ 32 }
    ensures exact { IsTrue result ↔ FitInto fleet.now.chains left.old (host_numbers batch.now) }
    ensures back { IsTrue result → left.new ≡ left.old }
{
    if !take_all(fleet, left, batch) {
        return false;
    }
    give_back_all(fleet, left, batch);
    true
}

/// How many more hosts of the group may go down; 0 where it has no limit.
fn places(fleet: &Fleet, statuses: &[Status], group: GroupId) -> usize
    requires { group.index < length fleet.now.groups }
    ensures places { result ≡ places_in fleet.now statuses.now group.index }
    ensures small { result < 2 ^ 32 }
{
    match room(fleet, statuses, group) {
        Some(room) => room,
        None => 0,
    }
}

fn fill(fleet: &Fleet, statuses: &[Status], left: &mut [usize])
    requires { length left.old ≡ length fleet.now.groups }
    ensures len { length left.new ≡ length left.old }
    ensures places { (group : ℕ) → group < length left.old → slice_index left.new group ≡ places_in fleet.now statuses.now group }
    ensures small { (group : ℕ) → group < length left.old → slice_index left.new group < 2 ^ 32 }
{
    for index in 0..left.len() {
        left[index] = places(fleet, statuses, GroupId { index });
    }
}

/// Whether each group has places for all its members of each batch.
fn all_fit(fleet: &Fleet, left: &mut [usize], batches: &Batches) -> bool
    requires len { length left.old ≡ length fleet.now.groups }
    requires within { list_all (are_below (length fleet.now.hosts)) batches.now ≡ true }
    requires small { (group : ℕ) → group < length left.old → slice_index left.old group < 2 ^ 32 }
    ensures { IsTrue result ↔ ((place : ℕ) → place < length batches.now → FitInto fleet.now.chains left.old (list_at batches.now place)) }
{
    for place in 0..batches.len() {
        if !fits(fleet, left, batches.at(place)) {
            return false;
        }
    }
    true
}

fn keep_places(fleet: &Fleet, statuses: &[Status], left: &mut [usize], batches: &Batches) -> bool
    requires len { length left.old ≡ length fleet.now.groups }
    requires within { list_all (are_below (length fleet.now.hosts)) batches.now ≡ true }
    ensures { IsTrue result ↔ KeepPlaces fleet.now statuses.now batches.now }
{
    fill(fleet, statuses, left);
    all_fit(fleet, left, batches)
}

/// Whether no batch has more hosts of a group than that has room for. Each host is looked at as often as it has limited
/// groups, and each group's members once.
pub(crate) fn keep_room(fleet: &Fleet, statuses: &[Status], batches: &Batches) -> bool
    requires { list_all (are_below (length fleet.now.hosts)) batches.now ≡ true }
    ensures sound { IsSound fleet.now }
    ensures keep { result ≡ list_all (model.keep_room statuses.now batches.now) (groups_of fleet.now) }
{
    let mut left = [0; GROUPS_BOUND];
    let groups = fleet.groups();
    keep_places(fleet, statuses, &mut left[..groups], batches)
}
