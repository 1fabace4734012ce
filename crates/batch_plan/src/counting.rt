//! What the counts of a fleet's limited groups say of waiting hosts and of room.
ghost use Rattle.std.specs.Prelude.{◌≡◌, ℕ, ◌<◌, ◌++◌, ◌∷◌, [], None, cond, length, map, replicate, slice_index_or, IfOk, OnOk};
ghost use Rattle.std.specs.List.{range_with_len};
ghost use Rattle.domains.specs.Ids.{host_numbers};
ghost use Rattle.domains.specs.FleetViews.{IsSound};
ghost use Rattle.batch_plan.specs.Nodes.{own_node, side_by_side};
ghost use Rattle.batch_plan.specs.CountPlaces.{waits};
ghost use Rattle.batch_plan.specs.Places as model;
ghost use Rattle.batch_plan.specs.Inside.{counted_need, counted_order, node_need, told, told_by};

use crate::counts::Domains;
use crate::needs::Need;
use crate::node::DomTree;
use crate::place::Place;
use domains::Fleet;
use fleet_states::Status;
use group_tree::{GroupId, HostId};
use std::alloc::{AllocError, Allocator, Global};

/// What a host of this status counts as: one that waits, one that is down, or one that is up and doesn't wait.
pub fn place_of(status: Status) -> Place
    ensures { result ≡ model.place_of status }
{
    match status {
        Status::Idle | Status::Updated | Status::Held => Place::Up,
        Status::Waiting => Place::Waits,
        Status::Running | Status::Failed | Status::Halted | Status::Off => Place::Down,
    }
}

/// The counts of a fleet whose hosts have these statuses. Only want of memory refuses them.
pub fn counted<'f, A: Allocator + Clone>(
    alloc: A,
    fleet: &'f Fleet,
    statuses: &[Status],
) -> Result<Domains<'f, A>, AllocError>
    requires { length statuses.now ≡ length fleet.now.hosts }
    ensures { IfOk result (λ domains. domains ≡ record { fleet = fleet.now; places = map model.place_of statuses.now }) }
{
    let mut domains = Domains::new(alloc, fleet)?;
    for index in 0..statuses.len() {
        domains.set(HostId { index }, place_of(statuses[index]));
    }
    Ok(domains)
}

/// What a group needs of which the counts stand, where it has a limit.
fn need_of<A: Allocator>(fleet: &Fleet, tree: &DomTree<A>) -> Option<Need>
    requires { tree.now.group < length fleet.now.groups }
    ensures { result ≡ node_need fleet.now.limits (own_node tree.now) }
{
    match fleet.limit(tree.group()) {
        Some(limit) => Some(Need {
            waiting: tree.waiting(),
            room: usize::from(limit).saturating_sub(tree.down()),
        }),
        None => None,
    }
}

/// Tells what the group needs, apart from those below it.
fn record_own<A: Allocator>(needs: &mut [Option<Need>], fleet: &Fleet, tree: &DomTree<A>)
    requires { length needs.old ≡ length fleet.now.groups }
    ensures len { length needs.new ≡ length needs.old }
    ensures told { (group : ℕ) → group < length needs.old
        → slice_index_or needs.new group None ≡ told fleet.now.limits (own_node tree.now) group (slice_index_or needs.old group None) }
{
    let group = tree.group();
    if group.index < needs.len() {
        needs[group.index] = need_of(fleet, tree);
    }
}

/// Tells what each of these groups and of those below them needs.
fn record_all<A: Allocator>(needs: &mut [Option<Need>], fleet: &Fleet, trees: &[DomTree<A>])
    requires { length needs.old ≡ length fleet.now.groups }
    ensures len { length needs.new ≡ length needs.old }
    ensures told { (group : ℕ) → group < length needs.old
        → slice_index_or needs.new group None ≡ told_by fleet.now.limits (side_by_side trees.now) group (slice_index_or needs.old group None) }
{
    for tree in trees {
        record_own(needs, fleet, tree);
        record_all(needs, fleet, tree.children());
    }
}

/// Nothing is known of so many groups.
fn untold(alloc: Global, groups: usize) -> Result<Vec<Option<Need>>, AllocError>
    ensures { IfOk result (λ needs. needs.items ≡ replicate groups None) }
{
    let mut needs = Vec::with_capacity(alloc, groups)?;
    for _group in 0..groups {
        needs.push(None)?;
    }
    Ok(needs)
}

/// What each group needs, in preorder, read off the tree of counts.
pub(crate) fn list_needs<A: Allocator>(
    alloc: Global,
    domains: &Domains<'_, A>,
) -> Result<Vec<Option<Need>>, AllocError>
    ensures needs { IfOk result (λ needs. needs.items ≡ map (counted_need domains.now) (range_with_len 0 (length domains.now.fleet.groups))) }
    ensures sound { IfOk result (λ _. IsSound domains.now.fleet) }
{
    let fleet = domains.fleet();
    let mut needs = untold(alloc, fleet.groups())?;
    record_all(needs.as_mut_slice(), fleet, domains.tops());
    Ok(needs)
}

/// Adds the host where it waits.
fn push_waiting(hosts: &mut Vec<HostId>, host: HostId, place: Place) -> Result<(), AllocError>
    ensures { OnOk result (host_numbers hosts.new.items ≡ host_numbers hosts.old.items ++ cond (waits place) (host.index ∷ []) []) }
{
    if matches!(place, Place::Waits) {
        hosts.push(host)?;
    }
    Ok(())
}

/// The waiting hosts, in the order in which hosts are dealt.
pub(crate) fn list_waiting<A: Allocator>(
    alloc: Global,
    domains: &Domains<'_, A>,
) -> Result<Vec<HostId>, AllocError>
    ensures { IfOk result (λ hosts. host_numbers hosts.items ≡ counted_order domains.now) }
{
    let mut hosts = Vec::new(alloc);
    for host in domains.fleet().deal_order() {
        push_waiting(&mut hosts, *host, domains.place(*host))?;
    }
    Ok(hosts)
}
