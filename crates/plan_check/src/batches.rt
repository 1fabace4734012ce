//! The first thing that is wrong with batches.
ghost use Rattle.std.specs.Prelude.{◌≡◌, ℕ, [], IfNone, IfOk, List, length};
ghost use Rattle.domains.specs.Ids.{host_numbers};
ghost use Rattle.domains.specs.FleetViews.{IsSound};
ghost use Rattle.plan_check.specs.Inside.{AreMarks, AreTerms};
ghost use Rattle.plan_check.specs.PlanErrors as model;
ghost use Rattle.plan_check.specs.PlanErrors.{behind};

use crate::groups::{list_rooms, wrong_groups};
use crate::hosts::{wrong_end, wrong_hosts};
use crate::terms::Terms;
use crate::wrong::Wrong;
use batch_plan::Batches;
use domains::{Fleet, HOSTS_BOUND};
use fleet_states::Status;
use group_tree::HostId;
use std::alloc::{AllocError, Global};

fn wrong_start(batch: usize, hosts: &[HostId]) -> Option<Wrong>
    ensures { result ≡ model.wrong_start batch (host_numbers hosts.now) }
{
    match hosts {
        [] => Some(Wrong::Empty { batch }),
        [_, ..] => None,
    }
}

fn wrong_size(cap: Option<u32>, batch: usize, hosts: &[HostId]) -> Option<Wrong>
    ensures { result ≡ model.wrong_size cap batch (host_numbers hosts.now) }
{
    match cap {
        Some(size) if hosts.len() > size as usize => Some(Wrong::Size {
            batch,
            hosts: hosts.len(),
            size,
        }),
        _ => None,
    }
}

/// What is wrong with a batch, where the hosts with marks stood before it; nothing where it may stand there, and then its hosts get marks.
fn wrong_batch(
    terms: &Terms<'_>,
    stood: &mut [bool],
    batch: usize,
    hosts: &[HostId],
) -> Option<Wrong>
    requires terms { AreTerms terms.now }
    requires len { length stood.old ≡ length terms.now.statuses.now }
    requires sound { IsSound terms.now.fleet.now }
    ensures len { length stood.new ≡ length stood.old }
    ensures wrong { (before : List ℕ) → AreMarks stood.old before
        → result ≡ model.wrong_batch terms.now.fleet.now terms.now.statuses.now terms.now.cap batch before (host_numbers hosts.now) }
    ensures marked { IfNone result ((before : List ℕ) → AreMarks stood.old before → AreMarks stood.new (behind before (host_numbers hosts.now))) }
{
    if let Some(wrong) = wrong_start(batch, hosts) {
        return Some(wrong);
    }
    if let Some(wrong) = wrong_hosts(terms.statuses, stood, batch, hosts) {
        return Some(wrong);
    }
    if let Some(wrong) = wrong_size(terms.cap, batch, hosts) {
        return Some(wrong);
    }
    wrong_groups(terms, batch, hosts)
}

/// What is wrong with the first of all batches that may not stand where it does, or else who is missing. No host has a mark yet.
fn wrong_from(terms: &Terms<'_>, stood: &mut [bool], batches: &Batches) -> Option<Wrong>
    requires terms { AreTerms terms.now }
    requires len { length stood.old ≡ length terms.now.statuses.now }
    requires sound { IsSound terms.now.fleet.now }
    requires none { AreMarks stood.old [] }
    ensures { result ≡ model.first_plan_error terms.now.fleet.now terms.now.statuses.now terms.now.cap batches.now }
{
    for place in 0..batches.len() {
        if let Some(wrong) = wrong_batch(terms, stood, place + 1, batches.at(place)) {
            return Some(wrong);
        }
    }
    wrong_end(terms.statuses, stood)
}

/// The first thing that is wrong with the batches, by terms whose rooms are those of the groups.
fn wrong_by(terms: &Terms<'_>, batches: &Batches) -> Option<Wrong>
    requires terms { AreTerms terms.now }
    ensures { result ≡ model.first_plan_error terms.now.fleet.now terms.now.statuses.now terms.now.cap batches.now }
{
    let mut stood = [false; HOSTS_BOUND];
    let hosts = terms.fleet.hosts();
    wrong_from(terms, &mut stood[..hosts], batches)
}

/// The first thing that is wrong with batches as a plan of these statuses: batch by batch, and then who is missing. Only want of memory refuses it.
pub fn first_plan_error(
    alloc: Global,
    fleet: &Fleet,
    statuses: &[Status],
    cap: Option<u32>,
    batches: &Batches,
) -> Result<Option<Wrong>, AllocError>
    requires { length statuses.now ≡ length fleet.now.hosts }
    ensures { IfOk result (λ wrong. wrong ≡ model.first_plan_error fleet.now statuses.now cap batches.now) }
{
    let rooms = list_rooms(alloc, fleet, statuses)?;
    let terms = Terms {
        fleet,
        statuses,
        cap,
        rooms: rooms.as_slice(),
    };
    Ok(wrong_by(&terms, batches))
}
