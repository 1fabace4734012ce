//! A run reaches a boundary.
ghost use Rattle.std.specs.Prelude.{◌≡◌, ◌<◌, ℕ, Option, List, [], IfErr, IfOk, OnErr, OnOk, length, min};
ghost use Rattle.domains.specs.Ids.{host_numbers};
ghost use Rattle.fleet_states.specs.Statuses.{status_at};
ghost use Rattle.batch_plan.specs.Counts.{moved};
ghost use Rattle.batch_plan.specs.Places.{AreCountsOf, told_places};
ghost use Rattle.batch_plan.specs.Places as places;
ghost use Rattle.play_forecast.specs.declared.end.End.{End};
ghost use Rattle.play_forecast.specs.PlayPlans.{aside_by, targets};
ghost use Rattle.roll_core.specs.Views.{state_of};
ghost use Rattle.roll_run.specs.Inside.{HasSetAside, HasSetOut, IsBetween, IsNoted, KeepsUp};

use crate::recorder::Recorder;
use batch_plan::{Domains, place_of};
use fleet_states::{Status, status_of};
use group_tree::HostId;
use play_forecast::{Boundary, list_aside_over};
use roll_core::{Board, Observer, Runner};
use std::alloc::{AllocError, Allocator, Global};
use std::sync::ledger::Ledger;

/// Counts a host by its status; a number that no host has is skipped.
#[tactic(auto, using(crate::proofs::Counting::moved_past))]
fn record_one<A: Allocator>(domains: &mut Domains<'_, A>, statuses: &[Status], host: HostId)
    requires placed { length domains.old.places ≡ length domains.old.fleet.hosts }
    ensures { domains.new ≡ moved domains.old host.index (places.place_of (status_at statuses.now host.index)) }
{
    if host.index >= domains.fleet().hosts() {
        return;
    }
    domains.set(host, place_of(status_of(statuses, host)));
}

/// Counts these hosts in order by their statuses.
pub(crate) fn tell<A: Allocator>(
    domains: &mut Domains<'_, A>,
    statuses: &[Status],
    hosts: &[HostId],
)
    requires placed { length domains.old.places ≡ length domains.old.fleet.hosts }
    ensures { domains.new ≡ told_places (host_numbers hosts.now) statuses.now domains.old }
{
    for place in 0..hosts.len() {
        record_one(domains, statuses, hosts[place]);
    }
}

/// Holds these hosts, counts them as held, and records that. If an allocation fails, changes nothing.
fn hold<A: Allocator, R: Runner, L: Ledger, W: Observer, K: Recorder>(
    alloc: Global,
    keeper: &mut K,
    board: &mut Board<'_, R, L, W>,
    domains: &mut Domains<'_, A>,
    held: &[HostId],
) -> Result<(), AllocError>
    requires some { 0 < length held.now }
    requires counts { AreCountsOf (state_of board.old.kernel).statuses domains.old }
    ensures ok { OnOk result (HasSetAside (host_numbers held.now) board.old board.new) }
    ensures counts { AreCountsOf (state_of board.new.kernel).statuses domains.new }
    ensures fleet { domains.new.fleet ≡ domains.old.fleet }
    ensures unchanged { OnErr result (board.new ≡ board.old) }
    ensures kept { KeepsUp K.keeps board.old.kernel board.new.kernel keeper.old keeper.new }
{
    match board.hold(alloc, held) {
        Ok(()) => {
            tell(domains, board.statuses(), held);
            keeper.sets_aside(board.fleet(), held);
            Ok(())
        }
        Err(_refused) => Err(AllocError),
    }
}

/// Likewise, but only if there are hosts to hold.
fn set_aside<A: Allocator, R: Runner, L: Ledger, W: Observer, K: Recorder>(
    alloc: Global,
    keeper: &mut K,
    board: &mut Board<'_, R, L, W>,
    domains: &mut Domains<'_, A>,
    held: &[HostId],
) -> Result<(), AllocError>
    requires counts { AreCountsOf (state_of board.old.kernel).statuses domains.old }
    ensures ok { OnOk result (HasSetAside (host_numbers held.now) board.old board.new) }
    ensures counts { AreCountsOf (state_of board.new.kernel).statuses domains.new }
    ensures fleet { domains.new.fleet ≡ domains.old.fleet }
    ensures unchanged { OnErr result (board.new ≡ board.old) }
    ensures kept { KeepsUp K.keeps board.old.kernel board.new.kernel keeper.old keeper.new }
{
    match held {
        [] => Ok(()),
        [_, ..] => hold(alloc, keeper, board, domains, held),
    }
}

/// Returns how many batches were opened, one per boundary. A play has few enough hosts for the number to fit; a saturated number is past
/// all sizes, so the last one applies.
fn count(boundaries: &[Boundary]) -> u32
    ensures { result ≡ min (length boundaries.now) 4294967295 }
{
    boundaries.len().min(u32::MAX as usize) as u32
}

/// Moves to the next boundary. Holds hosts if the play holds them instead of stopping, records them, and plans again for the rest over the
/// current counts. If an allocation fails, adds no boundary.
pub(crate) fn come_to_boundary<A: Allocator, R: Runner, L: Ledger, W: Observer, K: Recorder>(
    alloc: Global,
    keeper: &mut K,
    board: &mut Board<'_, R, L, W>,
    domains: &mut Domains<'_, A>,
    boundaries: &mut Vec<Boundary>,
    targeted: u32,
) -> Result<(), AllocError>
    requires counts { AreCountsOf (state_of board.old.kernel).statuses domains.old }
    requires fleet { domains.old.fleet ≡ board.old.kernel.fleet }
    requires targeted { targeted ≡ length (targets board.old.kernel.fleet board.old.kernel.play) }
    ensures grown { HasSetOut board.old board.new }
    ensures ok { OnOk result ((before : Option End) → IsBetween board.old.kernel boundaries.old.items before → IsNoted board.new.kernel boundaries.new.items before) }
    ensures counts { AreCountsOf (state_of board.new.kernel).statuses domains.new }
    ensures fleet { domains.new.fleet ≡ domains.old.fleet }
    ensures err { OnErr result (boundaries.new.items ≡ boundaries.old.items) }
    ensures kept { KeepsUp K.keeps board.old.kernel board.new.kernel keeper.old keeper.new }
{
    let play = board.play();
    let held = list_aside_over(alloc, domains, board.statuses(), play.on_blocked())?;
    set_aside(alloc, keeper, board, domains, held.as_slice())?;
    let cap = play.cap(targeted, count(boundaries.as_slice()));
    let boundary = Boundary::planned(alloc, domains, held, board.statuses(), cap)?;
    boundaries.push(boundary)?;
    Ok(())
}
