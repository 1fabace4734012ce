//! Where a rehearsal begins.
ghost use Rattle.std.specs.Prelude.{◌≡◌, IfErr, IfOk, length};
ghost use Rattle.play_forecast.specs.PlayPlans.{targets};
ghost use Rattle.rehearse.specs.Plays.{caps_of};
ghost use Rattle.rehearse.specs.Inside.{IsFirstOfTexts, RefusesOpening};

use crate::fault::RehearseFault;
use crate::targets::{count, start_play, targets_of};
use domains::Fleet;
use fleet_states::Status;
use plan_command::{read_fleet, read_known_plays};
use play_model::Play;
use std::alloc::{AllocError, Global};

/// Where a rehearsal begins: a play on a fleet whose hosts have these statuses.
#[derive(Clone, Copy)]
pub struct Opening<'o> {
    pub fleet: &'o Fleet,
    pub play: &'o Play,
    pub statuses: &'o [Status],
}

/// What two texts say: the fleet, the plays, and the statuses with which a run of the first one begins.
#[derive(Drop)]
pub(crate) struct FirstPlay {
    pub(crate) fleet: Fleet,
    pub(crate) plays: Vec<Play>,
    pub(crate) statuses: Vec<Status>,
}

/// The most hosts of each batch of a play for so many hosts, one for each of its sizes.
fn list_caps(alloc: Global, play: &Play, targeted: u32) -> Result<Vec<Option<u32>>, AllocError>
    ensures { IfOk result (λ caps. caps.items ≡ caps_of play.now.sizes.items targeted) }
{
    play.sizes()
        .iter()
        .map(|size| size.bound(targeted))
        .collect(alloc)
}

/// The most hosts of each batch of a play. Only want of memory refuses it, where its pattern was looked up.
pub(crate) fn caps(
    alloc: Global,
    fleet: &Fleet,
    play: &Play,
) -> Result<Vec<Option<u32>>, AllocError>
    ensures { IfOk result (λ caps. caps.items ≡ caps_of play.now.sizes.items (length (targets fleet.now play.now))) }
{
    let hosts = targets_of(alloc, fleet, play)?;
    list_caps(alloc, play, count(fleet, hosts.as_slice()))
}

/// Reads both texts: first the inventory's faults are told, then the playbook's, then the first part of a pattern, of any play, that names
/// nothing.
pub(crate) fn read_first(
    alloc: Global,
    inventory: &[u8],
    playbook: &[u8],
) -> Result<FirstPlay, RehearseFault>
    ensures ok { IfOk result (IsFirstOfTexts inventory.now playbook.now) }
    ensures err { IfErr result (RefusesOpening inventory.now playbook.now) }
{
    let fleet = match read_fleet(alloc, inventory) {
        Ok(fleet) => fleet,
        Err(fault) => return Err(RehearseFault::Refused(fault)),
    };
    let plays = match read_known_plays(alloc, &fleet, playbook) {
        Ok(plays) => plays,
        Err(fault) => return Err(RehearseFault::Refused(fault)),
    };
    match start_play(alloc, &fleet, &plays[0]) {
        Ok(statuses) => Ok(FirstPlay {
            fleet,
            plays,
            statuses,
        }),
        Err(_refused) => Err(RehearseFault::Memory),
    }
}
