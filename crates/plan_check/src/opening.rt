//! How a play begins.
ghost use Rattle.std.specs.Prelude.{◌≡◌, ◌≤◌, IfOk, length};
ghost use Rattle.plan_check.specs.Openings.{IsOpeningOf};

use batch_plan::{Answer, set_aside, start};
use domains::Fleet;
use fleet_states::Status;
use group_tree::HostId;
use play_forecast::plan_play;
use play_model::Play;
use std::alloc::{AllocError, Global};

/// The statuses before the play's first batch, once hosts were set aside; how many hosts that may have; the planner's answer.
#[derive(Drop)]
pub(crate) struct Opening {
    pub(crate) statuses: Vec<Status>,
    pub(crate) cap: Option<u32>,
    pub(crate) answer: Answer,
}

/// How many hosts these are. A fleet has so few that the number fits.
fn count(fleet: &Fleet, hosts: &[HostId]) -> u32
    requires { length hosts.now ≤ length fleet.now.hosts }
    ensures { result ≡ length hosts.now }
{
    hosts.len().min(fleet.hosts()) as u32
}

/// How the play begins. Only want of memory refuses it, where its pattern was looked up.
pub(crate) fn open_play(alloc: Global, fleet: &Fleet, play: &Play) -> Result<Opening, AllocError>
    ensures { IfOk result (IsOpeningOf fleet.now play.now) }
{
    let Ok(planned) = plan_play(alloc, fleet, play) else {
        return Err(AllocError);
    };
    let Ok(target) = fleet.target(alloc, play.pattern()) else {
        return Err(AllocError);
    };
    let cap = play.cap(count(fleet, target.as_slice()), 0);
    let mut statuses = start(alloc, fleet, target.as_slice())?;
    set_aside(statuses.as_mut_slice(), planned.held.as_slice());
    Ok(Opening {
        statuses,
        cap,
        answer: planned.answer,
    })
}
