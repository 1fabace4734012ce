//! What the texts of an inventory and a playbook say to a run.
ghost use Rattle.std.specs.Prelude.{◌≡◌, IfErr, IfOk};
ghost use Rattle.fleet_states.specs.Starts.{start_statuses};
ghost use Rattle.batch_plan.specs.Beginnings.{IsReady};
ghost use Rattle.play_forecast.specs.PlayPlans.{targets};
ghost use Rattle.roll_run.specs.Plays.{MayStart};
ghost use Rattle.run_command.specs.Inputs.{AreInputs, RefusesTexts};

use crate::fault::RunTextFault;
use crate::hosts::{Hosts, read_hosts};
use batch_plan::start;
use domains::Fleet;
use fleet_states::Status;
use plan_command::read_known_plays;
use play_model::Play;
use roll_run::Start;
use std::alloc::{AllocError, Global};

/// What the texts of an inventory and a playbook say: the fleet, the plays, and what the first play begins with.
#[derive(Drop)]
pub struct Inputs {
    pub fleet: Fleet,
    pub plays: Vec<Play>,
    pub start: Start,
}

/// The statuses with which a first play begins. Only want of memory refuses it, where its pattern was looked up.
fn start_first(alloc: Global, fleet: &Fleet, play: &Play) -> Result<Vec<Status>, AllocError>
    ensures statuses { IfOk result (λ statuses. statuses.items ≡ start_statuses fleet.now (targets fleet.now play.now)) }
    ensures ready { IfOk result (λ statuses. IsReady fleet.now statuses.items) }
{
    match fleet.target(alloc, play.pattern()) {
        Ok(hosts) => start(alloc, fleet, hosts.as_slice()),
        Err(_refused) => Err(AllocError),
    }
}

/// Reads both texts: first the inventory's faults are told, then the playbook's, then the first part of a pattern, of any play, that names
/// nothing. Nothing else refuses them but want of memory.
pub fn read_inputs(alloc: Global, inventory: &[u8], playbook: &[u8]) -> Result<Inputs, RunTextFault>
    ensures ok { IfOk result (λ inputs. AreInputs inventory.now playbook.now inputs.fleet inputs.start.vars.items inputs.plays.items inputs.start.statuses.items) }
    ensures starts { IfOk result (λ inputs. MayStart inputs.fleet inputs.start) }
    ensures err { IfErr result (RefusesTexts inventory.now playbook.now) }
{
    let Hosts { fleet, vars } = match read_hosts(alloc, inventory) {
        Ok(hosts) => hosts,
        Err(fault) => return Err(fault),
    };
    let plays = match read_known_plays(alloc, &fleet, playbook) {
        Ok(plays) => plays,
        Err(fault) => return Err(RunTextFault::Refused(fault)),
    };
    let statuses = start_first(alloc, &fleet, &plays[0])?;
    Ok(Inputs {
        fleet,
        plays,
        start: Start { statuses, vars },
    })
}
