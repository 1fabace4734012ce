//! From the bytes of an inventory and a playbook to the plan.
ghost use Rattle.std.specs.Prelude.{◌≡◌, ◌<◌, IfErr, IfOk, None, length};
ghost use Rattle.domains.specs.Ids.{host_numbers};
ghost use Rattle.plan_command.specs.PlanTexts.{IsPlaybookFault, IsPlaybookPlan};
ghost use Rattle.json_commands.specs.PlanTexts.{IsTruePlanFault, WritesPlanJson};

use domains::Fleet;
use json_output::write_plan_json;
use plan_command::{End, PlanFault, end_of, read_fleet, read_known_plays};
use play_forecast::{PlayPlan, plan_play};
use std::alloc::Global;
use std::io::Write;

/// The plan of the first play of a playbook, for an inventory that was accepted.
fn plan_playbook(alloc: Global, fleet: &Fleet, playbook: &[u8]) -> Result<PlayPlan, PlanFault>
    ensures ok { IfOk result (λ planned. IsPlaybookPlan fleet.now playbook.now planned.answer (host_numbers planned.held.items)) }
    ensures err { IfErr result (IsPlaybookFault fleet.now playbook.now) }
{
    let plays = match read_known_plays(alloc, fleet, playbook) {
        Ok(plays) => plays,
        Err(fault) => return Err(fault),
    };
    match plan_play(alloc, fleet, &plays[0]) {
        Ok(planned) => Ok(planned),
        Err(fault) => Err(PlanFault::Pattern(fault)),
    }
}

/// Writes the plan of the first play of a playbook on the fleet of an inventory, each given as the bytes of its text, as one JSON object.
/// Nothing goes out before both were accepted: first the inventory's faults are told, then the playbook's, then the first
/// part of a pattern, of any play, that names nothing. Where a write fails, exactly the first bytes of the object went out,
/// as many as the fault says. Writing takes no memory.
#[tactic(auto, using(crate::proofs::JsonLemmas::unread_plan, crate::proofs::JsonLemmas::refused_plan))]
pub fn plan_json<W: Write>(
    alloc: Global,
    inventory: &[u8],
    playbook: &[u8],
    out: &mut W,
) -> Result<End, PlanFault>
    ensures ok { IfOk result (WritesPlanJson inventory.now playbook.now (W.contents out.old) (W.contents out.new)) }
    ensures err { IfErr result (IsTruePlanFault inventory.now playbook.now (W.contents out.old) (W.contents out.new)) }
{
    let fleet = match read_fleet(alloc, inventory) {
        Ok(fleet) => fleet,
        Err(fault) => return Err(fault),
    };
    let planned = match plan_playbook(alloc, &fleet, playbook) {
        Ok(planned) => planned,
        Err(fault) => return Err(fault),
    };
    match write_plan_json(&fleet, &planned.answer, planned.held.as_slice(), out) {
        Ok(()) => Ok(end_of(&planned.answer, planned.held.as_slice())),
        Err(fault) => Err(PlanFault::Write(fault)),
    }
}
