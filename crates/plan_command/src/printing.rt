//! From the bytes of an inventory and a playbook to the text of the plan.
ghost use Rattle.std.specs.Prelude.{◌≡◌, ◌<◌, IfOk, IfErr, None, length};
ghost use Rattle.std.specs.List.{find};
ghost use Rattle.domains.specs.Ids.{host_numbers};
ghost use Rattle.domains.specs.Patterns.{IsPatternFault, names_nothing};
ghost use Rattle.play_forecast.specs.PlayPlans.{named_parts};
ghost use Rattle.plan_command.specs.PlanTexts.{IsFirstPlan, IsPlaybookFault, IsPlaybookPlan, IsTrueFault, WritesPlan};

use crate::end::{End, end_of};
use crate::fault::PlanFault;
use crate::fleet::read_fleet;
use crate::plays::read_known_plays;
use domains::{Fleet, PatternFault};
use play_forecast::{PlayPlan, plan_play};
use play_model::Play;
use recap::write_plan;
use std::alloc::Global;
use std::io::Write;

/// The plan of the first of these plays, whose patterns were looked up.
fn plan_first(alloc: Global, fleet: &Fleet, plays: &[Play]) -> Result<PlayPlan, PatternFault>
    requires some { 0 < length plays.now }
    requires known { find (names_nothing fleet.now) (named_parts plays.now) ≡ None }
    ensures ok { IfOk result (λ planned. IsFirstPlan fleet.now plays.now planned.answer (host_numbers planned.held.items)) }
    ensures err { IfErr result (IsPatternFault fleet.now (named_parts plays.now)) }
{
    match plan_play(alloc, fleet, &plays[0]) {
        Ok(planned) => Ok(planned),
        Err(fault) => Err(fault),
    }
}

/// The plan of the first play of a playbook, for an inventory that was accepted.
fn plan_playbook(alloc: Global, fleet: &Fleet, playbook: &[u8]) -> Result<PlayPlan, PlanFault>
    ensures ok { IfOk result (λ planned. IsPlaybookPlan fleet.now playbook.now planned.answer (host_numbers planned.held.items)) }
    ensures err { IfErr result (IsPlaybookFault fleet.now playbook.now) }
{
    let plays = match read_known_plays(alloc, fleet, playbook) {
        Ok(plays) => plays,
        Err(fault) => return Err(fault),
    };
    match plan_first(alloc, fleet, plays.as_slice()) {
        Ok(planned) => Ok(planned),
        Err(fault) => Err(PlanFault::Pattern(fault)),
    }
}

/// Writes the plan of the first play of a playbook on the fleet of an inventory, each given as the bytes of its text.
/// Nothing goes out before both were accepted: first the inventory's faults are told, then the playbook's, then the first
/// part of a pattern, of any play, that names nothing. Where a write fails, exactly the first bytes of the text went out,
/// as many as the fault says. Writing takes no memory.
#[tactic(auto, using(crate::proofs::TextLemmas::unread_is_true, crate::proofs::TextLemmas::refused_is_true, crate::proofs::TextLemmas::breaks_plan))]
pub fn plan_text<W: Write>(
    alloc: Global,
    inventory: &[u8],
    playbook: &[u8],
    out: &mut W,
) -> Result<End, PlanFault>
    ensures ok { IfOk result (WritesPlan inventory.now playbook.now (W.contents out.old) (W.contents out.new)) }
    ensures err { IfErr result (IsTrueFault inventory.now playbook.now (W.contents out.old) (W.contents out.new)) }
{
    let fleet = match read_fleet(alloc, inventory) {
        Ok(fleet) => fleet,
        Err(fault) => return Err(fault),
    };
    let planned = match plan_playbook(alloc, &fleet, playbook) {
        Ok(planned) => planned,
        Err(fault) => return Err(fault),
    };
    match write_plan(&fleet, &planned.answer, planned.held.as_slice(), out) {
        Ok(()) => Ok(end_of(&planned.answer, planned.held.as_slice())),
        Err(fault) => Err(PlanFault::Write(fault)),
    }
}
