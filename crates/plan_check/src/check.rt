//! From the bytes of an inventory, a playbook and a plan to what is told of the plan.
ghost use Rattle.std.specs.Prelude.{◌≤◌, IfErr, IfOk, length};
ghost use Rattle.plan_check.specs.CheckTexts.{IsTrueFault, WritesCheck};

use crate::end::CheckEnd;
use crate::fault::CheckFault;
use crate::judge::judge;
use crate::listing::find_bad_line;
use crate::verdict::send_verdict;
use bounded_io::MAX_INPUT;
use domains::PatternFault;
use plan_command::{PlanFault, read_fleet, read_known_plays};
use std::alloc::Global;
use std::io::Write;

/// Tells whether the batches that a text says are a plan with which the first play of a playbook begins on the fleet of an inventory, and how many batches the least plan has, or the first
/// thing that is wrong with them; all three are given as the bytes of their texts. Nothing goes out before all were accepted: first the inventory's faults are told, then the playbook's,
/// then the first part of a pattern, of any play, that names nothing, then the first line of the plan's text that is none of a plan. Where a write fails, exactly the first bytes of the
/// text went out, as many as the fault says. Writing takes no memory.
pub fn check_text<W: Write>(
    alloc: Global,
    inventory: &[u8],
    playbook: &[u8],
    plan: &[u8],
    out: &mut W,
) -> Result<CheckEnd, CheckFault>
    requires input { length plan.now ≤ MAX_INPUT }
    ensures ok { IfOk result (WritesCheck inventory.now playbook.now plan.now (W.contents out.old) (W.contents out.new)) }
    ensures err { IfErr result (IsTrueFault inventory.now playbook.now plan.now (W.contents out.old) (W.contents out.new)) }
{
    let fleet = match read_fleet(alloc, inventory) {
        Ok(fleet) => fleet,
        Err(fault) => return Err(CheckFault::Plan(fault)),
    };
    let plays = match read_known_plays(alloc, &fleet, playbook) {
        Ok(plays) => plays,
        Err(fault) => return Err(CheckFault::Plan(fault)),
    };
    if let Some(line) = find_bad_line(plan) {
        return Err(CheckFault::BadPlan { line });
    }
    let verdict = match judge(alloc, &fleet, &plays[0], plan) {
        Ok(verdict) => verdict,
        Err(_refused) => return Err(CheckFault::Plan(PlanFault::Pattern(PatternFault::Memory))),
    };
    match send_verdict(&fleet, verdict, out) {
        Ok(()) => Ok(verdict.end()),
        Err(fault) => Err(CheckFault::Plan(PlanFault::Write(fault))),
    }
}
