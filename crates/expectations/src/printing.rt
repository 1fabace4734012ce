//! From bytes to the table of limits or to a plan, and to the first number that isn't as expected.
ghost use Rattle.std.specs.Prelude.{◌≡◌, IfErr, IfOk, OnOk, None};
ghost use Rattle.std.specs.Option.{option_map};
ghost use Rattle.expectations.specs.Expecting.{IsTold, MeetsPlan, MeetsTable, RefusesPlan, RefusesTable};
ghost use Rattle.expectations.specs.Shown.{all_shown, unexpected_shown};

use crate::expectation::Expectation;
use crate::judging::{unmet_in_plan, unmet_in_table};
use crate::unexpected::{ExpectFault, Unexpected, owned};
use plan_command::{End, end_of, read_fleet, read_known_plays};
use play_forecast::plan_play;
use recap::{write_limits, write_plan};
use std::alloc::Global;
use std::io::Write;

/// Writes the table of the limits of an inventory, and tells the first expectation that it doesn't meet. Nothing goes out before the inventory was accepted; where a write fails,
/// exactly the first bytes of the table went out, as many as the fault says.
pub fn expected_limits<W: Write>(
    alloc: Global,
    inventory: &[u8],
    expectations: &[Expectation<'_>],
    out: &mut W,
) -> Result<(), ExpectFault>
    ensures ok { OnOk result (MeetsTable inventory.now (all_shown expectations.now) (W.contents out.old) (W.contents out.new)) }
    ensures err { IfErr result (RefusesTable inventory.now (all_shown expectations.now) (W.contents out.old) (W.contents out.new)) }
{
    let fleet = match read_fleet(alloc, inventory) {
        Ok(fleet) => fleet,
        Err(fault) => return Err(ExpectFault::Plan(fault)),
    };
    let Ok(unmet) = owned(alloc, unmet_in_table(&fleet, expectations)) else {
        return Err(ExpectFault::Memory);
    };
    match write_limits(&fleet, out) {
        Ok(()) => judged(unmet),
        Err(fault) => Err(ExpectFault::Plan(plan_command::PlanFault::Write(fault))),
    }
}

/// Writes the plan of the first play of a playbook, as `plan_text` does, and tells the first expectation that it doesn't meet. Nothing goes out before both texts were accepted; where a
/// write fails, exactly the first bytes of the plan went out, as many as the fault says.
pub fn expected_plan<W: Write>(
    alloc: Global,
    inventory: &[u8],
    playbook: &[u8],
    expectations: &[Expectation<'_>],
    out: &mut W,
) -> Result<End, ExpectFault>
    ensures ok { IfOk result (MeetsPlan inventory.now playbook.now (all_shown expectations.now) (W.contents out.old) (W.contents out.new)) }
    ensures err { IfErr result (RefusesPlan inventory.now playbook.now (all_shown expectations.now) (W.contents out.old) (W.contents out.new)) }
{
    let fleet = match read_fleet(alloc, inventory) {
        Ok(fleet) => fleet,
        Err(fault) => return Err(ExpectFault::Plan(fault)),
    };
    let plays = match read_known_plays(alloc, &fleet, playbook) {
        Ok(plays) => plays,
        Err(fault) => return Err(ExpectFault::Plan(fault)),
    };
    // The patterns of all plays were looked up: only memory may be wanting.
    let Ok(planned) = plan_play(alloc, &fleet, &plays[0]) else {
        return Err(ExpectFault::Memory);
    };
    let Ok(unmet) = owned(alloc, unmet_in_plan(&planned.answer, expectations)) else {
        return Err(ExpectFault::Memory);
    };
    match write_plan(&fleet, &planned.answer, planned.held.as_slice(), out) {
        Ok(()) => match judged(unmet) {
            Ok(()) => Ok(end_of(&planned.answer, planned.held.as_slice())),
            Err(fault) => Err(fault),
        },
        Err(fault) => Err(ExpectFault::Plan(plan_command::PlanFault::Write(fault))),
    }
}

/// What the number that isn't as expected, if there is one, comes to.
fn judged(unexpected: Option<Unexpected>) -> Result<(), ExpectFault>
    ensures ok { OnOk result (option_map unexpected_shown unexpected ≡ None) }
    ensures err { IfErr result (IsTold (option_map unexpected_shown unexpected)) }
{
    match unexpected {
        Some(unexpected) => Err(ExpectFault::Unexpected(unexpected)),
        None => Ok(()),
    }
}
