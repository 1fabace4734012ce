//! The plan with which a run would go on.
ghost use Rattle.std.specs.Prelude.{◌≡◌, ◌≤◌, IfErr, IfOk, length};
ghost use Rattle.domains.specs.Ids.{host_numbers};
ghost use Rattle.journal.specs.Lines.{max_body};
ghost use Rattle.resume_preview.specs.Asked.{question_of};
ghost use Rattle.resume_preview.specs.Plans.{IsTrueOfPlan, WritesPlan};

use crate::asked::Asked;
use crate::fault::OutlookFault;
use plan_command::{End, end_of};
use recap::write_plan;
use rehearse::first_boundary;
use resume_state::{ResumeFault, Resumption, resume_inputs};
use run_command::Beginning;
use std::alloc::Global;
use std::io::Write;

/// Writes the plan of the play with which a run would go on, from how its hosts stand then: the play in which it broke off, or the next one. The sizes of batches begin
/// anew, as they do in a run that goes on. Nothing goes out before all was accepted: a run that can't go on is refused as it is when it is to go on. Where a
/// write fails, exactly the first bytes of the text went out, as many as the fault says. Writing takes no memory.
pub fn plan_from<W: Write>(
    alloc: Global,
    asked: &Asked<'_>,
    out: &mut W,
) -> Result<End, OutlookFault>
    requires { length asked.now.wish.journal.now ≤ max_body }
    ensures ok { IfOk result (WritesPlan (question_of asked.now) (W.contents out.old) (W.contents out.new)) }
    ensures err { IfErr result (IsTrueOfPlan (question_of asked.now) (W.contents out.old) (W.contents out.new)) }
{
    let resumption = match resume_inputs(alloc, asked.inventory, asked.playbook, asked.wish) {
        Ok(resumption) => resumption,
        Err(fault) => return Err(OutlookFault::Resume(fault)),
    };
    let Resumption {
        fleet,
        plays,
        beginning,
        mended: _,
        goes_on: _,
    } = resumption;
    let Beginning {
        plays_before,
        start,
    } = beginning;
    let play = &plays[plays_before];
    let boundary = match first_boundary(alloc, &fleet, play, start.statuses) {
        Ok(boundary) => boundary,
        Err(_refused) => return Err(OutlookFault::Resume(ResumeFault::Memory)),
    };
    match write_plan(&fleet, &boundary.answer, boundary.held.as_slice(), out) {
        Ok(()) => Ok(end_of(&boundary.answer, boundary.held.as_slice())),
        Err(fault) => Err(OutlookFault::Write(fault)),
    }
}
