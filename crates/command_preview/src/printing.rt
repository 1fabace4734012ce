//! From the bytes of an inventory and a playbook to the words that would run.
ghost use Rattle.std.specs.Prelude.{◌≡◌, ◌≤◌, All, IfErr, IfOk, length, nat_lt};
ghost use Rattle.host_vars.specs.HostVars.{HasNoResult};
ghost use Rattle.command_preview.specs.Inside.{views_of};
ghost use Rattle.command_preview.specs.Lines.{end_of, lines_of_plays, plays_text};
ghost use Rattle.command_preview.specs.Sending.{SendsAll};
ghost use Rattle.command_preview.specs.WordTexts.{IsTrueFault, WritesWords};

use crate::end::WordsEnd;
use crate::holes::Holes;
use crate::hosts::Context;
use crate::plays::send_plays;
use crate::reading::{Inputs, read_inputs};
use domains::PatternFault;
use plan_command::PlanFault;
use std::alloc::Global;
use std::io::Write;

/// Sends the words of all plays, for texts that were accepted.
fn tell<W: Write>(alloc: Global, inputs: &Inputs, out: &mut W) -> Result<WordsEnd, PlanFault>
    requires bare { All HasNoResult inputs.now.vars.items }
    requires all { length inputs.now.vars.items ≡ length inputs.now.fleet.hosts }
    requires few { length inputs.now.plays.items ≤ 16 }
    ensures { let lines = lines_of_plays inputs.now.fleet (views_of inputs.now.vars.items) inputs.now.plays.items in
        SendsAll (W.contents out.old) (W.contents out.new) (plays_text (nat_lt 1 (length inputs.now.plays.items)) lines) (end_of lines) result }
{
    let plays = inputs.plays.as_slice();
    let holes = match Holes::of(alloc, plays) {
        Ok(holes) => holes,
        Err(_refused) => return Err(PlanFault::Pattern(PatternFault::Memory)),
    };
    let scene = Context {
        fleet: &inputs.fleet,
        vars: inputs.vars.as_slice(),
        holes: &holes,
    };
    send_plays(alloc, &scene, plays, out)
}

/// Writes which words the steps of the plays of a playbook would run on the hosts of an inventory, each given as the bytes of its text: what a variable gives is filled in, and what only a run can
/// know is left as a hole. Nothing goes out before both were accepted: first the inventory's faults are told, then the playbook's, then the first part of a pattern, of any play, that names nothing.
/// Where a write fails, exactly the first bytes of the text went out, as many as the fault says; and some first bytes of it where memory is wanting.
pub fn words_text<W: Write>(
    alloc: Global,
    inventory: &[u8],
    playbook: &[u8],
    out: &mut W,
) -> Result<WordsEnd, PlanFault>
    ensures ok { IfOk result (WritesWords inventory.now playbook.now (W.contents out.old) (W.contents out.new)) }
    ensures err { IfErr result (IsTrueFault inventory.now playbook.now (W.contents out.old) (W.contents out.new)) }
{
    let inputs = match read_inputs(alloc, inventory, playbook) {
        Ok(inputs) => inputs,
        Err(fault) => return Err(fault),
    };
    tell(alloc, &inputs, out)
}
