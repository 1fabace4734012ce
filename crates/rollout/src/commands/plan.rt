//! The command `plan`: from the files of an inventory and a playbook to the plan's text.
ghost use Rattle.std.specs.Prelude.{IfOk, IfErr};
ghost use Rattle.rollout.specs.Plans.{Plans, PrintsPlan, RefusesTexts};
ghost use Rattle.rollout.specs.Systems.{sources_of};

use crate::commands::drawing::Drawing;
use crate::fault::Fault;
use crate::inputs::read_both;
use crate::status::Status;
use crate::system::System;
use batch_plan::start;
use bounded_io::Input;
use command_line::Source;
use plan_command::{plan_text, read_fleet, read_known_plays};
use roll_core::Observer;
use run_diagnosis::left_out_lines;
use std::alloc::Global;
use std::io::Write;

/// Reads the inventory and the playbook, and writes the plan of the playbook's first play. `watch` is told of the hosts that it leaves out.
#[allow(clippy::too_many_arguments)]
pub fn plan<S: System, T: Observer, I: Input, W: Write>(
    system: &S,
    alloc: Global,
    watch: &mut T,
    drawing: &mut Drawing<'_, '_, S>,
    inventory: Source,
    playbook: Source,
    input: &mut I,
    out: &mut W,
) -> Result<Status, Fault>
    ensures { Plans (sources_of (S.known system.now) (I.is_reliable input.old)) inventory playbook (I.remaining input.old) (I.remaining input.new)
        (W.contents out.old) (W.contents out.new) result }
{
    match read_both(system, alloc, inventory, playbook, input) {
        Ok((inventory, playbook)) => {
            let printed = print_plan(alloc, inventory.as_slice(), playbook.as_slice(), out);
            if printed.is_ok() {
                report_behind(alloc, watch, 1, inventory.as_slice(), playbook.as_slice());
                drawing.draw(alloc, inventory.as_slice(), playbook.as_slice());
            }
            printed
        }
        Err(fault) => Err(fault),
    }
}

/// Writes the plan of the two texts. The status tells whether it leaves hosts out.
fn print_plan<W: Write>(
    alloc: Global,
    inventory: &[u8],
    playbook: &[u8],
    out: &mut W,
) -> Result<Status, Fault>
    ensures ok { IfOk result (PrintsPlan inventory.now playbook.now (W.contents out.old) (W.contents out.new)) }
    ensures err { IfErr result (RefusesTexts inventory.now playbook.now (W.contents out.old) (W.contents out.new)) }
{
    match plan_text(alloc, inventory, playbook, out) {
        Ok(end) => Ok(Status::from(end)),
        Err(fault) => Err(Fault::from(fault)),
    }
}

/// Behind what was printed, and where somebody is told, tells of the hosts that the first of the plays leave out, so many of them.
pub(crate) fn report_behind<T: Observer>(
    alloc: Global,
    watch: &mut T,
    plays: usize,
    inventory: &[u8],
    playbook: &[u8],
) {
    if watch.is_told() {
        report_left_out(alloc, watch, plays, inventory, playbook);
    }
}

/// Tells of the hosts that the first of the plays name and that stay down. The texts are read once more for it.
fn report_left_out<T: Observer>(
    alloc: Global,
    watch: &mut T,
    count: usize,
    inventory: &[u8],
    playbook: &[u8],
) {
    let Ok(fleet) = read_fleet(alloc, inventory) else {
        return;
    };
    let Ok(plays) = read_known_plays(alloc, &fleet, playbook) else {
        return;
    };
    let Ok(statuses) = start(alloc, &fleet, &[]) else {
        return;
    };
    let first = &plays.as_slice()[..plays.len().min(count)];
    if let Ok(lines) = left_out_lines(alloc, &fleet, statuses.as_slice(), first) {
        watch.note(lines.as_slice());
    }
}
