//! The command `plan`, asked for the course: from the files of an inventory and a playbook to what a run would open to its end.
ghost use Rattle.std.specs.Prelude.{IfOk, IfErr};
ghost use Rattle.rollout.specs.Courses.{Foresees, PrintsCourse, RefusesNamed};
ghost use Rattle.rollout.specs.Systems.{sources_of};

use crate::commands::drawing::Drawing;
use crate::commands::plan::report_behind;
use crate::fault::Fault;
use crate::inputs::read_both;
use crate::status::Status;
use crate::system::System;
use bounded_io::Input;
use command_line::Source;
use rehearse::course_text;
use roll_core::Observer;
use std::alloc::Global;
use std::io::Write;

/// Reads the inventory and the playbook, and writes the course of the playbook's plays in which just the named hosts fail. `watch` is told of the hosts that the plays
/// leave out.
#[allow(clippy::too_many_arguments)]
pub fn course<S: System, T: Observer, I: Input, W: Write>(
    system: &S,
    alloc: Global,
    watch: &mut T,
    drawing: &mut Drawing<'_, '_, S>,
    inventory: Source,
    playbook: Source,
    failing: &str,
    input: &mut I,
    out: &mut W,
) -> Result<Status, Fault>
    ensures { Foresees (sources_of (S.known system.now) (I.is_reliable input.old)) inventory playbook failing.now (I.remaining input.old) (I.remaining input.new)
        (W.contents out.old) (W.contents out.new) result }
{
    match read_both(system, alloc, inventory, playbook, input) {
        Ok((inventory, playbook)) => {
            let inventory = inventory.as_slice();
            let playbook = playbook.as_slice();
            let printed = print_course(alloc, inventory, playbook, failing, out);
            if printed.is_ok() {
                report_behind(alloc, watch, usize::MAX, inventory, playbook);
                drawing.draw(alloc, inventory, playbook);
            }
            printed
        }
        Err(fault) => Err(fault),
    }
}

/// Writes the course of the two texts. The status is the one that such a run ends with.
fn print_course<W: Write>(
    alloc: Global,
    inventory: &[u8],
    playbook: &[u8],
    failing: &str,
    out: &mut W,
) -> Result<Status, Fault>
    ensures ok { IfOk result (PrintsCourse inventory.now playbook.now failing.now (W.contents out.old) (W.contents out.new)) }
    ensures err { IfErr result (RefusesNamed inventory.now playbook.now failing.now (W.contents out.old) (W.contents out.new)) }
{
    match course_text(alloc, inventory, playbook, failing, out) {
        Ok(end) => Ok(Status::from(end)),
        Err(fault) => Err(Fault::from(fault)),
    }
}
