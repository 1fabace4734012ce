//! The commands `limits` and `plan` where JSON is asked for.
ghost use Rattle.std.specs.Prelude.{IfErr, IfOk, None, Some, string_bytes};
ghost use Rattle.std.specs.Option.{option_map};
ghost use Rattle.rollout.specs.Jsons.{PlansJson, PrintsCourse, PrintsLimits, PrintsPlan, RefusesCourse, RefusesLimits, RefusesPlan, TabulatesJson};
ghost use Rattle.rollout.specs.Systems.{sources_of};

use crate::commands::plan::report_behind;
use crate::fault::Fault;
use crate::inputs::read_both;
use crate::source::read_source;
use crate::status::Status;
use crate::system::System;
use bounded_io::Input;
use command_line::Source;
use json_commands::{course_json, limits_json, plan_json};
use roll_core::Observer;
use std::alloc::Global;
use std::io::Write;

/// Reads the inventory, and writes its limits as one object.
pub fn limits_in_json<S: System, I: Input, W: Write>(
    system: &S,
    alloc: Global,
    inventory: Source,
    input: &mut I,
    out: &mut W,
) -> Result<Status, Fault>
    ensures { TabulatesJson (sources_of (S.known system.now) (I.is_reliable input.old)) inventory (I.remaining input.old) (I.remaining input.new)
        (W.contents out.old) (W.contents out.new) result }
{
    match read_source(system, alloc, inventory, input) {
        Ok(inventory) => print_limits(alloc, inventory.as_slice(), out),
        Err(fault) => Err(fault),
    }
}

fn print_limits<W: Write>(alloc: Global, inventory: &[u8], out: &mut W) -> Result<Status, Fault>
    ensures ok { IfOk result (PrintsLimits inventory.now (W.contents out.old) (W.contents out.new)) }
    ensures err { IfErr result (RefusesLimits inventory.now (W.contents out.old) (W.contents out.new)) }
{
    match limits_json(alloc, inventory, out) {
        Ok(()) => Ok(Status::Done),
        Err(fault) => Err(Fault::from(fault)),
    }
}

/// Reads the inventory and the playbook, and writes as one object the plan of the playbook's first play, or where hosts to fail are given, be it nobody, the course of its plays. `watch`
/// is told of the hosts that they leave out.
#[allow(clippy::too_many_arguments)]
pub fn plan_in_json<S: System, T: Observer, I: Input, W: Write>(
    system: &S,
    alloc: Global,
    watch: &mut T,
    inventory: Source,
    playbook: Source,
    failing: &Option<String>,
    input: &mut I,
    out: &mut W,
) -> Result<Status, Fault>
    ensures { PlansJson (option_map string_bytes failing.now) (sources_of (S.known system.now) (I.is_reliable input.old)) inventory playbook
        (I.remaining input.old) (I.remaining input.new) (W.contents out.old) (W.contents out.new) result }
{
    match failing {
        Some(failing) => course_of_plays(
            system,
            alloc,
            watch,
            inventory,
            playbook,
            failing.as_str(),
            input,
            out,
        ),
        None => plan_of_play(system, alloc, watch, inventory, playbook, input, out),
    }
}

fn plan_of_play<S: System, T: Observer, I: Input, W: Write>(
    system: &S,
    alloc: Global,
    watch: &mut T,
    inventory: Source,
    playbook: Source,
    input: &mut I,
    out: &mut W,
) -> Result<Status, Fault>
    ensures { PlansJson None (sources_of (S.known system.now) (I.is_reliable input.old)) inventory playbook
        (I.remaining input.old) (I.remaining input.new) (W.contents out.old) (W.contents out.new) result }
{
    match read_both(system, alloc, inventory, playbook, input) {
        Ok((inventory, playbook)) => {
            let inventory = inventory.as_slice();
            let playbook = playbook.as_slice();
            let printed = print_plan(alloc, inventory, playbook, out);
            if printed.is_ok() {
                report_behind(alloc, watch, 1, inventory, playbook);
            }
            printed
        }
        Err(fault) => Err(fault),
    }
}

#[allow(clippy::too_many_arguments)]
fn course_of_plays<S: System, T: Observer, I: Input, W: Write>(
    system: &S,
    alloc: Global,
    watch: &mut T,
    inventory: Source,
    playbook: Source,
    failing: &str,
    input: &mut I,
    out: &mut W,
) -> Result<Status, Fault>
    ensures { PlansJson (Some failing.now) (sources_of (S.known system.now) (I.is_reliable input.old)) inventory playbook
        (I.remaining input.old) (I.remaining input.new) (W.contents out.old) (W.contents out.new) result }
{
    match read_both(system, alloc, inventory, playbook, input) {
        Ok((inventory, playbook)) => {
            let inventory = inventory.as_slice();
            let playbook = playbook.as_slice();
            let printed = print_course(alloc, inventory, playbook, failing, out);
            if printed.is_ok() {
                report_behind(alloc, watch, usize::MAX, inventory, playbook);
            }
            printed
        }
        Err(fault) => Err(fault),
    }
}

/// Writes the plan of the two texts. The status tells whether it leaves hosts out.
fn print_plan<W: Write>(
    alloc: Global,
    inventory: &[u8],
    playbook: &[u8],
    out: &mut W,
) -> Result<Status, Fault>
    ensures ok { IfOk result (PrintsPlan inventory.now playbook.now (W.contents out.old) (W.contents out.new)) }
    ensures err { IfErr result (RefusesPlan inventory.now playbook.now (W.contents out.old) (W.contents out.new)) }
{
    match plan_json(alloc, inventory, playbook, out) {
        Ok(end) => Ok(Status::from(end)),
        Err(fault) => Err(Fault::from(fault)),
    }
}

/// Writes the course of the two texts. The status is the one that such a run ends with.
fn print_course<W: Write>(
    alloc: Global,
    inventory: &[u8],
    playbook: &[u8],
    failing: &str,
    out: &mut W,
) -> Result<Status, Fault>
    ensures ok { IfOk result (PrintsCourse inventory.now playbook.now failing.now (W.contents out.old) (W.contents out.new)) }
    ensures err { IfErr result (RefusesCourse inventory.now playbook.now failing.now (W.contents out.old) (W.contents out.new)) }
{
    match course_json(alloc, inventory, playbook, failing, out) {
        Ok(end) => Ok(Status::from(end)),
        Err(fault) => Err(Fault::from(fault)),
    }
}
