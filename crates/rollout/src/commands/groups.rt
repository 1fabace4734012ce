//! The command `plan`, asked for the groups too: from the files of an inventory and a playbook to the plan or the course, with how full each group is while each batch runs.
ghost use Rattle.std.specs.Prelude.{IfOk, IfErr, string_bytes};
ghost use Rattle.std.specs.Option.{option_map};
ghost use Rattle.rollout.specs.Groups.{IsPaintOf, PrintsGroups, RefusesGroups, SurveysIn};
ghost use Rattle.rollout.specs.Systems.{sources_of};

use crate::commands::drawing::Drawing;
use crate::commands::plan::report_behind;
use crate::fault::Fault;
use crate::inputs::read_both;
use crate::status::Status;
use crate::system::System;
use bounded_io::Input;
use command_line::{Options, Source};
use occupancy_table::ColorMode;
use plan_occupancy::{surveyed_course, surveyed_plan};
use roll_core::Observer;
use std::alloc::Global;
use std::io::Write;

/// Reads the inventory and the playbook, and writes the plan of the first play, or the course of all where the names of the hosts that fail in it are given, each play with its
/// groups, those that are full in colours where it is asked for. `watch` is told of the hosts that are left out.
#[allow(clippy::too_many_arguments)]
pub fn groups<S: System, T: Observer, I: Input, W: Write>(
    system: &S,
    alloc: Global,
    watch: &mut T,
    drawing: &mut Drawing<'_, '_, S>,
    inventory: Source,
    playbook: Source,
    wishes: &Options,
    input: &mut I,
    out: &mut W,
) -> Result<Status, Fault>
    ensures { SurveysIn (option_map string_bytes wishes.now.color) (option_map string_bytes wishes.now.forecast) (sources_of (S.known system.now) (I.is_reliable input.old)) inventory playbook
        (I.remaining input.old) (I.remaining input.new) (W.contents out.old) (W.contents out.new) result }
{
    let paint = paint_of(system, &wishes.color);
    let failing = &wishes.forecast;
    match read_both(system, alloc, inventory, playbook, input) {
        Ok((inventory, playbook)) => {
            let inventory = inventory.as_slice();
            let playbook = playbook.as_slice();
            let printed = print_groups(alloc, inventory, playbook, failing, paint, out);
            if printed.is_ok() {
                let plays = if failing.is_some() { usize::MAX } else { 1 };
                report_behind(alloc, watch, plays, inventory, playbook);
                drawing.draw(alloc, inventory, playbook);
            }
            printed
        }
        Err(fault) => Err(fault),
    }
}

/// Writes the plan or the course of the two texts, with the groups. The status is that of the plan or the course.
fn print_groups<W: Write>(
    alloc: Global,
    inventory: &[u8],
    playbook: &[u8],
    failing: &Option<String>,
    paint: ColorMode,
    out: &mut W,
) -> Result<Status, Fault>
    ensures ok { IfOk result (PrintsGroups paint (option_map string_bytes failing.now) inventory.now playbook.now (W.contents out.old) (W.contents out.new)) }
    ensures err { IfErr result (RefusesGroups paint (option_map string_bytes failing.now) inventory.now playbook.now (W.contents out.old) (W.contents out.new)) }
{
    match failing {
        Some(failing) => match surveyed_course(
            alloc,
            inventory,
            playbook,
            failing.as_str(),
            paint,
            out,
        ) {
            Ok(end) => Ok(Status::from(end)),
            Err(fault) => Err(Fault::from(fault)),
        },
        None => match surveyed_plan(alloc, inventory, playbook, paint, out) {
            Ok(end) => Ok(Status::from(end)),
            Err(fault) => Err(Fault::from(fault)),
        },
    }
}

/// How tables are written: with colours always, never, or where the system shows them.
fn paint_of<S: System>(system: &S, color: &Option<String>) -> ColorMode
    ensures { IsPaintOf (option_map string_bytes color.now) result }
{
    let Some(when) = color else {
        return shown_paint(system);
    };
    if when.as_str() == "always" {
        ColorMode::Coloured
    } else if when.as_str() == "never" {
        ColorMode::Plain
    } else {
        shown_paint(system)
    }
}

fn shown_paint<S: System>(system: &S) -> ColorMode {
    if system.shows_colours() {
        ColorMode::Coloured
    } else {
        ColorMode::Plain
    }
}
