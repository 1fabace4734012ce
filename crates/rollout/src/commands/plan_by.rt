//! The command `plan`, as it is asked for: a plan or a course, with its groups or without them, and its picture.
ghost use Rattle.std.specs.Prelude.{◌≡◌, Err, IfErr, IfOk, OnOk, string_bytes};
ghost use Rattle.std.specs.Option.{option_map};
ghost use Rattle.rollout.specs.Courses.{PlansOrForesees};
ghost use Rattle.rollout.specs.Groups.{PlansBy};
ghost use Rattle.rollout.specs.Pictures.{PlansDrawn};
ghost use Rattle.rollout.specs.Systems.{sources_of};

use crate::commands::course::course;
use crate::commands::drawing::Drawing;
use crate::commands::groups::groups;
use crate::commands::plan::plan;
use crate::fault::Fault;
use crate::status::Status;
use crate::system::System;
use bounded_io::Input;
use command_line::{Options, Source};
use roll_core::Observer;
use std::alloc::Global;
use std::io::Write;

/// Does what a line of `plan` asks for: the plan, or the course where hosts to fail are given, be it nobody.
#[allow(clippy::too_many_arguments)]
fn plan_or_course<S: System, T: Observer, I: Input, O: Write>(
    system: &S,
    alloc: Global,
    watch: &mut T,
    drawing: &mut Drawing<'_, '_, S>,
    inventory: Source,
    playbook: Source,
    failing: &Option<String>,
    input: &mut I,
    out: &mut O,
) -> Result<Status, Fault>
    ensures { PlansOrForesees (option_map string_bytes failing.now) (sources_of (S.known system.now) (I.is_reliable input.old)) inventory playbook
        (I.remaining input.old) (I.remaining input.new) (O.contents out.old) (O.contents out.new) result }
{
    match failing {
        Some(failing) => course(
            system,
            alloc,
            watch,
            drawing,
            inventory,
            playbook,
            failing.as_str(),
            input,
            out,
        ),
        None => plan(
            system, alloc, watch, drawing, inventory, playbook, input, out,
        ),
    }
}

/// Does what a line of `plan` asks for but for its picture: with the groups, where it is asked for them.
#[allow(clippy::too_many_arguments)]
fn print_plan<S: System, T: Observer, I: Input, O: Write>(
    system: &S,
    alloc: Global,
    watch: &mut T,
    drawing: &mut Drawing<'_, '_, S>,
    inventory: Source,
    playbook: Source,
    wishes: &Options,
    input: &mut I,
    out: &mut O,
) -> Result<Status, Fault>
    ensures { PlansBy wishes.now.is_grouped (option_map string_bytes wishes.now.color) (option_map string_bytes wishes.now.forecast) (sources_of (S.known system.now) (I.is_reliable input.old)) inventory playbook
        (I.remaining input.old) (I.remaining input.new) (O.contents out.old) (O.contents out.new) result }
{
    let course = &wishes.forecast;
    if wishes.is_grouped {
        groups(
            system, alloc, watch, drawing, inventory, playbook, wishes, input, out,
        )
    } else {
        plan_or_course(
            system, alloc, watch, drawing, inventory, playbook, course, input, out,
        )
    }
}

/// Does what a line of `plan` asks for, and draws its picture behind that, where it is asked for one.
#[allow(clippy::too_many_arguments)]
pub fn plan_by<S: System, T: Observer, I: Input, O: Write>(
    system: &S,
    alloc: Global,
    watch: &mut T,
    inventory: Source,
    playbook: Source,
    wishes: &Options,
    input: &mut I,
    out: &mut O,
) -> Result<Status, Fault>
    ensures { PlansDrawn (option_map string_bytes wishes.now.picture) wishes.now.is_grouped (option_map string_bytes wishes.now.color) (option_map string_bytes wishes.now.forecast) (sources_of (S.known system.now) (I.is_reliable input.old)) inventory playbook
        (I.remaining input.old) (I.remaining input.new) (O.contents out.old) (O.contents out.new) result }
{
    let mut drawing = Drawing::new(system, wishes);
    let printed = print_plan(
        system,
        alloc,
        watch,
        &mut drawing,
        inventory,
        playbook,
        wishes,
        input,
        out,
    );
    match &wishes.picture {
        Some(_file) => drawn(printed, drawing.outcome()),
        None => printed,
    }
}

/// How a plan ends that was printed so, and behind which its picture was drawn or not.
fn drawn(printed: Result<Status, Fault>, drawn: Result<(), Fault>) -> Result<Status, Fault>
    ensures ok { OnOk drawn (result ≡ printed) }
    ensures lost { IfErr drawn (λ fault. IfOk printed (λ _. result ≡ Err fault)) }
    ensures err { IfErr printed (λ fault. result ≡ Err fault) }
{
    match (printed, drawn) {
        (Ok(_), Err(fault)) => Err(fault),
        (printed, _) => printed,
    }
}
