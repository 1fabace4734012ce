//! The command `state`: from an inventory and a journal to how each host stands.
ghost use Rattle.std.specs.Prelude.{◌≡◌, ◌≤◌, IfErr, IfOk, length};
ghost use Rattle.journal.specs.Lines.{max_body};
ghost use Rattle.journal.specs.Shown.{shown_journal};
ghost use Rattle.rollout.specs.StateTexts.{IsAsked, IsTrueOfJournal, RefusesTexts, TellsState, TellsStanding, TellsTexts, endless_status, status_of_state};
ghost use Rattle.rollout.specs.Systems.{sources_of};

use crate::call::call_on;
use crate::commands::read_fleet;
use crate::fault::Fault;
use crate::inputs::read_both;
use crate::status::Status;
use crate::system::System;
use bounded_io::Input;
use command_line::Source;
use domains::Fleet;
use journal::{Journal, write_state};
use resume_preview::read_begun;
use roll_core::Observer;
use run_command::end_of;
use run_diagnosis::{Call, has_why, next_lines};
use std::alloc::Global;
use std::io::Write;

/// Reads the inventory and the journal, and writes how each host stands, and whether the run has ended. `watch` is told what to do next, if something is left to do.
pub fn state<S: System, T: Observer, I: Input, W: Write>(
    system: &S,
    alloc: Global,
    watch: &mut T,
    inventory: Source,
    journal: Source,
    takes_others: bool,
    input: &mut I,
    out: &mut W,
) -> Result<Status, Fault>
    ensures { TellsState takes_others (sources_of (S.known system.now) (I.is_reliable input.old)) inventory journal (I.remaining input.old) (I.remaining input.new)
        (W.contents out.old) (W.contents out.new) result }
{
    // Asked before the journal is read: a run that ends meanwhile is told as ended.
    let goes_on = is_going_on(system, &journal);
    let call = call_on(alloc, &inventory, &journal);
    let standing = Standing {
        takes_others,
        goes_on,
        call: call.as_ref(),
    };
    report_sources(
        system, alloc, watch, inventory, journal, &standing, input, out,
    )
}

#[allow(clippy::too_many_arguments)]
fn report_sources<S: System, T: Observer, I: Input, W: Write>(
    system: &S,
    alloc: Global,
    watch: &mut T,
    inventory: Source,
    journal: Source,
    standing: &Standing<'_>,
    input: &mut I,
    out: &mut W,
) -> Result<Status, Fault>
    requires { IsAsked (S.known system.now) journal standing.now.goes_on }
    ensures { TellsState standing.now.takes_others (sources_of (S.known system.now) (I.is_reliable input.old)) inventory journal (I.remaining input.old) (I.remaining input.new)
        (W.contents out.old) (W.contents out.new) result }
{
    match read_both(system, alloc, inventory, journal, input) {
        Ok((inventory, journal)) => {
            let inventory = inventory.as_slice();
            let journal = journal.as_slice();
            report_texts(alloc, watch, inventory, journal, standing, out)
        }
        Err(fault) => Err(fault),
    }
}

/// Whether the run of this journal still goes on: it holds the journal's lock until it ends, however it does.
fn is_going_on<S: System>(system: &S, journal: &Source) -> bool
    ensures { IsAsked (S.known system.now) journal.now result }
{
    match journal {
        Source::File(name) => system.is_held(name.as_str()),
        Source::StandardInput => false,
    }
}

/// What is known of a run beside its journal: whether its inputs may be others, whether it goes on, and the command that goes on with it.
#[derive(Drop)]
struct Standing<'s> {
    takes_others: bool,
    goes_on: bool,
    call: Option<&'s Call>,
}

const MAY_RUN: &[u8] = b"note: programs may still run on the hosts that are running\n";

/// Tells of a run that has ended, or was broken off, what may be left of it and what to do next.
fn report_next<T: Observer>(
    alloc: Global,
    watch: &mut T,
    fleet: &Fleet,
    journal: &Journal<'_>,
    standing: &Standing<'_>,
) {
    let statuses = journal.statuses.as_slice();
    let Some(call) = standing.call else { return };
    if standing.goes_on || !has_why(journal.run_end(), statuses) {
        return;
    }
    if statuses.iter().any(|status| is_running(*status)) {
        watch.note(MAY_RUN);
    }
    if let Ok(lines) = next_lines(alloc, fleet, statuses, call) {
        watch.note(lines.as_slice());
    }
}

fn is_running(status: fleet_states::Status) -> bool {
    matches!(status, fleet_states::Status::Running)
}

/// The status of a run without an end.
fn endless(goes_on: bool) -> Status
    ensures { result ≡ endless_status goes_on }
{
    if goes_on {
        Status::Running
    } else {
        Status::BrokenOff
    }
}

fn status_of(journal: &Journal<'_>, goes_on: bool) -> Status
    ensures { result ≡ status_of_state goes_on (shown_journal journal.now) }
{
    match journal.run_end() {
        Some(end) => Status::from(end_of(end, journal.statuses.as_slice())),
        None => endless(goes_on),
    }
}

/// Writes where the run of a journal stands, which began with this inventory, or with another where that is said to be meant. Nothing goes out before the journal was accepted.
fn tell<T: Observer, W: Write>(
    alloc: Global,
    watch: &mut T,
    fleet: &Fleet,
    inventory: &[u8],
    text: &[u8],
    standing: &Standing<'_>,
    out: &mut W,
) -> Result<Status, Fault>
    requires { length text.now ≤ max_body }
    ensures ok { IfOk result (TellsStanding fleet.now inventory.now text.now standing.now.takes_others standing.now.goes_on (W.contents out.old) (W.contents out.new)) }
    ensures err { IfErr result (IsTrueOfJournal fleet.now inventory.now text.now standing.now.takes_others standing.now.goes_on (W.contents out.old) (W.contents out.new)) }
{
    let journal = match read_begun(alloc, fleet, inventory, standing.takes_others, text) {
        Ok(journal) => journal,
        Err(fault) => return Err(Fault::from(fault)),
    };
    match write_state(fleet, standing.goes_on, &journal, out) {
        Ok(()) => {
            report_next(alloc, watch, fleet, &journal, standing);
            Ok(status_of(&journal, standing.goes_on))
        }
        Err(fault) => Err(Fault::Write(fault)),
    }
}

/// The same of an inventory as a text. Nothing goes out before both were accepted.
#[tactic(auto, using(crate::proofs::PlainNames::names_are_plain))]
fn report_texts<T: Observer, W: Write>(
    alloc: Global,
    watch: &mut T,
    inventory: &[u8],
    text: &[u8],
    standing: &Standing<'_>,
    out: &mut W,
) -> Result<Status, Fault>
    requires { length text.now ≤ max_body }
    ensures ok { IfOk result (TellsTexts inventory.now text.now standing.now.takes_others standing.now.goes_on (W.contents out.old) (W.contents out.new)) }
    ensures err { IfErr result (RefusesTexts inventory.now text.now standing.now.takes_others standing.now.goes_on (W.contents out.old) (W.contents out.new)) }
{
    let fleet = read_fleet(alloc, inventory)?;
    tell(alloc, watch, &fleet, inventory, text, standing, out)
}
