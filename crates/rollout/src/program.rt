//! A run of the program: its words, what they ask for, and the end.
ghost use Rattle.std.specs.Prelude.{◌≡◌, map, string_bytes};
ghost use Rattle.std.specs.Process.{exit_status};
ghost use Rattle.roll_run.specs.Histories.{Gains};
ghost use Rattle.command_line.specs.Wishes.{wish_as};
ghost use Rattle.rollout.specs.Endings.{reporting_as};
ghost use Rattle.rollout.specs.Kept.{KeepsJournal};
ghost use Rattle.rollout.specs.Runs.{Acts, Attempts, Does, Performs, Runs, StartsSafely};
ghost use Rattle.rollout.specs.Systems.{sources_of};
ghost use Rattle.rollout.specs.Watching.{IsWatchedAs};

use crate::commands::{check, explain, lint, print, state};
use crate::dispatch::{limits_by, plan_or_rest, rehearse_by, run_by};
use crate::ending::{Ended, Reporting, conclude, exit_code, form_of};
use crate::fault::Fault;
use crate::hint_source::HintSource;
use crate::outputs::refused_name;
use crate::status::Status;
use crate::stop_file_watch::StopFileWatch;
use crate::system::System;
use crate::words::{words_fault, words_of};
use bounded_io::Input;
use command_line::command::Line;
use command_line::{Options, Request, request_of};
use local_runner::ReporterInbox;
use roll_core::{History, Observer, Runner};
use roll_run::{Coordinator, StopControl};
use run_progress::ReportProgress;
use std::alloc::Global;
use std::io::Write;
use std::process::{ExitCode, Processes, SystemProcess};
use std::sync::Wait;
use std::thread::Threads;

/// Does what the words say; a fault is reported on `errors`, and the exit status tells of it too. `tell` is told of a run, and whether the words
/// ask for its lines. The history comes back with the logs of all rolls that were started behind those that it had: at no moment of any of them is a
/// group over its limit, however the run ended.
#[allow(clippy::too_many_arguments)]
pub fn run<
    S: System,
    H: Threads + Wait + Processes<Started = SystemProcess> + Sync,
    R: Runner,
    T: ReportProgress,
    I: Input,
    O: Write,
    E: Write,
>(
    system: &S,
    rt: &H,
    alloc: Global,
    runner: &R,
    notes: &ReporterInbox,
    tell: &mut T,
    input: &mut I,
    out: &mut O,
    errors: &mut E,
    history: History,
) -> (ExitCode, History)
    ensures runs { Gains history result.1 (Runs (KeepsJournal S.Journal.contents S.is_new S.is_cut) (R.may runner.now) (S.may_watch system.now) (S.words system.now) (sources_of (S.known system.now) (I.is_reliable input.old))
        (I.remaining input.old) (I.remaining input.new) (O.contents out.old) (O.contents out.new) (E.contents errors.old) (E.contents errors.new) (exit_status result.0)) }
    ensures safe { Gains history result.1 (StartsSafely (R.may runner.now) (S.words system.now) (sources_of (S.known system.now) (I.is_reliable input.old)) (I.remaining input.old) (I.remaining input.new)) }
{
    let (ended, history) = perform(system, rt, alloc, runner, notes, tell, input, out, history);
    let Ended { outcome, reporting } = ended;
    (exit_code(conclude(outcome, &reporting, errors)), history)
}

/// Does what the words say, where the system gives them.
fn perform<
    S: System,
    H: Threads + Wait + Processes<Started = SystemProcess> + Sync,
    R: Runner,
    T: ReportProgress,
    I: Input,
    O: Write,
>(
    system: &S,
    rt: &H,
    alloc: Global,
    runner: &R,
    notes: &ReporterInbox,
    tell: &mut T,
    input: &mut I,
    out: &mut O,
    history: History,
) -> (Ended, History)
    ensures { Gains history result.1 (Performs (KeepsJournal S.Journal.contents S.is_new S.is_cut) (R.may runner.now) (S.may_watch system.now) (S.words system.now) (sources_of (S.known system.now) (I.is_reliable input.old))
        (I.remaining input.old) (I.remaining input.new) (O.contents out.old) (O.contents out.new) (reporting_as result.0.reporting) result.0.outcome) }
{
    match system.args() {
        Ok(args) => attempt(
            system,
            rt,
            alloc,
            runner,
            notes,
            tell,
            words_of(args.as_slice()),
            input,
            out,
            history,
        ),
        Err(error) => (Ended::plain(Err(words_fault(&error))), history),
    }
}

/// Reads the words as a line, and does what it asks for.
#[allow(clippy::too_many_arguments)]
fn attempt<
    S: System,
    H: Threads + Wait + Processes<Started = SystemProcess> + Sync,
    R: Runner,
    T: ReportProgress,
    I: Input,
    O: Write,
>(
    system: &S,
    rt: &H,
    alloc: Global,
    runner: &R,
    notes: &ReporterInbox,
    tell: &mut T,
    words: &[String],
    input: &mut I,
    out: &mut O,
    history: History,
) -> (Ended, History)
    ensures { Gains history result.1 (Attempts (KeepsJournal S.Journal.contents S.is_new S.is_cut) (R.may runner.now) (S.may_watch system.now) (sources_of (S.known system.now) (I.is_reliable input.old)) (map string_bytes words.now)
        (I.remaining input.old) (I.remaining input.new) (O.contents out.old) (O.contents out.new) (reporting_as result.0.reporting) result.0.outcome) }
{
    match request_of(alloc, words) {
        Ok(Request { line, wishes }) => {
            begin_telling(system, tell, &line, &wishes);
            let attend = StopFileWatch::new(system, notes, &wishes.stop_file);
            let coordinator = Coordinator {
                rt,
                alloc,
                attend: &attend,
            };
            let helper = HintSource::new(system, alloc, &line, &wishes);
            let (outcome, history) = act(
                system,
                &coordinator,
                runner,
                tell,
                line,
                &wishes,
                input,
                out,
                history,
            );
            let help = helper.help(system, alloc, &outcome);
            let reporting = Reporting {
                form: form_of(wishes.is_json),
                help,
            };
            (Ended { outcome, reporting }, history)
        }
        Err(fault) => (Ended::plain(Err(Fault::Line(fault))), history),
    }
}

/// From now on a run is told of, and a plan and where a run stands, which have more to tell of than what they print.
fn begin_telling<S: System, T: ReportProgress>(
    system: &S,
    tell: &mut T,
    line: &Line,
    wishes: &Options,
)
    ensures { IsWatchedAs T.tells_as (wish_as wishes.now) tell.old tell.new line.now }
{
    match line {
        Line::Run { .. } => tell.run_begins(system.seen(wishes, true)),
        Line::Plan { .. } | Line::State { .. } => tell.run_begins(system.seen(wishes, false)),
        Line::Limits { .. }
        | Line::Rehearse { .. }
        | Line::Check { .. }
        | Line::Lint { .. }
        | Line::Explain { .. }
        | Line::Print(_) => {}
    }
}

/// Does what the line asks for, unless it names a file that is refused.
#[allow(clippy::too_many_arguments)]
fn act<
    S: System,
    H: Threads + Wait + Processes<Started = SystemProcess> + Sync,
    R: Runner,
    A: StopControl,
    T: Observer,
    I: Input,
    O: Write,
>(
    system: &S,
    coordinator: &Coordinator<'_, H, A>,
    runner: &R,
    watch: &mut T,
    line: Line,
    wishes: &Options,
    input: &mut I,
    out: &mut O,
    history: History,
) -> (Result<Status, Fault>, History)
    ensures { Gains history result.1 (Acts (KeepsJournal S.Journal.contents S.is_new S.is_cut) (R.may runner.now) (A.asks coordinator.now.attend.now) (wish_as wishes.now) (sources_of (S.known system.now) (I.is_reliable input.old)) line
        (I.remaining input.old) (I.remaining input.new) (O.contents out.old) (O.contents out.new) result.0) }
{
    match refused_name(system, coordinator.alloc, &line, wishes) {
        Some(fault) => (Err(fault), history),
        None => follow(
            system,
            coordinator,
            runner,
            watch,
            line,
            wishes,
            input,
            out,
            history,
        ),
    }
}

/// Does what the line asks for.
#[allow(clippy::too_many_arguments)]
fn follow<
    S: System,
    H: Threads + Wait + Processes<Started = SystemProcess> + Sync,
    R: Runner,
    A: StopControl,
    T: Observer,
    I: Input,
    O: Write,
>(
    system: &S,
    coordinator: &Coordinator<'_, H, A>,
    runner: &R,
    watch: &mut T,
    line: Line,
    wishes: &Options,
    input: &mut I,
    out: &mut O,
    history: History,
) -> (Result<Status, Fault>, History)
    ensures { Gains history result.1 (Does (KeepsJournal S.Journal.contents S.is_new S.is_cut) (R.may runner.now) (A.asks coordinator.now.attend.now) (wish_as wishes.now) (sources_of (S.known system.now) (I.is_reliable input.old)) line
        (I.remaining input.old) (I.remaining input.new) (O.contents out.old) (O.contents out.new) result.0) }
{
    let alloc = coordinator.alloc;
    match line {
        Line::Limits { inventory } => (
            limits_by(system, alloc, inventory, wishes, input, out),
            history,
        ),
        Line::Plan {
            inventory,
            playbook,
        } => (
            plan_or_rest(
                system, alloc, watch, inventory, playbook, wishes, input, out,
            ),
            history,
        ),
        Line::Run {
            inventory,
            playbook,
            forks,
        } => run_by(
            system,
            coordinator,
            runner,
            watch,
            inventory,
            playbook,
            forks,
            wishes,
            input,
            out,
            history,
        ),
        Line::Rehearse {
            inventory,
            playbook,
        } => (
            rehearse_by(system, alloc, inventory, playbook, wishes, input, out),
            history,
        ),
        Line::State { inventory, journal } => (
            state(
                system,
                alloc,
                watch,
                inventory,
                journal,
                wishes.takes_others,
                input,
                out,
            ),
            history,
        ),
        Line::Check {
            inventory,
            playbook,
            plan,
        } => (
            check(system, alloc, inventory, playbook, plan, input, out),
            history,
        ),
        Line::Lint {
            inventory,
            playbook,
        } => (
            lint(
                system,
                alloc,
                inventory,
                playbook,
                wishes.allowed.as_str(),
                input,
                out,
            ),
            history,
        ),
        Line::Explain { word } => (explain(word.as_str(), out), history),
        Line::Print(message) => (print(message.as_str(), out), history),
    }
}
