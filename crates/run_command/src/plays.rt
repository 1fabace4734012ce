//! The runs of a file's plays, from one of them on, and their recaps.
ghost use Rattle.std.specs.Prelude.{◌≡◌, ◌+◌, ◌<◌, ◌≤◌, IfErr, IfOk, None, drop, find, length};
ghost use Rattle.domains.specs.Patterns.{names_nothing};
ghost use Rattle.play_forecast.specs.PlayPlans.{named_parts};
ghost use Rattle.roll_run.specs.Histories.{Gains};
ghost use Rattle.roll_run.specs.Plays.{MayStart};
ghost use Rattle.run_command.specs.Beginnings.{IsTrueFaultFrom, WritesFrom, plays_from};
ghost use Rattle.run_command.specs.Keepings.{KeepsAheadFrom, KeepsFrom};
ghost use Rattle.run_command.specs.Recaps as model;
ghost use Rattle.run_command.specs.RunTexts.{MayBreakText};
ghost use Rattle.run_command.specs.Writings.{TellsBroken, TellsRuns};

use crate::beginning::Beginning;
use crate::behind::{report_behind, report_left_out};
use crate::end::{RunEnd, end_of_runs};
use crate::fault::RunTextFault;
use crate::left::Left;
use crate::manner::Manner;
use crate::recaps::{send_broken, send_runs};
use domains::Fleet;
use json_output::Form;
use play_model::Play;
use roll_core::{History, Observer, Runner};
use roll_run::{Coordinator, Recorder, Run, RunsFault, Setup, StopControl, run_plays};
use std::io::Write;
use std::process::{Processes, SystemProcess};
use std::sync::Wait;
use std::thread::Threads;

/// Whether each recap stands under the number of its play.
fn are_several(plays: &[Play]) -> bool
    ensures { result ≡ model.are_several plays.now }
{
    plays.len() > 1
}

/// The plays behind so many.
fn behind(plays: &[Play], plays_before: usize) -> &[Play]
    requires { plays_before ≤ length plays.now }
    ensures { result.now ≡ drop plays_before plays.now }
{
    &plays[plays_before..]
}

/// Writes the recaps of runs that came to their ends.
fn report_runs<W: Write>(
    form: Form,
    fleet: &Fleet,
    several: bool,
    plays_before: usize,
    runs: &[Run],
    out: &mut W,
) -> Result<RunEnd, RunTextFault>
    requires some { 0 < length runs.now }
    requires few { plays_before + length runs.now ≤ 18446744073709551615 }
    ensures { TellsRuns form plays_before fleet.now several runs.now (W.contents out.old) (W.contents out.new) result }
{
    match send_runs(form, fleet, several, plays_before, runs, out) {
        Ok(()) => Ok(end_of_runs(runs)),
        Err(fault) => Err(RunTextFault::Write(fault)),
    }
}

/// Writes the recaps of runs of which a fault broke the last one off, and tells that fault, or where the text broke off.
fn report_broken<W: Write>(
    form: Form,
    fleet: &Fleet,
    several: bool,
    plays_before: usize,
    fault: &RunsFault,
    out: &mut W,
) -> RunTextFault
    requires { plays_before + length fault.now.done.items < 18446744073709551615 }
    ensures { TellsBroken form plays_before fleet.now several fault.now.done.items fault.now.last (W.contents out.old) (W.contents out.new) result }
{
    match send_broken(form, fleet, several, plays_before, fault, out) {
        Ok(()) => RunTextFault::Broken(fault.last.why),
        Err(fault) => RunTextFault::Write(fault),
    }
}

/// Runs the plays of a file behind so many of them, on this fleet, with 1 to 64 workers: the first of these from this start, each next one
/// where the one before it ended. When the runs have ended it writes the recap in the form that is asked for: of each play that was begun, in lines under its number
/// in the file where that has several. Where a fault breaks the runs off, the recap of what they came to goes out, and then the answer is that fault. Where a write fails,
/// exactly the first bytes of the text went out, as many as the fault says. Writing takes no memory.
/// `watch` is told how many plays are to run, of each of them, of hosts that the file's plays leave out where its first play is to run, and behind the recap
/// why hosts are down; `attend` may have the run end before a batch. `keeper` is given how many plays are to run and what there is to keep of
/// them, and comes back; where it refuses a batch, that breaks the run off.
/// The history comes back with the logs of the runs that the recap tells of behind those that it had, however they ended: just these were started.
#[allow(clippy::too_many_arguments)]
pub fn run_from<
    R: Runner,
    H: Threads + Wait + Processes<Started = SystemProcess> + Sync,
    A: StopControl,
    T: Observer,
    K: Recorder,
    W: Write,
>(
    coordinator: &Coordinator<'_, H, A>,
    watch: &mut T,
    mut keeper: K,
    fleet: &Fleet,
    plays: &[Play],
    beginning: Beginning,
    manner: Manner<'_>,
    runner: &R,
    out: &mut W,
    history: History,
) -> (Result<RunEnd, RunTextFault>, History, K)
    requires some { 0 < manner.forks }
    requires few { manner.forks ≤ 64 }
    requires play { beginning.plays_before < length plays.now }
    requires known { find (names_nothing fleet.now) (named_parts plays.now) ≡ None }
    requires starts { MayStart fleet.now beginning.start }
    ensures ok { IfOk result.0 (λ end. Gains history result.1 (WritesFrom manner.entry.form (R.may runner.now) fleet.now manner.entry.forks plays.now beginning (W.contents out.old) (W.contents out.new) end)) }
    ensures err { IfErr result.0 (λ fault. Gains history result.1 (IsTrueFaultFrom manner.entry.form (R.may runner.now) fleet.now manner.entry.forks plays.now beginning (W.contents out.old) (W.contents out.new) fault)) }
    ensures asked { IfErr result.0 (MayBreakText (A.asks coordinator.now.attend.now) K.refuses) }
    ensures kept { IfOk result.0 (λ _. Gains history result.1 (KeepsFrom K.keeps fleet.now (plays_from beginning plays.now) keeper result.2)) }
    ensures ahead { IfErr result.0 (λ _. Gains history result.1 (KeepsAheadFrom K.keeps fleet.now (plays_from beginning plays.now) keeper result.2)) }
{
    let alloc = coordinator.alloc;
    let Manner { forks, form, call } = manner;
    report_left_out(alloc, watch, fleet, plays, &beginning);
    let Beginning {
        plays_before,
        start,
    } = beginning;
    let rolls = history.rolls();
    let several = are_several(plays);
    let coming = behind(plays, plays_before);
    watch.plays_begin(plays_before, plays.len());
    keeper.plays_begin(fleet, coming.len());
    let setup = Setup {
        fleet,
        plays: coming,
        runner,
        forks,
    };
    let (ran, history, keeper) = run_plays(coordinator, watch, keeper, &setup, start, history);
    match ran {
        Ok(runs) => {
            watch.plays_end();
            let told = report_runs(form, fleet, several, plays_before, runs.as_slice(), out);
            let left = Left::of_all(plays_before, runs.as_slice(), &history, rolls, call);
            report_behind(alloc, watch, fleet, plays, &left, told.is_ok());
            (told, history, keeper)
        }
        Err(fault) => {
            watch.plays_end();
            let told = report_broken(form, fleet, several, plays_before, &fault, out);
            let is_whole = !matches!(told, RunTextFault::Write(_));
            let left = Left::of_broken(plays_before, &fault, &history, rolls, call);
            report_behind(alloc, watch, fleet, plays, &left, is_whole);
            (Err(told), history, keeper)
        }
    }
}
