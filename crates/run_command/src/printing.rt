//! From the bytes of an inventory and a playbook to the recaps of the runs of its plays.
ghost use Rattle.std.specs.Prelude.{◌<◌, ◌≤◌, IfErr, IfOk};
ghost use Rattle.roll_run.specs.Histories.{Gains};
ghost use Rattle.run_command.specs.Keepings.{KeepsBroken, KeepsRuns};
ghost use Rattle.run_command.specs.RunTexts.{IsTrueFault, MayBreakText, WritesRecap};

use crate::beginning::Beginning;
use crate::end::RunEnd;
use crate::fault::RunTextFault;
use crate::inputs::{Inputs, read_inputs};
use crate::manner::Manner;
use crate::plays::run_from;
use roll_core::{History, Observer, Runner};
use roll_run::{Coordinator, Recorder, StopControl};
use std::io::Write;
use std::process::{Processes, SystemProcess};
use std::sync::Wait;
use std::thread::Threads;

/// Runs the plays of a playbook on the fleet of an inventory, each given as the bytes of its text, with 1 to 64 workers, and
/// writes the recap when the runs have ended, in the form that is asked for: of each play that was begun, in lines under its number where the file has several. Nothing is run, and
/// nothing goes out, before both were accepted: first the inventory's faults are told, then the playbook's, then the first part of a
/// pattern, of any play, that names nothing. Where a fault breaks the runs off, the recap of what they came to goes out, and then the answer
/// is that fault. Where a write fails, exactly the first bytes of the text went out, as many as the fault says. Writing takes no memory.
/// `watch` is told of the plays, of hosts that they leave out, and behind the recap why hosts are down; `attend` may have the run end before a batch.
/// `keeper` is given what there is to keep of the runs, and comes back; where it refuses a batch, that breaks the run off.
/// The history comes back with the logs of the runs that the recap tells of behind those that it had, however they ended: just these were started.
#[allow(clippy::too_many_arguments)]
pub fn run_text<
    R: Runner,
    H: Threads + Wait + Processes<Started = SystemProcess> + Sync,
    A: StopControl,
    T: Observer,
    K: Recorder,
    W: Write,
>(
    coordinator: &Coordinator<'_, H, A>,
    watch: &mut T,
    keeper: K,
    inventory: &[u8],
    playbook: &[u8],
    manner: Manner<'_>,
    runner: &R,
    out: &mut W,
    history: History,
) -> (Result<RunEnd, RunTextFault>, History, K)
    requires some { 0 < manner.forks }
    requires few { manner.forks ≤ 64 }
    ensures ok { IfOk result.0 (λ end. Gains history result.1 (WritesRecap manner.entry.form (R.may runner.now) inventory.now playbook.now manner.entry.forks (W.contents out.old) (W.contents out.new) end)) }
    ensures err { IfErr result.0 (λ fault. Gains history result.1 (IsTrueFault manner.entry.form (R.may runner.now) inventory.now playbook.now manner.entry.forks (W.contents out.old) (W.contents out.new) fault)) }
    ensures asked { IfErr result.0 (MayBreakText (A.asks coordinator.now.attend.now) K.refuses) }
    ensures kept { IfOk result.0 (λ _. Gains history result.1 (KeepsRuns K.keeps inventory.now playbook.now keeper result.2)) }
    ensures ahead { IfErr result.0 (λ _. Gains history result.1 (KeepsBroken K.keeps inventory.now playbook.now keeper result.2)) }
{
    let Inputs {
        fleet,
        plays,
        start,
    } = match read_inputs(coordinator.alloc, inventory, playbook) {
        Ok(inputs) => inputs,
        Err(fault) => return (Err(fault), history, keeper),
    };
    let beginning = Beginning {
        plays_before: 0,
        start,
    };
    run_from(
        coordinator,
        watch,
        keeper,
        &fleet,
        plays.as_slice(),
        beginning,
        manner,
        runner,
        out,
        history,
    )
}
