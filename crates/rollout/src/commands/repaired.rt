//! The command `run` of a run that begins though hosts are up by now which the inventory has as down.
ghost use Rattle.std.specs.Prelude.{◌≡◌, ◌<◌, ◌≤◌, Err, IfErr, IfOk, IfSome, string_bytes, true};
ghost use Rattle.roll_run.specs.Histories.{Gains};
ghost use Rattle.resume_state.specs.Resumptions.{CanRun, IsMendedBeginning, RefusesToBegin};
ghost use Rattle.rollout.specs.Kept.{KeepsMended, OfInputsOrNothing};
ghost use Rattle.rollout.specs.Locks.{IsGiven};
ghost use Rattle.rollout.specs.Resumes.{BreaksRest, GoesOnBy, MendsInputs, PrintsRest, RollsMended};
ghost use Rattle.rollout.specs.Systems.{sources_of};
ghost use Rattle.rollout.specs.declared.fault.Fault.TheVariants.{Stopped};

use crate::commands::resume::{keep_rest, run_rest};
use crate::commands::run::{StartWish, may_begin};
use crate::fault::Fault;
use crate::inputs::{Given, read_behind};
use crate::locking::{Held, report_replaced};
use crate::status::Status;
use crate::system::System;
use bounded_io::Input;
use command_line::{Forks, Source};
use journal_writer::begin_journal;
use local_runner::workers;
use resume_state::{Resumption, begin_inputs};
use roll_core::{History, NoObserver, Observer, Runner};
use roll_run::{Coordinator, StopControl};
use run_command::Manner;
use std::io::Write;
use std::process::{Processes, SystemProcess};
use std::sync::Wait;
use std::thread::Threads;

/// Runs the playbook's plays with so many workers, where the ends of programs can be had, and writes the recap of the run: the hosts of these names are up, also where the inventory has
/// them as down. Nothing is started where the run is refused. The history has the log of each roll that was started then.
#[allow(clippy::too_many_arguments)]
pub fn roll_mended<
    S: System,
    H: Threads + Wait + Processes<Started = SystemProcess> + Sync,
    R: Runner,
    A: StopControl,
    T: Observer,
    I: Input,
    W: Write,
>(
    system: &S,
    coordinator: &Coordinator<'_, H, A>,
    runner: &R,
    watch: &mut T,
    inventory: Source,
    playbook: Source,
    forks: Forks,
    wish: StartWish<'_>,
    mended: &str,
    input: &mut I,
    out: &mut W,
    history: History,
) -> (Result<Status, Fault>, History)
    ensures rolls { Gains history result.1 (RollsMended wish.entry.form (R.may runner.now) (A.asks coordinator.now.attend.now) (sources_of (S.known system.now) (I.is_reliable input.old)) inventory playbook mended.now forks
        (I.remaining input.old) (I.remaining input.new) (W.contents out.old) (W.contents out.new) result.0) }
    ensures journal { IfSome wish.entry.journal.now (λ name. Gains history result.1 (OfInputsOrNothing (KeepsMended S.Journal.contents S.is_new S.is_cut (string_bytes name) mended.now) (sources_of (S.known system.now) (I.is_reliable input.old)) inventory playbook
        (I.remaining input.old) (I.remaining input.new) result.0)) }
{
    match may_begin(system, coordinator.alloc, watch, &inventory, wish) {
        Ok(Held { lock, given }) => {
            let forks = workers(coordinator.rt, forks.number());
            let rolled = mend_inputs(
                system,
                coordinator,
                runner,
                watch,
                given,
                inventory,
                playbook,
                forks,
                wish,
                mended,
                input,
                out,
                history,
            );
            report_replaced(system, coordinator.alloc, watch, &lock);
            rolled
        }
        Err(fault) => (Err(fault), history),
    }
}

/// Reads the inventory, unless it was read before, and the playbook, and runs their plays.
#[allow(clippy::too_many_arguments)]
fn mend_inputs<
    S: System,
    H: Threads + Wait + Processes<Started = SystemProcess> + Sync,
    R: Runner,
    A: StopControl,
    T: Observer,
    I: Input,
    W: Write,
>(
    system: &S,
    coordinator: &Coordinator<'_, H, A>,
    runner: &R,
    watch: &mut T,
    given: Given,
    inventory: Source,
    playbook: Source,
    forks: usize,
    wish: StartWish<'_>,
    mended: &str,
    input: &mut I,
    out: &mut W,
    history: History,
) -> (Result<Status, Fault>, History)
    requires some { 0 < forks }
    requires few { forks ≤ 64 }
    requires given { IsGiven (S.known system.now).files inventory given }
    ensures mends { Gains history result.1 (MendsInputs wish.entry.form (R.may runner.now) (sources_of (S.known system.now) (I.is_reliable input.old)) inventory playbook mended.now forks
        (I.remaining input.old) (I.remaining input.new) (W.contents out.old) (W.contents out.new) result.0) }
    ensures journal { IfSome wish.entry.journal.now (λ name. Gains history result.1 (OfInputsOrNothing (KeepsMended S.Journal.contents S.is_new S.is_cut (string_bytes name) mended.now) (sources_of (S.known system.now) (I.is_reliable input.old)) inventory playbook
        (I.remaining input.old) (I.remaining input.new) result.0)) }
    ensures stops { result.0 ≡ Err Stopped → A.asks coordinator.now.attend.now ≡ true }
{
    match read_behind(system, coordinator.alloc, given, inventory, playbook, input) {
        Ok((inventory, playbook)) => mend_texts(
            system,
            coordinator,
            runner,
            watch,
            inventory.as_slice(),
            playbook.as_slice(),
            forks,
            wish,
            mended,
            out,
            history,
        ),
        Err(fault) => (Err(fault), history),
    }
}

/// Runs the plays of the two texts, where such a run can begin.
#[allow(clippy::too_many_arguments)]
fn mend_texts<
    S: System,
    H: Threads + Wait + Processes<Started = SystemProcess> + Sync,
    R: Runner,
    A: StopControl,
    T: Observer,
    W: Write,
>(
    system: &S,
    coordinator: &Coordinator<'_, H, A>,
    runner: &R,
    watch: &mut T,
    inventory: &[u8],
    playbook: &[u8],
    forks: usize,
    wish: StartWish<'_>,
    mended: &str,
    out: &mut W,
    history: History,
) -> (Result<Status, Fault>, History)
    requires some { 0 < forks }
    requires few { forks ≤ 64 }
    ensures goes { Gains history result.1 (GoesOnBy wish.entry.form (R.may runner.now) (IsMendedBeginning inventory.now playbook.now mended.now) (RefusesToBegin inventory.now playbook.now mended.now) forks
        (W.contents out.old) (W.contents out.new) result.0) }
    ensures journal { IfSome wish.entry.journal.now (λ name. Gains history result.1 (KeepsMended S.Journal.contents S.is_new S.is_cut (string_bytes name) mended.now inventory.now playbook.now result.0)) }
    ensures stops { result.0 ≡ Err Stopped → A.asks coordinator.now.attend.now ≡ true }
{
    let beginning = match begin_inputs(coordinator.alloc, inventory, playbook, mended) {
        Ok(beginning) => beginning,
        Err(fault) => return (Err(Fault::from(fault)), history),
    };
    let manner = Manner {
        forks,
        form: wish.form,
        call: wish.call,
    };
    let Some(name) = wish.journal else {
        return run_mended(coordinator, runner, watch, beginning, manner, out, history);
    };
    let begun = begin_journal(
        coordinator.alloc,
        system,
        name.as_str(),
        &beginning.fleet,
        inventory,
        playbook,
        beginning.plays.len(),
    );
    match begun {
        Some(file) => keep_rest(
            coordinator,
            runner,
            watch,
            file,
            beginning,
            manner,
            out,
            history,
        ),
        None => (Err(Fault::JournalWrite), history),
    }
}

/// Runs the plays without a journal.
fn run_mended<
    H: Threads + Wait + Processes<Started = SystemProcess> + Sync,
    R: Runner,
    A: StopControl,
    T: Observer,
    W: Write,
>(
    coordinator: &Coordinator<'_, H, A>,
    runner: &R,
    watch: &mut T,
    beginning: Resumption,
    manner: Manner<'_>,
    out: &mut W,
    history: History,
) -> (Result<Status, Fault>, History)
    requires some { 0 < manner.forks }
    requires few { manner.forks ≤ 64 }
    requires rest { CanRun beginning }
    ensures ok { IfOk result.0 (λ status. Gains history result.1 (PrintsRest manner.entry.form (R.may runner.now) beginning.fleet beginning.plays.items beginning.beginning manner.entry.forks (W.contents out.old) (W.contents out.new) status)) }
    ensures err { IfErr result.0 (λ fault. Gains history result.1 (BreaksRest manner.entry.form (R.may runner.now) beginning.fleet beginning.plays.items beginning.beginning manner.entry.forks (W.contents out.old) (W.contents out.new) fault)) }
    ensures stops { result.0 ≡ Err Stopped → A.asks coordinator.now.attend.now ≡ true }
{
    let Resumption {
        fleet,
        plays,
        beginning,
        mended: _,
        goes_on: _,
    } = beginning;
    run_rest(
        coordinator,
        runner,
        watch,
        NoObserver,
        &fleet,
        plays.as_slice(),
        beginning,
        manner,
        out,
        history,
    )
}
