//! The command `run`: from the files of an inventory and a playbook to the recap of a run.
ghost use Rattle.std.specs.Prelude.{◌≡◌, ◌<◌, ◌≤◌, Err, IfOk, IfErr, IfSome, Ok, OnOk, false, string_bytes, true};
ghost use Rattle.roll_run.specs.Histories.{Gains};
ghost use Rattle.run_command.specs.Keepings.{KeepsBroken, KeepsRuns};
ghost use Rattle.rollout.specs.Children.{IsAnswerOf};
ghost use Rattle.rollout.specs.Kept.{KeepsNew, KeepsTo, OfInputsOrNothing};
ghost use Rattle.rollout.specs.Locks.{IsGiven};
ghost use Rattle.rollout.specs.Rolls.{BreaksOff, IsRefusedBy, PrintsRecap, Rolls, RollsInputs};
ghost use Rattle.rollout.specs.Systems.{IsSomewhere, sources_of};
ghost use Rattle.rollout.specs.RollFaults.{fault_of};
ghost use Rattle.rollout.specs.Status.{status_of_run};
ghost use Rattle.rollout.specs.declared.fault.Fault.TheVariants.{JournalWrite, Stopped};

use crate::children::refusal;
use crate::commands::strict::check_names;
use crate::fault::Fault;
use crate::inputs::{Given, read_behind};
use crate::locking::{Held, Locking, hold_lock, report_replaced};
use crate::status::Status;
use crate::system::System;
use bounded_io::Input;
use command_line::{Forks, Source};
use journal_writer::{IsComplete, JournalWriter};
use json_output::Form;
use local_runner::workers;
use roll_core::{History, NoObserver, Observer, Runner};
use roll_run::{Coordinator, StopControl};
use run_command::{Manner, RunEnd, RunTextFault, run_text};
use run_diagnosis::Call;
use std::alloc::Global;
use std::io::Write;
use std::process::{Processes, SystemProcess};
use std::sync::Wait;
use std::thread::Threads;

/// What a run that begins is asked for: the new file in which it is kept, which file it locks, whether it begins only if no name may be missing, the form of its recap, and the command that goes on with it.
#[derive(Clone, Copy)]
pub struct StartWish<'w> {
    pub journal: &'w Option<String>,
    pub locking: Locking<'w>,
    pub is_strict: bool,
    pub form: Form,
    pub call: Option<&'w Call>,
}

/// Whether a run may begin: the ends of programs can be had, and no file of the journal's name is there; and the lock that it holds, with what the inventory gave if it is
/// locked. `watch` is told if there is none to be had.
pub(crate) fn may_begin<S: System, T: Observer>(
    system: &S,
    alloc: Global,
    watch: &mut T,
    inventory: &Source,
    wish: StartWish<'_>,
) -> Result<Held<S::Lock>, Fault>
    ensures ok { OnOk result (IsAnswerOf (S.known system.now).files false) }
    ensures given { IfOk result (λ held. IsGiven (S.known system.now).files inventory.now held.given) }
    ensures err { IfErr result (IsRefusedBy (S.known system.now)) }
{
    if let Some(fault) = refusal(system, alloc) {
        return Err(fault);
    }
    if is_there(system, wish.journal) {
        return Err(Fault::JournalThere);
    }
    hold_lock(system, alloc, watch, inventory, wish.locking)
}

/// Runs the playbook's plays with so many workers, where the ends of programs can be had, and writes the recap of the run. `watch` is told of
/// it while it goes on, and `attend` may have it end before a batch. The history has the log of each roll that was started then.
#[allow(clippy::too_many_arguments)]
pub fn roll<
    S: System,
    H: Threads + Wait + Processes<Started = SystemProcess> + Sync,
    R: Runner,
    A: StopControl,
    T: Observer,
    I: Input,
    W: Write,
>(
    system: &S,
    coordinator: &Coordinator<'_, H, A>,
    runner: &R,
    watch: &mut T,
    inventory: Source,
    playbook: Source,
    forks: Forks,
    wish: StartWish<'_>,
    input: &mut I,
    out: &mut W,
    history: History,
) -> (Result<Status, Fault>, History)
    ensures rolls { Gains history result.1 (Rolls wish.entry.form wish.entry.is_strict (R.may runner.now) (A.asks coordinator.now.attend.now) (sources_of (S.known system.now) (I.is_reliable input.old)) inventory playbook forks
        (I.remaining input.old) (I.remaining input.new) (W.contents out.old) (W.contents out.new) result.0) }
    ensures journal { IfSome wish.entry.journal.now (λ name. Gains history result.1 (OfInputsOrNothing (KeepsNew S.Journal.contents S.is_new S.is_cut (string_bytes name)) (sources_of (S.known system.now) (I.is_reliable input.old)) inventory playbook
        (I.remaining input.old) (I.remaining input.new) result.0)) }
{
    match may_begin(system, coordinator.alloc, watch, &inventory, wish) {
        Ok(Held { lock, given }) => {
            let forks = workers(coordinator.rt, forks.number());
            let rolled = roll_inputs(
                system,
                coordinator,
                runner,
                watch,
                given,
                inventory,
                playbook,
                forks,
                wish,
                input,
                out,
                history,
            );
            report_replaced(system, coordinator.alloc, watch, &lock);
            rolled
        }
        Err(fault) => (Err(fault), history),
    }
}

/// Whether a file of the journal's name is there.
fn is_there<S: System>(system: &S, journal: &Option<String>) -> bool
    ensures { result ≡ true → IsSomewhere (S.known system.now).there }
{
    match journal {
        Some(name) => system.is_there(name.as_str()),
        None => false,
    }
}

/// Reads the inventory, unless it was read before, and the playbook, and runs their plays.
#[allow(clippy::too_many_arguments)]
fn roll_inputs<
    S: System,
    H: Threads + Wait + Processes<Started = SystemProcess> + Sync,
    R: Runner,
    A: StopControl,
    T: Observer,
    I: Input,
    W: Write,
>(
    system: &S,
    coordinator: &Coordinator<'_, H, A>,
    runner: &R,
    watch: &mut T,
    given: Given,
    inventory: Source,
    playbook: Source,
    forks: usize,
    wish: StartWish<'_>,
    input: &mut I,
    out: &mut W,
    history: History,
) -> (Result<Status, Fault>, History)
    requires some { 0 < forks }
    requires few { forks ≤ 64 }
    requires given { IsGiven (S.known system.now).files inventory given }
    ensures rolls { Gains history result.1 (RollsInputs wish.entry.form wish.entry.is_strict (R.may runner.now) (sources_of (S.known system.now) (I.is_reliable input.old)) inventory playbook forks
        (I.remaining input.old) (I.remaining input.new) (W.contents out.old) (W.contents out.new) result.0) }
    ensures journal { IfSome wish.entry.journal.now (λ name. Gains history result.1 (OfInputsOrNothing (KeepsNew S.Journal.contents S.is_new S.is_cut (string_bytes name)) (sources_of (S.known system.now) (I.is_reliable input.old)) inventory playbook
        (I.remaining input.old) (I.remaining input.new) result.0)) }
    ensures stops { result.0 ≡ Err Stopped → A.asks coordinator.now.attend.now ≡ true }
{
    match read_behind(system, coordinator.alloc, given, inventory, playbook, input) {
        Ok((inventory, playbook)) => {
            let inventory = inventory.as_slice();
            let playbook = playbook.as_slice();
            match check_names(coordinator.alloc, wish.is_strict, inventory, playbook) {
                Ok(()) => roll_texts(
                    system,
                    coordinator,
                    runner,
                    watch,
                    inventory,
                    playbook,
                    forks,
                    wish,
                    out,
                    history,
                ),
                Err(fault) => (Err(fault), history),
            }
        }
        Err(fault) => (Err(fault), history),
    }
}

/// Runs the plays of the two texts, and writes their recap. The status tells how they ended. Where a journal is named, the run is kept in it.
#[allow(clippy::too_many_arguments)]
fn roll_texts<
    S: System,
    H: Threads + Wait + Processes<Started = SystemProcess> + Sync,
    R: Runner,
    A: StopControl,
    T: Observer,
    W: Write,
>(
    system: &S,
    coordinator: &Coordinator<'_, H, A>,
    runner: &R,
    watch: &mut T,
    inventory: &[u8],
    playbook: &[u8],
    forks: usize,
    wish: StartWish<'_>,
    out: &mut W,
    history: History,
) -> (Result<Status, Fault>, History)
    requires some { 0 < forks }
    requires few { forks ≤ 64 }
    ensures ok { IfOk result.0 (λ status. Gains history result.1 (PrintsRecap wish.entry.form (R.may runner.now) inventory.now playbook.now forks (W.contents out.old) (W.contents out.new) status)) }
    ensures err { IfErr result.0 (λ fault. Gains history result.1 (BreaksOff wish.entry.form (R.may runner.now) inventory.now playbook.now forks (W.contents out.old) (W.contents out.new) fault)) }
    ensures journal { IfSome wish.entry.journal.now (λ name. Gains history result.1 (KeepsNew S.Journal.contents S.is_new S.is_cut (string_bytes name) inventory.now playbook.now result.0)) }
    ensures stops { result.0 ≡ Err Stopped → A.asks coordinator.now.attend.now ≡ true }
{
    let manner = Manner {
        forks,
        form: wish.form,
        call: wish.call,
    };
    match wish.journal {
        Some(name) => {
            let name = name.as_str();
            let keeper = JournalWriter::new(coordinator.alloc, system, name, inventory, playbook);
            roll_with(
                coordinator,
                runner,
                watch,
                keeper,
                inventory,
                playbook,
                manner,
                out,
                history,
            )
        }
        None => roll_with(
            coordinator,
            runner,
            watch,
            NoObserver,
            inventory,
            playbook,
            manner,
            out,
            history,
        ),
    }
}

/// The same with a keeper: where it did not keep all, the status is no success.
#[allow(clippy::too_many_arguments)]
fn roll_with<
    H: Threads + Wait + Processes<Started = SystemProcess> + Sync,
    R: Runner,
    A: StopControl,
    T: Observer,
    K: IsComplete,
    W: Write,
>(
    coordinator: &Coordinator<'_, H, A>,
    runner: &R,
    watch: &mut T,
    keeper: K,
    inventory: &[u8],
    playbook: &[u8],
    manner: Manner<'_>,
    out: &mut W,
    history: History,
) -> (Result<Status, Fault>, History)
    requires some { 0 < manner.forks }
    requires few { manner.forks ≤ 64 }
    ensures ok { IfOk result.0 (λ status. Gains history result.1 (PrintsRecap manner.entry.form (R.may runner.now) inventory.now playbook.now manner.entry.forks (W.contents out.old) (W.contents out.new) status)) }
    ensures err { IfErr result.0 (λ fault. Gains history result.1 (BreaksOff manner.entry.form (R.may runner.now) inventory.now playbook.now manner.entry.forks (W.contents out.old) (W.contents out.new) fault)) }
    ensures kept { Gains history result.1 (KeepsTo (KeepsRuns K.keeps inventory.now playbook.now) (KeepsBroken K.keeps inventory.now playbook.now) K.is_whole_now keeper result.0) }
    ensures stops { result.0 ≡ Err Stopped → A.asks coordinator.now.attend.now ≡ true }
{
    let (ran, history, keeper) = run_text(
        coordinator,
        watch,
        keeper,
        inventory,
        playbook,
        manner,
        runner,
        out,
        history,
    );
    (ended(ran, keeper.is_whole()), history)
}

/// What a run that ended so is to the program, where it was kept whole or not.
pub(crate) fn ended(ran: Result<RunEnd, RunTextFault>, is_kept: bool) -> Result<Status, Fault>
    ensures ok { IfOk ran (λ end. (is_kept ≡ true → result ≡ Ok (status_of_run end)) × (is_kept ≡ false → result ≡ Err JournalWrite)) }
    ensures err { IfErr ran (λ fault. result ≡ Err (fault_of fault)) }
{
    match ran {
        Ok(end) if is_kept => Ok(Status::from(end)),
        Ok(_end) => Err(Fault::JournalWrite),
        Err(fault) => Err(Fault::from(fault)),
    }
}
