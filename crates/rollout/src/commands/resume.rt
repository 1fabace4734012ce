//! The command `run` that goes on: from the files of an inventory, a playbook and the journal of a run that broke off to the recap of its rest.
ghost use Rattle.std.specs.Prelude.{◌≡◌, ◌<◌, ◌≤◌, Err, IfErr, IfOk, None, find, length, true};
ghost use Rattle.domains.specs.Patterns.{names_nothing};
ghost use Rattle.journal.specs.Lines.{max_body};
ghost use Rattle.play_forecast.specs.PlayPlans.{named_parts};
ghost use Rattle.roll_run.specs.Histories.{Gains};
ghost use Rattle.roll_run.specs.Plays.{MayStart};
ghost use Rattle.run_command.specs.Beginnings.{plays_from};
ghost use Rattle.run_command.specs.Keepings.{KeepsAheadFrom, KeepsFrom};
ghost use Rattle.resume_state.specs.Resumptions.{CanRun};
ghost use Rattle.rollout.specs.Inputs.{IsTextOfFile};
ghost use Rattle.rollout.specs.Kept.{KeepsAgain, KeepsRest, KeepsResumed, KeepsTo};
ghost use Rattle.rollout.specs.Locks.{IsGiven};
ghost use Rattle.rollout.specs.Resumes.{BreaksRest, GoesOnBy, IsNoneWished, IsWished, LacksJournal, PrintsRest, Resumes, ResumesInputs};
ghost use Rattle.rollout.specs.Resumes as model;
ghost use Rattle.rollout.specs.Systems.{sources_of};
ghost use Rattle.rollout.specs.declared.fault.Fault.TheVariants.{Stopped};

use crate::children::refusal;
use crate::commands::run::ended;
use crate::fault::Fault;
use crate::inputs::{Given, read_behind};
use crate::locking::{Held, Locking, hold_journal, hold_lock, report_replaced};
use crate::source::read_file;
use crate::status::Status;
use crate::system::System;
use bounded_io::Input;
use command_line::{Forks, Source};
use domains::Fleet;
use journal::whole_length;
use journal_writer::{DurableFile, IsComplete, JournalAppender};
use json_output::Form;
use local_runner::workers;
use play_model::Play;
use resume_state::{Resumption, Wish, resume_inputs};
use roll_core::{History, Observer, Runner};
use roll_run::{Coordinator, StopControl};
use run_command::{Beginning, Manner, run_from};
use run_diagnosis::Call;
use std::alloc::Global;
use std::io::Write;
use std::process::{Processes, SystemProcess};
use std::sync::Wait;
use std::thread::Threads;

/// The run that is to go on: its journal's file, the names of the hosts that are up by now, whether the inputs may be others than those with which it began, which file it locks, the form of its recap, and the command that goes on with it once more.
#[derive(Clone, Copy)]
pub struct ResumeWish<'w> {
    pub journal: &'w str,
    pub mended: &'w str,
    pub takes_others: bool,
    pub locking: Locking<'w>,
    pub form: Form,
    pub call: Option<&'w Call>,
}

/// Goes on with the run of a journal, with so many workers, where the ends of programs can be had, and writes the recap of the rest. What becomes of it is kept in the same
/// journal. Nothing is started, and the journal stays as it was, where the run can't go on. The history has the log of each roll that was started then.
#[allow(clippy::too_many_arguments)]
pub fn resume<
    S: System,
    H: Threads + Wait + Processes<Started = SystemProcess> + Sync,
    R: Runner,
    A: StopControl,
    T: Observer,
    I: Input,
    W: Write,
>(
    system: &S,
    coordinator: &Coordinator<'_, H, A>,
    runner: &R,
    watch: &mut T,
    inventory: Source,
    playbook: Source,
    forks: Forks,
    wish: &ResumeWish<'_>,
    input: &mut I,
    out: &mut W,
    history: History,
) -> (Result<Status, Fault>, History)
    ensures rolls { Gains history result.1 (Resumes wish.now.form (R.may runner.now) (A.asks coordinator.now.attend.now) (sources_of (S.known system.now) (I.is_reliable input.old)) inventory playbook (model.wished wish.now) forks
        (I.remaining input.old) (I.remaining input.new) (W.contents out.old) (W.contents out.new) result.0) }
    ensures journal { Gains history result.1 (KeepsResumed S.Journal.contents S.is_new S.is_cut (model.wished wish.now) (sources_of (S.known system.now) (I.is_reliable input.old)) inventory playbook
        (I.remaining input.old) (I.remaining input.new) result.0) }
{
    if let Some(fault) = refusal(system, coordinator.alloc) {
        return (Err(fault), history);
    }
    let held = hold_lock(system, coordinator.alloc, watch, &inventory, wish.locking);
    let Held { lock, given } = match held {
        Ok(held) => held,
        Err(fault) => return (Err(fault), history),
    };
    let _journal = match hold_journal(system, &inventory, wish.journal) {
        Ok(lock) => lock,
        Err(fault) => return (Err(fault), history),
    };
    let forks = workers(coordinator.rt, forks.number());
    let rolled = resume_sources(
        system,
        coordinator,
        runner,
        watch,
        given,
        inventory,
        playbook,
        forks,
        wish,
        input,
        out,
        history,
    );
    report_replaced(system, coordinator.alloc, watch, &lock);
    rolled
}

/// Reads the inventory, unless it was read before, the playbook and the journal, and goes on with its run.
#[allow(clippy::too_many_arguments)]
fn resume_sources<
    S: System,
    H: Threads + Wait + Processes<Started = SystemProcess> + Sync,
    R: Runner,
    A: StopControl,
    T: Observer,
    I: Input,
    W: Write,
>(
    system: &S,
    coordinator: &Coordinator<'_, H, A>,
    runner: &R,
    watch: &mut T,
    given: Given,
    inventory: Source,
    playbook: Source,
    forks: usize,
    wish: &ResumeWish<'_>,
    input: &mut I,
    out: &mut W,
    history: History,
) -> (Result<Status, Fault>, History)
    requires some { 0 < forks }
    requires few { forks ≤ 64 }
    requires given { IsGiven (S.known system.now).files inventory given }
    ensures resumes { Gains history result.1 (ResumesInputs wish.now.form (R.may runner.now) (sources_of (S.known system.now) (I.is_reliable input.old)) inventory playbook (model.wished wish.now) forks
        (I.remaining input.old) (I.remaining input.new) (W.contents out.old) (W.contents out.new) result.0) }
    ensures journal { Gains history result.1 (KeepsResumed S.Journal.contents S.is_new S.is_cut (model.wished wish.now) (sources_of (S.known system.now) (I.is_reliable input.old)) inventory playbook
        (I.remaining input.old) (I.remaining input.new) result.0) }
    ensures stops { result.0 ≡ Err Stopped → A.asks coordinator.now.attend.now ≡ true }
{
    let (inventory, playbook) = match read_behind(
        system,
        coordinator.alloc,
        given,
        inventory,
        playbook,
        input,
    ) {
        Ok(texts) => texts,
        Err(fault) => return (Err(fault), history),
    };
    match read_journal_file(system, coordinator.alloc, wish.journal) {
        Ok(journal) => resume_texts(
            system,
            coordinator,
            runner,
            watch,
            inventory.as_slice(),
            playbook.as_slice(),
            journal.as_slice(),
            forks,
            wish,
            out,
            history,
        ),
        Err(fault) => (Err(fault), history),
    }
}

pub(crate) fn read_journal_file<S: System>(
    system: &S,
    alloc: Global,
    name: &str,
) -> Result<Vec<u8>, Fault>
    ensures ok { IfOk result (λ text. IsTextOfFile ((S.known system.now).files name.now) text.items) }
    ensures err { IfErr result (LacksJournal (S.known system.now).files name.now) }
{
    match read_file(system, alloc, name) {
        Ok(text) => Ok(text),
        Err(fault) => {
            let source = Source::File(String::from_str(alloc, name)?);
            Err(Fault::Input { source, fault })
        }
    }
}

/// Goes on with the run of a journal, where it can go on by both texts. What stands behind the last whole line of the journal is cut off before anything is added.
#[allow(clippy::too_many_arguments)]
fn resume_texts<
    S: System,
    H: Threads + Wait + Processes<Started = SystemProcess> + Sync,
    R: Runner,
    A: StopControl,
    T: Observer,
    W: Write,
>(
    system: &S,
    coordinator: &Coordinator<'_, H, A>,
    runner: &R,
    watch: &mut T,
    inventory: &[u8],
    playbook: &[u8],
    journal: &[u8],
    forks: usize,
    wish: &ResumeWish<'_>,
    out: &mut W,
    history: History,
) -> (Result<Status, Fault>, History)
    requires some { 0 < forks }
    requires few { forks ≤ 64 }
    requires short { length journal.now ≤ max_body }
    ensures goes { Gains history result.1 (GoesOnBy wish.now.form (R.may runner.now) (IsWished inventory.now playbook.now journal.now (model.wished wish.now))
        (IsNoneWished inventory.now playbook.now journal.now (model.wished wish.now)) forks (W.contents out.old) (W.contents out.new) result.0) }
    ensures journal { Gains history result.1 (KeepsAgain S.Journal.contents S.is_new S.is_cut (model.wished wish.now) inventory.now playbook.now journal.now result.0) }
    ensures stops { result.0 ≡ Err Stopped → A.asks coordinator.now.attend.now ≡ true }
{
    let wished = Wish {
        journal,
        mended: wish.mended,
        takes_others: wish.takes_others,
    };
    let resumption = match resume_inputs(coordinator.alloc, inventory, playbook, wished) {
        Ok(resumption) => resumption,
        Err(fault) => return (Err(Fault::from(fault)), history),
    };
    match system.reopen(wish.journal, whole_length(journal) as u64) {
        Ok(file) => keep_rest(
            coordinator,
            runner,
            watch,
            file,
            resumption,
            Manner {
                forks,
                form: wish.form,
                call: wish.call,
            },
            out,
            history,
        ),
        Err(_error) => (Err(Fault::JournalWrite), history),
    }
}

/// Runs the rest of the plays, and keeps it in this journal.
#[allow(clippy::too_many_arguments)]
pub(crate) fn keep_rest<
    H: Threads + Wait + Processes<Started = SystemProcess> + Sync,
    R: Runner,
    A: StopControl,
    T: Observer,
    F: DurableFile,
    W: Write,
>(
    coordinator: &Coordinator<'_, H, A>,
    runner: &R,
    watch: &mut T,
    file: F,
    resumption: Resumption,
    manner: Manner<'_>,
    out: &mut W,
    history: History,
) -> (Result<Status, Fault>, History)
    requires some { 0 < manner.forks }
    requires few { manner.forks ≤ 64 }
    requires rest { CanRun resumption }
    ensures ok { IfOk result.0 (λ status. Gains history result.1 (PrintsRest manner.entry.form (R.may runner.now) resumption.fleet resumption.plays.items resumption.beginning manner.entry.forks (W.contents out.old) (W.contents out.new) status)) }
    ensures err { IfErr result.0 (λ fault. Gains history result.1 (BreaksRest manner.entry.form (R.may runner.now) resumption.fleet resumption.plays.items resumption.beginning manner.entry.forks (W.contents out.old) (W.contents out.new) fault)) }
    ensures journal { Gains history result.1 (KeepsRest F.contents (λ first. first ≡ file) resumption result.0) }
    ensures stops { result.0 ≡ Err Stopped → A.asks coordinator.now.attend.now ≡ true }
{
    let Resumption {
        fleet,
        plays,
        beginning,
        mended,
        goes_on,
    } = resumption;
    let keeper = JournalAppender::new(coordinator.alloc, file, mended.as_slice(), goes_on);
    run_rest(
        coordinator,
        runner,
        watch,
        keeper,
        &fleet,
        plays.as_slice(),
        beginning,
        manner,
        out,
        history,
    )
}

/// Runs the rest of the plays, which this keeper keeps. The status tells how they ended.
#[allow(clippy::too_many_arguments)]
pub(crate) fn run_rest<
    H: Threads + Wait + Processes<Started = SystemProcess> + Sync,
    R: Runner,
    A: StopControl,
    T: Observer,
    K: IsComplete,
    W: Write,
>(
    coordinator: &Coordinator<'_, H, A>,
    runner: &R,
    watch: &mut T,
    keeper: K,
    fleet: &Fleet,
    plays: &[Play],
    beginning: Beginning,
    manner: Manner<'_>,
    out: &mut W,
    history: History,
) -> (Result<Status, Fault>, History)
    requires some { 0 < manner.forks }
    requires few { manner.forks ≤ 64 }
    requires play { beginning.plays_before < length plays.now }
    requires known { find (names_nothing fleet.now) (named_parts plays.now) ≡ None }
    requires starts { MayStart fleet.now beginning.start }
    ensures ok { IfOk result.0 (λ status. Gains history result.1 (PrintsRest manner.entry.form (R.may runner.now) fleet.now plays.now beginning manner.entry.forks (W.contents out.old) (W.contents out.new) status)) }
    ensures err { IfErr result.0 (λ fault. Gains history result.1 (BreaksRest manner.entry.form (R.may runner.now) fleet.now plays.now beginning manner.entry.forks (W.contents out.old) (W.contents out.new) fault)) }
    ensures kept { Gains history result.1 (KeepsTo (KeepsFrom K.keeps fleet.now (plays_from beginning plays.now)) (KeepsAheadFrom K.keeps fleet.now (plays_from beginning plays.now)) K.is_whole_now keeper result.0) }
    ensures stops { result.0 ≡ Err Stopped → A.asks coordinator.now.attend.now ≡ true }
{
    let (ran, history, keeper) = run_from(
        coordinator,
        watch,
        keeper,
        fleet,
        plays,
        beginning,
        manner,
        runner,
        out,
        history,
    );
    (ended(ran, keeper.is_whole()), history)
}
