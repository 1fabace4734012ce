//! What a line of `limits`, `plan`, `rehearse` or `run` asks for by its options.
ghost use Rattle.std.specs.Prelude.{◌≡◌, option_map, string_bytes};
ghost use Rattle.roll_run.specs.Histories.{Gains};
ghost use Rattle.rollout.specs.Endings as spec;
ghost use Rattle.rollout.specs.Kept.{KeepsBegun, KeepsJournal};
ghost use Rattle.rollout.specs.Resumes as model;
ghost use Rattle.rollout.specs.Resumes.{BeginsBy, RollsBy};
ghost use Rattle.command_line.specs.Wishes.{wish_as};
ghost use Rattle.rollout.specs.Runs.{PlansAtStart, PlansFrom, PlansOrTellsWords, RehearsesBy, TabulatesAtStart, TabulatesBy};
ghost use Rattle.rollout.specs.Systems.{sources_of};

use crate::call::call_of;
use crate::commands::{
    ResumeWish, StartWish, limits, limits_expecting, limits_in_json, limits_standing, plan_by,
    plan_expecting, plan_in_json, plan_rest, rehearse, rehearse_rest, resume, roll, roll_mended,
    words,
};
use crate::ending::form_of;
use crate::fault::Fault;
use crate::hint_source::is_wanted;
use crate::locking::Locking;
use crate::status::Status;
use crate::system::System;
use bounded_io::Input;
use command_line::{Forks, Options, Source};
use roll_core::{History, NoObserver, Observer, Runner};
use roll_run::{Coordinator, StopControl};
use run_diagnosis::Call;
use std::alloc::Global;
use std::io::Write;
use std::process::{Processes, SystemProcess};
use std::sync::Wait;
use std::thread::Threads;

/// Does what a line of `run` asks for: a run goes on, or one begins.
#[allow(clippy::too_many_arguments)]
pub fn run_by<
    S: System,
    H: Threads + Wait + Processes<Started = SystemProcess> + Sync,
    R: Runner,
    A: StopControl,
    T: Observer,
    I: Input,
    O: Write,
>(
    system: &S,
    coordinator: &Coordinator<'_, H, A>,
    runner: &R,
    watch: &mut T,
    inventory: Source,
    playbook: Source,
    forks: Forks,
    wishes: &Options,
    input: &mut I,
    out: &mut O,
    history: History,
) -> (Result<Status, Fault>, History)
    ensures rolls { Gains history result.1 (RollsBy (R.may runner.now) (A.asks coordinator.now.attend.now) (wish_as wishes.now) (sources_of (S.known system.now) (I.is_reliable input.old)) inventory playbook forks
        (I.remaining input.old) (I.remaining input.new) (O.contents out.old) (O.contents out.new) result.0) }
    ensures journal { Gains history result.1 (KeepsJournal S.Journal.contents S.is_new S.is_cut (wish_as wishes.now) (sources_of (S.known system.now) (I.is_reliable input.old)) inventory playbook
        (I.remaining input.old) (I.remaining input.new) result.0) }
{
    let call = call_of(coordinator.alloc, &inventory, &playbook, &forks, wishes);
    match &wishes.from {
        Some(journal) => resume(
            system,
            coordinator,
            runner,
            watch,
            inventory,
            playbook,
            forks,
            &resume_wish(journal, wishes, call.as_ref()),
            input,
            out,
            history,
        ),
        None => begin_by(
            system,
            coordinator,
            runner,
            watch,
            inventory,
            playbook,
            forks,
            start_wish(wishes, call.as_ref()),
            wishes.mended.as_str(),
            input,
            out,
            history,
        ),
    }
}

/// Does what a line of `limits` asks for: the table at the start, or where the run of a journal stands.
pub fn limits_by<S: System, I: Input, O: Write>(
    system: &S,
    alloc: Global,
    inventory: Source,
    wishes: &Options,
    input: &mut I,
    out: &mut O,
) -> Result<Status, Fault>
    ensures { TabulatesBy (wish_as wishes.now).from (wish_as wishes.now) (sources_of (S.known system.now) (I.is_reliable input.old)) inventory
        (I.remaining input.old) (I.remaining input.new) (O.contents out.old) (O.contents out.new) result }
{
    match &wishes.from {
        Some(journal) => {
            let wish = resume_wish(journal, wishes, None);
            limits_standing(system, alloc, inventory, wish, input, out)
        }
        None => limits_at_start(system, alloc, inventory, wishes, input, out),
    }
}

/// The table at the start, of which numbers may be expected, or which is asked for as JSON.
fn limits_at_start<S: System, I: Input, O: Write>(
    system: &S,
    alloc: Global,
    inventory: Source,
    wishes: &Options,
    input: &mut I,
    out: &mut O,
) -> Result<Status, Fault>
    ensures { TabulatesAtStart (wish_as wishes.now).expected (wish_as wishes.now).json (sources_of (S.known system.now) (I.is_reliable input.old)) inventory
        (I.remaining input.old) (I.remaining input.new) (O.contents out.old) (O.contents out.new) result }
{
    match &wishes.expected {
        Some(list) => limits_expecting(system, alloc, inventory, list.as_str(), input, out),
        None if wishes.is_json => limits_in_json(system, alloc, inventory, input, out),
        None => limits(system, alloc, inventory, input, out),
    }
}

/// Does what a line of `plan` asks for: from the start, or from where the run of a journal would go on.
#[allow(clippy::too_many_arguments)]
pub fn plan_or_rest<S: System, T: Observer, I: Input, O: Write>(
    system: &S,
    alloc: Global,
    watch: &mut T,
    inventory: Source,
    playbook: Source,
    wishes: &Options,
    input: &mut I,
    out: &mut O,
) -> Result<Status, Fault>
    ensures { PlansFrom (wish_as wishes.now).from (wish_as wishes.now) (sources_of (S.known system.now) (I.is_reliable input.old)) inventory playbook
        (I.remaining input.old) (I.remaining input.new) (O.contents out.old) (O.contents out.new) result }
{
    match &wishes.from {
        Some(journal) => plan_rest(
            system,
            alloc,
            inventory,
            playbook,
            resume_wish(journal, wishes, None),
            &wishes.forecast,
            input,
            out,
        ),
        None => plan_noted(
            system, alloc, watch, inventory, playbook, wishes, input, out,
        ),
    }
}

/// The same from the start. The note of hosts that are left out reads both texts once more, so it is made only where it is told.
#[allow(clippy::too_many_arguments)]
fn plan_noted<S: System, T: Observer, I: Input, O: Write>(
    system: &S,
    alloc: Global,
    watch: &mut T,
    inventory: Source,
    playbook: Source,
    wishes: &Options,
    input: &mut I,
    out: &mut O,
) -> Result<Status, Fault>
    ensures { PlansOrTellsWords (wish_as wishes.now).commands (wish_as wishes.now) (sources_of (S.known system.now) (I.is_reliable input.old)) inventory playbook
        (I.remaining input.old) (I.remaining input.new) (O.contents out.old) (O.contents out.new) result }
{
    if is_wanted(system, wishes) {
        plan_or_words(
            system, alloc, watch, inventory, playbook, wishes, input, out,
        )
    } else {
        plan_or_words(
            system,
            alloc,
            &mut NoObserver,
            inventory,
            playbook,
            wishes,
            input,
            out,
        )
    }
}

/// The words of the steps where it is asked for them, or else the plan.
#[allow(clippy::too_many_arguments)]
fn plan_or_words<S: System, T: Observer, I: Input, O: Write>(
    system: &S,
    alloc: Global,
    watch: &mut T,
    inventory: Source,
    playbook: Source,
    wishes: &Options,
    input: &mut I,
    out: &mut O,
) -> Result<Status, Fault>
    ensures { PlansOrTellsWords (wish_as wishes.now).commands (wish_as wishes.now) (sources_of (S.known system.now) (I.is_reliable input.old)) inventory playbook
        (I.remaining input.old) (I.remaining input.new) (O.contents out.old) (O.contents out.new) result }
{
    if wishes.tells_commands {
        words(system, alloc, watch, inventory, playbook, input, out)
    } else {
        plan_at_start(
            system, alloc, watch, inventory, playbook, wishes, input, out,
        )
    }
}

/// The plan from the start, of which numbers may be expected, or which is asked for as JSON.
#[allow(clippy::too_many_arguments)]
fn plan_at_start<S: System, T: Observer, I: Input, O: Write>(
    system: &S,
    alloc: Global,
    watch: &mut T,
    inventory: Source,
    playbook: Source,
    wishes: &Options,
    input: &mut I,
    out: &mut O,
) -> Result<Status, Fault>
    ensures { PlansAtStart (wish_as wishes.now).expected (wish_as wishes.now).json (wish_as wishes.now) (sources_of (S.known system.now) (I.is_reliable input.old)) inventory playbook
        (I.remaining input.old) (I.remaining input.new) (O.contents out.old) (O.contents out.new) result }
{
    match &wishes.expected {
        Some(list) => plan_expecting(
            system,
            alloc,
            watch,
            inventory,
            playbook,
            list.as_str(),
            input,
            out,
        ),
        None if wishes.is_json => plan_in_json(
            system,
            alloc,
            watch,
            inventory,
            playbook,
            &wishes.forecast,
            input,
            out,
        ),
        None => plan_by(
            system, alloc, watch, inventory, playbook, wishes, input, out,
        ),
    }
}

/// Does what a line of `rehearse` asks for: from the start, or from where the run of a journal would go on.
pub fn rehearse_by<S: System, I: Input, O: Write>(
    system: &S,
    alloc: Global,
    inventory: Source,
    playbook: Source,
    wishes: &Options,
    input: &mut I,
    out: &mut O,
) -> Result<Status, Fault>
    ensures { RehearsesBy (wish_as wishes.now).from (wish_as wishes.now) (sources_of (S.known system.now) (I.is_reliable input.old)) inventory playbook
        (I.remaining input.old) (I.remaining input.new) (O.contents out.old) (O.contents out.new) result }
{
    let is_strict = wishes.is_strict;
    match &wishes.from {
        Some(journal) => {
            let wish = resume_wish(journal, wishes, None);
            rehearse_rest(
                system, alloc, inventory, playbook, wish, is_strict, input, out,
            )
        }
        None => rehearse(
            system,
            alloc,
            form_of(wishes.is_json),
            inventory,
            playbook,
            is_strict,
            input,
            out,
        ),
    }
}

/// The run that is to go on, or from which something begins.
fn resume_wish<'w>(
    journal: &'w String,
    wishes: &'w Options,
    call: Option<&'w Call>,
) -> ResumeWish<'w>
    ensures wish { model.wished result ≡ model.resume_wish (string_bytes journal.now) (wish_as wishes.now) }
    ensures form { result.form ≡ spec.form_of (wish_as wishes.now).json }
{
    ResumeWish {
        journal: journal.as_str(),
        mended: wishes.mended.as_str(),
        takes_others: wishes.takes_others,
        locking: Locking::of(wishes),
        form: form_of(wishes.is_json),
        call,
    }
}

/// What a run is that begins, beside its inputs.
fn start_wish<'w>(wishes: &'w Options, call: Option<&'w Call>) -> StartWish<'w>
    ensures journal { option_map string_bytes result.journal.now ≡ (wish_as wishes.now).journal }
    ensures strict { result.is_strict ≡ (wish_as wishes.now).strict }
    ensures form { result.form ≡ spec.form_of (wish_as wishes.now).json }
{
    StartWish {
        journal: &wishes.journal,
        locking: Locking::of(wishes),
        is_strict: wishes.is_strict,
        form: form_of(wishes.is_json),
        call,
    }
}

/// Begins a run, as one that goes on where hosts are named that are up by now.
#[allow(clippy::too_many_arguments)]
fn begin_by<
    S: System,
    H: Threads + Wait + Processes<Started = SystemProcess> + Sync,
    R: Runner,
    A: StopControl,
    T: Observer,
    I: Input,
    O: Write,
>(
    system: &S,
    coordinator: &Coordinator<'_, H, A>,
    runner: &R,
    watch: &mut T,
    inventory: Source,
    playbook: Source,
    forks: Forks,
    wish: StartWish<'_>,
    mended: &str,
    input: &mut I,
    out: &mut O,
    history: History,
) -> (Result<Status, Fault>, History)
    ensures rolls { Gains history result.1 (BeginsBy wish.entry.form wish.entry.is_strict (R.may runner.now) (A.asks coordinator.now.attend.now) mended.now (sources_of (S.known system.now) (I.is_reliable input.old)) inventory playbook forks
        (I.remaining input.old) (I.remaining input.new) (O.contents out.old) (O.contents out.new) result.0) }
    ensures journal { Gains history result.1 (KeepsBegun S.Journal.contents S.is_new S.is_cut (option_map string_bytes wish.entry.journal.now) mended.now (sources_of (S.known system.now) (I.is_reliable input.old)) inventory playbook
        (I.remaining input.old) (I.remaining input.new) result.0) }
{
    if mended.is_empty() {
        roll(
            system,
            coordinator,
            runner,
            watch,
            inventory,
            playbook,
            forks,
            wish,
            input,
            out,
            history,
        )
    } else {
        roll_mended(
            system,
            coordinator,
            runner,
            watch,
            inventory,
            playbook,
            forks,
            wish,
            mended,
            input,
            out,
            history,
        )
    }
}
