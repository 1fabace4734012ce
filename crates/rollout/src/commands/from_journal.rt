//! The commands `limits`, `plan` and `rehearse` that begin from the journal of a run.
ghost use Rattle.std.specs.Prelude.{◌≡◌, ◌≤◌, IfErr, IfOk, length, string_bytes};
ghost use Rattle.std.specs.Option.{option_map};
ghost use Rattle.journal.specs.Lines.{max_body};
ghost use Rattle.resume_preview.specs.Asked.{question_of};
ghost use Rattle.resume_preview.specs.Limits as table;
ghost use Rattle.rollout.specs.Outlooks as spec;
ghost use Rattle.rollout.specs.Resumes as model;
ghost use Rattle.rollout.specs.Systems.{sources_of};

use crate::commands::rehearsal::status_of;
use crate::commands::resume::{ResumeWish, read_journal_file};
use crate::fault::Fault;
use crate::inputs::read_both;
use crate::source::read_source;
use crate::status::Status;
use crate::system::System;
use bounded_io::Input;
use command_line::Source;
use rehearse::Prompt;
use resume_preview::{Asked, course_from, limits_from, plan_from, rehearse_from};
use resume_state::Wish;
use std::alloc::Global;
use std::io::Write;

/// The inputs of a line, and the journal of a run.
#[derive(Drop)]
struct Texts {
    inventory: Vec<u8>,
    playbook: Vec<u8>,
    journal: Vec<u8>,
}

/// Both inputs in the line's order, and behind them the journal, before any of them is looked at.
fn read_all<S: System, I: Input>(
    system: &S,
    alloc: Global,
    inventory: Source,
    playbook: Source,
    journal: &str,
    input: &mut I,
) -> Result<Texts, Fault>
    ensures ok { IfOk result (λ texts. spec.ReadsAll (sources_of (S.known system.now) (I.is_reliable input.old)) inventory playbook journal.now
        (I.remaining input.old) (I.remaining input.new) texts.inventory.items texts.playbook.items texts.journal.items) }
    ensures err { IfErr result (spec.LacksAny (sources_of (S.known system.now) (I.is_reliable input.old)) inventory playbook journal.now (I.remaining input.old) (I.remaining input.new)) }
    ensures stays { I.is_reliable input.new ≡ I.is_reliable input.old }
{
    let (inventory, playbook) = match read_both(system, alloc, inventory, playbook, input) {
        Ok(texts) => texts,
        Err(fault) => return Err(fault),
    };
    match read_journal_file(system, alloc, journal) {
        Ok(journal) => Ok(Texts {
            inventory,
            playbook,
            journal,
        }),
        Err(fault) => Err(fault),
    }
}

/// Reads the inventory, the playbook and the journal, and writes the plan with which its run would go on, or the course of its rest where the names of the hosts that fail in it are given.
#[allow(clippy::too_many_arguments)]
pub fn plan_rest<S: System, I: Input, W: Write>(
    system: &S,
    alloc: Global,
    inventory: Source,
    playbook: Source,
    wish: ResumeWish<'_>,
    course: &Option<String>,
    input: &mut I,
    out: &mut W,
) -> Result<Status, Fault>
    ensures { spec.PlansRest (option_map string_bytes course.now) (sources_of (S.known system.now) (I.is_reliable input.old)) inventory playbook (model.wished wish.entry)
        (I.remaining input.old) (I.remaining input.new) (W.contents out.old) (W.contents out.new) result }
{
    match read_all(system, alloc, inventory, playbook, wish.journal, input) {
        Ok(texts) => {
            let asked = Asked {
                inventory: texts.inventory.as_slice(),
                playbook: texts.playbook.as_slice(),
                wish: Wish {
                    journal: texts.journal.as_slice(),
                    mended: wish.mended,
                    takes_others: wish.takes_others,
                },
            };
            print_rest(alloc, &asked, course, out)
        }
        Err(fault) => Err(fault),
    }
}

/// The same of the texts. The status tells how the plan or the course ends.
fn print_rest<W: Write>(
    alloc: Global,
    asked: &Asked<'_>,
    course: &Option<String>,
    out: &mut W,
) -> Result<Status, Fault>
    requires { length asked.now.wish.journal.now ≤ max_body }
    ensures ok { IfOk result (spec.PrintsRest (option_map string_bytes course.now) (question_of asked.now) (W.contents out.old) (W.contents out.new)) }
    ensures err { IfErr result (spec.RefusesRest (option_map string_bytes course.now) (question_of asked.now) (W.contents out.old) (W.contents out.new)) }
{
    match course {
        Some(failing) => match course_from(alloc, asked, failing.as_str(), out) {
            Ok(end) => Ok(Status::from(end)),
            Err(fault) => Err(Fault::from(fault)),
        },
        None => match plan_from(alloc, asked, out) {
            Ok(end) => Ok(Status::from(end)),
            Err(fault) => Err(Fault::from(fault)),
        },
    }
}

/// Reads the inventory, the playbook and the journal, and answers the commands on standard input, each as it comes: they rehearse the play with which the run of the journal would go on.
#[allow(clippy::too_many_arguments)]
pub fn rehearse_rest<S: System, I: Input, W: Write>(
    system: &S,
    alloc: Global,
    inventory: Source,
    playbook: Source,
    wish: ResumeWish<'_>,
    is_strict: bool,
    input: &mut I,
    out: &mut W,
) -> Result<Status, Fault>
    ensures { spec.RehearsesFrom is_strict (sources_of (S.known system.now) (I.is_reliable input.old)) inventory playbook (model.wished wish.entry)
        (I.remaining input.old) (I.remaining input.new) (W.contents out.old) (W.contents out.new) result }
{
    match read_all(system, alloc, inventory, playbook, wish.journal, input) {
        Ok(texts) => {
            let asked = Asked {
                inventory: texts.inventory.as_slice(),
                playbook: texts.playbook.as_slice(),
                wish: Wish {
                    journal: texts.journal.as_slice(),
                    mended: wish.mended,
                    takes_others: wish.takes_others,
                },
            };
            answer_rest(alloc, &asked, system, is_strict, input, out)
        }
        Err(fault) => Err(fault),
    }
}

/// The same of the texts. That all commands were answered is all that the status tells, unless none is to be refused.
fn answer_rest<P: Prompt, I: Input, W: Write>(
    alloc: Global,
    asked: &Asked<'_>,
    prompt: &P,
    is_strict: bool,
    input: &mut I,
    out: &mut W,
) -> Result<Status, Fault>
    requires { length asked.now.wish.journal.now ≤ max_body }
    ensures ok { IfOk result (spec.AnswersRest is_strict (question_of asked.now) (I.remaining input.old) (I.remaining input.new) (W.contents out.old) (W.contents out.new)) }
    ensures err { IfErr result (spec.BreaksRehearsal (I.is_reliable input.old) (question_of asked.now) (I.remaining input.old) (I.remaining input.new) (W.contents out.old) (W.contents out.new)) }
{
    match rehearse_from(alloc, asked, prompt, input, out) {
        Ok(is_refused) => Ok(status_of(is_strict, is_refused)),
        Err(fault) => Err(Fault::from(fault)),
    }
}

/// Reads the inventory and the journal, and writes the table of limits as hosts stand where the run of the journal stands.
pub fn limits_standing<S: System, I: Input, W: Write>(
    system: &S,
    alloc: Global,
    inventory: Source,
    wish: ResumeWish<'_>,
    input: &mut I,
    out: &mut W,
) -> Result<Status, Fault>
    ensures { spec.LimitsFromJournal (sources_of (S.known system.now) (I.is_reliable input.old)) inventory (model.wished wish.entry)
        (I.remaining input.old) (I.remaining input.new) (W.contents out.old) (W.contents out.new) result }
{
    let inventory = match read_source(system, alloc, inventory, input) {
        Ok(text) => text,
        Err(fault) => return Err(fault),
    };
    match read_journal_file(system, alloc, wish.journal) {
        Ok(journal) => {
            let wish = Wish {
                journal: journal.as_slice(),
                mended: wish.mended,
                takes_others: wish.takes_others,
            };
            match limits_from(alloc, inventory.as_slice(), wish, out) {
                Ok(()) => Ok(Status::Done),
                Err(fault) => Err(Fault::from(fault)),
            }
        }
        Err(fault) => Err(fault),
    }
}
