//! What is told of the batches that a text says.
ghost use Rattle.std.specs.Prelude.{◌≡◌, ◌≤◌, IfOk, length};
ghost use Rattle.plan_check.specs.Listings.{batches_of};
ghost use Rattle.plan_check.specs.Names.{nobody_in};
ghost use Rattle.plan_check.specs.Openings.{IsVerdictOn};
ghost use Rattle.plan_check.specs.Shown.{shown};
ghost use Rattle.plan_check.specs.Verdicts as model;
ghost use Rattle.plan_check.specs.Verdicts.{judged};
ghost use Rattle.plan_check.specs.PlanErrors as wrongs;

use crate::batches::first_plan_error;
use crate::naming::{NamedBatches, find_batches};
use crate::opening::{Opening, open_play};
use crate::verdict::Verdict;
use crate::wrong::Wrong;
use batch_plan::{Answer, Batches};
use bounded_io::MAX_INPUT;
use domains::Fleet;
use play_model::Play;
use std::alloc::{AllocError, Global};

fn verdict_by<'t>(batches: usize, least: usize, wrong: Option<Wrong>) -> Verdict<'t>
    ensures { shown result ≡ model.verdict_by batches least wrong }
{
    match wrong {
        Some(wrong) => Verdict::Wrong(wrong),
        None => Verdict::Valid { batches, least },
    }
}

/// What is told of batches of known hosts, where the least plan has so many. Only want of memory refuses it.
fn judge_batches<'t>(
    alloc: Global,
    fleet: &Fleet,
    opening: &Opening,
    least: usize,
    batches: &Batches,
) -> Result<Verdict<'t>, AllocError>
    requires { length opening.now.statuses.items ≡ length fleet.now.hosts }
    ensures { IfOk result (λ verdict. shown verdict
        ≡ model.verdict_by (length batches.now) least (wrongs.first_plan_error fleet.now opening.now.statuses.items opening.now.cap batches.now)) }
{
    let statuses = opening.statuses.as_slice();
    let wrong = first_plan_error(alloc, fleet, statuses, opening.cap, batches)?;
    Ok(verdict_by(batches.len(), least, wrong))
}

/// What is told of the batches that a text says, where the least plan has so many. Only want of memory refuses it.
fn judge_text<'t>(
    alloc: Global,
    fleet: &Fleet,
    opening: &Opening,
    least: usize,
    text: &'t [u8],
) -> Result<Verdict<'t>, AllocError>
    requires input { length text.now ≤ MAX_INPUT }
    requires all { length opening.now.statuses.items ≡ length fleet.now.hosts }
    ensures { IfOk result (λ verdict. shown verdict
        ≡ judged fleet.now opening.now.statuses.items opening.now.cap least (batches_of text.now) (nobody_in fleet.now (batches_of text.now))) }
{
    match find_batches(alloc, fleet, text)? {
        NamedBatches::Batches(batches) => judge_batches(alloc, fleet, opening, least, &batches),
        NamedBatches::Nobody { batch, name } => Ok(Verdict::Nobody { batch, name }),
    }
}

/// What is told of the batches that a text says, as a plan with which the play begins. Only want of memory refuses it, where its pattern was looked up.
pub(crate) fn judge<'t>(
    alloc: Global,
    fleet: &Fleet,
    play: &Play,
    text: &'t [u8],
) -> Result<Verdict<'t>, AllocError>
    requires { length text.now ≤ MAX_INPUT }
    ensures { IfOk result (IsVerdictOn fleet.now play.now text.now) }
{
    let opening = open_play(alloc, fleet, play)?;
    match &opening.answer {
        Answer::Planned(plan) => {
            let least = plan.batches.len();
            judge_text(alloc, fleet, &opening, least, text)
        }
        Answer::Blocked { group, waiting } => Ok(Verdict::Blocked {
            group: *group,
            waiting: *waiting,
        }),
    }
}
