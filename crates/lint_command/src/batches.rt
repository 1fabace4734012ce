//! The notes on a play's batches.
ghost use Rattle.std.specs.Prelude.{◌≡◌, ◌<◌, IfOk, length, option_map};
ghost use Rattle.fleet_index.specs.NumberLists.{list_at};
ghost use Rattle.lint_command.specs.Batches as model;
ghost use Rattle.lint_command.specs.Batches.{AreSmallestOf, IsSmallestIn, IsSmallestOf};
ghost use Rattle.lint_rules.specs.Notes.{seen};

use batch_plan::{Answer, Batches};
use domains::Fleet;
use group_tree::Percentage;
use lint_rules::Note;
use play_forecast::plan_play;
use play_model::Play;
use std::alloc::{AllocError, Global};

/// Whether one failed host of a batch of several is more than the percentage, which is above 0.
fn tolerates_no_failure(percent: u8, size: usize) -> bool
    ensures { result ≡ model.tolerates_no_failure percent size }
{
    percent > 0 && size > 1 && usize::from(percent).saturating_mul(size) < 100
}

/// What is noted of the failures that the smallest batch of several hosts of the play with this number bears.
pub(crate) fn failure_note(
    number: usize,
    max_fail: Option<Percentage>,
    smallest: Option<usize>,
) -> Option<Note<'static>>
    ensures { option_map seen result ≡ model.failure_note number max_fail smallest }
{
    let percent = max_fail?.value();
    let size = smallest?;
    if tolerates_no_failure(percent, size) {
        Some(Note::OneFailure {
            play: number,
            percent,
            size,
        })
    } else {
        None
    }
}

fn hosts_in(batches: &Batches, place: usize) -> usize
    requires { place < length batches.now }
    ensures { result ≡ length (list_at batches.now place) }
{
    batches.at(place).len()
}

/// The less of this and a batch of so many hosts. One of a single host is passed over: of that any failure is all.
fn lesser(least: Option<usize>, hosts: usize) -> Option<usize>
    ensures { result ≡ model.lesser least hosts }
{
    if hosts <= 1 {
        return least;
    }
    match least {
        Some(least) => Some(least.min(hosts)),
        None => Some(hosts),
    }
}

/// How many hosts the smallest of the batches of several hosts has.
#[tactic(auto, using(crate::proofs::BatchLemmas::least_more))]
fn smallest(batches: &Batches) -> Option<usize>
    ensures { result ≡ model.smallest batches.now }
{
    let mut least = None;
    for place in 0..batches.len() {
        least = lesser(least, hosts_in(batches, place));
    }
    least
}

fn smallest_batch(answer: &Answer) -> Option<usize>
    ensures { result ≡ model.smallest_batch answer.now }
{
    match answer {
        Answer::Planned(plan) => smallest(&plan.batches),
        Answer::Blocked { .. } => None,
    }
}

/// How many hosts the smallest batch of several hosts has of a play whose pattern was looked up. It fails for want of memory alone.
fn smallest_in_plan(alloc: Global, fleet: &Fleet, play: &Play) -> Result<Option<usize>, AllocError>
    ensures { IfOk result (IsSmallestIn fleet.now play.now) }
{
    match plan_play(alloc, fleet, play) {
        Ok(planned) => Ok(smallest_batch(&planned.answer)),
        Err(_refused) => Err(AllocError),
    }
}

/// The same where the play may go on with failures. Only there it is asked for, and a play is planned in vain where it isn't.
fn smallest_of(alloc: Global, fleet: &Fleet, play: &Play) -> Result<Option<usize>, AllocError>
    ensures { IfOk result (IsSmallestOf fleet.now play.now) }
{
    match play.max_fail() {
        Some(_) => smallest_in_plan(alloc, fleet, play),
        None => Ok(None),
    }
}

/// The same of each play.
pub(crate) fn list_smallest(
    alloc: Global,
    fleet: &Fleet,
    plays: &[Play],
) -> Result<Vec<Option<usize>>, AllocError>
    ensures { IfOk result (λ sizes. AreSmallestOf fleet.now plays.now sizes.items) }
{
    let mut sizes = Vec::with_capacity(alloc, plays.len())?;
    for play in plays {
        sizes.push(smallest_of(alloc, fleet, play)?)?;
    }
    Ok(sizes)
}
