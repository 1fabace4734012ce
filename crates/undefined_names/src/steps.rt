//! The names that a step misses.
ghost use Rattle.std.specs.Prelude.{◌≡◌, IfOk, OnOk};
ghost use Rattle.undefined_names.specs.Inside.{outset_before};
ghost use Rattle.undefined_names.specs.Lent.{lent_names, names_found};
ghost use Rattle.undefined_names.specs.UndefinedReads as spec;
ghost use Rattle.undefined_names.specs.UndefinedReads.{missed_behind, missed_by, missed_if_run, once_behind, outlook_if};

use crate::before::{Before, Behind};
use crate::found::Found;
use crate::gaps::add_words;
use crate::missing::{decides, foresee};
use crate::name_status::StaticEnv;
use cond::Cond;
use play_model::Step;
use std::alloc::{AllocError, Global};

/// Adds the names that the condition misses. Whether it holds, where that is known.
fn add_condition<'s, F: StaticEnv>(
    alloc: Global,
    condition: &'s Option<Cond>,
    foresight: &F,
    found: &mut Found<'s>,
) -> Result<Option<bool>, AllocError>
    ensures known { IfOk result (λ holds. holds ≡ (outlook_if (F.outset foresight.now) condition.now).holds) }
    ensures missed { OnOk result (names_found found.new ≡ once_behind (names_found found.old) (outlook_if (F.outset foresight.now) condition.now).missed) }
{
    match condition {
        Some(condition) => {
            let mut missed = Vec::new(alloc);
            let holds = foresee(condition, foresight, &mut missed)?;
            found.add_all(missed.as_slice())?;
            Ok(holds)
        }
        None => Ok(Some(true)),
    }
}

/// Adds those that the conditions by which its end is judged miss.
#[tactic(auto, using(crate::proofs::Onces::once_append))]
fn add_behind<'s>(
    alloc: Global,
    step: &'s Step,
    before: &Before<'_>,
    found: &mut Found<'s>,
) -> Result<(), AllocError>
    ensures { OnOk result (names_found found.new ≡ once_behind (names_found found.old) (missed_behind (outset_before before.now) step.now)) }
{
    let behind = Behind { before, step };
    add_condition(alloc, &step.changed_when, &behind, found)?;
    add_condition(alloc, &step.failed_when, &behind, found)?;
    Ok(())
}

/// Adds those of its words and of what judges its end, where it comes to them.
#[tactic(auto, using(crate::proofs::Onces::once_append))]
fn add_run<'s>(
    alloc: Global,
    holds: Option<bool>,
    step: &'s Step,
    before: &Before<'_>,
    found: &mut Found<'s>,
) -> Result<(), AllocError>
    ensures { OnOk result (names_found found.new ≡ once_behind (names_found found.old) (missed_if_run (outset_before before.now) holds step.now)) }
{
    if decides(false, holds) {
        return Ok(());
    }
    add_words(&step.words, before, found)?;
    add_behind(alloc, step, before, found)
}

/// Whether it is known that the step doesn't run: its `when` can't hold. It fails for want of memory alone.
pub(crate) fn is_skipped(
    alloc: Global,
    step: &Step,
    before: &Before<'_>,
) -> Result<bool, AllocError>
    ensures { IfOk result (λ skipped. skipped ≡ spec.is_skipped (outset_before before.now) step.now) }
{
    let mut found = Found::new(alloc);
    let holds = add_condition(alloc, &step.when, before, &mut found)?;
    Ok(decides(false, holds))
}

/// The names that the step misses, each once, in the order of reading. It fails for want of memory alone.
#[tactic(auto, using(crate::proofs::Onces::once_append))]
pub(crate) fn missed_by_step<'s>(
    alloc: Global,
    step: &'s Step,
    before: &Before<'_>,
) -> Result<Vec<&'s str>, AllocError>
    ensures { IfOk result (λ names. lent_names names.items ≡ spec.missed_names (outset_before before.now) step.now) }
{
    let mut found = Found::new(alloc);
    let holds = add_condition(alloc, &step.when, before, &mut found)?;
    add_run(alloc, holds, step, before, &mut found)?;
    found.list(alloc)
}
