//! What a run says of the names that were told.
ghost use Rattle.undefined_names.specs.Laws.{AsksForToldNames, JudgesByToldNames, SkippedStepsRunNothing};

/// A step ends as undefined, before its program or when its end is judged, for want of no other name than those that were told of it, save that of a result whose program
/// didn't run and that has no `rc` therefore: on each host whose results are those of the steps that are sure to have run, and of none but those that may have.
#[tactic(auto, using(crate::proofs::Told::asks_for_told, crate::proofs::Told::judges_by_told))]
pub fn no_other_name_is_wanted()
    ensures asked { AsksForToldNames }
    ensures judged { JudgesByToldNames }
{}

/// A step whose `when` was known not to hold runs no program, on each such host.
#[tactic(auto, using(crate::proofs::Told::skipped_run_nothing))]
pub fn a_skipped_step_runs_nothing()
    ensures { SkippedStepsRunNothing }
{}
