//! What a run does of what was told.
ghost use Rattle.std.specs.Prelude.{List};
ghost use Rattle.play_model.specs.declared.step.Step.{Step};
ghost use Rattle.host_track.specs.Hosts.{Known};
ghost use Rattle.command_preview.specs.Laws.{AsksAsTold, HasResultsOf, IsSkippedAsTold};

/// On a host that has no other results than those of the steps before it, a step that is told to be skipped is skipped, and one that looks up none of their
/// results asks for just what was told.
#[tactic(auto, using(crate::proofs::Told::asks_as_told, crate::proofs::Told::skipped_as_told))]
pub fn steps_run_as_told()
    ensures asks { (steps : List Step) (known : Known) (step : Step) → HasResultsOf steps known → AsksAsTold steps known step }
    ensures skipped { (steps : List Step) (known : Known) (step : Step) → HasResultsOf steps known → IsSkippedAsTold steps known step }
{}
