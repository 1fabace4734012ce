//! Laws of halts and of what becomes of a batch's hosts.
ghost use Rattle.fleet_states.specs.Laws.{HaltIsTheLeast, NoneWaitsAfter, OthersDecide, OthersStay, OwnFailuresDecide, UpdatedWhereNoneFails};

/// A batch halts at the first step that is past the percentage, and nowhere where none is.
#[tactic(auto, using(crate::proofs::BatchLaws::least))]
pub fn a_halt_is_the_least()
    ensures { HaltIsTheLeast }
{}

/// The failures of a batch say nothing of hosts outside it.
#[tactic(auto, using(crate::proofs::BatchLaws::others_stay))]
pub fn hosts_of_other_batches_stay()
    ensures { OthersStay }
{}

/// What the hosts of a batch were before it ends doesn't matter: where the others agree, so do all after it.
#[tactic(auto, using(crate::proofs::BatchLaws::others_decide))]
pub fn hosts_of_the_batch_end_alike()
    ensures { OthersDecide }
{}

/// Where a batch halts, and what becomes of hosts, follows from the failing steps of its own hosts.
#[tactic(auto, using(crate::proofs::BatchLaws::own_failures_decide))]
pub fn own_failures_decide()
    ensures { OwnFailuresDecide }
{}

/// Whose turn has come doesn't wait again, and has ended.
pub fn no_host_of_a_batch_waits_after_it()
    ensures { NoneWaitsAfter }
{}

/// A batch of which no host fails halts nowhere, and is updated whole.
#[tactic(auto, using(crate::proofs::BatchLaws::updated_where_none_fails))]
pub fn a_batch_without_failure_is_updated()
    ensures { UpdatedWhereNoneFails }
{}
