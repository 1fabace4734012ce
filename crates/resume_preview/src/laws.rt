//! What a run that goes on has to do with what was told of it.
ghost use Rattle.resume_preview.specs.Laws.{RepairedHostsRunEachHandler, RunsGoOnAsForeseen, RunsGoOnAsPlanned};

use roll_core::Runner;

/// Every run that goes on with what two texts and a journal say, with any number of workers, begins at the boundary whose plan `plan_from` prints: the same hosts are set aside, each host
/// has the same status, and the first batch is that of the plan.
pub fn runs_go_on_as_planned<R: Runner>(runner: &R)
    ensures { RunsGoOnAsPlanned (R.may runner.now) }
{}

/// The runs that go on so open what the course says that `course_from` prints in which the same hosts fail: their recaps have its boundary lines and its ends. Of a host whose batch
/// was not behind a run doesn't matter what would have failed on it.
pub fn runs_go_on_as_foreseen<R: Runner>(runner: &R)
    ensures { RunsGoOnAsForeseen (R.may runner.now) }
{}

/// A repaired host runs what is owed: one that failed, or was at work, in the play that goes on, is up by now, and is updated by it, has reported each handler of that play.
pub fn repaired_hosts_run_each_handler<R: Runner>(runner: &R)
    ensures { RepairedHostsRunEachHandler (R.may runner.now) }
{}
