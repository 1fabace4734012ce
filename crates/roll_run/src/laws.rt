//! What holds of every run.
ghost use Rattle.roll_run.specs.Laws.{BrokenRunsAreSafe, NoWorkerAtBoundaries, RunsAreCourses, RunsAreSafe};

use roll_core::Runner;

/// The runs of a file of plays are its courses: each play begins where the run before it ended, and takes the course that its hosts by
/// themselves say, where its programs end as its own log tells. How the programs of one play end binds those of no other.
pub fn runs_are_courses<R: Runner>(runner: &R)
    ensures { RunsAreCourses (R.may runner.now) }
{}

/// A run that is broken off while no batch is open was asked to end, or its keeper refused a batch, or memory was wanting, and no worker's.
pub fn no_worker_fails_at_boundaries<R: Runner>(runner: &R)
    ensures { NoWorkerAtBoundaries (R.may runner.now) }
{}

/// The logs of the runs of a file of plays are those of safe rolls, each behind the one before it: each is legal, and at no moment of any of them is a
/// group over its limit, however the runs ended.
pub fn runs_are_safe<R: Runner>(runner: &R)
    ensures ended { RunsAreSafe (R.may runner.now) }
    ensures broken { BrokenRunsAreSafe (R.may runner.now) }
{}
