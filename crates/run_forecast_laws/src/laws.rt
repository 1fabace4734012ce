//! What holds of every rehearsal, every course, and every run of its plays.
ghost use Rattle.run_forecast_laws.specs.Answered.{BrokenRunsGoAsAnswered, RunsGoAsAnswered};
ghost use Rattle.run_forecast_laws.specs.Courses.{RunsOpenTheirCourses};
ghost use Rattle.run_forecast_laws.specs.Laws.{BrokenRunsGoAsRehearsed, RunsGoAsRehearsed};

use roll_core::Runner;

/// Every run of a play, with any number of workers, whose hosts fail as they were named in a rehearsal of it goes the rehearsed way: the
/// boundaries of the rehearsal are its first ones, and where the rehearsal has come to an end, all of them, with that end. What hosts do whose batch was not rehearsed doesn't
/// matter. A run that a fault broke off went that way as far as it came.
pub fn runs_go_as_rehearsed<R: Runner>(runner: &R)
    ensures runs { RunsGoAsRehearsed (R.may runner.now) }
    ensures broken { BrokenRunsGoAsRehearsed (R.may runner.now) }
{}

/// The runs of a file of plays, with any number of workers, open what its course says in which the same hosts fail at the same steps: the course that `plan --forecast` prints has
/// the boundary lines and the ends of their recaps. So do runs that go on in the midst of a file, by the course from the statuses with which they go on. Of a host whose batch was not behind a run doesn't matter what would have failed on it.
pub fn runs_open_their_courses<R: Runner>(runner: &R)
    ensures { RunsOpenTheirCourses (R.may runner.now) }
{}

/// Of the bytes of an inventory and of a playbook: whatever a session answered to a line, in lines or in JSON, every run of them with any number of workers, in which of the batches by which the session
/// had gone on behind the answer just the named hosts fail, at the first step, goes so. It opened those batches first, in that order; it stood at the boundary to which the session had come, with the
/// same plan or the group that blocks it; it had its end there where the session told one, and that end; and the answer's bytes are, in either form, those of the answer that the run itself gives: the
/// batches that it opened, its plan, the states of its hosts and its end. Its recap in lines begins with the lines of these boundaries. What hosts do whose batch the session had not come to doesn't
/// matter. A run that a fault broke off went that way as far as it came.
pub fn runs_go_as_answered<R: Runner>(runner: &R)
    ensures runs { RunsGoAsAnswered (R.may runner.now) }
    ensures broken { BrokenRunsGoAsAnswered (R.may runner.now) }
{}
