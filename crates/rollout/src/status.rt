//! How the program ends.
ghost use Rattle.std.specs.Prelude.{◌≡◌};
ghost use Rattle.rollout.specs.Status.{code_of};

use command_preview::WordsEnd;
use lint_rules::LintEnd;
use plan_check::CheckEnd;
use plan_command::End;
use rehearse::CourseEnd;
use run_command::RunEnd;

/// The end of the program, as its exit status tells it.
#[derive(Clone, Copy, Debug, PartialEq, Eq)]
pub enum Status {
    /// What was asked for was done.
    Done,
    /// The line, an input or a write was refused, and nothing was started; a text that is checked is no plan; or there are faults or warnings.
    Refused,
    /// A run came to its end, or would, and a host has failed; or a plan that is checked is longer than the least.
    Failed,
    /// Hosts wait in a group that has no room, or a run set hosts aside.
    Blocked,
    /// Too many hosts of a batch failed, or all of them.
    Stopped,
    /// Memory was wanting.
    Memory,
    /// A run ended before its plays did.
    BrokenOff,
    /// By its journal's lock a run still goes on.
    Running,
}

impl Status {
    pub fn code(self) -> u8
        ensures { result ≡ code_of self }
    {
        match self {
            Status::Done => 0,
            Status::Refused => 1,
            Status::Failed => 2,
            Status::Blocked => 3,
            Status::Stopped => 4,
            Status::Memory => 5,
            Status::BrokenOff => 6,
            Status::Running => 7,
        }
    }
}

impl From<End> for Status {
    ghost use Rattle.std.specs.Prelude.{◌≡◌};
    ghost use Rattle.rollout.specs.Status.{status_of_end};

    ghost from_gives = { λ end status. status ≡ status_of_end end };

    fn from(end: End) -> Status {
        match end {
            End::Planned => Status::Done,
            End::Blocked => Status::Blocked,
        }
    }
}

impl From<RunEnd> for Status {
    ghost use Rattle.std.specs.Prelude.{◌≡◌};
    ghost use Rattle.rollout.specs.Status.{status_of_run};

    ghost from_gives = { λ end status. status ≡ status_of_run end };

    fn from(end: RunEnd) -> Status {
        match end {
            RunEnd::Done => Status::Done,
            RunEnd::Failed => Status::Failed,
            RunEnd::Blocked => Status::Blocked,
            RunEnd::Stopped => Status::Stopped,
        }
    }
}

impl From<CheckEnd> for Status {
    ghost use Rattle.std.specs.Prelude.{◌≡◌};
    ghost use Rattle.rollout.specs.Status.{status_of_check};

    ghost from_gives = { λ end status. status ≡ status_of_check end };

    fn from(end: CheckEnd) -> Status {
        match end {
            CheckEnd::Least => Status::Done,
            CheckEnd::Longer => Status::Failed,
            CheckEnd::Wrong => Status::Refused,
            CheckEnd::Blocked => Status::Blocked,
        }
    }
}

impl From<WordsEnd> for Status {
    ghost use Rattle.std.specs.Prelude.{◌≡◌};
    ghost use Rattle.rollout.specs.Status.{status_of_words};

    ghost from_gives = { λ end status. status ≡ status_of_words end };

    fn from(end: WordsEnd) -> Status {
        match end {
            WordsEnd::Sure => Status::Done,
            WordsEnd::Fails => Status::Failed,
        }
    }
}

impl From<LintEnd> for Status {
    ghost use Rattle.std.specs.Prelude.{◌≡◌};
    ghost use Rattle.rollout.specs.Status.{status_of_notes};

    ghost from_gives = { λ end status. status ≡ status_of_notes end };

    fn from(end: LintEnd) -> Status {
        match end {
            LintEnd::Clean => Status::Done,
            LintEnd::Noted => Status::Refused,
        }
    }
}

impl From<CourseEnd> for Status {
    ghost use Rattle.std.specs.Prelude.{◌≡◌};
    ghost use Rattle.rollout.specs.Status.{status_of_course};

    ghost from_gives = { λ end status. status ≡ status_of_course end };

    fn from(end: CourseEnd) -> Status {
        match end {
            CourseEnd::Done => Status::Done,
            CourseEnd::Failed => Status::Failed,
            CourseEnd::Blocked => Status::Blocked,
            CourseEnd::Stopped => Status::Stopped,
        }
    }
}
