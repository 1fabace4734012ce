//! A host that a worker has taken.
ghost use Rattle.std.specs.Prelude.{◌≡◌};

use crate::completion::Completion;
use crate::job::Job;
use down_ledger::Share;
use std::marker::Model;

/// The leave to work on a host of the open batch, with its job and the host's share. There is one for each time that a kernel hands
/// a host out, so it can't be copied. Whoever drops it leaves its host down and its batch open. A clause sees the work of its job.
#[derive(Debug, Drop)]
pub struct Claim {
    pub(crate) share: Share,
    pub(crate) job: Job,
}

impl Model for Claim {
    ghost use Rattle.std.specs.Prelude.{◌≡◌};
    ghost use Rattle.event_log.specs.Told.{Work};

    ghost Value = { Work };

    ghost view = { λ c. c.job };

    ghost invariant = { λ c. c.share.host.index ≡ c.job.host };
}

impl Claim {
    /// What is to be run, and on which host.
    pub fn job(&self) -> &Job
        ensures { result.now ≡ self.now }
    {
        &self.job
    }
}

/// What a kernel hands out.
#[derive(Debug, Drop)]
pub enum Handed {
    /// A program is to run.
    Run(Claim),
    /// None is: the step is skipped, a name has no value, or a word is too long. The step isn't passed until it is reported.
    Settled(Completion),
}
