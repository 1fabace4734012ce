//! The leave to run a program.
ghost use Rattle.roll_core.specs.RunPermits.{IsGoOf};

use crate::job::Job;
use group_tree::HostId;
use std::marker::Model;

/// The leave to run the program of one host and step, once: a board makes it beside the claim, `run` takes it, and it can't be copied. A
/// clause sees the host's number and the step.
#[derive(Debug, Drop)]
pub struct Go {
    host: HostId,
    step: usize,
}

impl Model for Go {
    ghost use Rattle.roll_core.specs.RunPermits.{Leave};

    ghost Value = { Leave };

    ghost view = { λ g. record { host = g.host.index; step = g.step } };
}

impl Go {
    /// For the program of this job.
    pub(crate) fn of(job: &Job) -> Go
        ensures { IsGoOf result job.now }
    {
        Go {
            host: job.host(),
            step: job.step(),
        }
    }
}
