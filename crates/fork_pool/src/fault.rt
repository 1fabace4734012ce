//! Why a step did not come to its end.
ghost use Rattle.std.specs.Prelude.{◌≡◌};
ghost use Rattle.fork_pool.specs.Faults.{number_of};

/// Why a step did not come to its end. The board that comes back with it continues the one that went in.
#[derive(Clone, Copy, Debug, PartialEq, Eq, Drop)]
pub enum StepFault {
    /// The coordinator found no memory, or a worker could not be started.
    Mem,
    /// A worker found no memory: the least place of those that told so.
    WorkerMem { at: usize },
    /// Replies ended too early, or a host on which the step is due has not reported.
    Mixed,
}

impl StepFault {
    /// The number of what went wrong; want of memory has none.
    pub fn number(&self) -> Option<u16>
        ensures { result ≡ number_of self.now }
    {
        match self {
            StepFault::Mem => None,
            StepFault::WorkerMem { at: _ } => Some(821),
            StepFault::Mixed => Some(822),
        }
    }
}
