//! A run that was broken off.
ghost use Rattle.std.specs.Prelude.{◌≡◌, []};
ghost use Rattle.roll_run.specs.Plays.{IsNotBegun};

use crate::run::Run;
use fleet_states::Status;
use fork_pool::StepFault;
use host_track::Counts;
use play_forecast::Boundary;
use std::alloc::Global;

/// Why a run was broken off.
#[derive(Clone, Copy, Debug, PartialEq, Eq, Drop)]
pub enum Break {
    /// A fault in a step, or want of memory.
    Fault(StepFault),
    /// Whoever attends the run had it end at a boundary.
    Asked,
    /// The keeper refused the next batch, which was not opened.
    Unkept,
}

/// A run that was broken off: why; its boundaries, of which the first `opened` ones opened a batch; of each host its status, and how its rows were
/// judged. Its log is in the history. The hosts of a batch that is open are down. Where the run had no board yet, it has no log, and the list of
/// counts is empty: no host has a row then.
#[derive(Drop)]
pub struct RunFault {
    pub why: Break,
    pub boundaries: Vec<Boundary>,
    pub opened: usize,
    pub statuses: Vec<Status>,
    pub counts: Vec<Counts>,
}

impl RunFault {
    /// Memory was wanting before there was a board: the statuses are those that were known then, which are what the run was to begin with, or, where
    /// that couldn't be made, what the run before it left.
    pub(crate) fn before_a_log(alloc: Global, statuses: Vec<Status>) -> RunFault
        ensures { IsNotBegun statuses.items result [] }
    {
        RunFault {
            why: Break::Fault(StepFault::Mem),
            boundaries: Vec::new(alloc),
            opened: 0,
            statuses,
            counts: Vec::new(alloc),
        }
    }
}

/// A run of several plays that was broken off: the runs of the plays before, each finished, and what the last one came to.
#[derive(Drop)]
pub struct RunsFault {
    pub done: Vec<Run>,
    pub last: RunFault,
}

impl RunsFault {
    /// Memory was wanting before the first play had a board.
    pub(crate) fn before_a_log(alloc: Global, statuses: Vec<Status>) -> RunsFault
        ensures done { result.done.items ≡ [] }
        ensures last { IsNotBegun statuses.items result.last [] }
    {
        RunsFault {
            done: Vec::new(alloc),
            last: RunFault::before_a_log(alloc, statuses),
        }
    }
}
