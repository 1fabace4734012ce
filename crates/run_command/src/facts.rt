//! What a recap tells of a play's run.
ghost use Rattle.std.specs.Prelude.{◌≡◌};
ghost use Rattle.json_output.specs.PlayJson.{facts_of};
ghost use Rattle.run_command.specs.Recaps.{fault_facts, run_facts};

use recap::Recap;
use roll_run::{Run, RunFault};

/// What is told of a run that came to its end: each boundary but the last opened a batch.
pub(crate) fn recap_of(run: &Run) -> Recap<'_>
    ensures { facts_of result ≡ run_facts run.now }
{
    Recap {
        boundaries: run.boundaries.as_slice(),
        opened: run.boundaries.len().saturating_sub(1),
        statuses: run.statuses.as_slice(),
        counts: run.counts.as_slice(),
        end: Some(run.end),
    }
}

/// What is told of a run that a fault broke off.
pub(crate) fn recap_of_fault(fault: &RunFault) -> Recap<'_>
    ensures { facts_of result ≡ fault_facts fault.now }
{
    Recap {
        boundaries: fault.boundaries.as_slice(),
        opened: fault.opened,
        statuses: fault.statuses.as_slice(),
        counts: fault.counts.as_slice(),
        end: None,
    }
}
