//! What happens in a roll.
ghost use Rattle.std.specs.Prelude.{◌≡◌};
ghost use Rattle.event_log.specs.States.{State};
ghost use Rattle.event_log.specs.Works.{phase_of};
ghost use Rattle.roll_core.specs.Tellings as spec;

use crate::job::Job;
use event_log::Stage;
use fleet_states::Status;
use group_tree::HostId;
use host_track::{Judged, Outcome};

/// What has happened, as whoever watches a roll is told of it. Steps are counted from 0.
#[derive(Clone, Copy)]
pub enum Notification<'a> {
    /// These hosts were set aside.
    Aside {
        hosts: &'a [HostId],
    },
    /// A batch is open; the statuses are those of now.
    Opening {
        batch: &'a [HostId],
        statuses: &'a [Status],
    },
    /// A program is to begin.
    Begin {
        job: &'a Job,
    },
    /// A step ended so on a host, and was judged so. `undefined` is the name without a value for which it has failed, if it was for one: of
    /// `when` or of a word, and then no program was run; or of a condition that was asked behind the program.
    Row {
        host: HostId,
        step: usize,
        outcome: &'a Outcome,
        undefined: Option<&'a str>,
        judged: Judged,
    },
    /// A batch is over, and is to be closed: the statuses are as its steps left them. `halt` is the step at which it halted, if it did.
    Closing {
        batch: &'a [HostId],
        statuses: &'a [Status],
        halt: Option<usize>,
    },
}

/// The step at which a batch halted, if it did.
pub fn halt_of(stage: Stage) -> Option<usize>
    ensures { result ≡ spec.halt_in (phase_of stage) }
{
    match stage {
        Stage::Between => None,
        Stage::Working(_) => None,
        Stage::Ended(halt) => halt,
    }
}
