//! What becomes of the hosts of a batch.
ghost use Rattle.std.specs.Prelude.{◌≡◌};
ghost use Rattle.fleet_index.specs.Ids.{host_numbers};
ghost use Rattle.fleet_states.specs.Batches as spec;
ghost use Rattle.fleet_states.specs.Batches.{fails_in, statuses_after};

use crate::counting::failing_step;
use crate::status::Status;
use group_tree::HostId;

/// The status of a host after its batch, which halted at a step, if at one; a step failed on the host, if one did. One
/// that fails behind the halt is halted: it does not come so far.
pub fn status_after(halt: Option<usize>, failing: Option<usize>) -> Status
    ensures { result ≡ spec.status_after halt failing }
{
    match halt {
        None if failing.is_some() => Status::Failed,
        None => Status::Updated,
        Some(halt) => match failing {
            Some(failing) if failing <= halt => Status::Failed,
            _ => Status::Halted,
        },
    }
}

/// Makes the statuses those after the batch, which halted at a step, if at one: of its hosts alone they change. `failing`
/// has for each host of the fleet the step that failed on it, if one did. It takes no memory, and time for the batch alone.
pub fn end_batch(
    statuses: &mut [Status],
    halt: Option<usize>,
    failing: &[Option<usize>],
    batch: &[HostId],
)
    ensures { statuses.new ≡ statuses_after halt (fails_in failing.now) (host_numbers batch.now) statuses.old }
{
    for host in batch {
        if host.index < statuses.len() {
            statuses[host.index] = status_after(halt, failing_step(failing, *host));
        }
    }
}
