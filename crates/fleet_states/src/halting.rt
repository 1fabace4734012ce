//! When a batch halts.
ghost use Rattle.std.specs.Prelude.{◌≡◌, ◌≤◌, ◌*◌, nat_lt, Some};
ghost use Rattle.fleet_index.specs.Ids.{host_numbers};
ghost use Rattle.fleet_states.specs.Batches as spec;
ghost use Rattle.fleet_states.specs.Batches.{fails_in};

use crate::counting::failed_by;
use group_tree::{HostId, Percentage};

/// Returns whether more than the percentage of a batch of this size has failed, if there is a percentage. Exactly the
/// percentage is not too many.
pub fn is_past(percentage: Option<Percentage>, failed: u32, size: u32) -> bool
    ensures { result ≡ spec.is_past percentage failed size }
{
    match percentage {
        Some(percentage) => is_past_share(percentage.value(), u64::from(failed), u64::from(size)),
        None => false,
    }
}

fn is_past_share(percentage: u8, failed: u64, size: u64) -> bool
    requires { percentage ≤ 100 }
    ensures { result ≡ nat_lt (percentage * size) (100 * failed) }
{
    u128::from(percentage) * u128::from(size) < 100 * u128::from(failed)
}

/// Returns the first of the steps at which the batch halts, if it halts. `failing` has, for each host of the fleet,
/// the step that failed on it, if one did. Does not allocate.
pub fn halt(
    failing: &[Option<usize>],
    batch: &[HostId],
    percentage: Option<Percentage>,
    steps: usize,
) -> Option<usize>
    ensures { result ≡ spec.halt (fails_in failing.now) (host_numbers batch.now) percentage steps }
{
    match percentage {
        Some(percentage) => halt_at_share(failing, batch, percentage, steps),
        None => None,
    }
}

fn halt_at_share(
    failing: &[Option<usize>],
    batch: &[HostId],
    percentage: Percentage,
    steps: usize,
) -> Option<usize>
    ensures { result ≡ spec.halt (fails_in failing.now) (host_numbers batch.now) (Some percentage) steps }
{
    for step in 0..steps {
        if halts_at(failing, batch, percentage, step) {
            return Some(step);
        }
    }
    None
}

fn halts_at(
    failing: &[Option<usize>],
    batch: &[HostId],
    percentage: Percentage,
    step: usize,
) -> bool
    ensures { result ≡ spec.halts_at (fails_in failing.now) (host_numbers batch.now) (Some percentage) step }
{
    let failed = failed_by(failing, batch, step);
    is_past_share(percentage.value(), failed as u64, batch.len() as u64)
}
