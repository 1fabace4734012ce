//! What holds of each board.
ghost use Rattle.std.specs.Prelude.{◌≡◌, true};
ghost use Rattle.fleet_states.specs.Statuses.{are_distinct};
ghost use Rattle.roll_core.specs.Views.{state_of};
ghost use Rattle.fork_pool.specs.Steps.{FrontsHaveFewOut};

use roll_core::{Board, Observer, Runner};
use std::sync::ledger::Ledger;

/// At no front of its log are more claims out than it has forks.
pub fn at_most_forks_are_out<R: Runner, L: Ledger, W: Observer>(board: &Board<'_, R, L, W>)
    ensures { FrontsHaveFewOut board.now }
{
    let _log = board.log();
}

/// No claim of a host is out beside another of the same host.
pub(crate) fn nobody_is_out_twice<R: Runner, L: Ledger, W: Observer>(board: &Board<'_, R, L, W>)
    ensures { are_distinct (state_of board.now.kernel).out ≡ true }
{
    let _log = board.log();
}
