//! Which results a run that goes on reads though they are gone.
ghost use Rattle.std.specs.Prelude.{◌≡◌, ◌<◌, IfOk, length, option_map};
ghost use Rattle.std.specs.List.{list_any};
ghost use Rattle.journal.specs.Shown.{shown_journal};
ghost use Rattle.resume_state.specs.Resumptions as spec;

use fleet_states::Status;
use journal::Journal;
use play_model::Play;
use result_dependencies::needed_result;
use std::alloc::{AllocError, Global};

/// Whether somebody was updated in the play that goes on, and doesn't run it again.
pub(crate) fn has_updated(journal: &Journal<'_>) -> bool
    ensures { result ≡ spec.has_updated (shown_journal journal.now) }
{
    journal.is_under_way() && any_updated(journal.statuses.as_slice())
}

fn any_updated(statuses: &[Status]) -> bool
    ensures { result ≡ list_any (λ status. spec.is_updated status) statuses.now }
{
    statuses.iter().any(|status| is_updated(*status))
}

fn is_updated(status: Status) -> bool
    ensures { result ≡ spec.is_updated status }
{
    match status {
        Status::Updated => true,
        _ => false,
    }
}

/// The first result that is read of a play before the one that goes on behind so many, or, where it has left hosts that don't run it again, of that too. Only want of memory refuses it.
pub(crate) fn needed_behind<'p>(
    alloc: Global,
    plays: &'p [Play],
    is_left: bool,
    before: usize,
) -> Result<Option<&'p str>, AllocError>
    requires { before < length plays.now }
    ensures { IfOk result (λ needed. option_map (λ name. name.now) needed ≡ spec.needed_behind plays.now is_left before) }
{
    match needed_result(alloc, plays, before) {
        Ok(None) if is_left => needed_result(alloc, plays, before + 1),
        found => found,
    }
}
