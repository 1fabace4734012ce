//! A step that is over on a host.
mod making;

use crate::step_end::StepEnd;
use down_ledger::Share;
use play_model::Registered;
use std::marker::Model;

/// How a step ended on the host of a claim, to be reported, with the row that this leaves, so that a report takes no memory. It can't
/// be copied: no step is reported twice. Whoever drops it leaves its host down and its batch open. A clause sees the host's number, the
/// step, what this had asked for, and how it ended.
#[derive(Debug, Drop)]
pub struct Completion {
    pub(crate) share: Share,
    pub(crate) step: usize,
    pub(crate) way: StepEnd,
    pub(crate) row: Registered,
}

impl Model for Completion {
    ghost use Rattle.roll_core.specs.Ways.{Completed, HasEnded, completed};

    ghost Value = { Completed };

    ghost view = { λ c. completed c.share.host.index c.step c.way };

    ghost invariant = { λ c. HasEnded c.way c.row };
}
