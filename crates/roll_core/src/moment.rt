//! A moment of a roll.
ghost use Rattle.std.specs.Prelude.{◌≡◌};
ghost use Rattle.roll_core.specs.Views.{events_of};

use crate::event::Event;
use std::marker::Model;

/// A board as it stands: it can't move on as long as somebody has this, which only the board gives. A clause sees its log.
#[derive(Drop)]
pub struct Moment<'m> {
    log: &'m [Event],
}

impl<'m> Model for Moment<'m> {
    ghost use Rattle.std.specs.Prelude.{List};
    ghost use Rattle.event_log.specs.Events.{Event as Happening};
    ghost use Rattle.roll_core.specs.Views.{events_of};

    ghost Value = { List Happening };

    ghost view = { λ m. events_of m.log.now };
}

impl<'m> Moment<'m> {
    pub(crate) fn of(log: &'m [Event]) -> Moment<'m>
        ensures { result ≡ events_of log.now }
    {
        Moment { log }
    }
}
