//! The rolls of a program.
ghost use Rattle.std.specs.Prelude.{◌≡◌, ◌<◌, ◌++◌, ◌∷◌, [], IfErr, IfOk, length, vec_capacity, vec_len};
ghost use Rattle.roll_core.specs.Histories.{log_at, logs_of};
ghost use Rattle.roll_core.specs.Views.{events_of};

use crate::event::Event;
use crate::kernel::keep;
use std::marker::Model;

/// The logs of all rolls, in the order in which they ended. There is one in a program: its `main` makes it, and it can't be copied. Each board takes
/// it and gives it back with its own log behind the others, so that two boards never stand side by side, and no roll is left out. A clause sees the logs.
#[derive(Drop)]
pub struct History {
    logs: Vec<Vec<Event>>,
}

impl Model for History {
    ghost use Rattle.std.specs.Prelude.{List};
    ghost use Rattle.event_log.specs.Events.{Event as Happening};
    ghost use Rattle.roll_core.specs.Histories.{logs_of};

    ghost Value = { List (List Happening) };

    ghost view = { λ h. logs_of h.logs.items };
}

impl History {
    /// Of no roll. Only `main` and tests have what this takes.
    pub fn new(rt: &HostRuntime) -> History
        ensures { result ≡ [] }
    {
        History {
            logs: Vec::new(rt.alloc()),
        }
    }

    /// How many rolls it has.
    pub fn rolls(&self) -> usize
        ensures { result ≡ length self.now }
    {
        self.logs.len()
    }

    /// The log of the roll at this place, from 0; of one that it hasn't, an empty one.
    pub fn log(&self, place: usize) -> &[Event]
        ensures { events_of result.now ≡ log_at self.now place }
    {
        match self.logs.get(place) {
            Some(log) => log.as_slice(),
            None => &[],
        }
    }
}

/// The logs of the rolls before one, with a place for its own.
#[derive(Drop)]
pub(crate) struct Place {
    logs: Vec<Vec<Event>>,
    ghost room: { vec_len logs < vec_capacity logs },
}

impl Place {
    /// Want of memory hands the history back.
    pub(crate) fn new(history: History) -> Result<Place, History>
        ensures ok { IfOk result (λ place. logs_of place.logs.items ≡ history) }
        ensures err { IfErr result (λ back. back ≡ history) }
    {
        let History { mut logs } = history;
        match logs.reserve(1) {
            Ok(()) => Ok(Place { logs }),
            Err(_refused) => Err(History { logs }),
        }
    }

    /// The history with this log behind the others.
    pub(crate) fn fill(self, log: Vec<Event>) -> History
        ensures { result ≡ logs_of self.logs.items ++ events_of log.items ∷ [] }
    {
        let Place { mut logs } = self;
        keep(&mut logs, log);
        History { logs }
    }

    /// The history as it was, where there is no roll.
    pub(crate) fn give_up(self) -> History
        ensures { result ≡ logs_of self.logs.items }
    {
        let Place { logs } = self;
        History { logs }
    }
}
