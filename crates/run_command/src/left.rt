//! What runs have left.
ghost use Rattle.std.specs.Prelude.{◌≡◌, ◌+◌, ◌-◌, ◌<◌, ◌≤◌, []};
ghost use Rattle.run_command.specs.Lefts.{EndsWithBroken, EndsWithDone};
ghost use Rattle.roll_core.specs.Histories.{log_at};
ghost use Rattle.roll_core.specs.Views.{events_of};

use fleet_states::Status;
use host_track::Counts;
use play_forecast::End;
use play_model::Play;
use roll_core::{Event, History};
use roll_run::{Run, RunFault, RunsFault};
use run_diagnosis::{Call, Played};
use std::alloc::{AllocError, Global};

/// The runs of the plays of a file behind so many, and behind them the one that was broken off, if one was; with the history that has their logs, behind
/// those of so many rolls; and the command that goes on with them, if there is a journal.
#[derive(Clone, Copy)]
pub(crate) struct Left<'r> {
    plays_before: usize,
    done: &'r [Run],
    broken: Option<&'r RunFault>,
    history: &'r History,
    rolls_before: usize,
    pub(crate) call: Option<&'r Call>,
}

impl<'r> Left<'r> {
    /// What runs have left that came to their ends, whose logs the history has behind those of so many rolls.
    pub(crate) fn of_all(
        plays_before: usize,
        done: &'r [Run],
        history: &'r History,
        rolls_before: usize,
        call: Option<&'r Call>,
    ) -> Left<'r>
        requires { EndsWithDone rolls_before done.now history.now }
        ensures history { result.history.now ≡ history.now }
        ensures before { result.rolls_before ≡ rolls_before }
        ensures plays { result.plays_before ≡ plays_before }
    {
        Left {
            plays_before,
            done,
            broken: None,
            history,
            rolls_before,
            call,
        }
    }

    /// The same of runs of which a fault broke the last one off.
    pub(crate) fn of_broken(
        plays_before: usize,
        fault: &'r RunsFault,
        history: &'r History,
        rolls_before: usize,
        call: Option<&'r Call>,
    ) -> Left<'r>
        requires { EndsWithBroken rolls_before fault.now.done.items history.now }
        ensures history { result.history.now ≡ history.now }
        ensures before { result.rolls_before ≡ rolls_before }
        ensures plays { result.plays_before ≡ plays_before }
    {
        Left {
            plays_before,
            done: fault.done.as_slice(),
            broken: Some(&fault.last),
            history,
            rolls_before,
            call,
        }
    }

    /// How the last play ended, if it came to its end.
    pub(crate) fn end(&self) -> Option<End> {
        match (self.broken, self.done.last()) {
            (None, Some(run)) => Some(run.end),
            (_, _) => None,
        }
    }

    /// The status of each host at the end.
    pub(crate) fn statuses(&self) -> &'r [Status] {
        match (self.broken, self.done.last()) {
            (Some(fault), _) => fault.statuses.as_slice(),
            (None, Some(run)) => run.statuses.as_slice(),
            (None, None) => &[],
        }
    }

    /// How the rows of each host were judged in the last play.
    pub(crate) fn counts(&self) -> &'r [Counts] {
        match (self.broken, self.done.last()) {
            (Some(fault), _) => fault.counts.as_slice(),
            (None, Some(run)) => run.counts.as_slice(),
            (None, None) => &[],
        }
    }

    /// The log of the play at this place of the file, from 0; of one that wasn't begun, or stands before these, it is empty.
    fn log(&self, place: usize) -> &'r [Event]
        ensures before { place < self.now.plays_before → events_of result.now ≡ [] }
        ensures own { self.now.plays_before ≤ place → self.now.rolls_before + (place - self.now.plays_before) ≤ 18446744073709551615
            → events_of result.now ≡ log_at self.now.history.now (self.now.rolls_before + (place - self.now.plays_before)) }
    {
        if place < self.plays_before {
            return &[];
        }
        let behind = place - self.plays_before;
        self.history.log(self.rolls_before.saturating_add(behind))
    }

    /// The plays of the file with their logs.
    pub(crate) fn played(
        &self,
        alloc: Global,
        plays: &'r [Play],
    ) -> Result<Vec<Played<'r>>, AllocError> {
        let mut played = Vec::with_capacity(alloc, plays.len())?;
        for place in 0..plays.len() {
            played.push(Played {
                play: &plays[place],
                log: self.log(place),
            })?;
        }
        Ok(played)
    }
}
