//! Whoever attends a run for the person who started it.
ghost use Rattle.std.specs.Prelude.{◌≡◌, is_some};

use crate::system::System;
use local_runner::ReporterInbox;
use roll_run::StopControl;
use std::sync::Wait;

/// Ends a run at the first boundary at which a batch was to be opened and the file is there that may end it, and leaves word of what is ahead
/// for whoever tells of the run.
#[derive(Drop)]
pub struct StopFileWatch<'a, S> {
    system: &'a S,
    notes: &'a ReporterInbox,
    stop_file: &'a Option<String>,
}

impl<'a, S> StopFileWatch<'a, S> {
    pub fn new(
        system: &'a S,
        notes: &'a ReporterInbox,
        stop_file: &'a Option<String>,
    ) -> StopFileWatch<'a, S>
        ensures { result.stop_file.now ≡ stop_file.now }
    {
        StopFileWatch {
            system,
            notes,
            stop_file,
        }
    }
}

impl<S: System> StopControl for StopFileWatch<'_, S> {
    ghost asks = { λ attendant. is_some attendant.stop_file.now };

    fn goes_on<H: Wait>(&self, _rt: &H) -> bool {
        match self.stop_file {
            Some(name) => !self.system.is_there(name.as_str()),
            None => true,
        }
    }

    fn plans<H: Wait>(&self, rt: &H, ahead: usize) {
        self.notes.plan(rt, ahead);
    }
}
