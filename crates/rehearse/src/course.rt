//! The course of a play.
ghost use Rattle.std.specs.Prelude.{◌≡◌, []};
ghost use Rattle.play_forecast.specs.Files as files;
ghost use Rattle.rehearse.specs.CourseSteps.{course_of};
ghost use Rattle.rehearse.specs.CourseTexts.{batches_opened};

use fleet_states::Status;
use play_forecast::{Boundary, End};

/// What a play comes to from boundary to boundary, and how it ends at the last of them.
#[derive(Debug, Drop)]
pub struct PlayCourse {
    pub boundaries: Vec<Boundary>,
    pub end: End,
}

impl PlayCourse {
    /// How many batches it opens: one at each boundary but the last.
    pub fn batches(&self) -> usize
        ensures { result ≡ batches_opened (course_of self.now) }
    {
        self.boundaries.len().saturating_sub(1)
    }

    /// The statuses with which it ends.
    pub fn last_statuses(&self) -> &[Status]
        ensures { result.now ≡ files.last_statuses [] self.now.boundaries.items }
    {
        match self.boundaries.last() {
            Some(boundary) => boundary.statuses.as_slice(),
            None => &[],
        }
    }
}
