//! Why a report is not taken.
ghost use Rattle.std.specs.Prelude.{◌≡◌};

use crate::done::Done;
use crate::runner::Runner;

/// No claim of this host and step, with these words or this settled outcome, is out, or the runner isn't alike the board's.
#[derive(Drop)]
pub struct Stranger<'r, R: Runner> {
    pub done: Done<'r, R>,
}

impl<'r, R: Runner> Stranger<'r, R> {
    /// The number of the rule that is broken.
    pub fn number(&self) -> u16
        ensures { result ≡ 816 }
    {
        816
    }
}
