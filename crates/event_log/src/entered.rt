//! What was found of a row that was entered.
use host_track::Judged;

/// How the end of a step was judged on a host; the name without a value that a condition of the step wanted, if it did; and whether the host
/// has failed.
#[derive(Clone, Copy, Debug)]
pub struct Entered<'p> {
    pub judged: Judged,
    pub undefined: Option<&'p str>,
    pub failed: bool,
}
