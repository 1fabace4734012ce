//! Where a run begins in a file of plays.
use roll_run::Start;

/// Where a run begins in a file of plays: behind how many of them, and what the first one that is to run begins with.
#[derive(Drop)]
pub struct Beginning {
    pub plays_before: usize,
    pub start: Start,
}
