//! What a worker answers to a ticket.
use roll_core::{Claim, Done, Runner};

/// From the worker at this place: how the program of its ticket ended, or the claim of the ticket where the worker found no memory. The
/// program may have run then, and is not run again, since its leave is used up.
#[derive(Drop)]
pub(crate) struct Reply<'f, R: Runner> {
    pub(crate) place: usize,
    pub(crate) done: Result<Done<'f, R>, Claim>,
}
