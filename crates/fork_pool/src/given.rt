//! The outcome of a claim.
use crate::ticket::Ticket;

/// The outcome of a claim.
#[derive(Drop)]
pub(crate) enum Given {
    /// Nothing is to be issued now.
    Nobody,
    /// It had no program, and is reported.
    Settled,
    Ticket(Ticket),
}
