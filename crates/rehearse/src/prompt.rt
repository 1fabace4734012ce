//! Prompting for commands.

/// Is told that a session waits for commands. What it makes of that changes nothing of the session.
pub trait Prompt {
    /// The next commands are awaited; the answers to those before were sent.
    fn prompt(&self);
}
