//! What a run does where hosts wait and none of them may go down.

#[derive(Clone, Copy, Debug, PartialEq, Eq)]
pub enum OnBlocked {
    /// The run ends there.
    Stop,
    /// The hosts that may not go down are set aside, and the run goes on with the others.
    Hold,
}
