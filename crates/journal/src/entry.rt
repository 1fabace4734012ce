//! What a journal says, entry by entry.
use fleet_states::Status;
use group_tree::HostId;
use play_forecast::End;

/// Which run a journal is of.
#[derive(Clone, Copy)]
pub struct Head<'t> {
    /// The digest of the inventory's text: 64 digits, `0` to `9` and `a` to `f`.
    pub inventory: &'t [u8],
    /// The digest of the playbook's text.
    pub playbook: &'t [u8],
    /// How many plays the playbook has.
    pub plays: u16,
}

/// What became of a host of a batch.
#[derive(Clone, Copy)]
pub struct Outcome {
    pub host: HostId,
    pub status: Status,
}

/// One line of a journal.
#[derive(Drop)]
pub(crate) enum Entry<'t> {
    Begun(Head<'t>),
    /// The next play begins, and these hosts wait.
    Play(Vec<HostId>),
    /// These are set aside.
    Held(Vec<HostId>),
    /// A batch of these opens.
    Opened(Vec<HostId>),
    /// The batch is over.
    Closed(Vec<Outcome>),
    /// The play has ended.
    Ended(End),
    /// The run, which was broken off, is resumed, and these are up by now.
    Resumed(Vec<HostId>),
    /// The play in which it broke off goes on, and these hosts wait.
    Again(Vec<HostId>),
}
