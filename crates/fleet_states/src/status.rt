//! What is known of a host.
ghost use Rattle.std.specs.Prelude.{◌≡◌};
ghost use Rattle.fleet_states.specs.Statuses.{is_down, is_waiting, status_at};

use group_tree::HostId;

/// A host that is running, failed, halted or off is down.
#[derive(Clone, Copy, Debug, PartialEq, Eq)]
pub enum Status {
    /// Up, and no roll is for it.
    Idle,
    /// Up, and its turn is to come.
    Waiting,
    /// At work in the open batch.
    Running,
    Updated,
    Failed,
    /// Not updated, since its batch was halted.
    Halted,
    /// Down from the start.
    Off,
    /// Up, and set aside: its turn does not come.
    Held,
}

impl Status {
    pub fn is_down(self) -> bool
        ensures { result ≡ is_down self }
    {
        matches!(
            self,
            Status::Running | Status::Failed | Status::Halted | Status::Off
        )
    }

    pub fn is_waiting(self) -> bool
        ensures { result ≡ is_waiting self }
    {
        matches!(self, Status::Waiting)
    }
}

/// The status of a host; a number that no host has is idle.
pub fn status_of(statuses: &[Status], host: HostId) -> Status
    ensures { result ≡ status_at statuses.now host.index }
{
    match statuses.get(host.index) {
        Some(status) => *status,
        None => Status::Idle,
    }
}
