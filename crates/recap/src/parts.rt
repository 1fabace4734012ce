//! What a recap shows of a play's run.
use fleet_states::Status;
use host_track::Counts;
use play_forecast::{Boundary, End};

/// What a recap shows of a play's run: its boundaries, of which so many opened a batch; each host's status at the end, and how its rows
/// are judged; and the end, which a run that a fault broke off has not.
#[derive(Clone, Copy, Debug)]
pub struct Recap<'r> {
    pub boundaries: &'r [Boundary],
    pub opened: usize,
    pub statuses: &'r [Status],
    pub counts: &'r [Counts],
    pub end: Option<End>,
}
