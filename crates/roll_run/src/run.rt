//! What a run of a play leaves.
use fleet_states::Status;
use host_track::Counts;
use host_vars::Vars;
use play_forecast::{Boundary, End};

/// What a run of a play leaves beside its log, which is in the history: its boundaries, of which each but the last opened a batch; of each host its
/// status, its variables with the results that it registered, and how its rows were judged; and how the play ended.
#[derive(Drop)]
pub struct Run {
    pub boundaries: Vec<Boundary>,
    pub statuses: Vec<Status>,
    pub vars: Vec<Vars>,
    pub counts: Vec<Counts>,
    pub end: End,
}
