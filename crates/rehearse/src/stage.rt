//! A boundary to which a rehearsal came.
use group_tree::HostId;
use play_forecast::{Boundary, End};

/// A boundary to which a rehearsal came, how the play ended there, if it did, and the hosts that were named to fail in the batch before it.
#[derive(Debug, Drop)]
pub struct Stage {
    pub boundary: Boundary,
    pub end: Option<End>,
    pub failing: Vec<HostId>,
}
