//! What a play begins with.
use fleet_states::Status;
use host_vars::Vars;

/// What a play begins with: of each host its status, and its variables with the results that earlier plays registered.
#[derive(Drop)]
pub struct Start {
    pub statuses: Vec<Status>,
    pub vars: Vec<Vars>,
}
