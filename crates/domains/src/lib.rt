//! A fleet: the hosts of an inventory, its groups with their members, and how limits nest.
#![tactic(auto)]

mod crossings;
mod fault;
mod faults;
mod finding;
mod fleet;
mod laws;
mod lists;
mod marks;
mod names;
mod numbers;
mod off_hosts;
mod pattern_fault;
mod rows;
mod starts;
mod target;
mod walk;

pub use fault::FleetFault;
pub use faults::FleetTold;
pub use fleet::{Fleet, HOSTS_BOUND};
pub use laws::one_fleet;
pub use pattern_fault::PatternFault;
pub use rows::{HostRow, list_rows};
pub use walk::{WalkedGroup, list_walk};
