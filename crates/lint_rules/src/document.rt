//! The two texts that are looked at.

/// Which of them a path leads through.
#[derive(Clone, Copy, Debug, PartialEq, Eq)]
pub enum Document {
    Inventory,
    Playbook,
}
