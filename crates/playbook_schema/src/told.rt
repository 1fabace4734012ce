//! What is found in a text.
ghost use Rattle.std.specs.Prelude.{◌≡◌};
ghost use Rattle.playbook_schema.specs.ToldFaults.{is_empty};

use crate::fault::PlayFault;

/// The first faults of a playbook's text, in the order in which they are told, and how many more it has.
#[derive(Debug, Drop)]
pub struct Told {
    pub faults: Vec<PlayFault>,
    pub more: usize,
}

impl Told {
    /// Whether the text has no fault.
    pub fn is_empty(&self) -> bool
        ensures { result ≡ is_empty self.now }
    {
        self.faults.is_empty() && self.more == 0
    }
}
