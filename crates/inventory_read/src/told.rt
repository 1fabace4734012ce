//! What is found in a text.
ghost use Rattle.std.specs.Prelude.{◌≡◌};
ghost use Rattle.inventory_read.specs.ToldFaults.{is_empty};

use crate::fault::ReadFault;

/// The first faults of a text, and how many more it has.
#[derive(Debug, Drop)]
pub struct Told {
    pub faults: Vec<ReadFault>,
    pub more: usize,
}

impl Told {
    /// Whether the text has no fault.
    pub(crate) fn is_empty(&self) -> bool
        ensures { result ≡ is_empty self.now }
    {
        self.faults.is_empty() && self.more == 0
    }
}
