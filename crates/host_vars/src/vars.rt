//! What conditions and words may ask of a host.
ghost use Rattle.std.specs.Prelude.{◌≡◌};

use crate::host::HostVariables;
use play_model::Results;
use std::sync::Arc;

/// A host's name, the groups that hold it, its variables, and its registered results. Who begins a play from it shares the variables.
#[derive(Drop)]
pub struct Vars {
    pub(crate) variables: Arc<HostVariables>,
    pub(crate) results: Results,
    /// Whether the play that it begins runs each handler on it: the run that goes on doesn't know what one before it notified.
    pub(crate) owes: bool,
}

impl Vars {
    /// Says whether it owes the handlers of the play that it begins.
    pub fn set_debt(&mut self, owes: bool)
        ensures { self.new ≡ record self.old { owes = owes } }
    {
        self.owes = owes;
    }

    /// Whether it owes the handlers of the play that it begins.
    pub fn owes(&self) -> bool
        ensures { result ≡ self.now.owes }
    {
        self.owes
    }
}
