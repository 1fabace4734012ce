//! Where a host is with the present step.
ghost use Rattle.std.specs.Prelude.{◌≡◌};
ghost use Rattle.event_log.specs.Turns as spec;

use host_track::StepRequest;

#[derive(Debug, Drop)]
pub(crate) enum Turn {
    /// Nothing is awaited: the step is not due on the host, or the host has reported it, or it is in no open batch.
    Over,
    /// The step is due, and nobody has taken it.
    Due,
    /// A worker has taken it. This is what the step asks of the host.
    Out(StepRequest),
}

impl Turn {
    pub(crate) fn is_awaited(&self) -> bool
        ensures { result ≡ spec.awaits self.now }
    {
        match self {
            Turn::Over => false,
            Turn::Due | Turn::Out(_) => true,
        }
    }
}
