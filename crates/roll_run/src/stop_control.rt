//! Whoever attends a run.
ghost use Rattle.std.specs.Prelude.{◌≡◌, Bool, false, true};

use roll_core::NoObserver;
use std::sync::Wait;

/// May have a run end at a boundary.
pub trait StopControl {
    /// Whether the end may be asked for.
    ghost asks: { Self → Bool };

    /// Whether the next batch may be opened. It is asked before each; where it may not, the run ends at this boundary.
    fn goes_on<H: Wait>(&self, rt: &H) -> bool
        ensures { result ≡ false → asks self.now ≡ true };

    /// A batch is next, and the plan has so many from here on, that one among them.
    fn plans<H: Wait>(&self, rt: &H, ahead: usize);
}

impl StopControl for NoObserver {
    ghost asks = { λ _. false };

    fn goes_on<H: Wait>(&self, _rt: &H) -> bool {
        true
    }

    fn plans<H: Wait>(&self, _rt: &H, _ahead: usize) {}
}
