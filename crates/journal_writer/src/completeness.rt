//! Whether a run was kept.
ghost use Rattle.std.specs.Prelude.{◌≡◌, Bool, true};

use roll_core::NoObserver;
use roll_run::Recorder;

/// A keeper who tells whether all was kept that was to be.
pub trait IsComplete: Recorder {
    ghost is_whole_now: { Self → Bool };

    fn is_whole(&self) -> bool
        ensures { result ≡ is_whole_now self.now };
}

/// Where nothing is to be kept, all was.
impl IsComplete for NoObserver {
    ghost is_whole_now = { λ _. true };

    fn is_whole(&self) -> bool {
        true
    }
}
