//! Why a rehearsal does not advance.
use group_tree::HostId;
use play_forecast::End;
use std::alloc::{AllocError, AllocFailed};

/// Why a rehearsal does not advance; it stands where it stood.
#[derive(Clone, Copy, Debug, PartialEq, Eq)]
pub enum AdvanceFault {
    /// The play has ended so.
    Over { end: End },
    /// The first of the named hosts that does not stand in the batch that comes next.
    NotInBatch { host: HostId },
    Memory,
}

impl From<AllocError> for AdvanceFault {
    ghost use Rattle.std.specs.Prelude.{◌≡◌};
    ghost use Rattle.rehearse.specs.declared.advance_fault.AdvanceFault.TheVariants.{Memory};

    ghost from_gives = { λ _ fault. fault ≡ Memory };

    fn from(_refused: AllocError) -> AdvanceFault {
        AdvanceFault::Memory
    }
}

impl<T: Drop> From<AllocFailed<T>> for AdvanceFault {
    ghost use Rattle.std.specs.Prelude.{◌≡◌};
    ghost use Rattle.rehearse.specs.declared.advance_fault.AdvanceFault.TheVariants.{Memory};

    ghost from_gives = { λ _ fault. fault ≡ Memory };

    fn from(_refused: AllocFailed<T>) -> AdvanceFault {
        AdvanceFault::Memory
    }
}
