//! Why a text is no condition.
ghost use Rattle.std.specs.Prelude.{◌≡◌};
ghost use Rattle.cond.specs.Faults.{number_of};

use std::alloc::{AllocError, AllocFailed};
use thiserror::Error;

/// Why a text is no condition: the first rule that it breaks, and the place, in bytes from 0, where it does.
#[derive(Clone, Copy, Debug, PartialEq, Eq, Error)]
pub enum CondFault {
    /// No token stands there, or a text in quotes begins there and doesn't end.
    #[error("no token at byte {at}")]
    BadToken { at: usize },
    /// The token there continues no condition, or the text ends too early.
    #[error("unexpected at byte {at}")]
    Unexpected { at: usize },
    /// The bracket or `not` there is nested over 32 deep.
    #[error("nested too deep at byte {at}")]
    TooDeep { at: usize },
    /// The text is longer than 4,096 bytes.
    #[error("longer than 4096 bytes")]
    TooLong { at: usize },
    #[error("out of memory")]
    Memory,
}

impl CondFault {
    /// The number of the rule that is broken; want of memory breaks none.
    pub fn number(&self) -> Option<u16>
        ensures { result ≡ number_of self.now }
    {
        match self {
            CondFault::BadToken { .. } => Some(501),
            CondFault::Unexpected { .. } => Some(502),
            CondFault::TooDeep { .. } => Some(503),
            CondFault::TooLong { .. } => Some(504),
            CondFault::Memory => None,
        }
    }
}

impl From<AllocError> for CondFault {
    ghost use Rattle.std.specs.Prelude.{◌≡◌};
    ghost use Rattle.cond.specs.declared.fault.CondFault.TheVariants.{Memory};

    ghost from_gives = { λ _ fault. fault ≡ Memory };

    fn from(_refused: AllocError) -> CondFault {
        CondFault::Memory
    }
}

impl<T: Drop> From<AllocFailed<T>> for CondFault {
    ghost use Rattle.std.specs.Prelude.{◌≡◌};
    ghost use Rattle.cond.specs.declared.fault.CondFault.TheVariants.{Memory};

    ghost from_gives = { λ _ fault. fault ≡ Memory };

    fn from(_refused: AllocFailed<T>) -> CondFault {
        CondFault::Memory
    }
}
