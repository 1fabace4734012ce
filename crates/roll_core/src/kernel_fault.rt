//! Why a batch is not opened, a host not set aside, a step not over, a report not taken.
ghost use Rattle.std.specs.Prelude.{◌≡◌};
ghost use Rattle.roll_core.specs.Refusals.{number_of};
ghost use Rattle.roll_core.specs.HoldRefusals.{hold_number_of};

use group_tree::{GroupId, HostId};
use std::alloc::AllocError;

/// Why a batch is not opened: the first rule that it breaks, in this order.
#[derive(Clone, Copy, Debug, PartialEq, Eq)]
pub enum OpenFault {
    /// A batch is open.
    NotBoundary,
    /// The first host of the list that is not waiting, or stood in the list before. A number that no host has is not
    /// waiting.
    NotWaiting { host: HostId },
    /// The list names more of the group's members than it has room for. As the hosts go down one by one, in the order of the
    /// list, it is the outermost group without room for the first host that finds none.
    Full { group: GroupId },
    Memory,
}

impl OpenFault {
    /// The number of the rule that is broken; want of memory breaks none.
    pub fn number(&self) -> Option<u16>
        ensures { result ≡ number_of self.now }
    {
        match self {
            OpenFault::NotBoundary => Some(811),
            OpenFault::NotWaiting { .. } => Some(812),
            OpenFault::Full { .. } => Some(813),
            OpenFault::Memory => None,
        }
    }
}

impl From<AllocError> for OpenFault {
    ghost use Rattle.std.specs.Prelude.{◌≡◌};
    ghost use Rattle.roll_core.specs.declared.kernel_fault.OpenFault.TheVariants.{Memory};

    ghost from_gives = { λ _ fault. fault ≡ Memory };

    fn from(_refused: AllocError) -> OpenFault {
        OpenFault::Memory
    }
}

/// Why hosts are not set aside: the first rule that is broken, in this order.
#[derive(Clone, Copy, Debug, PartialEq, Eq)]
pub enum HoldFault {
    /// A batch is open.
    NotBoundary,
    /// The first host of the list that is not waiting, or stood in the list before. A number that no host has is not
    /// waiting.
    NotWaiting { host: HostId },
    /// The first host of the list for which each group that holds it has room.
    HasRoom { host: HostId },
    Memory,
}

impl HoldFault {
    /// The number of the rule that is broken; want of memory breaks none.
    pub fn number(&self) -> Option<u16>
        ensures { result ≡ hold_number_of self.now }
    {
        match self {
            HoldFault::NotBoundary => Some(811),
            HoldFault::NotWaiting { .. } => Some(812),
            HoldFault::HasRoom { .. } => Some(815),
            HoldFault::Memory => None,
        }
    }
}

impl From<AllocError> for HoldFault {
    ghost use Rattle.std.specs.Prelude.{◌≡◌};
    ghost use Rattle.roll_core.specs.declared.kernel_fault.HoldFault.TheVariants.{Memory};

    ghost from_gives = { λ _ fault. fault ≡ Memory };

    fn from(_refused: AllocError) -> HoldFault {
        HoldFault::Memory
    }
}

/// A host of the batch on which the step is due has not reported it.
#[derive(Clone, Copy, Debug, PartialEq, Eq)]
pub struct Busy {
    pub host: HostId,
}

impl Busy {
    /// The number of the rule that is broken.
    pub fn number(&self) -> u16
        ensures { result ≡ 814 }
    {
        814
    }
}
