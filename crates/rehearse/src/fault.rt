//! Why a session ends before its commands do.
use bounded_io::WriteFault;
use plan_command::PlanFault;
use std::alloc::AllocError;

/// Why a session ends before its commands do. Whatever ends it, the answers to the lines before went out.
#[derive(Debug, Drop)]
pub enum RehearseFault {
    /// One of the two texts is refused, as `plan` refuses it; it is never a fault of the output. No command was read.
    Refused(PlanFault),
    /// Memory was wanting.
    Memory,
    /// A read of the commands failed, perhaps because a signal interrupted it.
    File,
    /// The commands have more bytes than an input has.
    TooLarge,
    /// A line has more than `MAX_LINE` bytes.
    LongLine,
    /// The answers broke off.
    Write(WriteFault),
}

impl From<AllocError> for RehearseFault {
    ghost use Rattle.std.specs.Prelude.{◌≡◌};
    ghost use Rattle.rehearse.specs.declared.fault.RehearseFault.TheVariants.{Memory};

    ghost from_gives = { λ _ fault. fault ≡ Memory };

    fn from(_refused: AllocError) -> RehearseFault {
        RehearseFault::Memory
    }
}
