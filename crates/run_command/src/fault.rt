//! Why a playbook was not run to its end, or its recap not written.
use bounded_io::WriteFault;
use plan_command::PlanFault;
use roll_run::Break;
use std::alloc::AllocError;

/// Why a playbook was not run to its end, or its recap not written.
#[derive(Debug, Drop)]
pub enum RunTextFault {
    /// One of the two texts is refused, as `plan` refuses it; it is never a fault of the output. Nothing was run.
    Refused(PlanFault),
    /// Memory was wanting before anything was run.
    Memory,
    /// The run was broken off; its recap went out as far as the run came.
    Broken(Break),
    /// The recap broke off, also where the run had been broken off before.
    Write(WriteFault),
}

impl From<AllocError> for RunTextFault {
    ghost use Rattle.std.specs.Prelude.{◌≡◌};
    ghost use Rattle.run_command.specs.declared.fault.RunTextFault.TheVariants.{Memory};

    ghost from_gives = { λ _ fault. fault ≡ Memory };

    fn from(_refused: AllocError) -> RunTextFault {
        RunTextFault::Memory
    }
}
