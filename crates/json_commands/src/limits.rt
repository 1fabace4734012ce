//! From the bytes of an inventory to its limits.
ghost use Rattle.std.specs.Prelude.{IfErr, OnOk};
ghost use Rattle.json_commands.specs.LimitsTexts.{IsTrueLimitsFault, WritesLimits};

use json_output::write_limits_json;
use plan_command::{PlanFault, read_fleet};
use std::alloc::Global;
use std::io::Write;

/// Writes the limits of the inventory that the bytes say, as a run begins, as one JSON object. Nothing goes out before the inventory was
/// accepted; where a write fails, exactly the first bytes of the object went out, as many as the fault says. Writing takes no memory.
#[tactic(auto, using(crate::proofs::JsonLemmas::unread_limits))]
pub fn limits_json<W: Write>(alloc: Global, inventory: &[u8], out: &mut W) -> Result<(), PlanFault>
    ensures ok { OnOk result (WritesLimits inventory.now (W.contents out.old) (W.contents out.new)) }
    ensures err { IfErr result (IsTrueLimitsFault inventory.now (W.contents out.old) (W.contents out.new)) }
{
    let fleet = match read_fleet(alloc, inventory) {
        Ok(fleet) => fleet,
        Err(fault) => return Err(fault),
    };
    match write_limits_json(&fleet, out) {
        Ok(()) => Ok(()),
        Err(fault) => Err(PlanFault::Write(fault)),
    }
}
