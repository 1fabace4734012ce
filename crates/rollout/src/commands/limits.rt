//! The command `limits`: from the inventory's bytes to the table.
ghost use Rattle.std.specs.Prelude.{◌≡◌, IfOk, IfErr, OnOk};
ghost use Rattle.rollout.specs.Commands.{TabulatesLimits};
ghost use Rattle.rollout.specs.LimitsText.{IsFleetIn, IsUnread, WritesTable, IsTrueFault};
ghost use Rattle.rollout.specs.Systems.{sources_of};

use crate::fault::Fault;
use crate::source::read_source;
use crate::status::Status;
use crate::system::System;
use bounded_io::Input;
use bumpalo::Bump;
use command_line::Source;
use domains::Fleet;
use inventory_read::read_inventory;
use recap::write_limits;
use std::alloc::Global;
use std::io::Write;

/// Reads the inventory, and writes the table of its limits.
pub fn limits<S: System, I: Input, W: Write>(
    system: &S,
    alloc: Global,
    inventory: Source,
    input: &mut I,
    out: &mut W,
) -> Result<Status, Fault>
    ensures { TabulatesLimits (sources_of (S.known system.now) (I.is_reliable input.old)) inventory (I.remaining input.old) (I.remaining input.new)
        (W.contents out.old) (W.contents out.new) result }
{
    let text = read_source(system, alloc, inventory, input)?;
    limits_text(alloc, text.as_slice(), out)
}

/// The fleet of an inventory. The inventory's tree lives in an arena that is given up here: the fleet owns its names.
pub(crate) fn read_fleet(alloc: Global, inventory: &[u8]) -> Result<Fleet, Fault>
    ensures ok { IfOk result (IsFleetIn inventory.now) }
    ensures err { IfErr result (IsUnread inventory.now) }
{
    let arena = Bump::new(alloc);
    let tree = read_inventory(&arena, alloc, inventory)?;
    Ok(Fleet::build(alloc, &tree)?)
}

/// Writes the table of the limits of the inventory that the bytes say. Nothing goes out before the inventory was accepted;
/// where a write fails, exactly the first bytes of the table went out, as many as the fault says. Writing takes no memory.
pub fn limits_text<W: Write>(alloc: Global, inventory: &[u8], out: &mut W) -> Result<Status, Fault>
    ensures done { IfOk result (λ status. status ≡ Status.Done) }
    ensures ok { OnOk result (WritesTable inventory.now (W.contents out.old) (W.contents out.new)) }
    ensures err { IfErr result (IsTrueFault inventory.now (W.contents out.old) (W.contents out.new)) }
{
    let fleet = read_fleet(alloc, inventory)?;
    match write_limits(&fleet, out) {
        Ok(()) => Ok(Status::Done),
        Err(fault) => Err(Fault::Write(fault)),
    }
}
