//! The hosts of an inventory's text.
ghost use Rattle.std.specs.Prelude.{IfErr, IfOk};
ghost use Rattle.run_command.specs.Inputs.{AreHostsIn, IsNoInventory};

use crate::fault::RunTextFault;
use bumpalo::Bump;
use domains::Fleet;
use host_vars::{Vars, layered_all};
use inventory_read::read_inventory;
use plan_command::PlanFault;
use std::alloc::Global;

/// A fleet, and of each of its hosts the variables.
#[derive(Drop)]
pub(crate) struct Hosts {
    pub(crate) fleet: Fleet,
    pub(crate) vars: Vec<Vars>,
}

/// The fleet of an inventory, and its hosts with their variables. The inventory's tree lives in an arena that is given up here: the fleet
/// and the variables own what they need.
pub(crate) fn read_hosts(alloc: Global, inventory: &[u8]) -> Result<Hosts, RunTextFault>
    ensures ok { IfOk result (λ hosts. AreHostsIn inventory.now hosts.fleet hosts.vars.items) }
    ensures err { IfErr result (IsNoInventory inventory.now) }
{
    let arena = Bump::new(alloc);
    let tree = match read_inventory(&arena, alloc, inventory) {
        Ok(tree) => tree,
        Err(fault) => return Err(RunTextFault::Refused(PlanFault::Read(fault))),
    };
    let fleet = match Fleet::build(alloc, &tree) {
        Ok(fleet) => fleet,
        Err(fault) => return Err(RunTextFault::Refused(PlanFault::Fleet(fault))),
    };
    let vars = layered_all(alloc, &tree, &fleet)?;
    Ok(Hosts { fleet, vars })
}
