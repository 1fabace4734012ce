//! What holds of the texts of inventories and playbooks, whoever reads and writes them.
ghost use Rattle.plan_command.specs.Laws.{OneInventory, OnePlanText};

/// A text says one inventory at most. So what is written of the inventory alone, as the table of its limits, is one
/// function of the text.
pub fn one_inventory()
    ensures { OneInventory }
{}

/// What is written of a plan is one function of the bytes of the inventory and the playbook.
pub fn one_plan_text()
    ensures { OnePlanText }
{}
