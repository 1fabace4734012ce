//! Why nothing is told of a plan.
use plan_command::PlanFault;

/// What is wrong with one of the three texts, or with the output; of several faults the first in the order inventory, playbook, patterns, plan, output.
#[derive(Debug, Drop)]
pub enum CheckFault {
    /// The inventory or the playbook is refused as `plan` refuses it, the output broke off, or memory is wanting.
    Plan(PlanFault),
    /// The line of this number, from 1, is the first of the plan's text that is none of a plan.
    BadPlan { line: usize },
}
