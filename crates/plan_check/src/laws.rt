//! What holds of every plan that is checked.
ghost use Rattle.plan_check.specs.Laws.{NothingIsWrongWithPlans, OneCheckText, PlansAreValid, ValidIsOfPlans};

/// Nothing is wrong with batches exactly where they are a plan.
pub fn nothing_is_wrong_with_plans()
    ensures { NothingIsWrongWithPlans }
{}

/// What is told to be valid is a plan, and the least number that is told is that of the least plan.
pub fn valid_is_told_of_plans()
    ensures { ValidIsOfPlans }
{}

/// Each plan is told to be valid.
pub fn plans_are_told_to_be_valid()
    ensures { PlansAreValid }
{}

/// What is written of a plan is one function of the bytes of the inventory, the playbook and the plan.
pub fn one_check_text()
    ensures { OneCheckText }
{}
