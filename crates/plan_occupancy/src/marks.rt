//! The group that is marked.
ghost use Rattle.std.specs.Prelude.{◌≡◌, option_map};
ghost use Rattle.plan_occupancy.specs.Surveys as model;

use batch_plan::{Answer, Bound};
use group_tree::GroupId;
use play_forecast::Boundary;

/// The group that a bound names, if it names one.
fn bound_group(bound: Bound) -> Option<GroupId>
    ensures { option_map (λ group. group.index) result ≡ model.bound_group bound }
{
    match bound {
        Bound::Group { group, .. } => Some(group),
        Bound::Serial { .. } | Bound::OneHost | Bound::Nothing => None,
    }
}

/// The group that forces the number of batches, if a group does.
pub(crate) fn forcing(answer: &Answer) -> Option<GroupId>
    ensures { option_map (λ group. group.index) result ≡ model.forcing answer.now }
{
    match answer {
        Answer::Planned(plan) => bound_group(plan.bound),
        Answer::Blocked { .. } => None,
    }
}

/// The same of the first of these boundaries.
pub(crate) fn first_forcing(boundaries: &[Boundary]) -> Option<GroupId>
    ensures { option_map (λ group. group.index) result ≡ model.first_forcing boundaries.now }
{
    match boundaries {
        [first, ..] => forcing(&first.answer),
        [] => None,
    }
}
