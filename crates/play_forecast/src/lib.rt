//! What a play does to a fleet from boundary to boundary.
#![tactic(auto)]

mod aside;
mod boundary;
mod end;
mod laws;
mod patterns;
mod play_plan;

pub use aside::list_aside_over;
pub use boundary::Boundary;
pub use end::{End, end_with};
pub use laws::{
    a_play_comes_to_its_next_boundary, a_play_goes_one_way, a_play_has_one_course,
    a_play_went_on_before_its_last_boundary,
    a_play_without_failure_takes_as_many_batches_as_its_first_plan,
    failures_of_other_hosts_decide_nothing, no_host_is_opened_twice, nothing_follows_the_end,
    plays_have_one_course,
};
pub use patterns::look_up_all;
pub use play_plan::{PlayPlan, plan_play};
