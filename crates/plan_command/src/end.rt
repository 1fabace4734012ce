//! How planning ends.
ghost use Rattle.std.specs.Prelude.{◌≡◌};
ghost use Rattle.domains.specs.Ids.{host_numbers};
ghost use Rattle.plan_command.specs.Ends as model;

use batch_plan::Answer;
use group_tree::HostId;

/// What a plan's text tells at its end.
#[derive(Clone, Copy, Debug, PartialEq, Eq)]
pub enum End {
    /// All hosts that wait have their batch.
    Planned,
    /// A group blocks every plan, or hosts were set aside.
    Blocked,
}

/// How planning ends with this answer, once these hosts were set aside.
pub fn end_of(answer: &Answer, held: &[HostId]) -> End
    ensures { result ≡ model.end_of answer.now (host_numbers held.now) }
{
    match answer {
        Answer::Planned(_) => match held {
            [] => End::Planned,
            [_, ..] => End::Blocked,
        },
        Answer::Blocked { .. } => End::Blocked,
    }
}
