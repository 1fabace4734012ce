//! Hosts that wait, and how many of them may go down at once.
ghost use Rattle.std.specs.Prelude.{◌≡◌, Some};
ghost use Rattle.batch_plan.specs.Needs as model;

/// So many hosts wait, and so many of them may go down at once.
#[derive(Clone, Copy)]
pub(crate) struct Need {
    pub(crate) waiting: usize,
    pub(crate) room: usize,
}

impl Need {
    /// Whether somebody waits and nobody may go down.
    pub(crate) fn is_blocked(self) -> bool
        ensures { result ≡ model.is_blocked (Some self) }
    {
        self.waiting > 0 && self.room == 0
    }

    /// The fewest batches in which those that wait go; 0 where there is no room.
    pub(crate) fn fewest(self) -> usize
        ensures { result ≡ model.fewest (Some self) }
    {
        if self.room > 0 {
            self.waiting.div_ceil(self.room)
        } else {
            0
        }
    }
}

/// Whether somebody waits where nobody may go down.
pub(crate) fn is_blocked(need: Option<Need>) -> bool
    ensures { result ≡ model.is_blocked need }
{
    match need {
        Some(need) => need.is_blocked(),
        None => false,
    }
}

/// The fewest batches for a need, and 0 for none.
pub(crate) fn fewest(need: Option<Need>) -> usize
    ensures { result ≡ model.fewest need }
{
    match need {
        Some(need) => need.fewest(),
        None => 0,
    }
}
