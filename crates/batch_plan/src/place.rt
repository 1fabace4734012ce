//! Where a host stands for the counts.
ghost use Rattle.std.specs.Prelude.{◌≡◌};
ghost use Rattle.fleet_index.specs.NumberLists.{bit};
ghost use Rattle.batch_plan.specs.CountPlaces.{waits, is_down};

/// What a host counts as.
#[derive(Clone, Copy, Debug, PartialEq, Eq)]
pub enum Place {
    Up,
    Waits,
    Down,
}

impl Place {
    /// How many waiting hosts a host of this place is.
    pub(crate) fn waiting(self) -> usize
        ensures { result ≡ bit (waits self) }
    {
        match self {
            Place::Waits => 1,
            _ => 0,
        }
    }

    /// How many hosts that are down a host of this place is.
    pub(crate) fn down(self) -> usize
        ensures { result ≡ bit (is_down self) }
    {
        match self {
            Place::Down => 1,
            _ => 0,
        }
    }
}
