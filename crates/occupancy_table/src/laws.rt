//! What holds of every table.
ghost use Rattle.occupancy_table.specs.Laws.{ColoursChangeNoCell, FittingIsWithinLimits, PlansAreWithinLimits};

/// In no column of a plan's table is a group over its limit, where none is before it.
pub fn plans_are_within_limits()
    ensures { PlansAreWithinLimits }
{}

/// Nor in the column of a batch that has room in each group, where none is over its limit before it.
pub fn what_fits_is_within_limits()
    ensures { FittingIsWithinLimits }
{}

/// A terminal shows of a coloured table what the plain one is.
pub fn colours_change_no_cell()
    ensures { ColoursChangeNoCell }
{}
