//! What holds of the journals of runs, whoever wrote them.
ghost use Rattle.journal.specs.Laws.{FrontsAreRead, NoChangePasses};

/// Wherever the journal of a run is cut off, the entries of its whole lines are read, and no others; and no line of it is bad.
pub fn fronts_are_read()
    ensures { FrontsAreRead }
{}

/// Where one byte of the journal of a run is another, nothing is read but entries that it begins with.
pub fn no_change_passes()
    ensures { NoChangePasses }
{}
