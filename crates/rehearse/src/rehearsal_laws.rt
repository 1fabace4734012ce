//! What holds of every rehearsal.
ghost use Rattle.rehearse.specs.RehearsalLaws.{Forecast, UndoneAllIsOpening, UndoneIsAsBefore};

/// Every play by the rules of a rehearsal, in which the hosts fail that it named, goes the rehearsed way: to the same boundaries, and to the
/// same end where it has come to one. What hosts do whose batch has not come doesn't matter.
pub fn a_rehearsal_forecasts_the_play()
    ensures { Forecast }
{}

/// Whoever undoes an advance has the rehearsal that was.
pub fn an_undone_advance_leaves_nothing()
    ensures { UndoneIsAsBefore }
{}

/// Whoever undoes all advances is where the rehearsal began, whatever was advanced and undone in between.
pub fn undoing_all_leads_to_the_opening()
    ensures { UndoneAllIsOpening }
{}
