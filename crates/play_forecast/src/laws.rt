//! What holds of every course.
ghost use Rattle.play_forecast.specs.Laws.{AsManyAsPlanned, EndIsFinal, OneBoundaryMore, OneCourse, OneFileCourse, PrefixesAgree, OpenedOnce, OthersDecideNothing, ContinuedBeforeLast};

/// What a play does to a fleet is one function of the statuses with which it begins and of the step at which each host fails: how
/// many programs run at once, and in which order they end, doesn't show in it.
pub fn a_play_has_one_course()
    ensures { OneCourse }
{}

/// As far as a play has come, whether or not it goes on: it went the one way.
pub fn a_play_goes_one_way()
    ensures { PrefixesAgree }
{}

/// Where a play has come to its end it has all its boundaries: no list of its first ones is longer.
pub fn nothing_follows_the_end()
    ensures { EndIsFinal }
{}

/// Where a play goes on, its next boundary is planned anew from the statuses to which the batches before it led; it ends there, or
/// goes on.
pub fn a_play_comes_to_its_next_boundary()
    ensures { OneBoundaryMore }
{}

/// Before its last boundary a play went on.
pub fn a_play_went_on_before_its_last_boundary()
    ensures { ContinuedBeforeLast }
{}

/// The same for the plays of a file: they have one list of courses.
pub fn plays_have_one_course()
    ensures { OneFileCourse }
{}

/// No host stands in the batches of two boundaries.
pub fn no_host_is_opened_twice()
    ensures { OpenedOnce }
{}

/// A course is as it is whatever would have failed on hosts whose batch is not behind it.
pub fn failures_of_other_hosts_decide_nothing()
    ensures { OthersDecideNothing }
{}

/// Where no host fails and all batches have one size, a play opens as many batches as its first plan has.
pub fn a_play_without_failure_takes_as_many_batches_as_its_first_plan()
    ensures { AsManyAsPlanned }
{}
