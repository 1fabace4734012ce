//! What holds of every plan, whoever made it, and of the counts that plans are made of.
ghost use Rattle.batch_plan.specs.Laws.{AnAnswerExists, AnswersOneLess, BlockedMeansNone, BoundsHold, CountsFollow, FirstMayBeOpened};
ghost use Rattle.batch_plan.specs.Laws.{HeldMayBeSetAside, OneAnswer, OneBatchLess, PlansHoldNobody, StandsInOne};

/// Where a bound forces a number of batches, no plan has fewer.
pub fn bounds_hold()
    ensures { BoundsHold }
{}

/// Where a group has waiting hosts and no room, there is no plan.
pub fn a_blocked_group_has_no_plan()
    ensures { BlockedMeansNone }
{}

/// The rule by which hosts are dealt has one answer: the same batches, or the same group that blocks every plan.
pub fn one_answer()
    ensures { OneAnswer }
{}

/// The first batch of a plan may be opened: its hosts wait, each stands once, and they are within the room of each group.
pub fn the_first_batch_may_be_opened()
    ensures { FirstMayBeOpened }
{}

/// No host stands in two batches of a plan.
pub fn no_host_stands_in_two_batches()
    ensures { StandsInOne }
{}

/// Those that are held back wait, and a group without room holds each of them.
pub fn held_hosts_may_be_set_aside()
    ensures { HeldMayBeSetAside }
{}

/// Where there is a plan nobody is held back.
pub fn a_plan_holds_nobody_back()
    ensures { PlansHoldNobody }
{}

/// Once the first batch of a least plan is updated the other batches are a plan, and none has fewer: the next answer is a
/// plan of one batch less.
pub fn an_updated_batch_leaves_one_less()
    ensures plan { OneBatchLess }
    ensures answer { AnswersOneLess }
{}

/// The rule has an answer for every fleet, its hosts' statuses and a cap above 0, whether or not there is memory to find it.
pub fn an_answer_exists()
    ensures { AnAnswerExists }
{}

/// Who keeps the counts while statuses change sets some hosts, among them all whose status has changed: then the counts are
/// those of the new statuses.
pub fn counts_follow_a_change()
    ensures { CountsFollow }
{}
