//! What holds of every legal log, whoever makes it.
ghost use Rattle.event_log.specs.Changes.{BatchesAreOnTrack, EventsLeaveOtherHosts, FailedFromTheFailingRowOn, RowsLast};
ghost use Rattle.event_log.specs.Columns.{BatchesEndByColumns, LogsHaveColumns};
ghost use Rattle.event_log.specs.Once.{NoHostIsClaimedTwice, NoHostReportsTwice, ReportsFollowClaims};
ghost use Rattle.event_log.specs.Owing.{OwingHostsReportEachStep};
ghost use Rattle.event_log.specs.Progress.{DeadBatchesEnd, OpenBatchesGoOn};
ghost use Rattle.event_log.specs.Laws.{ForksBoundTheClaims, LegalLogsAreSafe, LegalLogsRestBetweenBatches, RowsAreFew};

/// From a safe start no group is over its limit after any number of the events.
pub fn legal_logs_are_safe()
    ensures { LegalLogsAreSafe }
{}

/// From a start at which nobody runs, nobody runs wherever no batch is open.
#[tactic(auto, using(crate::proofs::RestFronts::legal_rest))]
pub fn legal_logs_rest_between_batches()
    ensures { LegalLogsRestBetweenBatches }
{}

/// After any number of the events at most as many claims are out as there are forks.
#[tactic(auto, using(crate::proofs::ClaimFronts::legal_bounded))]
pub fn forks_bound_the_claims()
    ensures { ForksBoundTheClaims }
{}

/// After any number of the events no host has more rows than the play has steps.
#[tactic(auto, using(crate::proofs::FewRows::rows_are_few))]
pub fn rows_are_few()
    ensures { RowsAreFew }
{}

/// What a legal log tells can be given by columns: those of its own reports. So no promise about columns is empty.
pub fn logs_have_columns()
    ensures { LogsHaveColumns }
{}

/// A batch ends as each of its hosts does by itself on the ends that were reported: in whatever order workers claimed and
/// reported, it halts at the step at which so many of its hosts fail by themselves, each has the rows of its own track up to
/// there, and once the batch is closed the statuses of the fleet are those at its opening but for what each of its hosts becomes by its own
/// failing step.
pub fn batches_end_by_columns()
    ensures { BatchesEndByColumns }
{}

/// No host is claimed twice for a step: no program is run twice.
pub fn no_host_is_claimed_twice_for_a_step()
    ensures { NoHostIsClaimedTwice }
{}

/// No host reports a step twice.
pub fn no_host_reports_a_step_twice()
    ensures { NoHostReportsTwice }
{}

/// At every front at most as many reports of a host's step have come as claims of it: none comes without a claim before it.
pub fn reports_follow_claims()
    ensures { ReportsFollowClaims }
{}

/// A host that owes the handlers of the play, and that the play updates, reports each step of it once, each handler too.
pub fn owing_hosts_report_each_step()
    ensures { OwingHostsReportEachStep }
{}

/// What an event isn't about it leaves: a host that failed, was halted or is updated stays so after its batch.
pub fn events_leave_other_hosts()
    ensures { EventsLeaveOtherHosts }
{}

/// Only a report changes the rows of its host: they last beyond its batch.
pub fn rows_last()
    ensures { RowsLast }
{}

/// At every front a host of the open batch is failed exactly where a row of it has failed.
pub fn hosts_are_failed_from_the_failing_row_on()
    ensures { FailedFromTheFailingRowOn }
{}

/// While a batch is at a step, each of its hosts has the rows of its own track before that step, or through it.
pub fn batches_are_on_track()
    ensures { BatchesAreOnTrack }
{}

/// While a batch is open some event may come, if there are forks: no legal log is stuck in a batch.
pub fn open_batches_go_on()
    ensures { OpenBatchesGoOn }
{}

/// Where every host of a batch has failed, no further step begins.
pub fn dead_batches_end()
    ensures { DeadBatchesEnd }
{}
