//! What the journal of a run says of it, whoever kept it.
ghost use Rattle.journal_writer.specs.Ends.{EndsAreSaidTruly};
ghost use Rattle.journal_writer.specs.Laws.{PlaysAreSaidTruly, JournalMatchesRun};
ghost use Rattle.journal_writer.specs.Losses.{CutBytesKeepDownHosts, TruncationKeepsDownHosts, ExtraEntryKeepsDownHosts};
ghost use Rattle.journal_writer.specs.Turns.{SafeRollsAreUnderWay};
ghost use Rattle.journal_writer.specs.Resumings.{ResumedRunsAreSaidTruly, ResumesCountWhoIsDown, UpdatedHostsStay};

use roll_core::Runner;

/// At whatever moment of a play, the journal's lines up to there are lines that a reader takes, and tell where the play stands: the hosts of the open batch
/// run, and every other host has the status that it has in the run; so each host that is down at that moment is down by the journal, and no other is.
pub fn journal_matches_plays()
    ensures { PlaysAreSaidTruly }
{}

/// The same at whatever moment of a whole run, from the head of its journal on, play behind play.
pub fn runs_are_said_truly()
    ensures { JournalMatchesRun }
{}

/// Once its last play is over, the journal of a run with the line of that end says how it ended, and of each host the status that it has.
pub fn ends_are_said_truly()
    ensures { EndsAreSaidTruly }
{}

/// With the lines of a journal that are lost behind its last `open` line nobody is lost: each host that is down in the run is down by what is left.
pub fn nothing_is_lost()
    ensures { TruncationKeepsDownHosts }
{}

/// Nor does one line more lose anybody, that a batch opens or how the play ended, where the journal has it before the run has come to it.
pub fn one_ahead_loses_nobody()
    ensures { ExtraEntryKeepsDownHosts }
{}

/// Wherever the bytes of a journal are cut off, what is read of them is a beginning of its entries; and if its last `open` line is there still, each host that
/// is down in the run is down by what is read.
pub fn cut_journals_lose_nobody()
    ensures { CutBytesKeepDownHosts }
{}

/// The logs of the runs of a file of plays are those of plays that come one behind the other, as the laws of journals want them.
pub fn safe_rolls_are_under_way<R: Runner>(runner: &R)
    ensures { SafeRollsAreUnderWay (R.may runner.now) }
{}

/// At whatever moment of a run that goes on where its journal says that it broke off, the journal with the entries of both says truly where it stands.
pub fn resumed_runs_are_said_truly()
    ensures { ResumedRunsAreSaidTruly }
{}

/// A run that goes on counts everybody as down who is so by the journal, but for those who are up by now.
pub fn resumes_count_who_is_down()
    ensures { ResumesCountWhoIsDown }
{}

/// Who was updated in the play that goes on stays so, and no batch of it is for them.
pub fn updated_hosts_stay()
    ensures { UpdatedHostsStay }
{}
