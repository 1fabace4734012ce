//! Whoever keeps a run that goes on, in the journal of the one that broke off.
ghost use Rattle.std.specs.Prelude.{◌≡◌, true};
ghost use Rattle.journal.specs.Entries.{entry_text};
ghost use Rattle.journal_writer.specs.Keepings.{entry_said};
ghost use Rattle.journal_writer.specs.Resumings.{Adds};

use crate::completeness::IsComplete;
use crate::durable_file::DurableFile;
use crate::journal_record::{JournalRecord, take};
use domains::Fleet;
use fleet_states::Status;
use group_tree::HostId;
use play_forecast::End;
use roll_core::Moment;
use roll_run::Recorder;
use std::alloc::Global;

/// Keeps a run that goes on, in the journal of the one that broke off, whose lines are whole. That a batch opens is on the disk before any of its programs is
/// started, with all that was said before it. Where the journal doesn't take a line whole, or can't be had on the disk, nothing more is kept, and no further batch
/// opens.
#[derive(Drop)]
pub struct JournalAppender<'k, F: DurableFile> {
    alloc: Global,
    file: F,
    /// Whether it has all that was to be kept.
    is_whole: bool,
    /// The hosts that are up by now.
    mended: &'k [HostId],
    /// Whether the play that begins next is the one in which the run broke off.
    goes_on: bool,
}

impl<'k, F: DurableFile> JournalAppender<'k, F> {
    /// In this journal, with these hosts up by now.
    pub fn new(
        alloc: Global,
        file: F,
        mended: &'k [HostId],
        goes_on: bool,
    ) -> JournalAppender<'k, F>
        ensures file { result.file ≡ file }
        ensures mended { result.mended.now ≡ mended.now }
        ensures goes_on { result.goes_on ≡ goes_on }
        ensures whole { result.is_whole ≡ true }
    {
        JournalAppender {
            alloc,
            file,
            is_whole: true,
            mended,
            goes_on,
        }
    }

    /// Adds what is said to the journal, where that has all that was said before.
    fn add(&mut self, fleet: &Fleet, said: JournalRecord<'_>, syncs: bool)
        ensures adds { Adds F.contents (entry_text fleet.now (entry_said said.entry)) self.old.file self.old.is_whole self.new.file self.new.is_whole }
        ensures synced { syncs ≡ true → self.new.is_whole ≡ true → F.is_on_disk self.new.file }
        ensures mended { self.new.mended ≡ self.old.mended }
        ensures goes_on { self.new.goes_on ≡ self.old.goes_on }
    {
        if self.is_whole {
            self.is_whole = take(self.alloc, &mut self.file, fleet, said, syncs);
        }
    }
}

impl<F: DurableFile> IsComplete for JournalAppender<'_, F> {
    ghost use Rattle.std.specs.Prelude.{◌≡◌};

    ghost is_whole_now = { λ keeper. keeper.is_whole };

    fn is_whole(&self) -> bool {
        self.is_whole
    }
}

impl<F: DurableFile> Recorder for JournalAppender<'_, F> {
    ghost use Rattle.std.specs.Prelude.{◌≡◌, true};
    ghost use Rattle.domains.specs.Ids.{host_numbers};
    ghost use Rattle.journal_writer.specs.Keepings.{IsHeld};
    ghost use Rattle.journal_writer.specs.Resumings.{AddsAgain};

    ghost refuses = { true };

    ghost keeps = { λ before after fleet entry. AddsAgain F.contents (host_numbers before.mended.now) before.goes_on fleet entry before.file before.is_whole after.file after.is_whole after.goes_on × (after.mended ≡ before.mended)
        × IsHeld F.is_on_disk entry after.file after.is_whole };

    fn plays_begin(&mut self, fleet: &Fleet, _plays: usize) {
        self.add(fleet, JournalRecord::Resumed(self.mended), false);
    }

    fn begins(&mut self, fleet: &Fleet, statuses: &[Status]) {
        if self.goes_on {
            self.add(fleet, JournalRecord::Again(statuses), false);
            self.goes_on = false;
        } else {
            self.add(fleet, JournalRecord::Play(statuses), false);
        }
    }

    fn sets_aside(&mut self, fleet: &Fleet, hosts: &[HostId]) {
        self.add(fleet, JournalRecord::Held(hosts), false);
    }

    fn opens(&mut self, fleet: &Fleet, _at: Moment<'_>, batch: &[HostId]) -> bool {
        self.add(fleet, JournalRecord::Open(batch), true);
        self.is_whole
    }

    fn closes(&mut self, fleet: &Fleet, batch: &[HostId], statuses: &[Status]) {
        self.add(fleet, JournalRecord::Closed(batch, statuses), false);
    }

    fn ends(&mut self, fleet: &Fleet, end: End) {
        self.add(fleet, JournalRecord::End(end), true);
    }
}
