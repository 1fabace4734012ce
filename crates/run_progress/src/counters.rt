//! What is counted of a play while it goes on.
ghost use Rattle.std.specs.Prelude.{◌≡◌};
ghost use Rattle.run_progress.specs.Counting as spec;

use host_track::Judged;

/// The number of the play, of so many; the number of the batch that was opened last, of so many; how many of the play's hosts are updated, and how
/// many have failed.
#[derive(Clone, Copy, Debug, PartialEq, Eq)]
pub(crate) struct Counters {
    pub(crate) play: u64,
    pub(crate) plays: u64,
    pub(crate) batch: u64,
    pub(crate) batches: u64,
    pub(crate) updated: u64,
    pub(crate) hosts: u64,
    pub(crate) failed: u64,
}

impl Counters {
    /// Nothing has happened in this play, of so many. The first one has the number 1.
    pub(crate) fn new(play: u64, plays: u64) -> Counters
        ensures { result ≡ spec.none_of play plays }
    {
        Counters {
            play,
            plays,
            batch: 0,
            batches: 0,
            updated: 0,
            hosts: 0,
            failed: 0,
        }
    }

    /// A batch was opened. With it the plan had so many batches ahead, and of the hosts so many were to be updated before.
    pub(crate) fn open(&mut self, ahead: u64, hosts: u64)
        ensures { self.new ≡ spec.with_opening ahead hosts self.old }
    {
        if self.batch == 0 {
            self.hosts = hosts;
        }
        let before = self.batch;
        self.batch = before.saturating_add(1);
        self.batches = self.batch.max(before.saturating_add(ahead));
    }

    /// A row was judged so.
    pub(crate) fn add_row(&mut self, judged: Judged)
        ensures { self.new ≡ spec.with_row judged self.old }
    {
        if judged.is_failed() {
            self.failed = self.failed.saturating_add(1);
        }
    }

    /// A batch was closed, by which so many hosts are updated.
    pub(crate) fn close(&mut self, updated: u64)
        ensures { self.new ≡ spec.with_closing updated self.old }
    {
        self.updated = self.updated.saturating_add(updated);
    }
}
