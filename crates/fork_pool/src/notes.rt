//! How far a step is, and what went wrong with it.
ghost use Rattle.std.specs.Prelude.{◌≡◌};
ghost use Rattle.fork_pool.specs.Inside.{is_stopped, nothing_yet};

/// Which tickets of a step have not come back with a report, and what went wrong until now.
#[derive(Clone, Copy, Debug)]
pub(crate) struct Notes {
    /// How many tickets are in the line or with workers.
    pub(crate) out: usize,
    /// How many came back without a report.
    pub(crate) lost: usize,
    /// The coordinator found no memory.
    pub(crate) wants: bool,
    /// A worker told that it found none.
    pub(crate) told: bool,
    /// The least place that told so; the last one where none did.
    pub(crate) at: usize,
    /// No reply can come any more.
    pub(crate) ended: bool,
}

impl Notes {
    /// Nothing has happened yet.
    pub(crate) fn new(last_place: usize) -> Notes
        ensures { result ≡ nothing_yet last_place }
    {
        Notes {
            out: 0,
            lost: 0,
            wants: false,
            told: false,
            at: last_place,
            ended: false,
        }
    }

    /// Whether something went wrong, so that no ticket is put any more.
    pub(crate) fn is_stopped(&self) -> bool
        ensures { result ≡ is_stopped self.now }
    {
        self.wants || self.lost > 0
    }
}
