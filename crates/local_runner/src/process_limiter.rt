//! How many programs are under way at once.
use crate::clock::milliseconds;
use crate::limits::descriptors;
use std::sync::{Condvar, Mutex, MutexGuard, Wait};

/// What the program itself has open, and what starting one more program takes for a moment.
const KEPT: u64 = 16;

/// What a program has open here while it is under way, and its part of what starts take for a moment.
const EACH: u64 = 3;

/// No run works on more hosts at once.
const MOST: usize = 64;

/// While no program is under way whose end would free something, starts are tried again for so many milliseconds.
const PATIENCE: u64 = 10_000;

/// Since when, by the clock, no program could be started though none was under way, and when that was seen last.
#[derive(Clone, Copy, Debug, Drop)]
struct Shortage {
    since: u64,
    last: u64,
}

/// How many programs have come in, how many of them were started, and the last shortage that no start has ended.
#[derive(Clone, Copy, Debug, Drop)]
struct ActiveCount {
    all: usize,
    started: usize,
    shortage: Option<Shortage>,
}

/// Lets no more programs be under way at once than this process may have descriptors for. Where it has enough for all, nobody waits.
#[derive(Drop)]
pub(crate) struct ProcessLimiter {
    descriptors: Option<u64>,
    most: usize,
    inside: Mutex<ActiveCount>,
    left: Condvar,
    again: Mutex<()>,
}

impl ProcessLimiter {
    pub(crate) fn new() -> ProcessLimiter {
        let descriptors = descriptors();
        ProcessLimiter {
            descriptors,
            most: most_at_once(descriptors),
            inside: Mutex::new(ActiveCount {
                all: 0,
                started: 0,
                shortage: None,
            }),
            left: Condvar::new(),
            again: Mutex::new(()),
        }
    }

    /// How many descriptors there are, and how many programs are under way at most for that; none where the system doesn't say.
    pub(crate) fn bounds(&self) -> Option<(u64, usize)> {
        Some((self.descriptors?, self.most))
    }

    /// Whether who comes in now has to wait until another one leaves.
    pub(crate) fn is_full<H: Wait>(&self, rt: &H) -> bool {
        self.inside.lock(rt).all >= self.most
    }

    /// Comes in, where it is full once another one has left.
    pub(crate) fn enter<H: Wait>(&self, rt: &H) {
        let inside = self.inside.lock(rt);
        let mut inside = self
            .left
            .wait_while(rt, inside, |inside| inside.all >= self.most);
        inside.all = inside.all.saturating_add(1);
    }

    /// The program of one that came in was started.
    pub(crate) fn starts<H: Wait>(&self, rt: &H) {
        let mut inside = self.inside.lock(rt);
        inside.started = inside.started.saturating_add(1);
        inside.shortage = None;
    }

    /// One that came in leaves: its program was started and is over, or it wasn't.
    pub(crate) fn leave<H: Wait>(&self, rt: &H, was_started: bool) {
        let mut inside = self.inside.lock(rt);
        inside.all = inside.all.saturating_sub(1);
        if was_started {
            inside.started = inside.started.saturating_sub(1);
        }
        self.left.notify_one();
    }

    /// Whether to try again what the system was too short of something for: another program is under way, or none has been for a short time
    /// only. Without a clock that time is over at once.
    pub(crate) fn is_worth_a_try<H: Wait>(&self, rt: &H) -> bool {
        let mut inside = self.inside.lock(rt);
        if inside.started > 0 {
            return true;
        }
        let Some(now) = milliseconds() else {
            return false;
        };
        let since = match inside.shortage {
            Some(shortage) if now.saturating_sub(shortage.last) < PATIENCE => shortage.since,
            _ => now,
        };
        inside.shortage = Some(Shortage { since, last: now });
        now.saturating_sub(since) < PATIENCE
    }

    /// Waits until nobody else tries again, and keeps it so as long as the guard is held.
    pub(crate) fn try_alone<H: Wait>(&self, rt: &H) -> MutexGuard<'_, ()> {
        self.again.lock(rt)
    }
}

/// How many programs are under way at once with so many descriptors: one at least.
fn most_at_once(descriptors: Option<u64>) -> usize {
    let Some(descriptors) = descriptors else {
        return MOST;
    };
    let most = descriptors.saturating_sub(KEPT) / EACH;
    usize::try_from(most).unwrap_or(MOST).max(1)
}
