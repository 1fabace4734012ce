//! A worker takes a host.
ghost use Rattle.std.specs.Prelude.{◌≡◌, IfOk, OnErr};
ghost use Rattle.event_log.specs.Requests.{HasRow, request_of};
ghost use Rattle.roll_core.specs.Claims.{IsClaim, IsClaimedAs};

use crate::claim::{Claim, Handed};
use crate::completion::Completion;
use crate::event::Event;
use crate::job::Job;
use crate::kernel::{Kernel, keep};
use crate::step_end::StepEnd;
use down_ledger::Share;
use event_log::{Assignment, WorkItem};
use std::alloc::{AllocError, Global};

impl<'f> Kernel<'f> {
    /// Returns the next host of the batch on which the current step is due and that no worker has taken. It comes with its share and its
    /// job, or with the outcome if no program is to run. Returns nothing if there is no such host, or if `forks` claims are out. If an
    /// allocation fails, changes nothing.
    pub fn claim(&mut self, alloc: Global) -> Result<Option<Handed>, AllocError>
        ensures ok { IfOk result (IsClaim self.old self.new) }
        ensures unchanged { OnErr result (self.new ≡ self.old) }
    {
        let owed = self.owed();
        self.log.reserve(owed + 2)?;
        let Some(taken) = self.work.claim(alloc, self.forks)? else {
            return Ok(None);
        };
        let share = self.roster.lend(taken.host);
        keep(&mut self.log, Event::Claim(taken.host, taken.step));
        Ok(Some(claimed(share, taken)))
    }

    /// Gives up a claim whose worker ran out of memory. The claim stays out and its host stays down. Its batch doesn't pass the step unless
    /// a `Completion` of an equal claim is reported instead.
    pub fn strand(&mut self, _claim: Claim)
        ensures { self.new ≡ self.old }
    {}
}

/// Combines what a worker receives with the host's share.
fn claimed(share: Share, taken: Assignment) -> Handed
    requires host { share.host ≡ taken.host }
    requires row { HasRow taken.given }
    ensures { IsClaimedAs taken.host.index taken.step (request_of taken.given) result }
{
    let Assignment { host, step, given } = taken;
    match given {
        WorkItem::Job { words } => Handed::Run(Claim {
            share,
            job: Job { host, step, words },
        }),
        WorkItem::Settled { outcome, row } => Handed::Settled(Completion {
            share,
            step,
            way: StepEnd::Settled(outcome),
            row,
        }),
    }
}
