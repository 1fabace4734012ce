//! A rehearsal of a play.
ghost use Rattle.std.specs.Prelude.{◌≡◌, ◌<◌, [], All, IfErr, IfOk, IfSome, IsTrue, IsFalse, None, OnErr, OnOk, length};
ghost use Rattle.domains.specs.Ids.{host_numbers};
ghost use Rattle.play_forecast.specs.Courses.{next_batch};
ghost use Rattle.rehearse.specs.Refusals.{IsRefused};
ghost use Rattle.rehearse.specs.Stacks.{IsAdvanced, IsBehind, IsRehearsal, IsUndone, cap_at, first_outside, top};

use crate::advance::{close_batch, first_outside, first_steps};
use crate::advance_fault::AdvanceFault;
use crate::stage::Stage;
use batch_plan::Answer;
use domains::Fleet;
use fleet_states::Status;
use group_tree::{HostId, Percentage};
use play_forecast::{Boundary, End};
use play_model::OnBlocked;
use std::alloc::{AllocError, Global};
use std::marker::Model;

mod going_on;

/// What a play would do to a fleet if these hosts failed, batch by batch. It goes forth by one batch, in which just the named hosts fail, at
/// the first step, and back again. A stage keeps its plan, and its statuses in a byte a host; so going back costs nothing but the memory that is
/// given back.
#[derive(Drop)]
pub struct Rehearsal<'a> {
    fleet: &'a Fleet,
    mode: OnBlocked,
    caps: &'a [Option<u32>],
    max_fail: Option<Percentage>,
    opening: &'a [Status],
    first: Stage,
    above: Vec<Stage>,
}

impl<'a> Model for Rehearsal<'a> {
    ghost use Rattle.rehearse.specs.Stacks.{RehearsalView};
    ghost use Rattle.rehearse.specs.Kept.{IsKept};

    ghost Value = { RehearsalView };

    ghost view = { λ r. record {
      rules = record { fleet = r.fleet.now; mode = r.mode; caps = r.caps.now; percentage = r.max_fail };
      opening = r.opening.now;
      first = r.first;
      above = r.above.items;
    } };

    ghost invariant = { λ r. IsKept (record {
      rules = record { fleet = r.fleet.now; mode = r.mode; caps = r.caps.now; percentage = r.max_fail };
      opening = r.opening.now;
      first = r.first;
      above = r.above.items;
    }) };
}

/// The most hosts of the batch before which so many were opened; the last entry serves on, and where there is none there is no bound.
fn cap(caps: &[Option<u32>], opened: usize) -> Option<u32>
    ensures { result ≡ cap_at caps.now opened }
{
    let last = caps.len().checked_sub(1)?;
    match caps.get(last.min(opened)) {
        Some(cap) => *cap,
        None => None,
    }
}

impl<'a> Rehearsal<'a> {
    /// A play over the fleet whose hosts have these statuses. The first batch may have as many hosts as the first of `caps` says, the second as many
    /// as the second says, and so on; the last one serves on. `max_fail` is the share of a batch that may fail, and `mode` tells what
    /// becomes of hosts that may not go down. Only want of memory refuses it.
    pub fn new(
        alloc: Global,
        fleet: &'a Fleet,
        opening: &'a [Status],
        caps: &'a [Option<u32>],
        max_fail: Option<Percentage>,
        mode: OnBlocked,
    ) -> Result<Rehearsal<'a>, AllocError>
        requires hosts { length opening.now ≡ length fleet.now.hosts }
        requires sizes { All (λ cap. IfSome cap (λ size. 0 < size)) caps.now }
        ensures rules { IfOk result (λ rehearsal. rehearsal.rules ≡ record { fleet = fleet.now; mode = mode; caps = caps.now; percentage = max_fail }) }
        ensures opening { IfOk result (λ rehearsal. rehearsal.opening ≡ opening.now) }
        ensures alone { IfOk result (λ rehearsal. rehearsal.above ≡ []) }
        ensures rehearsed { IfOk result IsRehearsal }
    {
        let statuses = Vec::from_slice(alloc, opening)?;
        let boundary = Boundary::from_statuses(alloc, fleet, mode, statuses, cap(caps, 0))?;
        let end = boundary.end_without_batch();
        let first = Stage {
            boundary,
            end,
            failing: Vec::new(alloc),
        };
        Ok(Rehearsal {
            fleet,
            mode,
            caps,
            max_fail,
            opening,
            first,
            above: Vec::new(alloc),
        })
    }

    /// Goes on by the batch that comes next, in which just these hosts fail, at the first step; a host that is named twice counts once. The faults are
    /// looked for in the order in which they stand; want of memory may come instead of each. Whatever refuses it, the
    /// rehearsal stands where it stood.
    pub fn advance(&mut self, alloc: Global, failing: &[HostId]) -> Result<(), AdvanceFault>
        ensures ok { OnOk result (IsAdvanced failing.now self.old self.new) }
        ensures err { IfErr result (IsRefused self.old failing.now) }
        ensures unchanged { OnErr result (self.new ≡ self.old) }
    {
        if let Some(end) = self.end() {
            return Err(AdvanceFault::Over { end });
        }
        let batch = self.next_batch();
        if let Some(host) = first_outside(alloc, self.fleet.hosts(), batch, failing)? {
            return Err(AdvanceFault::NotInBatch { host });
        }
        let stage = self.next_stage(alloc, failing)?;
        self.above.push(stage)?;
        Ok(())
    }

    /// The stage behind the batch that comes next, in which these hosts of it fail. Only want of memory refuses it.
    fn next_stage(&self, alloc: Global, failing: &[HostId]) -> Result<Stage, AllocError>
        requires went_on { (top self.now).end ≡ None }
        requires in_batch { first_outside (next_batch (top self.now).boundary.answer) failing.now ≡ None }
        ensures named { IfOk result (λ stage. stage.failing.items ≡ failing.now) }
        ensures behind { IfOk result (IsBehind self.now.rules (length self.now.above) (top self.now)) }
    {
        let below = self.top();
        let steps = first_steps(alloc, self.fleet.hosts(), failing)?;
        let (statuses, ended) = close_batch(
            alloc,
            &below.boundary,
            steps.as_slice(),
            self.max_fail,
            1,
        )?;
        let cap = cap(self.caps, self.advances() + 1);
        let boundary = Boundary::from_statuses(alloc, self.fleet, self.mode, statuses, cap)?;
        let end = ended.or(boundary.end_without_batch());
        Ok(Stage {
            boundary,
            end,
            failing: Vec::from_slice(alloc, failing)?,
        })
    }

    /// Goes back by one batch; false where it has not gone on by any. It takes no memory.
    pub fn undo(&mut self) -> bool
        ensures undone { IsTrue result → IsUndone self.old self.new }
        ensures nothing { IsFalse result → self.old.above ≡ [] }
        ensures unchanged { IsFalse result → self.new ≡ self.old }
    {
        match self.above.pop() {
            Some(_stage) => true,
            None => false,
        }
    }

    /// By how many batches it went on.
    pub fn advances(&self) -> usize
        ensures { result ≡ length self.now.above }
    {
        self.above.len()
    }

    /// The fleet of the play.
    pub fn fleet(&self) -> &'a Fleet
        ensures { result.now ≡ self.now.rules.fleet }
    {
        self.fleet
    }

    /// Where it stands.
    pub fn top(&self) -> &Stage
        ensures { result.now ≡ top self.now }
    {
        match self.above.last() {
            Some(stage) => stage,
            None => &self.first,
        }
    }

    /// The plan for the hosts that wait, or the group that blocks every plan.
    pub fn plan(&self) -> &Answer
        ensures { result.now ≡ (top self.now).boundary.answer }
    {
        &self.top().boundary.answer
    }

    /// The status of each host, in the order of their numbers.
    pub fn statuses(&self) -> &[Status]
        ensures { result.now ≡ (top self.now).boundary.statuses.items }
    {
        self.top().boundary.statuses.as_slice()
    }

    /// How the play ended, if it did.
    pub fn end(&self) -> Option<End>
        ensures { result ≡ (top self.now).end }
    {
        self.top().end
    }

    /// The batch that comes next: the first one of the plan, and nobody where there is none.
    pub fn next_batch(&self) -> &[HostId]
        ensures { host_numbers result.now ≡ next_batch (top self.now).boundary.answer }
    {
        self.top().boundary.next_batch()
    }
}
