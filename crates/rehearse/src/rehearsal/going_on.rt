//! Going on by several batches, in which hosts fail that are marked, and going back.
ghost use Rattle.std.specs.Prelude.{◌≡◌, ◌<◌, ◌≤◌, IfOk, None, OnErr, OnOk, is_some, length, true};
ghost use Rattle.fleet_index.specs.NumberLists.{list_at};
ghost use Rattle.domains.specs.Ids.{host_numbers};
ghost use Rattle.rehearse.specs.Stacks.{IsAdvanced, batches_to, cut_to, top};
ghost use Rattle.rehearse.specs.GoingOn as spec;
ghost use Rattle.rehearse.specs.GoingOn.{AreAdvances};

use crate::advance::those_in;
use crate::rehearsal::Rehearsal;
use group_tree::HostId;
use std::alloc::{AllocError, Global};

impl<'a> Rehearsal<'a> {
    /// Goes back to where it had advanced by so many batches; where it has not come so far it stays. It takes no memory.
    pub(crate) fn cut(&mut self, stages: usize)
        ensures { self.new ≡ cut_to stages self.old }
    {
        self.above.truncate(stages);
    }

    /// The batch by which it went on when so many were behind it.
    pub(crate) fn batch(&self, place: usize) -> &[HostId]
        requires { place < length self.now.above }
        ensures { host_numbers result.now ≡ list_at (batches_to self.now.first self.now.above) place }
    {
        if place == 0 {
            self.first.boundary.next_batch()
        } else {
            self.above[place - 1].boundary.next_batch()
        }
    }

    /// Those of the marked hosts that stand in the batch that comes next. Only want of memory refuses it.
    pub(crate) fn marked_next(
        &self,
        alloc: Global,
        marked: &[HostId],
    ) -> Result<Vec<HostId>, AllocError>
        ensures { IfOk result (λ failing. failing.items ≡ spec.marked_next self.now marked.now) }
    {
        those_in(alloc, self.fleet.hosts(), self.next_batch(), marked)
    }

    /// Goes on by the batch that comes next, in which just the marked hosts fail that stand in it. Only want of memory refuses it; then it stands where it stood.
    fn advance_marked(&mut self, alloc: Global, marked: &[HostId]) -> Result<(), AllocError>
        requires went_on { (top self.old).end ≡ None }
        ensures ok { OnOk result (IsAdvanced (spec.marked_next self.old marked.now) self.old self.new) }
        ensures unchanged { OnErr result (self.new ≡ self.old) }
    {
        let failing = self.marked_next(alloc, marked)?;
        match self.advance(alloc, failing.as_slice()) {
            Ok(()) => Ok(()),
            Err(_refused) => Err(AllocError),
        }
    }

    /// Goes on by so many batches, in each of which just the marked hosts fail that stand in it, or to the end of the play before them. Each has a host in it that
    /// waited, so as many as there are hosts lead to the end. Only want of memory refuses it; then it stands where it stood.
    pub(crate) fn advance_by(
        &mut self,
        alloc: Global,
        count: usize,
        marked: &[HostId],
    ) -> Result<(), AllocError>
        ensures ok { OnOk result (AreAdvances count marked.now self.old self.new) }
        ensures to_end { OnOk result (length self.old.rules.fleet.hosts ≤ count → is_some (top self.new).end ≡ true) }
        ensures unchanged { OnErr result (self.new ≡ self.old) }
    {
        let stages = self.above.len();
        for _ in 0..count {
            if self.end().is_some() {
                return Ok(());
            }
            match self.advance_marked(alloc, marked) {
                Ok(()) => {}
                Err(_refused) => {
                    self.cut(stages);
                    return Err(AllocError);
                }
            }
        }
        Ok(())
    }
}
