//! The history of a session: where it stands, and where it stood before each command that led on.
ghost use Rattle.std.specs.Prelude.{◌≡◌, ◌≤◌, ◌++◌, [], IfErr, IfOk, OnErr, OnOk, is_some, length, true};
ghost use Rattle.rehearse.specs.Stacks.{top};
ghost use Rattle.rehearse.specs.Refusals.{IsRefused};
ghost use Rattle.rehearse.specs.Histories as spec;
ghost use Rattle.rehearse.specs.Histories.{has_earlier, refusing, unbegun};
ghost use Rattle.rehearse.specs.GoingOn.{HasAdvanced, HasAdvancedBy, marked_as, marked_next};
ghost use Rattle.rehearse.specs.GoingOn as going;

use crate::advance_fault::AdvanceFault;
use crate::point::Point;
use crate::rehearsal::Rehearsal;
use group_tree::HostId;
use std::alloc::{AllocError, Global};
use std::marker::Model;

/// Where a session stands, and where it stood before each command that led on, so that each is taken back whole. A host that is marked fails whenever its batch
/// comes. A point is kept for each such command, and the rehearsal keeps its stages; so going back takes no memory.
#[derive(Drop)]
pub struct History<'a> {
    rehearsal: Rehearsal<'a>,
    marked: Vec<HostId>,
    points: Vec<Point>,
    refused: bool,
}

impl<'a> Model for History<'a> {
    ghost use Rattle.std.specs.Prelude.{reverse};
    ghost use Rattle.rehearse.specs.Histories.{HistoryView};
    ghost use Rattle.rehearse.specs.Points.{places_before};

    ghost Value = { HistoryView };

    ghost view = { λ h. record {
      place = record { rehearsal = h.rehearsal; marked = h.marked.items };
      earlier = places_before (record { rehearsal = h.rehearsal; marked = h.marked.items }) (reverse h.points.items);
      refused = h.refused;
    } };
}

impl<'a> History<'a> {
    /// Nothing was done yet but what the rehearsal advanced, which is not taken back.
    pub fn new(alloc: Global, rehearsal: Rehearsal<'a>) -> History<'a>
        ensures { result ≡ unbegun rehearsal.entry }
    {
        History {
            rehearsal,
            marked: Vec::new(alloc),
            points: Vec::new(alloc),
            refused: false,
        }
    }

    /// Where the session stands.
    pub fn rehearsal(&self) -> &Rehearsal<'a>
        ensures { result.now ≡ self.now.place.rehearsal }
    {
        &self.rehearsal
    }

    /// Whether a line was refused.
    pub fn refused(&self) -> bool
        ensures { result ≡ self.now.refused }
    {
        self.refused
    }

    /// Notes that a line was refused.
    pub fn refuse(&mut self)
        ensures { self.new ≡ refusing self.old }
    {
        self.refused = true;
    }

    /// How far the session has come.
    fn point(&self) -> Point
        ensures stages { result.stages ≡ length self.now.place.rehearsal.above }
        ensures marks { result.marks ≡ length self.now.place.marked }
    {
        Point {
            stages: self.rehearsal.advances(),
            marks: self.marked.len(),
        }
    }

    /// The hosts that fail in the batch that comes next: these, and the marked ones that stand in it.
    fn failing_next(&self, alloc: Global, named: &[HostId]) -> Result<Vec<HostId>, AllocError>
        ensures { IfOk result (λ failing. failing.items ≡ named.now ++ marked_next self.now.place.rehearsal self.now.place.marked) }
    {
        let mut failing = Vec::from_slice(alloc, named)?;
        let marked = self.rehearsal.marked_next(alloc, self.marked.as_slice())?;
        failing.extend_from_slice(marked.as_slice())?;
        Ok(failing)
    }

    /// Goes on by the batch that comes next, in which just these hosts fail and the marked ones that stand in it, at the first step. It is refused as the
    /// rehearsal refuses it; then the session stands where it stood.
    pub fn advance(&mut self, alloc: Global, named: &[HostId]) -> Result<(), AdvanceFault>
        ensures ok { OnOk result (HasAdvanced named.now self.old self.new) }
        ensures err { IfErr result (IsRefused self.old.place.rehearsal named.now) }
        ensures unchanged { OnErr result (self.new ≡ self.old) }
    {
        let failing = self.failing_next(alloc, named)?;
        let point = self.point();
        self.points.push(point)?;
        match self.rehearsal.advance(alloc, failing.as_slice()) {
            Ok(()) => Ok(()),
            Err(fault) => {
                self.points.pop();
                Err(fault)
            }
        }
    }

    /// Goes on by so many batches, in each of which just the marked hosts fail that stand in it, or to the end of the play before them: as many as there are hosts
    /// lead to the end. All of it is taken back at once. Only want of memory refuses it; then the session stands where it stood.
    pub fn resume(&mut self, alloc: Global, count: usize) -> Result<(), AllocError>
        ensures ok { OnOk result (HasAdvancedBy count self.old self.new) }
        ensures to_end { OnOk result (length self.old.place.rehearsal.rules.fleet.hosts ≤ count → is_some (top self.new.place.rehearsal).end ≡ true) }
        ensures unchanged { OnErr result (self.new ≡ self.old) }
    {
        let point = self.point();
        self.points.push(point)?;
        match self
            .rehearsal
            .advance_by(alloc, count, self.marked.as_slice())
        {
            Ok(()) => Ok(()),
            Err(_refused) => {
                self.points.pop();
                Err(AllocError)
            }
        }
    }

    /// Whether the host is marked.
    fn is_marked(&self, host: HostId) -> bool
        ensures { result ≡ going.is_marked self.now host }
    {
        self.marked.iter().any(|other| host.index == other.index)
    }

    /// Marks the host, which then fails when its batch comes; one that is marked already stays so, and that is nothing to take back. Only want of memory refuses
    /// it; then the session stands where it stood.
    pub fn mark(&mut self, host: HostId) -> Result<(), AllocError>
        ensures ok { OnOk result (self.new ≡ marked_as host self.old) }
        ensures unchanged { OnErr result (self.new ≡ self.old) }
    {
        if self.is_marked(host) {
            return Ok(());
        }
        let point = self.point();
        self.points.push(point)?;
        match self.marked.push(host) {
            Ok(()) => Ok(()),
            Err(_refused) => {
                self.points.pop();
                Err(AllocError)
            }
        }
    }

    /// Takes back the last command that led on, whole; false where there is none. It takes no memory.
    pub fn undo(&mut self) -> bool
        ensures undone { self.new ≡ spec.undone self.old }
        ensures some { result ≡ has_earlier self.old.earlier }
    {
        match self.points.pop() {
            Some(point) => {
                self.rehearsal.cut(point.stages);
                self.marked.truncate(point.marks);
                true
            }
            None => false,
        }
    }
}
