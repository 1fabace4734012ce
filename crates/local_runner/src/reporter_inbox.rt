//! What is left for whoever tells of a run.
ghost use Rattle.std.specs.Prelude.{◌≡◌, ◌<◌, IfSome, length};

use crate::exit_detail::ExitDetail;
use group_tree::HostId;
use std::alloc::Global;
use std::mem;
use std::sync::{Mutex, Wait};

/// What is left of a program once it has ended or wasn't started: a remark, and how many milliseconds it took.
#[derive(Debug, Drop)]
pub struct Note {
    pub remark: ExitDetail,
    pub milliseconds: u64,
}

/// The note of a program on this host.
#[derive(Debug, Drop)]
struct Noted {
    host: HostId,
    note: Note,
}

/// `gate` is taken away by the first who asks; `was_full` stays. So many batches are ahead. `rest` is to be told behind everything else.
#[derive(Debug, Drop)]
struct Left {
    is_wanted: bool,
    notes: Vec<Noted>,
    was_full: bool,
    gate: Option<(u64, usize)>,
    ahead: usize,
    rest: Vec<u8>,
}

/// What workers and others leave for whoever tells of a run, so that one thread alone tells. Where nobody does, nothing is left. What can't be left
/// for want of memory is missing there, and changes nothing of the run.
#[derive(Drop)]
pub struct ReporterInbox {
    alloc: Global,
    left: Mutex<Left>,
}

impl ReporterInbox {
    /// Nothing is wanted yet.
    pub fn new(alloc: Global) -> ReporterInbox {
        ReporterInbox {
            alloc,
            left: Mutex::new(Left {
                is_wanted: false,
                notes: Vec::new(alloc),
                was_full: false,
                gate: None,
                ahead: 0,
                rest: Vec::new(alloc),
            }),
        }
    }

    /// A run may begin. Says whether anybody is told of anything.
    pub fn begin<H: Wait>(&self, rt: &H, is_wanted: bool) {
        self.left.lock(rt).is_wanted = is_wanted;
    }

    /// Whether anybody is told of anything.
    pub fn is_wanted<H: Wait>(&self, rt: &H) -> bool {
        self.left.lock(rt).is_wanted
    }

    /// Leaves the note of the program that this host had.
    pub(crate) fn leave<H: Wait>(&self, rt: &H, host: HostId, note: Note) {
        let mut left = self.left.lock(rt);
        if left.is_wanted {
            let _ = left.notes.push(Noted { host, note });
        }
    }

    /// Takes the note of this host away, where one was left.
    pub fn take<H: Wait>(&self, rt: &H, host: HostId) -> Option<Note> {
        let mut left = self.left.lock(rt);
        take_from(&mut left.notes, host)
    }

    /// Somebody had to wait, since no more programs are under way at once: so many, for so many descriptors.
    pub(crate) fn gate_is_full<H: Wait>(&self, rt: &H, bounds: Option<(u64, usize)>) {
        let mut left = self.left.lock(rt);
        if left.is_wanted && !left.was_full {
            left.was_full = true;
            left.gate = bounds;
        }
    }

    /// How many descriptors there are, and how many programs are under way at most for that: the first time only, and only once somebody had to
    /// wait.
    pub fn gate<H: Wait>(&self, rt: &H) -> Option<(u64, usize)> {
        let mut left = self.left.lock(rt);
        left.gate.take()
    }

    /// The plan has so many batches from here on.
    pub fn plan<H: Wait>(&self, rt: &H, ahead: usize) {
        self.left.lock(rt).ahead = ahead;
    }

    /// How many batches the plan had from there on, when that was said last.
    pub fn ahead<H: Wait>(&self, rt: &H) -> usize {
        self.left.lock(rt).ahead
    }

    /// Keeps lines that are to be told behind everything else, where anybody is told of anything. They go behind those that were kept before.
    pub fn keep<H: Wait>(&self, rt: &H, lines: Vec<u8>) {
        let mut left = self.left.lock(rt);
        if !left.is_wanted {
            return;
        }
        if left.rest.is_empty() {
            left.rest = lines;
        } else {
            let _ = left.rest.extend_from_slice(lines.as_slice());
        }
    }

    /// Takes away what was kept.
    pub fn rest<H: Wait>(&self, rt: &H) -> Vec<u8> {
        let mut left = self.left.lock(rt);
        mem::replace(&mut left.rest, Vec::new(self.alloc))
    }
}

/// Where a note of this host lies.
fn place_of(notes: &[Noted], host: HostId) -> Option<usize>
    ensures within { IfSome result (λ place. place < length notes.now) }
{
    for place in 0..notes.len() {
        if notes[place].host == host {
            return Some(place);
        }
    }
    None
}

fn take_from(notes: &mut Vec<Noted>, host: HostId) -> Option<Note> {
    let place = place_of(notes.as_slice(), host)?;
    Some(notes.swap_remove(place).note)
}
