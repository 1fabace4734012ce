//! The journal of a run that begins as one that goes on does.
ghost use Rattle.std.specs.Prelude.{IfSome};
ghost use Rattle.journal_writer.specs.Beginnings.{HasHead};

use crate::durable_file::JournalStore;
use crate::journal_record::{JournalRecord, take};
use crate::writer::told_plays;
use domains::Fleet;
use std::alloc::Global;

/// A new journal under this name, which has the head of a run of these texts with so many plays, and nothing else: the run goes on from there, with hosts that are up by now. There is none
/// where the file can't be made or doesn't take the head whole.
pub fn begin_journal<S: JournalStore>(
    alloc: Global,
    shelf: &S,
    name: &str,
    fleet: &Fleet,
    inventory: &[u8],
    playbook: &[u8],
    plays: usize,
) -> Option<S::Journal>
    ensures { IfSome result (HasHead S.Journal.contents (λ file. S.is_new file name.now) fleet.now inventory.now playbook.now plays) }
{
    let Ok(mut file) = shelf.create(name) else {
        return None;
    };
    let head = JournalRecord::Head(inventory, playbook, told_plays(plays));
    if take(alloc, &mut file, fleet, head, false) {
        Some(file)
    } else {
        None
    }
}
