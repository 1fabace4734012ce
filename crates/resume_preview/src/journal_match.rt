//! The journal of a run that began with an inventory.
ghost use Rattle.std.specs.Prelude.{◌≡◌, ◌≤◌, IfErr, IfOk, length, true};
ghost use Rattle.journal.specs.Lines.{max_body};
ghost use Rattle.journal.specs.Shown.{shown_journal};
ghost use Rattle.resume_preview.specs.Begun as spec;
ghost use Rattle.resume_preview.specs.Begun.{BeginsWithOther, IsBegunJournal, RefusesBegun};

use domains::Fleet;
use journal::{Journal, JournalFault, digest_of, first_line, read_journal};
use resume_state::ResumeFault;
use std::alloc::{AllocError, Global};

/// Whether the run of a journal began with this inventory.
fn began_with(journal: &Journal<'_>, inventory: &[u8]) -> bool
    ensures { result ≡ spec.began_with inventory.now (shown_journal journal.now) }
{
    match journal.head {
        Some(head) => head.inventory == digest_of(inventory).as_slice(),
        None => false,
    }
}

/// Whether the first line of a text is that of a run that began with another inventory: names that this one doesn't have would make a later line bad.
fn starts_with_other(
    alloc: Global,
    fleet: &Fleet,
    inventory: &[u8],
    text: &[u8],
) -> Result<bool, AllocError>
    requires { length text.now ≤ max_body }
    ensures { IfOk result (λ other. other ≡ true → BeginsWithOther fleet.now inventory.now text.now) }
{
    match read_journal(alloc, fleet, first_line(text)) {
        Ok(begun) => Ok(!began_with(&begun, inventory)),
        Err(JournalFault::Bad { line: _ }) => Ok(false),
        Err(JournalFault::Memory) => Err(AllocError),
    }
}

/// Reads the journal of a run that began with this inventory, or with another where that is said to be meant; with which playbook doesn't matter.
pub fn read_begun<'t>(
    alloc: Global,
    fleet: &Fleet,
    inventory: &[u8],
    takes_others: bool,
    text: &'t [u8],
) -> Result<Journal<'t>, ResumeFault>
    requires { length text.now ≤ max_body }
    ensures ok { IfOk result (λ journal. IsBegunJournal fleet.now inventory.now takes_others text.now (shown_journal journal)) }
    ensures err { IfErr result (RefusesBegun fleet.now inventory.now takes_others text.now) }
{
    if !takes_others && starts_with_other(alloc, fleet, inventory, text)? {
        return Err(ResumeFault::OtherInputs);
    }
    match read_journal(alloc, fleet, text) {
        Ok(journal) if takes_others || began_with(&journal, inventory) => Ok(journal),
        Ok(_journal) => Err(ResumeFault::OtherInputs),
        Err(fault) => Err(ResumeFault::Journal(fault)),
    }
}
