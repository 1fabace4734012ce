//! The command `explain`: from the number of a fault, or the kind of a note, to what it means.
ghost use Rattle.rollout.specs.Pages.{Explains};

use crate::commands::print::print;
use crate::fault::Fault;
use crate::status::Status;
use command_line::{LineFault, OptionConflict};
use hints::entry_of;
use std::io::Write;

/// Prints the entry of the word. A word that has none makes the line a bad one.
pub fn explain<W: Write>(word: &str, out: &mut W) -> Result<Status, Fault>
    ensures { Explains word.now (W.contents out.old) (W.contents out.new) result }
{
    match entry_of(word) {
        Some(entry) => print(entry, out),
        None => Err(Fault::Line(LineFault::Apart(OptionConflict::NoEntry))),
    }
}
