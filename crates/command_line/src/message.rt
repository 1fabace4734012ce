//! The texts that clap has for a line's words.
ghost use Rattle.std.specs.Prelude.{◌≡◌, IfOk};
ghost use Rattle.clap.specs.Words as clap_spec;
ghost use Rattle.command_line.specs.Messages.{kind_of, text_of};

use clap::Error;
use clap::error::ErrorKind;
use std::alloc::{AllocError, Global};

/// How a line begins that tells how to give what looks like an option as a file: of a mistyped option it misleads.
const TIP: &str = "  tip: to pass '";

/// A text of clap's: the help, the version, or what is wrong with the words. No clause can say what clap writes; since only
/// an error of clap's makes one, it is clap's own.
#[derive(Debug, Drop)]
pub struct Message {
    kind: ErrorKind,
    text: String,
}

impl Message {
    pub(crate) fn of(alloc: Global, error: &Error) -> Result<Message, AllocError>
        ensures { IfOk result (λ message. kind_of message ≡ clap_spec.kind_of error.now) }
    {
        Ok(Message {
            kind: error.kind(),
            text: without_tip(alloc, error.to_string(alloc)?.as_str())?,
        })
    }

    pub fn as_str(&self) -> &str
        ensures { result.now ≡ text_of self.now }
    {
        self.text.as_str()
    }
}

/// The text without its tips to give a word as a file, and without the empty line before or behind them.
fn without_tip(alloc: Global, text: &str) -> Result<String, AllocError> {
    let mut kept = String::new(alloc);
    let mut has_tip = false;
    let mut is_behind_empty = false;
    for line in text.split_inclusive('\n') {
        let is_empty = line == "\n";
        if line.starts_with(TIP) {
            has_tip = true;
        } else if !(has_tip && is_empty && is_behind_empty) {
            kept.push_str(line)?;
            is_behind_empty = is_empty;
        }
    }
    Ok(kept)
}
