//! Why a line was not read.
ghost use Rattle.std.specs.Prelude.{◌≡◌};
ghost use Rattle.command_line.specs.Faults.{number_of};

use crate::message::Message;
use crate::option_conflict::OptionConflict;
use std::fmt;

/// Why the words are no line.
#[derive(Debug, Drop)]
pub enum LineFault {
    /// The words are no line of the program; clap says what is wrong with them.
    BadLine(Message),
    /// Options of the words don't go together.
    Apart(OptionConflict),
    /// The words are no line, and clap has nothing to say of them: they are no text, or it reads them in another way.
    Unexplained,
    Memory,
}

impl LineFault {
    /// The fault's number; want of memory has none.
    pub fn number(&self) -> Option<u16>
        ensures { result ≡ number_of self.now }
    {
        match self {
            LineFault::BadLine(_) | LineFault::Apart(_) | LineFault::Unexplained => Some(901),
            LineFault::Memory => None,
        }
    }
}

impl fmt::Display for LineFault {
    ghost use Rattle.std.specs.Prelude.{Some};
    ghost use Rattle.command_line.specs.Faults.{text_of};

    ghost output = { λ fault. Some (text_of fault) };

    fn fmt<W: fmt::Write>(&self, f: &mut fmt::Formatter<W>) -> fmt::Result {
        match self {
            LineFault::BadLine(message) => f.write_str(message.as_str()),
            LineFault::Apart(clash) => f.write_str(clash.text()),
            LineFault::Unexplained => f.write_str("no line of the program"),
            LineFault::Memory => f.write_str("want of memory"),
        }
    }
}

impl std::error::Error for LineFault {}
