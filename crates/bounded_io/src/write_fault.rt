//! What ends the writing of a text.
ghost use Rattle.std.specs.Prelude.{◌≡◌};

use std::error::Error;
use std::fmt;

/// The writer refused a write or took nothing, or the text had 2^64 bytes and more. Exactly the first `written` bytes
/// of the text went out. Nothing else makes one.
#[derive(Clone, Copy, Debug, PartialEq, Eq)]
pub struct WriteFault {
    written: u64,
}

impl WriteFault {
    /// The fault of a text that broke off behind so many bytes.
    pub(crate) fn behind(written: u64) -> WriteFault
        ensures { result.written ≡ written }
    {
        WriteFault { written }
    }

    /// How many bytes went out.
    pub fn written(&self) -> u64
        ensures { result ≡ self.now.written }
    {
        self.written
    }

    /// The fault's number.
    pub fn number(&self) -> u16
        ensures { result ≡ 904 }
    {
        904
    }
}

impl fmt::Display for WriteFault {
    ghost use Rattle.std.specs.Prelude.{◌++◌, Some, codes, decimal};

    ghost output = { λ fault. Some (codes "the text broke off after " ++ (decimal fault.written ++ codes " bytes")) };

    fn fmt<W: fmt::Write>(&self, f: &mut fmt::Formatter<W>) -> fmt::Result {
        let written = self.written;
        write!(f, "the text broke off after {written} bytes")
    }
}

impl Error for WriteFault {}
