//! Printing a text that the words ask for.
ghost use Rattle.bounded_io.specs.Sending.{SendsText};
ghost use Rattle.rollout.specs.Commands.{Prints};

use crate::fault::Fault;
use crate::status::Status;
use bounded_io::{TextWriter, WriteFault};
use std::io::Write;

/// Prints a text whole. Where a write fails, exactly the first bytes of the text went out, as many as the fault says.
pub fn print<W: Write>(text: &str, out: &mut W) -> Result<Status, Fault>
    ensures { Prints text.now (W.contents out.old) (W.contents out.new) result }
{
    match write_text(text, out) {
        Ok(()) => Ok(Status::Done),
        Err(fault) => Err(Fault::Write(fault)),
    }
}

fn write_text<W: Write>(text: &str, out: &mut W) -> Result<(), WriteFault>
    ensures { SendsText (W.contents out.old) (W.contents out.new) text.now result }
{
    let mut writer = TextWriter::new(out);
    writer.write_str(text);
    writer.finish()
}
