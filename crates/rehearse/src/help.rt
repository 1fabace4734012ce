//! The list of commands.
ghost use Rattle.bounded_io.specs.Writing.{Writes};
ghost use Rattle.rehearse.specs.Help.{asking_text, changing_text, help_text};

use bounded_io::TextWriter;
use std::io::Write;

#[tactic(auto, using(bounded_io::proofs::Pieces::pieces_of_text))]
fn write_changing<W: Write>(text: &mut TextWriter<'_, W>)
    ensures { Writes W.contents text.old text.new changing_text }
{
    text.write_str(
        "advance NAMES  the next batch is over; these hosts failed in it (no names: none)\n",
    );
    text.write_str(
        "next N         the next N batches are over; just the marked hosts failed in them\n",
    );
    text.write_str("finish         the same of all batches, to the end of the play\n");
    text.write_str("fail HOST      mark a host, which then fails as soon as its batch is over\n");
    text.write_str("undo           take the last of these back, whole\n");
}

#[tactic(auto, using(bounded_io::proofs::Pieces::pieces_of_text))]
fn write_asking<W: Write>(text: &mut TextWriter<'_, W>)
    ensures { Writes W.contents text.old text.new asking_text }
{
    text.write_str("plan           the plan of the hosts that still wait\n");
    text.write_str("show           the state of each host, and the end of the play\n");
    text.write_str("hosts GROUP    the state of each host of a group, and its batch in the plan\n");
    text.write_str("help, ?        this list\n");
    text.write_str("quit           end the session\n");
}

/// Writes a line for each command.
#[tactic(auto, using(bounded_io::proofs::Pieces::pieces_of_text))]
pub(crate) fn write_help<W: Write>(text: &mut TextWriter<'_, W>)
    ensures { Writes W.contents text.old text.new help_text }
{
    write_changing(text);
    write_asking(text);
}
