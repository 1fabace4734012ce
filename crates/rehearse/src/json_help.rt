//! The list of commands as a JSON object.
ghost use Rattle.bounded_io.specs.Writing.{Writes};
ghost use Rattle.rehearse.specs.Help.{asking_json, changing_json, help_json};

use bounded_io::TextWriter;
use std::io::Write;

#[tactic(auto, using(bounded_io::proofs::Pieces::pieces_of_text))]
fn write_changing<W: Write>(text: &mut TextWriter<'_, W>)
    ensures { Writes W.contents text.old text.new changing_json }
{
    text.write_str(
        "{\"command\":\"advance NAMES\",\"does\":\"the next batch is over; these hosts failed in it (no names: none)\"},",
    );
    text.write_str(
        "{\"command\":\"next N\",\"does\":\"the next N batches are over; just the marked hosts failed in them\"},",
    );
    text.write_str(
        "{\"command\":\"finish\",\"does\":\"the same of all batches, to the end of the play\"},",
    );
    text.write_str(
        "{\"command\":\"fail HOST\",\"does\":\"mark a host, which then fails as soon as its batch is over\"},",
    );
    text.write_str("{\"command\":\"undo\",\"does\":\"take the last of these back, whole\"},");
}

#[tactic(auto, using(bounded_io::proofs::Pieces::pieces_of_text))]
fn write_asking<W: Write>(text: &mut TextWriter<'_, W>)
    ensures { Writes W.contents text.old text.new asking_json }
{
    text.write_str("{\"command\":\"plan\",\"does\":\"the plan of the hosts that still wait\"},");
    text.write_str(
        "{\"command\":\"show\",\"does\":\"the state of each host, and the end of the play\"},",
    );
    text.write_str(
        "{\"command\":\"hosts GROUP\",\"does\":\"the state of each host of a group, and its batch in the plan\"},",
    );
    text.write_str("{\"command\":\"help, ?\",\"does\":\"this list\"},");
    text.write_str("{\"command\":\"quit\",\"does\":\"end the session\"}");
}

/// Writes an object for each command.
#[tactic(auto, using(bounded_io::proofs::Pieces::pieces_of_text))]
pub(crate) fn write_help_json<W: Write>(text: &mut TextWriter<'_, W>)
    ensures { Writes W.contents text.old text.new help_json }
{
    text.write_str("{\"reply\":\"help\",\"commands\":[");
    write_changing(text);
    write_asking(text);
    text.write_str("]}\n");
}
