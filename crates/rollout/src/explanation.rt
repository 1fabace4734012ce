//! What stands behind the line of a fault.
ghost use Rattle.std.specs.Prelude.{◌≡◌};
ghost use Rattle.bounded_io.specs.Writing.{Writes};
ghost use Rattle.rollout.specs.Explanations as spec;

use crate::fault::Fault;
use bounded_io::TextWriter;
use command_line::LineFault;
use json_output::Form;
use std::io::Write;
use terminal_text::write_lines;

/// How a run is started where the ends of children are ignored.
const IGNORED: &str = "\
SIGCHLD is ignored here, so no program's end could be had. Start it with: env --default-signal=CHLD rollout run ..
";

/// Goes on with what is wrong with bad words, and what to do where children are ignored; it is for people, and JSON has none of it.
#[tactic(auto, using(bounded_io::proofs::Pieces::pieces_of_text))]
pub fn write_explanation<W: Write>(text: &mut TextWriter<'_, W>, form: Form, fault: &Fault)
    ensures { Writes W.contents text.old text.new (spec.explanation_in form fault.now) }
{
    match form {
        Form::Plain => write_plain(text, fault),
        Form::Json => {}
    }
}

#[tactic(auto, using(bounded_io::proofs::Pieces::pieces_of_text))]
fn write_plain<W: Write>(text: &mut TextWriter<'_, W>, fault: &Fault)
    ensures { Writes W.contents text.old text.new (spec.explanation_of fault.now) }
{
    match fault {
        Fault::Line(LineFault::BadLine(explanation)) => {
            write_lines(text, explanation.as_str().as_bytes());
        }
        Fault::Line(LineFault::Apart(clash)) => text.write_str(clash.text()),
        Fault::ChildrenIgnored => text.write_str(IGNORED),
        _ => {}
    }
}
