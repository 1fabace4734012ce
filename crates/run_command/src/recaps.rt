//! The recaps of the runs of several plays, in the form that is asked for.
ghost use Rattle.std.specs.Prelude.{◌≡◌, ◌+◌, ◌<◌, ◌≤◌, length};
ghost use Rattle.bounded_io.specs.Sending.{SendsText};
ghost use Rattle.bounded_io.specs.Writing.{Writes};
ghost use Rattle.run_command.specs.Recaps.{broken_text_from, runs_text_from};

use crate::lines::{write_broken, write_runs};
use crate::objects::{write_broken_json, write_runs_json};
use bounded_io::{TextWriter, WriteFault};
use domains::Fleet;
use json_output::Form;
use roll_run::{Run, RunsFault};
use std::io::Write;

fn write_runs_in<W: Write>(
    form: Form,
    text: &mut TextWriter<'_, W>,
    fleet: &Fleet,
    several: bool,
    plays_before: usize,
    runs: &[Run],
)
    requires { plays_before + length runs.now ≤ 18446744073709551615 }
    ensures { Writes W.contents text.old text.new (runs_text_from form plays_before fleet.now several runs.now) }
{
    match form {
        Form::Plain => write_runs(text, fleet, several, plays_before, runs),
        Form::Json => write_runs_json(text, fleet, plays_before, runs),
    }
}

/// Writes the recaps of runs that came to their ends. It takes no memory; where a write fails, exactly the first bytes went out, as many as
/// the fault says.
pub(crate) fn send_runs<W: Write>(
    form: Form,
    fleet: &Fleet,
    several: bool,
    plays_before: usize,
    runs: &[Run],
    out: &mut W,
) -> Result<(), WriteFault>
    requires { plays_before + length runs.now ≤ 18446744073709551615 }
    ensures { SendsText (W.contents out.old) (W.contents out.new) (runs_text_from form plays_before fleet.now several runs.now) result }
{
    let mut text = TextWriter::new(out);
    write_runs_in(form, &mut text, fleet, several, plays_before, runs);
    text.finish()
}

fn write_broken_in<W: Write>(
    form: Form,
    text: &mut TextWriter<'_, W>,
    fleet: &Fleet,
    several: bool,
    plays_before: usize,
    fault: &RunsFault,
)
    requires { plays_before + length fault.now.done.items < 18446744073709551615 }
    ensures { Writes W.contents text.old text.new (broken_text_from form plays_before fleet.now several fault.now.done.items fault.now.last) }
{
    match form {
        Form::Plain => write_broken(text, fleet, several, plays_before, fault),
        Form::Json => write_broken_json(text, fleet, plays_before, fault),
    }
}

/// The same of runs of which a fault broke the last one off.
pub(crate) fn send_broken<W: Write>(
    form: Form,
    fleet: &Fleet,
    several: bool,
    plays_before: usize,
    fault: &RunsFault,
    out: &mut W,
) -> Result<(), WriteFault>
    requires { plays_before + length fault.now.done.items < 18446744073709551615 }
    ensures { SendsText (W.contents out.old) (W.contents out.new) (broken_text_from form plays_before fleet.now several fault.now.done.items fault.now.last) result }
{
    let mut text = TextWriter::new(out);
    write_broken_in(form, &mut text, fleet, several, plays_before, fault);
    text.finish()
}
