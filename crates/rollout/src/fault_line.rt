//! The line of each fault.
ghost use Rattle.std.specs.Prelude.{◌≡◌};
ghost use Rattle.bounded_io.specs.Writing.{Writes};
ghost use Rattle.rollout.specs.Endings.{fault_text};
ghost use Rattle.rollout.specs.FaultLines as spec;
ghost use Rattle.rollout.specs.FaultLines.{line_text, row_text};
ghost use Rattle.rollout.specs.FaultRows as rows;

use crate::detail::Detail::{Number, Text};
use crate::explanation::write_explanation;
use crate::fault::Fault;
use crate::playbook_rows::{write_missing_row, write_playbook_row};
use crate::row::{name_row, no_row, row};
use crate::text_rows::{
    write_fleet_row, write_input_row, write_line_row, write_pattern_row, write_read_row,
    write_unexpected_row,
};
use bounded_io::TextWriter;
use json_output::Form;
use std::io::Write;

/// Writes the fault's line; behind a bad line of words follows what is wrong with it, and behind ignored children what to do.
#[tactic(auto, using(bounded_io::proofs::Pieces::pieces_of_text))]
pub fn write_fault<W: Write>(text: &mut TextWriter<'_, W>, form: Form, fault: &Fault)
    ensures { Writes W.contents text.old text.new (fault_text form fault.now) }
{
    write_line(text, form, fault);
    write_explanation(text, form, fault);
}

#[tactic(auto, using(bounded_io::proofs::Pieces::pieces_of_text))]
fn write_line<W: Write>(text: &mut TextWriter<'_, W>, form: Form, fault: &Fault)
    ensures { Writes W.contents text.old text.new (line_text form (rows.number_of fault.now) (rows.row_of fault.now)) }
{
    let Some(number) = fault.number() else {
        text.write_str(memory_line(form));
        return;
    };
    text.write_str(before_number(form));
    text.write_number(u64::from(number));
    text.write_str(behind_number(form));
    write_row(text, form, fault);
    text.write_str(line_end(form));
}

fn memory_line(form: Form) -> &'static str
    ensures { result.now ≡ spec.memory_line form }
{
    match form {
        Form::Plain => "rollout: memory\n",
        Form::Json => "{\"fault\":{\"number\":null,\"kind\":\"memory\"}}\n",
    }
}

fn before_number(form: Form) -> &'static str
    ensures { result.now ≡ spec.before_number form }
{
    match form {
        Form::Plain => "rollout: ",
        Form::Json => "{\"fault\":{\"number\":",
    }
}

fn behind_number(form: Form) -> &'static str
    ensures { result.now ≡ spec.behind_number form }
{
    match form {
        Form::Plain => " ",
        Form::Json => ",",
    }
}

fn line_end(form: Form) -> &'static str
    ensures { result.now ≡ spec.line_end form }
{
    match form {
        Form::Plain => "\n",
        Form::Json => "}}\n",
    }
}

/// What stands behind the number. Want of memory has no number, and no row.
#[tactic(auto, using(bounded_io::proofs::Pieces::pieces_of_text))]
fn write_row<W: Write>(text: &mut TextWriter<'_, W>, form: Form, fault: &Fault)
    ensures { Writes W.contents text.old text.new (row_text form (rows.row_of fault.now)) }
{
    match fault {
        Fault::Line(fault) => write_line_row(text, form, fault),
        Fault::Input { source, fault } => write_input_row(text, form, source, fault),
        Fault::Read(fault) => write_read_row(text, form, fault),
        Fault::Fleet(fault) => write_fleet_row(text, form, fault),
        Fault::Playbook(fault) => write_playbook_row(text, form, fault),
        Fault::Pattern(fault) => write_pattern_row(text, form, fault),
        Fault::Mixed => row(text, form, "Mixed", &[]),
        Fault::LongLine => row(text, form, "LongLine", &[]),
        Fault::ChildrenIgnored => row(text, form, "ChildrenIgnored", &[]),
        Fault::JournalThere => row(text, form, "JournalThere", &[]),
        Fault::JournalWrite => row(text, form, "JournalWrite", &[]),
        Fault::Stopped => row(text, form, "Stopped", &[]),
        Fault::Locked => row(text, form, "Locked", &[]),
        Fault::BadJournal { line } => row(text, form, "BadJournal", &[Number("line", *line)]),
        Fault::OtherInputs => row(text, form, "OtherInputs", &[]),
        Fault::NeedsResult { name } => row(
            text,
            form,
            "NeedsResult",
            &[Text("name", name.as_str())],
        ),
        Fault::OutputIsInput { name } => name_row(text, form, "OutputIsInput", name),
        Fault::NoValue(missing) => write_missing_row(text, form, missing),
        Fault::BadPlan { line } => row(text, form, "BadPlan", &[Number("line", *line as u64)]),
        Fault::Unexpected(unexpected) => write_unexpected_row(text, form, unexpected),
        Fault::BadList { list } => name_row(text, form, "BadList", list),
        Fault::Write(fault) => row(text, form, "Write", &[Number("written", fault.written())]),
        Fault::Memory => no_row(text, form),
    }
}
