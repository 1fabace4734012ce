//! The end of the program: its exit status, and the line of the fault that it ends with.
ghost use Rattle.std.specs.Prelude.{◌≡◌, ◌++◌, option_map, string_bytes};
ghost use Rattle.std.specs.Process.{exit_status};
ghost use Rattle.bounded_io.specs.Sending.{SendsText};
ghost use Rattle.bounded_io.specs.Writing.{Writes};
ghost use Rattle.rollout.specs.Endings.{Reports, fault_text, help_text, reporting_as, plain_reporting, status_of, status_of_fault};
ghost use Rattle.rollout.specs.Endings as spec;
ghost use Rattle.rollout.specs.Status.{code_of};

use crate::fault::Fault;
use crate::fault_line::write_fault;
use crate::status::Status;
use bounded_io::{TextWriter, WriteFault};
use json_output::Form;
use std::io::Write;
use std::process::ExitCode;

/// How a fault is reported: its form, and what is said behind it of what to do.
#[derive(Drop)]
pub struct Reporting {
    pub form: Form,
    pub help: Option<String>,
}

/// What was done, and how it is reported.
#[derive(Drop)]
pub struct Ended {
    pub outcome: Result<Status, Fault>,
    pub reporting: Reporting,
}

impl Ended {
    /// Reported by its line alone, for people.
    pub fn plain(outcome: Result<Status, Fault>) -> Ended
        ensures outcome { result.outcome ≡ outcome }
        ensures plainly { reporting_as result.reporting ≡ plain_reporting }
    {
        let reporting = Reporting {
            form: Form::Plain,
            help: None,
        };
        Ended { outcome, reporting }
    }
}

/// The form that is asked for.
pub fn form_of(is_json: bool) -> Form
    ensures { result ≡ spec.form_of is_json }
{
    if is_json { Form::Json } else { Form::Plain }
}

/// The status that the program ends with. Of what was done nothing is reported; a fault is, by its line, on `errors`.
pub fn conclude<E: Write>(
    outcome: Result<Status, Fault>,
    reporting: &Reporting,
    errors: &mut E,
) -> Status
    ensures status { result ≡ status_of outcome }
    ensures reports { Reports (reporting_as reporting.now) outcome (E.contents errors.old) (E.contents errors.new) }
{
    match outcome {
        Ok(status) => status,
        Err(fault) => {
            // Where the line can't be written either, the status alone tells of the fault.
            let _ = report(&fault, reporting, errors);
            fault_status(&fault)
        }
    }
}

/// Writes the line of a fault, and the line that helps.
#[tactic(auto, using(bounded_io::proofs::Pieces::pieces_of_text))]
fn report<E: Write>(fault: &Fault, reporting: &Reporting, errors: &mut E) -> Result<(), WriteFault>
    ensures { SendsText (E.contents errors.old) (E.contents errors.new) (fault_text reporting.now.form fault.now ++ help_text reporting.now.form (reporting_as reporting.now).help) result }
{
    let mut text = TextWriter::new(errors);
    write_fault(&mut text, reporting.form, fault);
    write_help(&mut text, reporting.form, &reporting.help);
    text.finish()
}

/// Goes on with the line that helps, where there is one.
#[tactic(auto, using(bounded_io::proofs::Pieces::pieces_of_text))]
pub(crate) fn write_help<W: Write>(text: &mut TextWriter<'_, W>, form: Form, help: &Option<String>)
    ensures { Writes W.contents text.old text.new (help_text form (option_map string_bytes help.now)) }
{
    match (form, help) {
        (Form::Plain, Some(help)) => {
            text.write_str("  ");
            text.write_str(help.as_str());
            text.write_str("\n");
        }
        (Form::Plain, None) | (Form::Json, _) => {}
    }
}

/// Whether the fault of this number ended a run before its plays did.
fn ends_early(number: u16) -> bool
    ensures { result ≡ spec.ends_early number }
{
    number == 911 || number == 917
}

fn fault_status(fault: &Fault) -> Status
    ensures { result ≡ status_of_fault fault.now }
{
    match fault.number() {
        Some(number) if ends_early(number) => Status::BrokenOff,
        Some(_) => Status::Refused,
        None => Status::Memory,
    }
}

/// The exit status that tells of the end.
pub fn exit_code(status: Status) -> ExitCode
    ensures { exit_status result ≡ code_of status }
{
    ExitCode::from(status.code())
}
