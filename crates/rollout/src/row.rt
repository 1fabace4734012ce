//! A row of the table of faults: the name of a fault, and its details.
ghost use Rattle.std.specs.Prelude.{[], flat_map, string_bytes};
ghost use Rattle.bounded_io.specs.Writing.{Writes};
ghost use Rattle.rollout.specs.Details.{shown};
ghost use Rattle.rollout.specs.FaultLines.{detail_in, named_row, row_text};
ghost use Rattle.rollout.specs.FaultRows as rows;

use crate::detail::Detail::Text;
use crate::detail::{Detail, write_details};
use bounded_io::TextWriter;
use json_output::Form;
use std::io::Write;

/// A row of the table: the name of a fault, and its details in their order.
#[tactic(auto, using(bounded_io::proofs::Pieces::pieces_of_text))]
pub(crate) fn row<W: Write>(
    text: &mut TextWriter<'_, W>,
    form: Form,
    name: &str,
    details: &[Detail<'_>],
)
    ensures { Writes W.contents text.old text.new (named_row form name.now (flat_map (λ detail. detail_in form (shown detail)) details.now)) }
{
    write_name(text, form, name);
    write_details(text, form, details);
}

#[tactic(auto, using(bounded_io::proofs::Pieces::pieces_of_text))]
fn write_name<W: Write>(text: &mut TextWriter<'_, W>, form: Form, name: &str)
    ensures { Writes W.contents text.old text.new (named_row form name.now []) }
{
    match form {
        Form::Plain => text.write_str(name),
        Form::Json => {
            text.write_str("\"kind\":\"");
            text.write_str(name);
            text.write_str("\"");
        }
    }
}

/// A row of a fault at a path.
#[tactic(auto, using(bounded_io::proofs::Pieces::pieces_of_text))]
pub(crate) fn path_row<W: Write>(text: &mut TextWriter<'_, W>, form: Form, name: &str, at: &String)
    ensures { Writes W.contents text.old text.new (row_text form (rows.path_row name.now (string_bytes at.now))) }
{
    row(text, form, name, &[Text("at", at.as_str())]);
}

/// A row of a fault that names something.
#[tactic(auto, using(bounded_io::proofs::Pieces::pieces_of_text))]
pub(crate) fn name_row<W: Write>(
    text: &mut TextWriter<'_, W>,
    form: Form,
    name: &str,
    named: &String,
)
    ensures { Writes W.contents text.old text.new (row_text form (rows.name_row name.now (string_bytes named.now))) }
{
    row(text, form, name, &[Text("name", named.as_str())]);
}

/// Want of memory has no row: its line has no number, behind which it would stand.
pub(crate) fn no_row<W: Write>(text: &mut TextWriter<'_, W>, form: Form)
    ensures { Writes W.contents text.old text.new (row_text form rows.no_row) }
{
    row(text, form, "", &[]);
}
