//! The rows of faults of words, inputs, inventories, patterns and expectations.
ghost use Rattle.std.specs.Prelude.{◌≡◌};
ghost use Rattle.bounded_io.specs.Writing.{Writes};
ghost use Rattle.rollout.specs.Details.{shown};
ghost use Rattle.rollout.specs.FaultLines.{row_text};
ghost use Rattle.rollout.specs.FaultRows as rows;

use crate::detail::Detail;
use crate::detail::Detail::{Number, Text};
use crate::row::{name_row, no_row, row};
use bounded_io::{InputFault, TextWriter};
use command_line::{LineFault, Source};
use domains::{FleetFault, PatternFault};
use expectations::{Relation, Unexpected};
use inventory_read::ReadFault;
use json_output::Form;
use std::io::Write;

#[tactic(auto, using(bounded_io::proofs::Pieces::pieces_of_text))]
pub(crate) fn write_line_row<W: Write>(text: &mut TextWriter<'_, W>, form: Form, fault: &LineFault)
    ensures { Writes W.contents text.old text.new (row_text form (rows.line_row fault.now)) }
{
    match fault {
        LineFault::BadLine(_) | LineFault::Apart(_) | LineFault::Unexplained => {
            row(text, form, "BadLine", &[]);
        }
        LineFault::Memory => no_row(text, form),
    }
}

#[tactic(auto, using(bounded_io::proofs::Pieces::pieces_of_text))]
pub(crate) fn write_input_row<W: Write>(
    text: &mut TextWriter<'_, W>,
    form: Form,
    source: &Source,
    fault: &InputFault,
)
    ensures { Writes W.contents text.old text.new (row_text form (rows.input_row source.now fault.now)) }
{
    match fault {
        InputFault::File => row(text, form, "File", &[Text("name", name_of(source))]),
        InputFault::TooLarge => row(text, form, "InputTooLarge", &[]),
        InputFault::Memory => no_row(text, form),
    }
}

/// The name of an input that could not be read.
fn name_of(source: &Source) -> &str
    ensures { result.now ≡ rows.name_of source.now }
{
    match source {
        Source::StandardInput => "-",
        Source::File(name) => name.as_str(),
    }
}

#[tactic(auto, using(bounded_io::proofs::Pieces::pieces_of_text))]
pub(crate) fn write_read_row<W: Write>(text: &mut TextWriter<'_, W>, form: Form, fault: &ReadFault)
    ensures { Writes W.contents text.old text.new (row_text form (rows.read_row fault.now)) }
{
    match fault {
        ReadFault::BadName { name } => row(text, form, "BadName", &[Text("name", name.as_str())]),
        ReadFault::TwicePlaced { group } => {
            row(text, form, "TwicePlaced", &[Number("group", *group as u64)])
        }
        ReadFault::TooDeep => row(text, form, "TooDeep", &[]),
        ReadFault::TooMany => row(text, form, "TooMany", &[]),
        ReadFault::NotJson => row(text, form, "NotJson", &[]),
        ReadFault::BadShape { at } => row(text, form, "BadShape", &[Text("at", at.as_str())]),
        ReadFault::UnknownKey { at } => row(text, form, "UnknownKey", &[Text("at", at.as_str())]),
        ReadFault::BadLimit { at } => row(text, form, "BadLimit", &[Text("at", at.as_str())]),
        ReadFault::BadDown { at } => row(text, form, "BadDown", &[Text("at", at.as_str())]),
        ReadFault::Memory => no_row(text, form),
    }
}

#[tactic(auto, using(bounded_io::proofs::Pieces::pieces_of_text))]
pub(crate) fn write_fleet_row<W: Write>(
    text: &mut TextWriter<'_, W>,
    form: Form,
    fault: &FleetFault,
)
    ensures { Writes W.contents text.old text.new (row_text form (rows.fleet_row fault.now)) }
{
    match fault {
        FleetFault::TooManyHosts => row(text, form, "TooManyHosts", &[]),
        FleetFault::NotNested {
            host,
            first,
            second,
        } => row(
            text,
            form,
            "NotNested",
            &[
                Text("host", host.as_str()),
                Text("first", first.as_str()),
                Text("second", second.as_str()),
            ],
        ),
        FleetFault::StartOver { group, down, limit } => row(
            text,
            form,
            "StartOver",
            &[
                Text("group", group.as_str()),
                Number("down", *down as u64),
                Number("limit", u64::from(*limit)),
            ],
        ),
        FleetFault::Memory => no_row(text, form),
    }
}

#[tactic(auto, using(bounded_io::proofs::Pieces::pieces_of_text))]
pub(crate) fn write_pattern_row<W: Write>(
    text: &mut TextWriter<'_, W>,
    form: Form,
    fault: &PatternFault,
)
    ensures { Writes W.contents text.old text.new (row_text form (rows.pattern_row fault.now)) }
{
    match fault {
        PatternFault::NoSuchName { name } => name_row(text, form, "NoSuchName", name),
        PatternFault::Memory => no_row(text, form),
    }
}

#[tactic(auto, using(bounded_io::proofs::Pieces::pieces_of_text))]
pub(crate) fn write_unexpected_row<W: Write>(
    text: &mut TextWriter<'_, W>,
    form: Form,
    unexpected: &Unexpected,
)
    ensures { Writes W.contents text.old text.new (row_text form (rows.unexpected_row unexpected.now)) }
{
    let name = Text("name", unexpected.name.as_str());
    let number = Number(
        relation_key(unexpected.relation),
        u64::from(unexpected.number),
    );
    row(
        text,
        form,
        "Unexpected",
        &[name, number, found_detail(unexpected.found)],
    );
}

fn relation_key(relation: Relation) -> &'static str
    ensures { result.now ≡ rows.relation_key relation }
{
    match relation {
        Relation::Equal => "expected",
        Relation::AtMost => "most",
    }
}

fn found_detail<'d>(found: Option<usize>) -> Detail<'d>
    ensures { shown result ≡ rows.found_detail found }
{
    match found {
        Some(found) => Number("found", found as u64),
        None => Text("found", "none"),
    }
}
