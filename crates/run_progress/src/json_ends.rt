//! How a step ended on a host, in its JSON object.
ghost use Rattle.std.specs.Prelude.{◌≡◌, Some};
ghost use Rattle.bounded_io.specs.Writing.{Writes};
ghost use Rattle.host_track.specs.Endings.{ending_of};
ghost use Rattle.run_progress.specs.JsonRows as spec;
ghost use Rattle.run_progress.specs.Rows.{name_in};

use crate::json_strings::write_string;
use crate::row_ends::End;
use crate::timing::Timing;
use bounded_io::TextWriter;
use host_track::{Judged, Outcome};
use local_runner::ExitDetail;
use recap::{write_field, write_integer};
use std::io::Write;

/// Returns the member of a verdict.
pub(crate) fn verdict_member(judged: Judged) -> &'static str
    ensures { result.now ≡ spec.verdict_json judged }
{
    match judged {
        Judged::Ok { changed: true } => ",\"verdict\":\"changed\"",
        Judged::Ok { changed: false } => ",\"verdict\":\"ok\"",
        Judged::Ignored { .. } => ",\"verdict\":\"ignored\"",
        Judged::Failed => ",\"verdict\":\"failed\"",
        Judged::Skipped => ",\"verdict\":\"skipped\"",
    }
}

#[tactic(auto, using(bounded_io::proofs::Pieces::pieces_of_text))]
fn write_code_json<W: Write>(text: &mut TextWriter<'_, W>, rc: i32)
    ensures { Writes W.contents text.old text.new (spec.code_json rc) }
{
    text.write_str(",\"rc\":");
    write_integer(text, rc);
}

#[tactic(auto, using(bounded_io::proofs::Pieces::pieces_of_text))]
fn write_number_json<W: Write>(text: &mut TextWriter<'_, W>, number: i32)
    ensures { Writes W.contents text.old text.new (spec.number_json number) }
{
    text.write_str(",\"signal\":");
    write_integer(text, number);
}

#[tactic(auto, using(bounded_io::proofs::Pieces::pieces_of_text))]
fn write_signal_json<W: Write>(text: &mut TextWriter<'_, W>, remark: &ExitDetail)
    ensures { Writes W.contents text.old text.new (spec.signal_json remark.now) }
{
    match remark {
        ExitDetail::Signal(number) => write_number_json(text, *number),
        ExitDetail::Nothing | ExitDetail::Refused(_) => {}
    }
}

#[tactic(auto, using(bounded_io::proofs::Pieces::pieces_of_text))]
fn write_valueless_json<W: Write>(text: &mut TextWriter<'_, W>, name: &str)
    ensures { Writes W.contents text.old text.new (spec.undefined_json (Some name.now)) }
{
    text.write_str(",\"undefined\":");
    write_string(text, name.as_bytes());
}

#[tactic(auto, using(bounded_io::proofs::Pieces::pieces_of_text))]
fn write_undefined_json<W: Write>(text: &mut TextWriter<'_, W>, name: Option<&str>)
    ensures { Writes W.contents text.old text.new (spec.undefined_json (name_in name.entry)) }
{
    if let Some(name) = name {
        write_valueless_json(text, name);
    }
}

#[tactic(auto, using(bounded_io::proofs::Pieces::pieces_of_text))]
fn write_took_json<W: Write>(text: &mut TextWriter<'_, W>, milliseconds: Option<u64>)
    ensures { Writes W.contents text.old text.new (spec.took_json milliseconds) }
{
    if let Some(milliseconds) = milliseconds {
        write_field(text, ",\"ms\":", milliseconds);
    }
}

/// Writes the exit status of a program, the signal that ended it, the undefined name that a condition reads, and its time.
#[tactic(auto, using(bounded_io::proofs::Pieces::pieces_of_text))]
fn write_ran_json<W: Write>(text: &mut TextWriter<'_, W>, rc: i32, end: &End<'_>)
    ensures { Writes W.contents text.old text.new (spec.ran_json rc (name_in end.now.undefined) end.now.given.now) }
{
    write_code_json(text, rc);
    write_signal_json(text, &end.given.remark);
    write_undefined_json(text, end.undefined);
    write_took_json(text, end.given.milliseconds);
}

/// Writes a member for any other program that was to run, and its time.
#[tactic(auto, using(bounded_io::proofs::Pieces::pieces_of_text))]
fn write_tried_json<W: Write>(text: &mut TextWriter<'_, W>, member: &str, given: &Timing)
    ensures { Writes W.contents text.old text.new (spec.tried_json member.now given.now) }
{
    text.write_str(member);
    write_took_json(text, given.milliseconds);
}

/// Writes how the step ended.
#[tactic(auto, using(bounded_io::proofs::Pieces::pieces_of_text))]
pub(crate) fn write_how_json<W: Write>(text: &mut TextWriter<'_, W>, end: &End<'_>)
    ensures { Writes W.contents text.old text.new (spec.how_json (ending_of end.now.outcome.now) (name_in end.now.undefined) end.now.given.now) }
{
    match end.outcome {
        Outcome::Ran { rc, .. } => write_ran_json(text, *rc, end),
        Outcome::NotStarted => write_tried_json(text, ",\"not_started\":true", end.given),
        Outcome::Lost => write_tried_json(text, ",\"lost\":true", end.given),
        Outcome::Skipped => {}
        Outcome::Undefined { name } => write_valueless_json(text, name.as_str()),
    }
}
