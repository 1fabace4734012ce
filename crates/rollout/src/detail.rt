//! The details of a fault's line.
ghost use Rattle.std.specs.Prelude.{◌≡◌, flat_map};
ghost use Rattle.bounded_io.specs.Writing.{Writes};
ghost use Rattle.rollout.specs.Details.{shown};
ghost use Rattle.recap.specs.Printable.{printable, printed};
ghost use Rattle.rollout.specs.FaultLines.{detail_in};
ghost use Rattle.rollout.specs.FaultLines as spec;

use bounded_io::TextWriter;
use json_output::Form;
use recap::write_printable;
use std::io::Write;

/// A detail of a fault, under its key.
#[derive(Clone, Copy)]
pub enum Detail<'a> {
    Text(&'static str, &'a str),
    Number(&'static str, u64),
}

/// Goes on with the details in their order, each behind a blank, or a comma.
pub fn write_details<W: Write>(text: &mut TextWriter<'_, W>, form: Form, details: &[Detail<'_>])
    ensures { Writes W.contents text.old text.new (flat_map (λ detail. detail_in form (shown detail)) details.now) }
{
    for detail in details {
        write_detail(text, form, detail);
    }
}

#[tactic(auto, using(bounded_io::proofs::Pieces::pieces_of_text))]
fn write_detail<W: Write>(text: &mut TextWriter<'_, W>, form: Form, detail: &Detail<'_>)
    ensures { Writes W.contents text.old text.new (detail_in form (shown detail.now)) }
{
    match form {
        Form::Plain => write_plain(text, detail),
        Form::Json => write_json(text, detail),
    }
}

#[tactic(auto, using(bounded_io::proofs::Pieces::pieces_of_text))]
fn write_plain<W: Write>(text: &mut TextWriter<'_, W>, detail: &Detail<'_>)
    ensures { Writes W.contents text.old text.new (spec.detail_text (shown detail.now)) }
{
    match detail {
        Detail::Text(key, value) => {
            write_key(text, *key);
            write_printable(text, (*value).as_bytes());
        }
        Detail::Number(key, value) => {
            write_key(text, *key);
            text.write_number(*value);
        }
    }
}

#[tactic(auto, using(bounded_io::proofs::Pieces::pieces_of_text))]
fn write_key<W: Write>(text: &mut TextWriter<'_, W>, key: &str)
    ensures { Writes W.contents text.old text.new (spec.key_text key.now) }
{
    text.write_str(" ");
    text.write_str(key);
    text.write_str("=");
}

#[tactic(auto, using(bounded_io::proofs::Pieces::pieces_of_text))]
fn write_json<W: Write>(text: &mut TextWriter<'_, W>, detail: &Detail<'_>)
    ensures { Writes W.contents text.old text.new (spec.detail_json (shown detail.now)) }
{
    match detail {
        Detail::Text(key, value) => {
            write_json_key(text, *key);
            write_quoted(text, (*value).as_bytes());
        }
        Detail::Number(key, value) => {
            write_json_key(text, *key);
            text.write_number(*value);
        }
    }
}

#[tactic(auto, using(bounded_io::proofs::Pieces::pieces_of_text))]
fn write_json_key<W: Write>(text: &mut TextWriter<'_, W>, key: &str)
    ensures { Writes W.contents text.old text.new (spec.key_json key.now) }
{
    text.write_str(",\"");
    text.write_str(key);
    text.write_str("\":");
}

#[tactic(auto, using(bounded_io::proofs::Pieces::pieces_of_text))]
fn write_quoted<W: Write>(text: &mut TextWriter<'_, W>, bytes: &[u8])
    ensures { Writes W.contents text.old text.new (spec.quoted (printed bytes.now)) }
{
    text.write_str("\"");
    write_escaped(text, bytes);
    text.write_str("\"");
}

fn write_escaped<W: Write>(text: &mut TextWriter<'_, W>, bytes: &[u8])
    ensures { Writes W.contents text.old text.new (flat_map spec.escaped (printed bytes.now)) }
{
    write_each_escaped(text, bytes);
}

fn write_each_escaped<W: Write>(text: &mut TextWriter<'_, W>, bytes: &[u8])
    ensures { Writes W.contents text.old text.new (flat_map (λ byte. spec.escaped (printable byte)) bytes.now) }
{
    for byte in bytes {
        write_byte(text, *byte);
    }
}

fn write_byte<W: Write>(text: &mut TextWriter<'_, W>, byte: u8)
    ensures { Writes W.contents text.old text.new (spec.escaped (printable byte)) }
{
    write_printable_byte(text, as_printable(byte));
}

/// A byte that is no printable ASCII is a question mark, as in a line.
fn as_printable(byte: u8) -> u8
    ensures { result ≡ printable byte }
{
    if b' ' <= byte && byte <= b'~' {
        byte
    } else {
        b'?'
    }
}

#[tactic(auto, using(bounded_io::proofs::Pieces::pieces_of_text))]
fn write_printable_byte<W: Write>(text: &mut TextWriter<'_, W>, byte: u8)
    ensures { Writes W.contents text.old text.new (spec.escaped byte) }
{
    if byte == b'"' || byte == b'\\' {
        text.write_bytes(&[b'\\', byte]);
    } else {
        text.write_bytes(&[byte]);
    }
}
