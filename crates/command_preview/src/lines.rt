//! The line of a step on a host.
ghost use Rattle.std.specs.Prelude.{◌≡◌};
ghost use Rattle.bounded_io.specs.Writing.{Writes};
ghost use Rattle.command_preview.specs.Inside.{asked_as, foretold_as, texts_of};
ghost use Rattle.command_preview.specs.Lines as spec;

use crate::asking::Asking;
use crate::step_preview::StepPreview;
use bounded_io::TextWriter;
use recap::write_field;
use std::io::Write;
use terminal_text::write_shell_word;

/// The first of two words where it is sure, and else the second.
fn word_of(is_sure: bool, sure: &'static str, unsure: &'static str) -> &'static str
    ensures { result.now ≡ spec.word_of is_sure sure.now unsure.now }
{
    if is_sure { sure } else { unsure }
}

/// Continues with the words, each after a blank.
#[tactic(auto, using(bounded_io::proofs::Pieces::pieces_of_text))]
fn write_words<W: Write>(text: &mut TextWriter<'_, W>, words: &[String])
    ensures { Writes W.contents text.old text.new (spec.shell_words (texts_of words.now)) }
{
    for word in words {
        text.write_str(" ");
        write_shell_word(text, word.as_bytes());
    }
}

#[tactic(auto, using(bounded_io::proofs::Pieces::pieces_of_text))]
fn write_job<W: Write>(text: &mut TextWriter<'_, W>, is_sure: bool, words: &[String])
    ensures { Writes W.contents text.old text.new (spec.job_text is_sure (texts_of words.now)) }
{
    text.write_str(word_of(is_sure, " runs:", " may-run:"));
    write_words(text, words);
}

#[tactic(auto, using(bounded_io::proofs::Pieces::pieces_of_text))]
fn write_undefined<W: Write>(text: &mut TextWriter<'_, W>, is_sure: bool, name: &str)
    ensures { Writes W.contents text.old text.new (spec.undefined_text is_sure name.now) }
{
    text.write_str(word_of(is_sure, " fails undefined=", " may-fail undefined="));
    text.write_str(name);
}

fn write_asking<W: Write>(text: &mut TextWriter<'_, W>, is_sure: bool, asking: &Asking<'_>)
    ensures { Writes W.contents text.old text.new (spec.request_text is_sure (asked_as asking.now)) }
{
    match asking {
        Asking::Job { words } => write_job(text, is_sure, words.as_slice()),
        Asking::Skipped => text.write_str(" skipped"),
        Asking::Undefined { name } => write_undefined(text, is_sure, name),
        Asking::TooLong => text.write_str(" too-long"),
    }
}

/// Goes on with the line of the step with this number.
#[tactic(auto, using(bounded_io::proofs::Pieces::pieces_of_text))]
pub(crate) fn write_line<W: Write>(
    text: &mut TextWriter<'_, W>,
    host: &str,
    number: u64,
    told: &StepPreview<'_>,
)
    ensures { Writes W.contents text.old text.new (spec.line_of host.now number (foretold_as told.now)) }
{
    text.write_str(host);
    write_field(text, " step=", number);
    write_asking(text, told.is_sure, &told.asking);
    text.write_str("\n");
}
