//! Writing answers.
ghost use Rattle.std.specs.Prelude.{option_map};
ghost use Rattle.bounded_io.specs.Writing.{Writes};
ghost use Rattle.rehearse.specs.AnswersInside.{said};
ghost use Rattle.rehearse.specs.Replies.{told};
ghost use Rattle.rehearse.specs.Tellings.{telling_of};

use crate::json_reply::write_object;
use crate::plain_reply::write_lines;
use crate::rehearsal::Rehearsal;
use crate::reply::Reply;
use bounded_io::TextWriter;
use json_output::Form;
use std::io::Write;

/// Writes an answer in the form.
fn write_reply<W: Write>(
    text: &mut TextWriter<'_, W>,
    form: Form,
    rehearsal: &Rehearsal<'_>,
    reply: Reply<'_, '_>,
)
    ensures { Writes W.contents text.old text.new (telling_of form rehearsal.now.rules.fleet (said rehearsal.now reply.entry)) }
{
    match form {
        Form::Plain => write_lines(text, rehearsal, reply),
        Form::Json => write_object(text, rehearsal, reply),
    }
}

/// Writes an answer in the form, where there is one.
#[tactic(auto, using(bounded_io::proofs::Pieces::pieces_of_text))]
pub(crate) fn tell<W: Write>(
    text: &mut TextWriter<'_, W>,
    form: Form,
    rehearsal: &Rehearsal<'_>,
    reply: Option<Reply<'_, '_>>,
)
    ensures { Writes W.contents text.old text.new (told (telling_of form) rehearsal.now.rules.fleet (option_map (said rehearsal.now) reply.entry)) }
{
    if let Some(reply) = reply {
        write_reply(text, form, rehearsal, reply);
    }
}
