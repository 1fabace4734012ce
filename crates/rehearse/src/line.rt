//! The answer to a line.
ghost use Rattle.std.specs.Prelude.{◌≡◌, IfOk, OnErr, OnOk, [], is_some, option_map};
ghost use Rattle.std.specs.ControlFlow.{break_value};
ghost use Rattle.bounded_io.specs.Writing.{Writes};
ghost use Rattle.rehearse.specs.Answers.{Answers, LeadsTo, answer_to, taken_back, text_to};
ghost use Rattle.rehearse.specs.Histories as histories;
ghost use Rattle.rehearse.specs.Commands.{command_in, ends_session};
ghost use Rattle.rehearse.specs.AnswersInside.{asked, said};
ghost use Rattle.rehearse.specs.Tellings.{telling_of};

use crate::advance_answer::answer_advance;
use crate::command::{Command, read_command};
use crate::fail_answer::answer_fail;
use crate::history::History;
use crate::hosts_answer::answer_hosts;
use crate::next_answer::{answer_finish, answer_next};
use crate::output::tell;
use crate::refusal::{Refusal, refuse};
use crate::reply::Reply;
use bounded_io::TextWriter;
use json_output::Form;
use std::alloc::{AllocError, Global};
use std::io::Write;
use std::ops::ControlFlow;

/// Takes the last command back that led on.
fn answer_undo<'f, 'l>(history: &mut History<'f>) -> Reply<'f, 'l>
    ensures reply { said history.new.place.rehearsal result ≡ taken_back history.old.earlier }
    ensures leads { history.new ≡ histories.undone history.old }
{
    if history.undo() {
        Reply::Undone
    } else {
        Reply::NothingToUndo
    }
}

/// What is answered to a command; nothing to one that asks for nothing. Only want of memory fails it; then the session stands where it stood.
fn answer_command<'f, 'l>(
    alloc: Global,
    history: &mut History<'f>,
    command: Command<'l>,
) -> Result<Option<Reply<'f, 'l>>, AllocError>
    ensures reply { IfOk result (λ reply. option_map (said history.new.place.rehearsal) reply ≡ answer_to history.old (asked command.entry) history.new) }
    ensures leads { OnOk result (LeadsTo history.old (asked command.entry) history.new) }
    ensures unchanged { OnErr result (history.new ≡ history.old) }
{
    match command {
        Command::Nothing | Command::Quit => Ok(None),
        Command::Advance(names) => Ok(Some(answer_advance(alloc, history, names)?)),
        Command::Next(count) => Ok(Some(answer_next(alloc, history, count as usize)?)),
        Command::Finish => Ok(Some(answer_finish(alloc, history)?)),
        Command::Fail(name) => Ok(Some(answer_fail(history, name)?)),
        Command::Undo => Ok(Some(answer_undo(history))),
        Command::Plan => Ok(Some(Reply::Plan)),
        Command::Show => Ok(Some(Reply::Show)),
        Command::Hosts(group) => Ok(Some(answer_hosts(history, group))),
        Command::Help => Ok(Some(Reply::Help)),
        Command::Unknown => Ok(Some(refuse(history, Refusal::BadCommand))),
    }
}

/// Answers a line, which stands without the end of its line, and tells whether the session goes on behind it. What is answered, and where that leads, is said
/// of each line; a line without words, and one that ends the session, are answered by nothing. Only want of memory fails it; then the session stands where it
/// stood, and nothing is written.
pub fn answer<W: Write>(
    alloc: Global,
    form: Form,
    history: &mut History<'_>,
    line: &[u8],
    text: &mut TextWriter<'_, W>,
) -> Result<ControlFlow<()>, AllocError>
    ensures writes { OnOk result (Writes W.contents text.old text.new (text_to (telling_of form) history.old (command_in line.now) history.new)) }
    ensures answers { OnOk result (Answers (telling_of form) history.old line.now (text_to (telling_of form) history.old (command_in line.now) history.new) history.new) }
    ensures flow { IfOk result (λ flow. is_some (break_value flow) ≡ ends_session (command_in line.now)) }
    ensures unchanged { OnErr result (history.new ≡ history.old) }
    ensures silent { OnErr result (Writes W.contents text.old text.new []) }
{
    let command = read_command(line);
    let reply = answer_command(alloc, history, command)?;
    tell(text, form, history.rehearsal(), reply);
    Ok(command.flow())
}
