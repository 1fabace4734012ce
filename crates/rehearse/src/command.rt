//! What a line asks for.
ghost use Rattle.std.specs.Prelude.{◌≡◌, ◌∷◌, is_some};
ghost use Rattle.std.specs.ControlFlow.{break_value};
ghost use Rattle.rehearse.specs.Commands as spec;
ghost use Rattle.rehearse.specs.Commands.{command_in, command_of, ends_session, words_of};
ghost use Rattle.rehearse.specs.AnswersInside.{asked};

use crate::words::cut_word;
use std::ops::ControlFlow;
use std::str;
use text_syntax::number_in_digits;

/// What a line asks for.
#[derive(Clone, Copy)]
pub(crate) enum Command<'l> {
    Nothing,
    /// To go on by a batch in which the hosts of these names fail too.
    Advance(&'l [u8]),
    /// To go on by so many batches.
    Next(u16),
    /// To go on to the end of the play.
    Finish,
    /// To mark the host of this name.
    Fail(&'l [u8]),
    Undo,
    Plan,
    Show,
    /// The hosts of the group of this name.
    Hosts(&'l [u8]),
    Help,
    /// The end of the session.
    Quit,
    Unknown,
}

impl Command<'_> {
    /// Whether the session goes on behind the command.
    pub(crate) fn flow(self) -> ControlFlow<()>
        ensures { is_some (break_value result) ≡ ends_session (asked self.entry) }
    {
        match self {
            Command::Quit => ControlFlow::Break(()),
            _ => ControlFlow::Continue(()),
        }
    }
}

/// The command that the line says.
pub(crate) fn read_command(line: &[u8]) -> Command<'_>
    ensures { asked result ≡ command_in line.now }
{
    match cut_word(line) {
        Some((word, rest)) => command_named(word, rest),
        None => Command::Nothing,
    }
}

/// The command of a line that begins with this word, and has this behind it.
fn command_named<'l>(word: &[u8], rest: &'l [u8]) -> Command<'l>
    ensures { asked result ≡ command_of (word.now ∷ words_of rest.now) }
{
    if word == b"advance".as_slice() {
        return Command::Advance(rest);
    }
    if word == b"next".as_slice() {
        return next_of(rest);
    }
    if word == b"finish".as_slice() {
        return alone(Command::Finish, rest);
    }
    if word == b"fail".as_slice() {
        return fail_of(rest);
    }
    if word == b"undo".as_slice() {
        return alone(Command::Undo, rest);
    }
    if word == b"plan".as_slice() {
        return alone(Command::Plan, rest);
    }
    if word == b"show".as_slice() {
        return alone(Command::Show, rest);
    }
    if word == b"hosts".as_slice() {
        return hosts_of(rest);
    }
    if word == b"help".as_slice() || word == b"?".as_slice() {
        return alone(Command::Help, rest);
    }
    if word == b"quit".as_slice() {
        return alone(Command::Quit, rest);
    }
    Command::Unknown
}

/// The command that asks for the hosts of a group, where just its name stands there.
fn hosts_of(rest: &[u8]) -> Command<'_>
    ensures { asked result ≡ spec.hosts_of (words_of rest.now) }
{
    match cut_word(rest) {
        Some((group, behind)) => alone(Command::Hosts(group), behind),
        None => Command::Unknown,
    }
}

/// The command that asks to mark a host, where just its name stands there.
fn fail_of(rest: &[u8]) -> Command<'_>
    ensures { asked result ≡ spec.fail_of (words_of rest.now) }
{
    match cut_word(rest) {
        Some((host, behind)) => alone(Command::Fail(host), behind),
        None => Command::Unknown,
    }
}

/// The number from 1 to 65,535 that a word of one to five digits says.
fn number_in(word: &[u8]) -> Option<u16>
    ensures { result ≡ spec.number_in word.now }
{
    match str::from_utf8(word) {
        Ok(digits) => some_number(number_in_digits(digits, 5, 65535)?),
        Err(_) => None,
    }
}

fn some_number(count: u16) -> Option<u16>
    ensures { result ≡ spec.some_number count }
{
    if 0 < count { Some(count) } else { None }
}

/// The command that asks to go on by this number of batches, where nothing stands behind it.
fn next_by<'l>(count: Option<u16>, rest: &[u8]) -> Command<'l>
    ensures { asked result ≡ spec.next_by count (words_of rest.now) }
{
    match count {
        Some(count) => alone(Command::Next(count), rest),
        None => Command::Unknown,
    }
}

/// The command that asks to go on by several batches, where just their number stands there.
fn next_of(rest: &[u8]) -> Command<'_>
    ensures { asked result ≡ spec.next_of (words_of rest.now) }
{
    match cut_word(rest) {
        Some((word, behind)) => next_by(number_in(word), behind),
        None => Command::Unknown,
    }
}

/// The command, where no word stands behind it.
fn alone<'l>(command: Command<'l>, rest: &[u8]) -> Command<'l>
    ensures { asked result ≡ spec.alone (asked command.entry) (words_of rest.now) }
{
    if cut_word(rest).is_none() {
        command
    } else {
        Command::Unknown
    }
}
