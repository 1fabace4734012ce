//! A line, with what is asked for beside it.
ghost use Rattle.std.specs.Prelude.{◌≡◌, ◌∷◌, [], IfErr, IfOk, Some, map, string_bytes};
ghost use Rattle.command_line.specs.OptionReads.{given_as};
ghost use Rattle.command_line.specs.Wishes as spec;
ghost use Rattle.command_line.specs.Words.{Refuses, RefusesLine, RefusesWith, Says};

use crate::command::Line;
use crate::fault::LineFault;
use crate::option_conflict::OptionConflict;
use crate::option_reading::{OptionMatch, read_options};
use crate::option_rules::{clash_of, options_of};
use crate::options::{Options, wishes_of};
use crate::reading::line;
use std::alloc::{AllocError, Global};

/// A line, and what is asked for beside it.
#[derive(Debug, Drop)]
pub struct Request {
    pub line: Line,
    pub wishes: Options,
}

/// What the words ask for, the program's name left out. The options of a command may stand anywhere before the word that ends options, and more than once; the word behind one that has a
/// value is its value, whatever it looks like. They are taken out before clap reads the words, so that what clap makes of the others is the same wherever they stood. Where they don't go
/// together, the words are no line.
pub fn request_of(alloc: Global, words: &[String]) -> Result<Request, LineFault>
    ensures ok { IfOk result (λ asked. Says (spec.plain (map string_bytes words.now)) asked.line) }
    ensures wishes { IfOk result (λ asked. spec.wish_as asked.wishes ≡ spec.wished (map string_bytes words.now)) }
    ensures err { IfErr result (RefusesLine (map string_bytes words.now)) }
{
    match words {
        [command, rest @ ..] => command_request(alloc, words, command, rest),
        [] => bare_request(alloc, words),
    }
}

/// What words ask for whose first is this one, and the others these.
fn command_request(
    alloc: Global,
    words: &[String],
    command: &String,
    rest: &[String],
) -> Result<Request, LineFault>
    requires { map string_bytes words.now ≡ string_bytes command.now ∷ map string_bytes rest.now }
    ensures ok { IfOk result (λ asked. Says (spec.plain (map string_bytes words.now)) asked.line) }
    ensures wishes { IfOk result (λ asked. spec.wish_as asked.wishes ≡ spec.wished (map string_bytes words.now)) }
    ensures err { IfErr result (RefusesLine (map string_bytes words.now)) }
{
    let Ok((plain, given)) = read_options(alloc, options_of(command), rest) else {
        return Err(LineFault::Memory);
    };
    match clash_of(command, given.as_slice()) {
        None => wished_request(alloc, command, plain, given.as_slice()),
        Some(clash) => clashing_request(alloc, words, clash),
    }
}

/// What these words ask for, whose options don't go together: the help, if anything.
fn clashing_request(
    alloc: Global,
    words: &[String],
    clash: OptionConflict,
) -> Result<Request, LineFault>
    ensures ok { IfOk result (λ asked. Says (map string_bytes words.now) asked.line) }
    ensures wishes { IfOk result (λ asked. spec.wish_as asked.wishes ≡ spec.wish_of []) }
    ensures err { IfErr result (RefusesWith (Some clash) (map string_bytes words.now)) }
{
    match bare_request(alloc, words) {
        Ok(request) => Ok(request),
        Err(LineFault::Unexplained) => Err(LineFault::Apart(clash)),
        Err(fault) => Err(fault),
    }
}

/// What these words ask for, beside which nothing is asked for.
fn bare_request(alloc: Global, words: &[String]) -> Result<Request, LineFault>
    ensures ok { IfOk result (λ asked. Says (map string_bytes words.now) asked.line) }
    ensures wishes { IfOk result (λ asked. spec.wish_as asked.wishes ≡ spec.wish_of []) }
    ensures err { IfErr result (Refuses (map string_bytes words.now)) }
{
    match line(alloc, words) {
        Ok(line) => Ok(Request {
            line,
            wishes: Options::none(alloc),
        }),
        Err(fault) => Err(fault),
    }
}

/// What a command with these words behind it asks for, beside which these options are given.
fn wished_request(
    alloc: Global,
    command: &String,
    words: Vec<String>,
    given: &[OptionMatch],
) -> Result<Request, LineFault>
    ensures ok { IfOk result (λ asked. Says (string_bytes command.now ∷ map string_bytes words.items) asked.line) }
    ensures wishes { IfOk result (λ asked. spec.wish_as asked.wishes ≡ spec.wish_of (map given_as given.now)) }
    ensures err { IfErr result (Refuses (string_bytes command.now ∷ map string_bytes words.items)) }
{
    let Ok(all) = behind(alloc, command, words) else {
        return Err(LineFault::Memory);
    };
    let Ok(wishes) = wishes_of(alloc, given) else {
        return Err(LineFault::Memory);
    };
    match line(alloc, all.as_slice()) {
        Ok(line) => Ok(Request { line, wishes }),
        Err(fault) => Err(fault),
    }
}

/// The command with these words behind it.
fn behind(
    alloc: Global,
    command: &String,
    mut words: Vec<String>,
) -> Result<Vec<String>, AllocError>
    ensures { IfOk result (λ all. map string_bytes all.items ≡ string_bytes command.now ∷ map string_bytes words.items) }
{
    let mut all = Vec::new(alloc);
    all.push(String::from_str(alloc, command.as_str())?)?;
    all.append(&mut words)?;
    Ok(all)
}
