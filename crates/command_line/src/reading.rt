//! Reading a line.
ghost use Rattle.std.specs.Prelude.{IfOk, IfErr, map, string_bytes};
ghost use Rattle.clap.specs.Words.{kind_of, subcommand_rows_of};
ghost use Rattle.command_line.specs.Answers.{AnswersFor, Disagrees};
ghost use Rattle.command_line.specs.Words.{Refuses, Says};

use crate::command::{Line, Source};
use crate::fault::LineFault;
use crate::making::line_for;
use crate::message::Message;
use crate::parsed_command::asked_by;
use crate::syntax;
use clap::error::ErrorKind;
use clap::{ArgMatches, Error};
use std::alloc::Global;

/// The line that the words say, the program's name left out. No words at all say `limits` with the inventory on
/// standard input.
pub fn line(alloc: Global, words: &[String]) -> Result<Line, LineFault>
    ensures ok { IfOk result (Says (map string_bytes words.now)) }
    ensures err { IfErr result (Refuses (map string_bytes words.now)) }
{
    if words.is_empty() {
        return Ok(Line::Limits {
            inventory: Source::StandardInput,
        });
    }
    match syntax::matches(alloc, words) {
        Ok(matches) => taken(alloc, words, &matches),
        Err(error) => answer(alloc, &error),
    }
}

/// What clap's error makes of the words: a text to print, or a fault.
fn answer(alloc: Global, error: &Error) -> Result<Line, LineFault>
    ensures { AnswersFor (kind_of error.now) result }
{
    let Ok(message) = Message::of(alloc, error) else {
        return Err(LineFault::Memory);
    };
    match error.kind() {
        ErrorKind::DisplayHelp | ErrorKind::DisplayVersion => Ok(Line::Print(message)),
        ErrorKind::OutOfMemory => Err(LineFault::Memory),
        _ => Err(LineFault::BadLine(message)),
    }
}

/// The line of words that clap took, where it found what the words ask for.
fn taken(alloc: Global, words: &[String], matches: &ArgMatches<'_>) -> Result<Line, LineFault>
    ensures ok { IfOk result (Says (map string_bytes words.now)) }
    ensures err { IfErr result (Disagrees (map string_bytes words.now) (subcommand_rows_of matches.now)) }
{
    match asked_by(words) {
        Some(asked) => line_for(alloc, asked, matches),
        None => Err(LineFault::Unexplained),
    }
}
