//! The words of the line.
ghost use Rattle.std.specs.Prelude.{◌≡◌, drop, map, string_bytes};
ghost use Rattle.std.specs.IoError.{error_kind};
ghost use Rattle.rollout.specs.Runs.{IsFaultOfWords};

use crate::fault::Fault;
use crate::source::is_memory;
use command_line::LineFault;
use std::io;

/// The words behind the program's name.
pub fn words_of(args: &[String]) -> &[String]
    ensures { map string_bytes result.now ≡ drop 1 (map string_bytes args.now) }
{
    match args {
        [_program, words @ ..] => words,
        [] => args,
    }
}

/// What it means that the system gives no words: memory is wanting, or they are no text.
pub fn words_fault(error: &io::Error) -> Fault
    ensures { IsFaultOfWords (error_kind error.now) result }
{
    if is_memory(error) {
        Fault::Memory
    } else {
        Fault::Line(LineFault::Unexplained)
    }
}
