//! What somebody is told who starts the program without words at a terminal.
use std::env::Env;
use std::io::{IsTerminal, Stderr, Stdin, Write};
use std::{env, io};

const AWAITED: &[u8] =
    b"note: an inventory is read from standard input, to its end (Ctrl-D); rollout --help lists the commands\n";

/// Whether no word stands behind the program's name. Words that can't be had are no reason to say anything.
fn has_no_words<R: Env + AllocGlobal>(rt: &R) -> bool {
    match env::args(rt) {
        Ok(args) => args.count() < 2,
        Err(_) => false,
    }
}

/// Says on standard error that an inventory is awaited, where nothing else tells a program that reads from one that hangs: no words were given, and
/// standard input is a terminal, and so is standard error. A line that can't be written is left out.
pub fn report_what_is_awaited<R: Env + AllocGlobal>(rt: &R, input: Stdin, errors: Stderr) {
    if input.is_terminal() && errors.is_terminal() && has_no_words(rt) {
        let _ = io::writer(&errors).write(AWAITED);
    }
}
