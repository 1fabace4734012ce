//! How much is told of a run.
ghost use Rattle.std.specs.Prelude.{◌≡◌};
ghost use Rattle.run_progress.specs.Modes as spec;

use crate::form::Form;

/// Nothing; only failures, for a log, in words or as objects of JSON; failures and warnings, and below them one line that is written over, if the terminal
/// can go back in one; or a line for each thing that happens, in words or as an object of JSON.
#[derive(Clone, Copy, Debug, PartialEq, Eq)]
pub(crate) enum Mode {
    Nothing,
    Failures(Form),
    OneLine,
    AllLines,
    AllJson,
}

/// What is wanted of the lines, and who sees them: whether the words ask for all of them or for none, and for objects of JSON; whether standard error is a terminal,
/// whether it is one that can't go back in a line, and how many columns it has.
#[derive(Clone, Copy, Debug, PartialEq, Eq)]
pub struct Seen {
    pub is_verbose: bool,
    pub is_quiet: bool,
    pub is_json: bool,
    pub is_terminal: bool,
    pub is_dumb: bool,
    pub width: usize,
}

/// How much is told where it is seen so.
pub(crate) fn mode_of(seen: &Seen) -> Mode
    ensures { result ≡ spec.mode_of seen.now }
{
    if seen.is_verbose {
        lines_mode(seen.is_json)
    } else if seen.is_quiet {
        Mode::Nothing
    } else if seen.is_terminal {
        Mode::OneLine
    } else {
        failures_mode(seen.is_json)
    }
}

fn failures_mode(is_json: bool) -> Mode
    ensures { result ≡ spec.failures_mode is_json }
{
    if is_json {
        Mode::Failures(Form::Json)
    } else {
        Mode::Failures(Form::Plain)
    }
}

fn lines_mode(is_json: bool) -> Mode
    ensures { result ≡ spec.lines_mode is_json }
{
    if is_json {
        Mode::AllJson
    } else {
        Mode::AllLines
    }
}

/// What lines are written as where so much is told.
pub(crate) fn form_of(mode: Mode) -> Form
    ensures { result ≡ spec.form_of mode }
{
    match mode {
        Mode::Failures(form) => form,
        Mode::Nothing | Mode::OneLine | Mode::AllLines => Form::Plain,
        Mode::AllJson => Form::Json,
    }
}
