//! What is told of a program beside how it ended.
ghost use Rattle.std.specs.Prelude.{◌≡◌, IfOk};
ghost use Rattle.std.specs.Process.{exit_signal};
ghost use Rattle.local_runner.specs.Ends.{remark_in};

use std::alloc::{AllocError, Global};
use std::io;
use std::os::unix::process::ExitStatusExt;
use std::process::ExitStatus;

/// What there is to tell of a program beside its outcome.
#[derive(Debug, Drop)]
pub enum ExitDetail {
    Nothing,
    /// The signal that ended it.
    Signal(i32),
    /// Its first word, and what the system said when it was to be started.
    Refused(String),
}

/// What is told beside the outcome of a program for which was waited so.
pub(crate) fn remark_of(waited: &io::Result<ExitStatus>) -> ExitDetail
    ensures { IfOk waited.now (λ status. result ≡ remark_in (exit_signal status)) }
{
    match waited {
        Ok(status) => match status.signal() {
            Some(signal) => ExitDetail::Signal(signal),
            None => ExitDetail::Nothing,
        },
        Err(_error) => ExitDetail::Nothing,
    }
}

/// What is told of a start of these words that was refused so; nothing where memory is wanting for it.
pub(crate) fn refusal_of(alloc: Global, words: &[String], error: &Option<io::Error>) -> ExitDetail {
    match (words.first(), error) {
        (Some(program), Some(error)) => match text_of(alloc, program.as_str(), error) {
            Ok(text) => ExitDetail::Refused(text),
            Err(_refused) => ExitDetail::Nothing,
        },
        (_, _) => ExitDetail::Nothing,
    }
}

/// What the system says of a program that it doesn't start. Of a file that it can't run it doesn't say what to do.
fn text_of(alloc: Global, program: &str, error: &io::Error) -> Result<String, AllocError> {
    let mut text = String::from_str(alloc, program)?;
    text.push_str(": ")?;
    text.push_str(error.to_string(alloc)?.as_str())?;
    if error.raw_os_error() == Some(libc::ENOEXEC) {
        text.push_str(" (a script needs a first line with #!)")?;
    }
    Ok(text)
}
