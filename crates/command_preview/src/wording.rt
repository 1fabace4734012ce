//! One word of a step, before anything has run.
ghost use Rattle.std.specs.Prelude.{◌≡◌, IfOk, IsFalse};
ghost use Rattle.text_syntax.specs.Words.{has_braces};
ghost use Rattle.host_track.specs.Asking as spec;
ghost use Rattle.command_preview.specs.Inside.{foreseen_by, worded_as};

use crate::foreseen::Foreseen;
use std::alloc::{AllocError, Global};
use text_syntax::{RenderFault, render};

/// The text of a word, or why it has none.
#[derive(Debug, Drop)]
pub(crate) enum Wording<'s> {
    Text(String),
    Undefined(&'s str),
    TooLong,
}

pub(crate) fn worded<'s>(
    alloc: Global,
    word: &'s str,
    foreseen: &Foreseen<'_>,
) -> Result<Wording<'s>, AllocError>
    requires { IsFalse (has_braces word.now) }
    ensures { IfOk result (λ wording. worded_as wording ≡ spec.worded (foreseen_by foreseen.now) word.now) }
{
    match render(alloc, foreseen, word) {
        Ok(text) => Ok(Wording::Text(text)),
        Err(RenderFault::Undefined { name }) => Ok(Wording::Undefined(name)),
        Err(RenderFault::BadBraces) => unreachable!(),
        Err(RenderFault::TooLong) => Ok(Wording::TooLong),
        Err(RenderFault::Memory) => Err(AllocError),
    }
}
