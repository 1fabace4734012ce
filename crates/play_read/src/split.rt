//! From a text to its words.
ghost use Rattle.std.specs.Prelude.{◌≡◌, IfOk};
ghost use Rattle.playbook_schema.specs.Commands as spec;

use crate::holes::tail_of_last_closing;
use crate::pieces::cut_piece;
use play_model::Words;
use std::alloc::{AllocError, Global};

/// The words of a text: it is split at runs of blanks (space, tab, line feed, carriage return), save between `{{` and the
/// next `}}`. It fails for want of memory alone.
pub(crate) fn split_words(alloc: Global, text: &str) -> Result<Words, AllocError>
    ensures { IfOk result (λ words. words ≡ spec.split text.now) }
{
    let tail = tail_of_last_closing(text.as_bytes());
    // All words together have at most the text's bytes. Places are for words of some eight bytes each; past 32 they take more
    // room as they come.
    let mut words = Words::with_capacity(alloc, (1 + text.len() / 8).min(32), text.len())?;
    let mut left = Some(text);
    while let Some(rest) = left {
        let (piece, behind) = cut_piece(rest, tail);
        if !piece.is_empty() {
            words.push(piece)?;
        }
        left = behind;
    }
    Ok(words)
}
