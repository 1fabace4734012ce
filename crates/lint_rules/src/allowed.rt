//! Kinds of notes that are suppressed.
ghost use Rattle.std.specs.Prelude.{◌≡◌, false, true, MatchOption};
ghost use Rattle.lint_rules.specs.Kinds as model;
ghost use Rattle.lint_rules.specs.Kinds.{are_kind_names};
ghost use Rattle.lint_rules.specs.Notes.{isnt_allowed, seen};

use crate::lint_rule::{LintRule, kinds};
use crate::note::Note;
use std::marker::Model;
use text_syntax::first_part;

/// The kinds that a text names. It is seen as that text.
#[derive(Debug, Drop)]
pub struct Allowed<'a> {
    text: &'a str,
}

impl<'a> Model for Allowed<'a> {
    ghost use Rattle.std.specs.Prelude.{List, ℕ};

    ghost Value = { List ℕ };

    ghost view = { λ allowed. allowed.text.now };
}

/// Reads comma-separated names of kinds, as the parts of a pattern of hosts; the empty text names none. Returns `None` if no kind has one of the names. It takes no memory.
pub fn read_allowed(text: &str) -> Option<Allowed<'_>>
    ensures { MatchOption result (are_kind_names text.now ≡ false) (λ allowed. (allowed ≡ text.now) × (are_kind_names text.now ≡ true)) }
{
    if are_kinds(text) {
        Some(Allowed { text })
    } else {
        None
    }
}

/// Whether a kind has this name.
fn is_kind_name(word: &str) -> bool
    ensures { result ≡ model.is_kind_name word.now }
{
    kinds().iter().any(|kind| kind.name() == word)
}

fn are_kinds(text: &str) -> bool
    ensures { result ≡ are_kind_names text.now }
{
    let mut rest = text;
    while let Some((part, later)) = first_part(rest) {
        if !is_kind_name(part) {
            return false;
        }
        rest = later;
    }
    true
}

impl<'a> Allowed<'a> {
    /// Whether notes of this kind are suppressed.
    pub fn allows(&self, kind: LintRule) -> bool
        ensures { result ≡ model.allows self.now kind }
    {
        let name = kind.name();
        let mut rest = self.text;
        while let Some((part, later)) = first_part(rest) {
            if name == part {
                return true;
            }
            rest = later;
        }
        false
    }

    /// Whether the note is printed.
    pub(crate) fn tells(&self, note: &Note<'_>) -> bool
        ensures { result ≡ isnt_allowed self.now (seen note.now) }
    {
        !self.allows(note.kind())
    }
}
