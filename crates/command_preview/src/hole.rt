//! The texts of the holes that a name may stand in.
ghost use Rattle.std.specs.Prelude.{◌≡◌, ◌<◌, ◌++◌, ◌∷◌, [], IfOk, OnOk};
ghost use Rattle.fleet_index.specs.NumberLists.{list_at};
ghost use Rattle.command_preview.specs.Previews.{field_tail, hole_text};
ghost use Rattle.command_preview.specs.Holes.{hole_texts, tails};

use play_model::Words;
use std::alloc::{AllocError, Global};
use text_syntax::Field;

/// Of a name that a step registers: how many steps of the file stand before the first that does, and the texts of its holes.
#[derive(Drop)]
pub(crate) struct Hole {
    pub(crate) since: usize,
    pub(crate) texts: Words,
}

/// The place of the text of a name alone.
pub(crate) const WHOLE: usize = 0;

/// The place of the text of a name with this field.
pub(crate) fn place_of(field: Field) -> usize
    ensures within { result < 7 }
    ensures tail { list_at tails result ≡ field_tail field }
{
    match field {
        Field::Rc => 1,
        Field::Stdout => 2,
        Field::Stderr => 3,
        Field::Changed => 4,
        Field::Failed => 5,
        Field::Skipped => 6,
    }
}

fn push_text(alloc: Global, texts: &mut Words, name: &str, tail: &str) -> Result<(), AllocError>
    ensures { OnOk result (texts.new ≡ texts.old ++ hole_text name.now tail.now ∷ []) }
{
    let mut text = String::from_str(alloc, "{{ ")?;
    text.push_str(name)?;
    text.push_str(tail)?;
    text.push_str(" }}")?;
    texts.push(text.as_str())
}

/// The text of the name alone, and those with each of the fields.
pub(crate) fn texts_of(alloc: Global, name: &str) -> Result<Words, AllocError>
    ensures { IfOk result (λ texts. texts ≡ hole_texts name.now) }
{
    let mut texts = Words::new(alloc);
    push_text(alloc, &mut texts, name, "")?;
    push_text(alloc, &mut texts, name, ".rc")?;
    push_text(alloc, &mut texts, name, ".stdout")?;
    push_text(alloc, &mut texts, name, ".stderr")?;
    push_text(alloc, &mut texts, name, ".changed")?;
    push_text(alloc, &mut texts, name, ".failed")?;
    push_text(alloc, &mut texts, name, ".skipped")?;
    Ok(texts)
}
