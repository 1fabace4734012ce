//! The names that the holes of words miss.
ghost use Rattle.std.specs.Prelude.{◌≡◌, OnOk};
ghost use Rattle.text_syntax.specs.Seen.{said};
ghost use Rattle.undefined_names.specs.Lent.{names_found};
ghost use Rattle.undefined_names.specs.UndefinedReads.{missed_in_part, missed_in_word, missed_in_words, once_behind};
ghost use Rattle.undefined_names.specs.Outlook.{missed_if};

use crate::found::Found;
use crate::name_status::StaticEnv;
use play_model::Words;
use std::alloc::AllocError;
use text_syntax::{Part, Ref, first_word_part};

fn add_if<'s>(is_missed: bool, name: &'s str, found: &mut Found<'s>) -> Result<(), AllocError>
    ensures { OnOk result (names_found found.new ≡ once_behind (names_found found.old) (missed_if is_missed name.now)) }
{
    if is_missed {
        found.add(name)?;
    }
    Ok(())
}

/// Adds the name that the part misses, if it is a hole that misses one.
fn add_part<'s, F: StaticEnv>(
    part: Part<'s>,
    foresight: &F,
    found: &mut Found<'s>,
) -> Result<(), AllocError>
    ensures { OnOk result (names_found found.new ≡ once_behind (names_found found.old) (missed_in_part (F.outset foresight.now) (said part.entry))) }
{
    match part {
        Part::Hole(Ref::Whole(name)) => {
            add_if(foresight.standing(name).has_no_text(), name, found)
        }
        Part::Hole(Ref::Field(name, _)) => {
            add_if(foresight.standing(name).is_result_missed(), name, found)
        }
        Part::Hole(Ref::Hostname) | Part::Plain(_) | Part::Braces => Ok(()),
    }
}

/// Adds the names that the word misses, in one pass over it.
#[tactic(auto, using(crate::proofs::Onces::once_part))]
fn add_word<'s, F: StaticEnv>(
    word: &'s str,
    foresight: &F,
    found: &mut Found<'s>,
) -> Result<(), AllocError>
    ensures { OnOk result (names_found found.new ≡ once_behind (names_found found.old) (missed_in_word (F.outset foresight.now) word.now)) }
{
    let mut rest = word;
    while let Some((part, behind)) = first_word_part(rest) {
        add_part(part, foresight, found)?;
        rest = behind;
    }
    Ok(())
}

/// Adds the names that the words miss, from the first word on.
#[tactic(auto, using(crate::proofs::Onces::once_words_is))]
pub(crate) fn add_words<'s, F: StaticEnv>(
    words: &'s Words,
    foresight: &F,
    found: &mut Found<'s>,
) -> Result<(), AllocError>
    ensures { OnOk result (names_found found.new ≡ once_behind (names_found found.old) (missed_in_words (F.outset foresight.now) words.now)) }
{
    for place in 0..words.len() {
        add_word(words.at(place), foresight, found)?;
    }
    Ok(())
}
