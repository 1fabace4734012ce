//! The options among the words of a command, and the words without them.
ghost use Rattle.std.specs.Prelude.{◌≡◌, IfOk, None, if◌then◌else◌, map, string_bytes};
ghost use Rattle.std.specs.Option.{option_map};
ghost use Rattle.command_line.specs.OptionReads as spec;

use crate::option_name::OptionName;
use crate::option_words::goes_on;
use crate::spelling::{Spelling, spelled};
use std::alloc::{AllocError, Global};

/// An option that was given, and its value; a flag has the empty one.
#[derive(Debug, Drop)]
pub(crate) struct OptionMatch {
    pub(crate) option: OptionName,
    pub(crate) value: String,
}

/// The words without these options, and the options with their values, in their order.
pub(crate) fn read_options(
    alloc: Global,
    options: &[OptionName],
    words: &[String],
) -> Result<(Vec<String>, Vec<OptionMatch>), AllocError>
    ensures plain { IfOk result (λ read. map string_bytes read.0.items ≡ (spec.read options.now (map string_bytes words.now)).plain) }
    ensures given { IfOk result (λ read. map spec.given_as read.1.items ≡ (spec.read options.now (map string_bytes words.now)).given) }
{
    let mut plain = Vec::new(alloc);
    let mut given = Vec::new(alloc);
    let mut in_front = true;
    let mut left = words;
    while let Some((word, rest)) = left.split_first() {
        in_front = goes_on(in_front, word);
        match leading(in_front, options, word, rest) {
            Some((option, text, behind)) => {
                let value = String::from_str(alloc, text)?;
                given.push(OptionMatch { option, value })?;
                left = behind;
            }
            None => {
                plain.push(String::from_str(alloc, word.as_str())?)?;
                left = rest;
            }
        }
    }
    Ok((plain, given))
}

/// The option at the beginning of the words, where options may still come: its value, and the words behind it.
fn leading<'a>(
    in_front: bool,
    options: &[OptionName],
    word: &'a String,
    rest: &'a [String],
) -> Option<(OptionName, &'a str, &'a [String])>
    ensures { option_map (λ found. (found.0, found.1.now, map string_bytes found.2.now)) result
        ≡ (if in_front then spec.leading options.now (string_bytes word.now) (map string_bytes rest.now) else None) }
{
    if in_front {
        taken(spelled(options, word)?, rest)
    } else {
        None
    }
}

/// The option that is spelled so before these words: its value, and the words behind that.
fn taken<'a>(
    spelling: Spelling<'a>,
    rest: &'a [String],
) -> Option<(OptionName, &'a str, &'a [String])>
    ensures { option_map (λ found. (found.0, found.1.now, map string_bytes found.2.now)) result
        ≡ spec.taken (spec.spelling_as spelling.entry) (map string_bytes rest.now) }
{
    match spelling {
        Spelling::Flag(option) => Some((option, "", rest)),
        Spelling::Holds(option, value) => Some((option, value, rest)),
        Spelling::Awaits(option) => match rest {
            [value, behind @ ..] => Some((option, value.as_str(), behind)),
            [] => None,
        },
    }
}
