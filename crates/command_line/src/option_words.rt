//! An option with a value, at the beginning of the words.
ghost use Rattle.std.specs.Prelude.{◌≡◌, ◌∷◌, ◌&&◌, map, not, string_bytes};
ghost use Rattle.std.specs.Option.{option_map};
ghost use Rattle.std.specs.Str.{bytes_eq};
ghost use Rattle.command_line.specs.Operands.{dashes};
ghost use Rattle.command_line.specs.Options as spec;

use crate::words::is_word;

/// Whether options may still come, where they may before this word.
pub(crate) fn goes_on(in_front: bool, word: &String) -> bool
    ensures { result ≡ (in_front && not (bytes_eq (string_bytes word.now) dashes)) }
{
    in_front && !is_word(word, "--")
}

/// The option of this name at the beginning of the words: its value, and the words behind it. The value is a word of its own, or stands behind
/// the name with its `=`.
pub(crate) fn leading_value<'a>(
    name: &str,
    attached: &str,
    first: &'a String,
    rest: &'a [String],
) -> Option<(&'a str, &'a [String])>
    ensures { option_map (λ found. (found.0.now, map string_bytes found.1.now)) result
        ≡ spec.leading_value name.now attached.now (string_bytes first.now ∷ map string_bytes rest.now) }
{
    if is_word(first, name) {
        return first_and_rest(rest);
    }
    let value = behind(attached, first.as_str())?;
    Some((value, rest))
}

fn first_and_rest(words: &[String]) -> Option<(&str, &[String])>
    ensures { option_map (λ found. (found.0.now, map string_bytes found.1.now)) result ≡ spec.first_and_rest (map string_bytes words.now) }
{
    match words {
        [first, rest @ ..] => Some((first.as_str(), rest)),
        [] => None,
    }
}

/// What the word has behind this beginning.
pub(crate) fn behind<'a>(start: &str, word: &'a str) -> Option<&'a str>
    ensures { option_map (λ s. s.now) result ≡ spec.behind start.now word.now }
{
    word.strip_prefix(start)
}
