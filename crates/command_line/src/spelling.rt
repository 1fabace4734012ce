//! How a word spells an option.
ghost use Rattle.std.specs.Prelude.{◌≡◌, option_map, string_bytes};
ghost use Rattle.command_line.specs.OptionReads as spec;

use crate::option_name::OptionName;
use crate::option_words::behind;
use crate::words::is_word;

/// What a word is where options may stand.
#[derive(Clone, Copy)]
pub(crate) enum Spelling<'w> {
    /// An option without a value.
    Flag(OptionName),
    /// An option whose value is the next word, whatever that looks like.
    Awaits(OptionName),
    /// An option with its value behind the sign.
    Holds(OptionName, &'w str),
}

/// How the word spells the first of these options that it spells.
pub(crate) fn spelled<'w>(options: &[OptionName], word: &'w String) -> Option<Spelling<'w>>
    ensures { option_map spec.spelling_as result ≡ spec.spelled options.now (string_bytes word.now) }
{
    match options {
        [first, rest @ ..] => match spelled_as(*first, word) {
            None => spelled(rest, word),
            found => found,
        },
        [] => None,
    }
}

/// How the word spells this option, if it does.
fn spelled_as(option: OptionName, word: &String) -> Option<Spelling<'_>>
    ensures { option_map spec.spelling_as result ≡ spec.spelled_as option (string_bytes word.now) }
{
    if option.has_value() {
        spelled_value(option, word)
    } else {
        spelled_flag(option, word)
    }
}

fn spelled_flag(option: OptionName, word: &String) -> Option<Spelling<'_>>
    ensures { option_map spec.spelling_as result ≡ spec.spelled_flag option (string_bytes word.now) }
{
    if option.is_named(word) {
        Some(Spelling::Flag(option))
    } else {
        None
    }
}

fn spelled_value(option: OptionName, word: &String) -> Option<Spelling<'_>>
    ensures { option_map spec.spelling_as result ≡ spec.spelled_value option (string_bytes word.now) }
{
    if is_word(word, option.text()) {
        return Some(Spelling::Awaits(option));
    }
    match value_behind(option, word.as_str()) {
        Some(value) => Some(Spelling::Holds(option, value)),
        None => None,
    }
}

/// What the word has behind the option's name and the sign.
fn value_behind(option: OptionName, word: &str) -> Option<&str>
    ensures { option_map (λ s. s.now) result ≡ spec.value_behind option word.now }
{
    match behind(option.text(), word) {
        Some(rest) => behind("=", rest),
        None => None,
    }
}
