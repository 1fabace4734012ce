//! The words of a run: two files, and an option that says how many hosts are worked on at once.
ghost use Rattle.std.specs.Prelude.{◌≡◌, ◌∷◌, map, string_bytes};
ghost use Rattle.std.specs.Option.{option_map};
ghost use Rattle.command_line.specs.Operands as operands;
ghost use Rattle.command_line.specs.Runs as spec;

use crate::forks::{DEFAULT, Forks};
use crate::option_words::leading_value;
use crate::words;
use crate::words::{is_operand, is_word};

/// The inventory's and the playbook's file that the words of a run name, and its forks.
pub(crate) fn run_of(words: &[String]) -> Option<(&str, &str, Forks)>
    ensures { option_map (λ run. (run.0.now, run.1.now, run.2)) result ≡ spec.run_of (spec.without_option (map string_bytes words.now)) }
{
    let (inventory, playbook, value) = two_operands(words)?;
    let forks = Forks::read(value.unwrap_or(DEFAULT))?;
    Some((inventory, playbook, forks))
}

/// The two operands of the words beside their option, and the option's value.
fn two_operands(words: &[String]) -> Option<(&str, &str, Option<&str>)>
    ensures { option_map (λ found. (found.0.now, found.1.now, option_map (λ s. s.now) found.2)) result
        ≡ spec.two_and_value (spec.without_option (map string_bytes words.now)) }
{
    match words {
        [first, rest @ ..] => two_from(first, rest),
        [] => None,
    }
}

fn two_from<'a>(
    first: &'a String,
    rest: &'a [String],
) -> Option<(&'a str, &'a str, Option<&'a str>)>
    ensures { option_map (λ found. (found.0.now, found.1.now, option_map (λ s. s.now) found.2)) result
        ≡ spec.two_and_value (spec.without_option (string_bytes first.now ∷ map string_bytes rest.now)) }
{
    if let Some((value, rest)) = leading_option(first, rest) {
        let (first, second) = words::two_operands(rest)?;
        return Some((first, second, Some(value)));
    }
    if is_word(first, "--") {
        let (first, second) = words::two_words(rest)?;
        return Some((first, second, None));
    }
    if !is_operand(first) {
        return None;
    }
    let (second, value) = lone_operand(rest)?;
    Some((first.as_str(), second, value))
}

/// The only operand of the words beside their option, and the option's value.
fn lone_operand(words: &[String]) -> Option<(&str, Option<&str>)>
    ensures { option_map (λ found. (found.0.now, option_map (λ s. s.now) found.1)) result
        ≡ spec.one_and_value (spec.without_option (map string_bytes words.now)) }
{
    match words {
        [first, rest @ ..] => lone_from(first, rest),
        [] => None,
    }
}

fn lone_from<'a>(first: &'a String, rest: &'a [String]) -> Option<(&'a str, Option<&'a str>)>
    ensures { option_map (λ found. (found.0.now, option_map (λ s. s.now) found.1)) result
        ≡ spec.one_and_value (spec.without_option (string_bytes first.now ∷ map string_bytes rest.now)) }
{
    if let Some((value, rest)) = leading_option(first, rest) {
        let word = words::lone_operand(rest)?;
        return Some((word, Some(value)));
    }
    if is_word(first, "--") {
        let word = words::only_word(rest)?;
        return Some((word, None));
    }
    if !is_operand(first) {
        return None;
    }
    let value = last_value(rest)?;
    Some((first.as_str(), value))
}

/// The value of the option, if any, where the words have no operand.
fn last_value(words: &[String]) -> Option<Option<&str>>
    ensures { option_map (λ value. option_map (λ s. s.now) value) result ≡ spec.no_operand (spec.without_option (map string_bytes words.now)) }
{
    match words {
        [first, rest @ ..] => last_from(first, rest),
        [] => Some(None),
    }
}

fn last_from<'a>(first: &'a String, rest: &'a [String]) -> Option<Option<&'a str>>
    ensures { option_map (λ value. option_map (λ s. s.now) value) result
        ≡ spec.no_operand (spec.without_option (string_bytes first.now ∷ map string_bytes rest.now)) }
{
    if let Some((value, rest)) = leading_option(first, rest) {
        return if is_end(rest) {
            Some(Some(value))
        } else {
            None
        };
    }
    if is_word(first, "--") && rest.is_empty() {
        Some(None)
    } else {
        None
    }
}

/// Whether the words end here; the word that ends options may stand at the end.
fn is_end(words: &[String]) -> bool
    ensures { result ≡ operands.is_end (map string_bytes words.now) }
{
    match words {
        [] => true,
        [word] => is_word(word, "--"),
        _ => false,
    }
}

/// The option at the beginning of the words: its value, and the words behind it.
fn leading_option<'a>(first: &'a String, rest: &'a [String]) -> Option<(&'a str, &'a [String])>
    ensures { option_map (λ found. (found.0.now, map string_bytes found.1.now)) result
        ≡ spec.leading_option (string_bytes first.now ∷ map string_bytes rest.now) }
{
    leading_value("--forks", "--forks=", first, rest)
}
