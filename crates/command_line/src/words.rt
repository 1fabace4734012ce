//! The words of a line, read as they stand.
ghost use Rattle.std.specs.Prelude.{◌≡◌, map, string_bytes};
ghost use Rattle.std.specs.Option.{option_map};
ghost use Rattle.std.specs.Str.{bytes_eq};
ghost use Rattle.command_line.specs.Operands as operands;

/// The two operands of the words, where there are just two.
pub(crate) fn two_operands(words: &[String]) -> Option<(&str, &str)>
    ensures { option_map (λ pair. (pair.0.now, pair.1.now)) result ≡ operands.two_operands (map string_bytes words.now) }
{
    match words {
        [first, rest @ ..] if is_word(first, "--") => two_words(rest),
        [first, rest @ ..] if is_operand(first) => operand_and(first, rest),
        _ => None,
    }
}

/// The two words that these are.
pub(crate) fn two_words(words: &[String]) -> Option<(&str, &str)>
    ensures { option_map (λ pair. (pair.0.now, pair.1.now)) result ≡ operands.two_words (map string_bytes words.now) }
{
    match words {
        [first, second] => Some((first.as_str(), second.as_str())),
        _ => None,
    }
}

/// A first operand with the only operand of the other words.
fn operand_and<'a>(first: &'a String, rest: &'a [String]) -> Option<(&'a str, &'a str)>
    ensures { option_map (λ pair. (pair.0.now, pair.1.now)) result ≡ operands.operand_and (string_bytes first.now) (map string_bytes rest.now) }
{
    let second = lone_operand(rest)?;
    Some((first.as_str(), second))
}

/// The three operands of the words, where there are just three.
pub(crate) fn three_operands(words: &[String]) -> Option<(&str, &str, &str)>
    ensures { option_map (λ found. (found.0.now, found.1.now, found.2.now)) result ≡ operands.three_operands (map string_bytes words.now) }
{
    match words {
        [first, rest @ ..] if is_word(first, "--") => three_words(rest),
        [first, rest @ ..] if is_operand(first) => operand_and_two(first, rest),
        _ => None,
    }
}

/// The three words that these are.
fn three_words(words: &[String]) -> Option<(&str, &str, &str)>
    ensures { option_map (λ found. (found.0.now, found.1.now, found.2.now)) result ≡ operands.three_words (map string_bytes words.now) }
{
    match words {
        [first, second, third] => Some((first.as_str(), second.as_str(), third.as_str())),
        _ => None,
    }
}

/// A first operand with the two operands of the other words.
fn operand_and_two<'a>(first: &'a String, rest: &'a [String]) -> Option<(&'a str, &'a str, &'a str)>
    ensures { option_map (λ found. (found.0.now, found.1.now, found.2.now)) result ≡ operands.operand_and_two (string_bytes first.now) (map string_bytes rest.now) }
{
    let (second, third) = two_operands(rest)?;
    Some((first.as_str(), second, third))
}

/// The only word that there is.
pub(crate) fn only_word(words: &[String]) -> Option<&str>
    ensures { option_map (λ s. s.now) result ≡ operands.only_word (map string_bytes words.now) }
{
    match words {
        [word] => Some(word.as_str()),
        _ => None,
    }
}

/// The only operand of the words.
pub(crate) fn lone_operand(words: &[String]) -> Option<&str>
    ensures { option_map (λ s. s.now) result ≡ operands.lone_operand (map string_bytes words.now) }
{
    match words {
        [word] if is_operand(word) => Some(word.as_str()),
        [first, second] if is_word(first, "--") => Some(second.as_str()),
        [first, second] if is_word(second, "--") && is_operand(first) => Some(first.as_str()),
        _ => None,
    }
}

pub(crate) fn is_word(word: &String, text: &str) -> bool
    ensures { result ≡ bytes_eq (string_bytes word.now) text.now }
{
    word.as_str() == text
}

pub(crate) fn is_operand(word: &String) -> bool
    ensures { result ≡ operands.is_operand (string_bytes word.now) }
{
    match word.as_bytes() {
        [b'-', _, ..] => false,
        _ => true,
    }
}
