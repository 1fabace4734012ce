//! Names that a program may take for options.
ghost use Rattle.std.specs.Prelude.{◌≡◌, ◌∷◌, map, string_bytes};
ghost use Rattle.std.specs.Str.{bytes_eq};
ghost use Rattle.run_progress.specs.Options as spec;

/// What is told of such a name.
pub(crate) const WARNING: &str = "its name stands where an option may: write -- before it";

/// Whether the name begins with a dash and stands among the words of a program behind the first one, with no word before it that ends options.
pub(crate) fn is_taken_for_an_option(name: &str, words: &[String]) -> bool
    ensures { result ≡ spec.is_taken_for_an_option name.now (map string_bytes words.now) }
{
    match words {
        [_program, arguments @ ..] => starts_with_dash(name)
            && stands_before_the_end(name, arguments),
        [] => false,
    }
}

fn starts_with_dash(name: &str) -> bool
    ensures { result ≡ spec.starts_with_dash name.now }
{
    match name.as_bytes() {
        [b'-', ..] => true,
        _ => false,
    }
}

/// Whether the name is one of the words in front of the one that ends options.
fn stands_before_the_end(name: &str, words: &[String]) -> bool
    ensures { result ≡ spec.stands_before_the_end name.now (map string_bytes words.now) }
{
    for word in words {
        if is_word(word, "--") {
            return false;
        }
        if is_word(word, name) {
            return true;
        }
    }
    false
}

fn is_word(word: &String, text: &str) -> bool
    ensures { result ≡ bytes_eq (string_bytes word.now) text.now }
{
    word.as_str() == text
}
