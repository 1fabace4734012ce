//! The words of a line.
ghost use Rattle.std.specs.Prelude.{◌≡◌, ◌<◌, [], ◌∷◌, MatchOption, length, not};
ghost use Rattle.std.specs.List.{prefix_len};
ghost use Rattle.rehearse.specs.Commands as spec;
ghost use Rattle.rehearse.specs.Commands.{words_of};

/// The first word of a line, and what stands behind it; nothing where it has no word.
pub(crate) fn cut_word(line: &[u8]) -> Option<(&[u8], &[u8])>
    ensures words { MatchOption result (words_of line.now ≡ []) (λ (word, rest). words_of line.now ≡ word.now ∷ words_of rest.now) }
    ensures shorter { MatchOption result (Unit {0}) (λ (_, rest). length rest.now < length line.now) }
{
    let text = line.split_at(count_blanks(line)).1;
    if text.is_empty() {
        return None;
    }
    Some(text.split_at(count_word(text)))
}

fn count_blanks(line: &[u8]) -> usize
    ensures { result ≡ prefix_len spec.is_blank line.now }
{
    line.iter().take_while(|byte| is_blank(**byte)).count()
}

fn count_word(text: &[u8]) -> usize
    ensures { result ≡ prefix_len (λ byte. not (spec.is_blank byte)) text.now }
{
    text.iter().take_while(|byte| !is_blank(**byte)).count()
}

fn is_blank(byte: u8) -> bool
    ensures { result ≡ spec.is_blank byte }
{
    byte == b' ' || byte == b'\t'
}
