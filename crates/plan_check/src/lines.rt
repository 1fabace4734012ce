//! Lines and words as bytes.
ghost use Rattle.std.specs.Prelude.{◌≡◌, ◌<◌, [], ◌∷◌, MatchOption, IfSome, length, not};
ghost use Rattle.std.specs.Option.{option_map_or};
ghost use Rattle.std.specs.List.{prefix_len};
ghost use Rattle.rehearse.specs.Commands as words;
ghost use Rattle.rehearse.specs.Commands.{words_of};
ghost use Rattle.rehearse.specs.Lines as lines;
ghost use Rattle.plan_check.specs.Listings.{lines_of};

/// The first line, and what stands behind its line feed, where it has one.
pub(crate) fn cut_line(text: &[u8]) -> (&[u8], Option<&[u8]>)
    ensures lines { lines_of text.now ≡ result.0.now ∷ option_map_or (λ rest. lines_of rest.now) result.1 [] }
    ensures shorter { IfSome result.1 (λ rest. length rest.now < length text.now) }
{
    let (line, rest) = text.split_at(count_line(text));
    if rest.is_empty() {
        return (line, None);
    }
    (line, Some(rest.split_at(1).1))
}

fn count_line(text: &[u8]) -> usize
    ensures { result ≡ prefix_len (λ byte. not (lines.is_feed byte)) text.now }
{
    text.iter().take_while(|byte| **byte != b'\n').count()
}

/// The line without a carriage return at its end.
pub(crate) fn without_return(line: &[u8]) -> &[u8]
    ensures { result.now ≡ lines.without_return line.now }
{
    match line.strip_suffix(b"\r".as_slice()) {
        Some(front) => front,
        None => line,
    }
}

/// The first word of a line, and what stands behind it; nothing where it has no word.
pub(crate) fn cut_word(line: &[u8]) -> Option<(&[u8], &[u8])>
    ensures words { MatchOption result (words_of line.now ≡ []) (λ (word, rest). words_of line.now ≡ word.now ∷ words_of rest.now) }
    ensures shorter { MatchOption result (Unit {0}) (λ (_, rest). length rest.now < length line.now) }
{
    let text = line.split_at(count_blanks(line)).1;
    if text.is_empty() {
        return None;
    }
    Some(text.split_at(count_word(text)))
}

fn count_blanks(line: &[u8]) -> usize
    ensures { result ≡ prefix_len words.is_blank line.now }
{
    line.iter().take_while(|byte| is_blank(**byte)).count()
}

fn count_word(text: &[u8]) -> usize
    ensures { result ≡ prefix_len (λ byte. not (words.is_blank byte)) text.now }
{
    text.iter().take_while(|byte| !is_blank(**byte)).count()
}

fn is_blank(byte: u8) -> bool
    ensures { result ≡ words.is_blank byte }
{
    byte == b' ' || byte == b'\t'
}
