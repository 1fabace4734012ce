//! Bytes: which of them part words and which may stand in a name, and what a text begins with.
ghost use Rattle.std.specs.Prelude.{◌≡◌, ◌<◌, ◌≤◌, length, true};
ghost use Rattle.text_syntax.specs.Words as spec;
ghost use Rattle.text_syntax.specs.Words.{starts};

/// Space, tab, line feed or carriage return.
#[inline(always)]
pub fn is_blank(byte: u8) -> bool
    ensures { result ≡ spec.is_blank byte }
{
    // Most bytes are told from blanks by this one comparison.
    byte <= b' ' && matches!(byte, b' ' | b'\t' | b'\n' | b'\r')
}

/// A letter of ASCII or `_`.
#[inline(always)]
pub fn is_letter(byte: u8) -> bool
    ensures { result ≡ spec.is_letter byte }
{
    matches!(byte, b'A'..=b'Z' | b'a'..=b'z' | b'_')
}

#[inline(always)]
pub fn is_digit(byte: u8) -> bool
    ensures { result ≡ spec.is_digit byte }
{
    matches!(byte, b'0'..=b'9')
}

/// A letter of ASCII, a digit or `_`.
#[inline(always)]
pub fn is_name_byte(byte: u8) -> bool
    ensures { result ≡ spec.is_name_byte byte }
{
    is_letter(byte) || is_digit(byte)
}

/// Whether the bytes begin with these two.
#[inline(always)]
pub fn starts_with_pair(bytes: &[u8], first: u8, second: u8) -> bool
    requires some { 0 < first }
    requires second_some { 0 < second }
    ensures same { result ≡ starts first second bytes.now }
    ensures two { result ≡ true → 2 ≤ length bytes.now }
{
    // Most bytes are told from the first one, with no look at how many follow.
    !bytes.is_empty() && bytes[0] == first && bytes.len() > 1 && bytes[1] == second
}
