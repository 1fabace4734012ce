//! Names, as a text of XML has them.
ghost use Rattle.std.specs.Prelude.{◌≡◌, flat_map};
ghost use Rattle.std.specs.Str.{chars};
ghost use Rattle.bounded_io.specs.Writing.{Writes};
ghost use Rattle.forecast_svg.specs.Escapes as model;

use bounded_io::TextWriter;
use std::io::Write;

/// Whether XML lets the character stand in a text.
fn is_allowed(c: char) -> bool
    ensures { result ≡ model.is_allowed c }
{
    let code = c as u32;
    32 <= code && code != 0xfffe && code != 0xffff
}

/// Goes on with the character as it is, or with a question mark where XML doesn't let it stand.
fn write_plain<W: Write>(text: &mut TextWriter<'_, W>, c: char)
    ensures { Writes W.contents text.old text.new (model.plain c) }
{
    if is_allowed(c) {
        text.write_str(c.encode_utf8(&mut [0; 4]));
    } else {
        text.write_str("?");
    }
}

fn write_char<W: Write>(text: &mut TextWriter<'_, W>, c: char)
    ensures { Writes W.contents text.old text.new (model.escaped_char c) }
{
    match c {
        '&' => text.write_str("&amp;"),
        '<' => text.write_str("&lt;"),
        '>' => text.write_str("&gt;"),
        '"' => text.write_str("&quot;"),
        _ => write_plain(text, c),
    }
}

/// Goes on with the name as a text of XML has it: what would end that text stands as a reference, and what XML doesn't know as a question mark.
pub(crate) fn write_escaped<W: Write>(text: &mut TextWriter<'_, W>, name: &str)
    ensures { Writes W.contents text.old text.new (model.escaped name.now) }
{
    for c in name.chars() {
        write_char(text, c);
    }
}
