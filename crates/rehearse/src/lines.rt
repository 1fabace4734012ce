//! Lines of commands.
ghost use Rattle.std.specs.Prelude.{◌≡◌, ◌<◌, ◌≤◌, ◌+◌, ◌++◌, IfErr, MatchOption, OnOk, length, position};
ghost use Rattle.rehearse.specs.Lines as spec;
ghost use Rattle.rehearse.specs.Lines.{HasNoFeed, IsCut, is_feed};
ghost use Rattle.rehearse.specs.Inside.{HasNoRoom};

use crate::fault::RehearseFault;

/// The longest line, in bytes, without its line feed.
pub const MAX_LINE: usize = 65_536;

/// The line without a carriage return at its end.
pub(crate) fn without_return(line: &[u8]) -> &[u8]
    ensures { result.now ≡ spec.without_return line.now }
{
    match line.strip_suffix(b"\r".as_slice()) {
        Some(front) => front,
        None => line,
    }
}

/// How many bytes stand before the first line feed.
fn find_feed(bytes: &[u8]) -> Option<usize>
    ensures { result ≡ position is_feed bytes.now }
{
    bytes.iter().position(|byte| *byte == b'\n')
}

/// What stands before the first line feed, and what behind it; nothing where there is none.
pub(crate) fn cut_line(bytes: &[u8]) -> Option<(&[u8], &[u8])>
    ensures cut { MatchOption result (HasNoFeed bytes.now) (λ (front, behind). IsCut bytes.now front.now behind.now) }
    ensures shorter { MatchOption result (Unit {0}) (λ (_, behind). length behind.now < length bytes.now) }
{
    let Some(place) = find_feed(bytes) else {
        return None;
    };
    let (front, behind) = bytes.split_at(place);
    Some((front, behind.split_at(1).1))
}

/// Goes on with a line by these bytes, unless it gets too long. Whatever refuses it, the line stays as it is.
pub(crate) fn grow(line: &mut Vec<u8>, bytes: &[u8]) -> Result<(), RehearseFault>
    requires { length line.old.items ≤ MAX_LINE }
    ensures grown { OnOk result (line.new.items ≡ line.old.items ++ bytes.now) }
    ensures within { OnOk result (length line.old.items + length bytes.now ≤ MAX_LINE) }
    ensures err { IfErr result (HasNoRoom (length line.old.items + length bytes.now)) }
{
    if bytes.len() > MAX_LINE - line.len() {
        return Err(RehearseFault::LongLine);
    }
    line.extend_from_slice(bytes)?;
    Ok(())
}
