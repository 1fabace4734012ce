//! Holes in a text: `{{`, and what follows up to the next `}}`.
ghost use Rattle.std.specs.Prelude.{◌≡◌, ◌+◌, ◌-◌, ◌<◌, ◌≤◌, length, option_map, unwrap_or, IfSome};
ghost use Rattle.playbook_schema.specs.Commands as spec;
ghost use Rattle.play_read.specs.Pieces.{IsOpenBelow};

use text_syntax::starts_with_pair;

/// How many bytes more belong to a hole that the bytes begin with; 0 where they begin with none. In fewer bytes than `tail`
/// at their end no hole is closed.
pub(crate) fn hole_behind(bytes: &[u8], tail: usize) -> usize
    requires { IsOpenBelow tail bytes.now }
    ensures number { result ≡ spec.hole_behind bytes.now }
    ensures within { result ≤ length bytes.now - 1 }
{
    if !starts_with_pair(bytes, b'{', b'{') {
        return 0;
    }
    // Each opening behind the last `}}` would else be searched for one up to the end of the text.
    if bytes.len() < tail {
        return 0;
    }
    match before_closing(&bytes[2..]) {
        Some(more) => more + 3,
        None => 0,
    }
}

/// How many bytes stand before the first `}}`.
fn before_closing(bytes: &[u8]) -> Option<usize>
    ensures place { result ≡ spec.before_closing bytes.now }
    ensures within { IfSome result (λ place. place + 2 ≤ length bytes.now) }
{
    for index in 0..bytes.len() {
        if starts_with_pair(&bytes[index..], b'}', b'}') {
            return Some(index);
        }
    }
    None
}

/// How many bytes the text has from its last `}}` on; more than it has where there is none.
pub(crate) fn tail_of_last_closing(bytes: &[u8]) -> usize
    ensures { IsOpenBelow result bytes.now }
{
    for behind in 0..bytes.len() {
        let start = bytes.len() - 1 - behind;
        if starts_with_pair(&bytes[start..], b'}', b'}') {
            return behind + 1;
        }
    }
    usize::MAX
}
