//! Writing bytes while counting how many went out.
ghost use Rattle.std.specs.Prelude.{◌≡◌, ◌≤◌, length, take};
ghost use Rattle.std.specs.Io.KnownBytes.{Appends};
ghost use Rattle.bounded_io.specs.Sending.{SendsBytes};

use crate::write_fault::WriteFault;
use std::io::Write;

/// Writes all the bytes, and answers the count with them. A short write goes on with the rest; an error, also an
/// interrupted one, and a write that takes nothing end it.
#[tactic(auto, using(crate::proofs::SendingLemmas::more_sent))]
pub(crate) fn write_bytes<W: Write>(
    out: &mut W,
    bytes: &[u8],
    written: u64,
) -> Result<u64, WriteFault>
    ensures { SendsBytes (W.contents out.old) (W.contents out.new) written bytes.now result }
{
    let Some(end) = written.checked_add(bytes.len() as u64) else {
        return Err(WriteFault::behind(written));
    };
    let mut sent = 0;
    while sent < bytes.len() {
        let taken = write_some(out, &bytes[sent..]);
        if taken == 0 {
            return Err(WriteFault::behind(written + sent as u64));
        }
        sent += taken;
    }
    Ok(end)
}

/// One write, and how many of the bytes it took: none where it failed.
fn write_some<W: Write>(out: &mut W, bytes: &[u8]) -> usize
    ensures bound { result ≤ length bytes.now }
    ensures sent { Appends (W.contents out.old) (W.contents out.new) (take result bytes.now) }
{
    out.write(bytes).unwrap_or(0)
}
