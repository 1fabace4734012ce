//! A writer of texts that are made of many pieces.
ghost use Rattle.std.specs.Prelude.{◌≡◌, ◌<◌, ◌≤◌, ◌+◌, [], IfSome, length, decimal};
ghost use Rattle.bounded_io.specs.Writing.{Begins, Writes, Passes, HoldsNone, Finishes, fault_of};

use crate::held_bytes::{CAPACITY, HeldBytes};
use crate::write_bytes::write_bytes;
use crate::write_fault::WriteFault;
use itoa::Buffer;
use std::io::Write;

/// Writes a text piece by piece, and tells at the end how much of it went out. Pieces are held back, so that they go
/// out in large writes; it takes no memory. After a fault it drops what comes, so no piece has to be looked after by
/// itself. It can't be dropped, so that no fault gets lost: `finish` ends the text.
pub struct TextWriter<'a, W> {
    out: &'a mut W,
    /// How many bytes went out, or the fault that ended it.
    sent: Result<u64, WriteFault>,
    held: HeldBytes,
}

impl<'a, W: Write> TextWriter<'a, W> {
    /// Begins a text.
    pub fn new(out: &'a mut W) -> TextWriter<'a, W>
        ensures { Begins out.entry result }
    {
        TextWriter {
            out,
            sent: Ok(0),
            held: HeldBytes::new(),
        }
    }

    /// Goes on with these bytes.
    #[tactic(auto, using(crate::proofs::WritingLemmas::writes_two))]
    pub fn write_bytes(&mut self, bytes: &[u8])
        ensures { Writes W.contents self.old self.new bytes.now }
    {
        self.make_room(bytes.len());
        if bytes.len() > CAPACITY {
            self.send(bytes);
        } else {
            self.hold(bytes);
        }
    }

    /// Goes on with this text.
    pub fn write_str(&mut self, text: &str)
        ensures { Writes W.contents self.old self.new text.now }
    {
        self.write_bytes(text.as_bytes());
    }

    /// Goes on with the number in decimal, without leading zeros.
    pub fn write_number(&mut self, number: u64)
        ensures { Writes W.contents self.old self.new (decimal number) }
    {
        self.write_str(Buffer::new().format(number));
    }

    /// Sends what is held, for a reader who waits for it.
    pub fn flush(&mut self)
        ensures writes { Writes W.contents self.old self.new [] }
        ensures holds { HoldsNone self.new }
    {
        self.sent = resume(self.out, self.held.as_slice(), self.sent);
        self.held.clear();
    }

    /// The fault that ended the text, if one did: nothing goes out any more.
    pub fn fault(&self) -> Option<WriteFault>
        ensures { result ≡ fault_of self.now }
    {
        self.sent.err()
    }

    /// Ends the text: it went out whole, or the fault says how much of it did. That is the fault that ended it before, where one did.
    #[tactic(auto, using(crate::proofs::WritingLemmas::finished))]
    pub fn finish(self) -> Result<(), WriteFault>
        ensures finishes { Finishes W.contents self.entry (W.contents self.exit.0.now) result }
        ensures fault { IfSome (fault_of self.entry) (λ fault. result ≡ Err fault) }
    {
        let TextWriter { out, sent, held } = self;
        resume(out, held.as_slice(), sent).and(Ok(()))
    }

    /// Sends what is held where `len` more bytes would not fit beside it.
    #[tactic(auto, using(crate::proofs::WritingLemmas::writes_none))]
    fn make_room(&mut self, len: usize)
        ensures writes { Writes W.contents self.old self.new [] }
        ensures fits { len ≤ CAPACITY → length self.new.held + len ≤ CAPACITY }
        ensures empty { CAPACITY < len → HoldsNone self.new }
    {
        if len > self.held.room() {
            self.flush();
        }
    }

    fn hold(&mut self, bytes: &[u8])
        requires { length self.old.held + length bytes.now ≤ CAPACITY }
        ensures { Writes W.contents self.old self.new bytes.now }
    {
        self.held.push(bytes);
    }

    fn send(&mut self, bytes: &[u8])
        requires { HoldsNone self.old }
        ensures { Writes W.contents self.old self.new bytes.now }
    {
        self.sent = resume(self.out, bytes, self.sent);
    }
}

/// Writes the bytes after those that went out, and nothing after a fault.
fn resume<W: Write>(
    out: &mut W,
    bytes: &[u8],
    sent: Result<u64, WriteFault>,
) -> Result<u64, WriteFault>
    ensures { Passes (W.contents out.old) (W.contents out.new) sent result bytes.now [] }
{
    match sent {
        Ok(written) => write_bytes(out, bytes, written),
        Err(fault) => Err(fault),
    }
}
