//! Reading a complete input, within a bound.
ghost use Rattle.std.specs.Prelude.{◌≡◌, IfOk, IfErr};
ghost use Rattle.bounded_io.specs.Reading.{IsWholeInput, BreaksInput};

use crate::input_fault::InputFault;
use crate::reader::Input;
use std::alloc::Global;

/// The longest input, in bytes.
pub const MAX_INPUT: usize = 16_777_216;

/// The number of bytes that a single read requests.
const CHUNK: usize = 8_192;

/// Reads to the end of the reader. It never requests more than one byte past the bound, and does not allocate for
/// that byte. `File` is returned only if a read failed. An interrupted read counts as failed and is not retried.
/// Whether the reader's reads can fail does not change.
pub fn read_input<R: Input>(alloc: Global, reader: &mut R) -> Result<Vec<u8>, InputFault>
    ensures ok { IfOk result (λ input. IsWholeInput (R.remaining reader.old) (R.remaining reader.new) input.items) }
    ensures err { IfErr result (BreaksInput (R.is_reliable reader.old) (R.remaining reader.old) (R.remaining reader.new)) }
    ensures stays { R.is_reliable reader.new ≡ R.is_reliable reader.old }
{
    let mut input = Vec::new(alloc);
    let mut chunk = [0; CHUNK];
    loop {
        let left = MAX_INPUT - input.len();
        let most = CHUNK.min(left + 1);
        let Some(count) = reader.read_some(&mut chunk[..most]) else {
            return Err(InputFault::File);
        };
        if count == 0 {
            return Ok(input);
        }
        if count > left {
            return Err(InputFault::TooLarge);
        }
        let Ok(()) = input.extend_from_slice(&chunk[..count]) else {
            return Err(InputFault::Memory);
        };
    }
}
