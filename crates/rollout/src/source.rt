//! Reading the inputs that a line names.
ghost use Rattle.std.specs.Prelude.{◌≡◌, ◌↔◌, IsTrue, IfOk, IfErr};
ghost use Rattle.std.specs.IoError.{error_kind};
ghost use Rattle.rollout.specs.Inputs.{IsFaultOfFile, IsFaultOfKind, IsTextOf, IsTextOfFile, IsUnreadable};
ghost use Rattle.rollout.specs.Systems.{sources_of};

use crate::fault::Fault;
use crate::system::System;
use bounded_io::{Input, InputFault, read_input};
use command_line::Source;
use std::alloc::Global;
use std::io;
use std::io::ErrorKind;

/// Reads a file, or standard input, whole.
pub fn read_source<S: System, I: Input>(
    system: &S,
    alloc: Global,
    source: Source,
    input: &mut I,
) -> Result<Vec<u8>, Fault>
    ensures ok { IfOk result (λ text.
        IsTextOf (sources_of (S.known system.now) (I.is_reliable input.old)) source (I.remaining input.old) (I.remaining input.new) text.items) }
    ensures err { IfErr result
        (IsUnreadable (sources_of (S.known system.now) (I.is_reliable input.old)) source (I.remaining input.old) (I.remaining input.new)) }
    ensures stays { I.is_reliable input.new ≡ I.is_reliable input.old }
{
    match &source {
        Source::StandardInput => match read_input(alloc, input) {
            Ok(text) => Ok(text),
            Err(fault) => Err(Fault::Input { source, fault }),
        },
        Source::File(name) => match read_file(system, alloc, name.as_str()) {
            Ok(text) => Ok(text),
            Err(fault) => Err(Fault::Input { source, fault }),
        },
    }
}

/// Reads the file of this name, whatever the name is.
pub fn read_file<S: System>(system: &S, alloc: Global, name: &str) -> Result<Vec<u8>, InputFault>
    ensures ok { IfOk result (λ text. IsTextOfFile ((S.known system.now).files name.now) text.items) }
    ensures err { IfErr result (IsFaultOfFile ((S.known system.now).files name.now)) }
{
    match system.open(name) {
        Ok(mut file) => read_input(alloc, &mut file),
        Err(error) => Err(open_fault(&error)),
    }
}

/// Why a file can't be opened: for want of memory, or for another reason.
fn open_fault(error: &io::Error) -> InputFault
    ensures { IsFaultOfKind (error_kind error.now) result }
{
    if is_memory(error) {
        InputFault::Memory
    } else {
        InputFault::File
    }
}

/// Whether the system wants memory.
pub fn is_memory(error: &io::Error) -> bool
    ensures { IsTrue result ↔ (error_kind error.now ≡ ErrorKind.OutOfMemory) }
{
    matches!(error.kind(), ErrorKind::OutOfMemory)
}
