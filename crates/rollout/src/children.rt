//! Whether the ends of programs can be had.
ghost use Rattle.std.specs.Prelude.{◌≡◌, IfErr, IfOk, IfSome, None, false};
ghost use Rattle.rollout.specs.Children as spec;
ghost use Rattle.rollout.specs.Children.{IsAnswerOf};
ghost use Rattle.rollout.specs.Rolls.{IsRefusedBy};
ghost use Rattle.rollout.specs.declared.fault.Fault.TheVariants.{Memory};

use crate::fault::Fault;
use crate::source::read_file;
use crate::system::System;
use bounded_io::InputFault;
use std::alloc::Global;

/// Where the system tells of this process.
const STATUS: &str = "/proc/self/status";

/// Whether this process ignores the ends of its children: then the system keeps none of them, and no program's end can be had. Where the
/// system doesn't say, it is taken not to.
fn are_children_ignored<S: System>(system: &S, alloc: Global) -> Result<bool, Fault>
    ensures ok { IfOk result (IsAnswerOf (S.known system.now).files) }
    ensures err { IfErr result (λ fault. fault ≡ Memory) }
{
    match read_file(system, alloc, STATUS) {
        Ok(text) => Ok(says_ignored(text.as_slice())),
        Err(InputFault::Memory) => Err(Fault::Memory),
        Err(_unread) => Ok(false),
    }
}

/// Why a run is refused before anything is read.
pub fn refusal<S: System>(system: &S, alloc: Global) -> Option<Fault>
    ensures some { IfSome result (IsRefusedBy (S.known system.now)) }
    ensures none { result ≡ None → IsAnswerOf (S.known system.now).files false }
{
    match are_children_ignored(system, alloc) {
        Ok(true) => Some(Fault::ChildrenIgnored),
        Ok(false) => None,
        Err(_refused) => Some(Fault::Memory),
    }
}

/// Whether the text has a row of ignored signals, and SIGCHLD is one of them.
fn says_ignored(text: &[u8]) -> bool
    ensures { result ≡ spec.says_ignored text.now }
{
    for place in 0..text.len() {
        if starts_ignored(&text[place..]) {
            return true;
        }
    }
    false
}

/// Whether the text begins with such a row: a line feed, the row's name, and sixteen hexadecimal digits. The lowest bit of the twelfth is
/// that of signal 17.
fn starts_ignored(text: &[u8]) -> bool
    ensures { result ≡ spec.starts_ignored text.now }
{
    text.starts_with(b"\nSigIgn:\t") && is_odd_digit_at(text, 20)
}

fn is_odd_digit_at(text: &[u8], place: usize) -> bool
    ensures { result ≡ spec.is_odd_digit_at text.now place }
{
    match text.get(place) {
        Some(digit) => is_odd_digit(*digit),
        None => false,
    }
}

/// Whether the hexadecimal digit stands for an odd number: `1` has an odd code, `b` an even one.
fn is_odd_digit(digit: u8) -> bool
    ensures { result ≡ spec.is_odd_digit digit }
{
    if digit < b'a' {
        digit % 2 == 1
    } else {
        digit % 2 == 0
    }
}
