//! Answering the lines among bytes.
ghost use Rattle.std.specs.Prelude.{◌≡◌, ◌≤◌, ◌+◌, ◌++◌, [], IfErr, IfOk, OnErr, OnOk, is_some, length};
ghost use Rattle.std.specs.ControlFlow.{MatchControlFlow, break_value};
ghost use Rattle.bounded_io.specs.Writing.{Writes};
ghost use Rattle.rehearse.specs.Answers.{Answers, text_to};
ghost use Rattle.rehearse.specs.Commands.{command_in};
ghost use Rattle.rehearse.specs.Lines as spec;
ghost use Rattle.rehearse.specs.Lines.{IsLine};
ghost use Rattle.rehearse.specs.Inside.{HasNoRoom, Hears, HearsEnd, HearsUntil};
ghost use Rattle.rehearse.specs.Sessions.{quits};
ghost use Rattle.rehearse.specs.Tellings.{telling_of};

use crate::fault::RehearseFault;
use crate::history::History;
use crate::line::answer;
use crate::lines::{cut_line, grow, without_return};
use bounded_io::TextWriter;
use json_output::Form;
use std::alloc::Global;
use std::io::Write;
use std::ops::ControlFlow;

/// Ends a line with these bytes and answers it; then the next one begins, where the session goes on. Whatever refuses it, nothing is answered.
fn end_line<W: Write>(
    alloc: Global,
    form: Form,
    history: &mut History<'_>,
    line: &mut Vec<u8>,
    bytes: &[u8],
    text: &mut TextWriter<'_, W>,
) -> Result<ControlFlow<()>, RehearseFault>
    requires { length line.old.items ≤ spec.max_line }
    ensures within { OnOk result (length line.old.items + length bytes.now ≤ spec.max_line) }
    ensures next { OnOk result (line.new.items ≡ []) }
    ensures writes { OnOk result (Writes W.contents text.old text.new (text_to (telling_of form) history.old (command_in (spec.without_return (line.old.items ++ bytes.now))) history.new)) }
    ensures answers { OnOk result (Answers (telling_of form) history.old (spec.without_return (line.old.items ++ bytes.now)) (text_to (telling_of form) history.old (command_in (spec.without_return (line.old.items ++ bytes.now))) history.new) history.new) }
    ensures flow { IfOk result (λ flow. is_some (break_value flow) ≡ quits (line.old.items ++ bytes.now)) }
    ensures err { IfErr result (HasNoRoom (length line.old.items + length bytes.now)) }
    ensures unchanged { OnErr result (history.new ≡ history.old) }
    ensures silent { OnErr result (Writes W.contents text.old text.new []) }
{
    grow(line, bytes)?;
    let flow = answer(alloc, form, history, without_return(line.as_slice()), text)?;
    line.clear();
    Ok(flow)
}

/// Answers the lines that end among these bytes, of which the first one has begun, as far as one that ends the session. Where none does, the line stands behind it
/// that has begun then.
pub(crate) fn hear<W: Write>(
    alloc: Global,
    form: Form,
    history: &mut History<'_>,
    line: &mut Vec<u8>,
    bytes: &[u8],
    text: &mut TextWriter<'_, W>,
) -> Result<ControlFlow<()>, RehearseFault>
    requires { IsLine line.old.items }
    ensures hears { IfOk result (λ flow. MatchControlFlow flow
        (λ _. Hears W.contents (telling_of form) history.old (line.old.items ++ bytes.now) line.new.items history.new text.old text.new × IsLine line.new.items)
        (λ _. HearsEnd W.contents (telling_of form) history.old line.old.items bytes.now history.new text.old text.new)) }
    ensures err { IfErr result (HearsUntil W.contents (telling_of form) history.old (line.old.items ++ bytes.now) history.new text.old text.new) }
{
    let mut left = bytes;
    while let Some((front, behind)) = cut_line(left) {
        match end_line(alloc, form, history, line, front, text) {
            Ok(ControlFlow::Continue(())) => left = behind,
            Ok(ControlFlow::Break(())) => return Ok(ControlFlow::Break(())),
            Err(fault) => return Err(fault),
        }
    }
    match grow(line, left) {
        Ok(()) => Ok(ControlFlow::Continue(())),
        Err(fault) => Err(fault),
    }
}
