//! Hearing the commands of a reader as they come.
ghost use Rattle.std.specs.Prelude.{◌≡◌, IfErr, MatchResult, OnErr, OnOk, []};
ghost use Rattle.bounded_io.specs.Writing.{Writes};
ghost use Rattle.rehearse.specs.Inside.{LastAnswer, ListensToEnd, Unheard};
ghost use Rattle.rehearse.specs.RehearseTexts.{HoldsSession, IsTrueOfSession};
ghost use Rattle.rehearse.specs.Tellings.{telling_of};

use crate::fault::RehearseFault;
use crate::history::History;
use crate::line::answer;
use crate::line_loop::hear;
use crate::prompt::Prompt;
use bounded_io::{Input, MAX_INPUT, TextWriter, WriteFault};
use json_output::Form;
use std::alloc::{AllocError, Global};
use std::io::Write;
use std::ops::ControlFlow;

/// How much a single read asks for.
const CHUNK: usize = 8_192;

/// Answers what stands behind the last line feed, where anything does.
fn answer_last<W: Write>(
    alloc: Global,
    form: Form,
    history: &mut History<'_>,
    line: &[u8],
    text: &mut TextWriter<'_, W>,
) -> Result<(), AllocError>
    ensures last { OnOk result (LastAnswer W.contents (telling_of form) history.old line.now history.new text.old text.new) }
    ensures unchanged { OnErr result (history.new ≡ history.old) }
    ensures silent { OnErr result (Writes W.contents text.old text.new []) }
{
    if line.is_empty() {
        return Ok(());
    }
    answer(alloc, form, history, line, text)?;
    Ok(())
}

/// Answers the commands of the reader as they come: whatever is answered is sent, and `prompt` is told, before the next read. It never asks the reader for more than
/// one byte past the bound of an input. Behind a line that ends the session, and where the text breaks off, nothing more is read.
fn listen<P: Prompt, I: Input, W: Write>(
    alloc: Global,
    form: Form,
    history: &mut History<'_>,
    prompt: &P,
    input: &mut I,
    text: &mut TextWriter<'_, W>,
) -> Result<(), RehearseFault>
    ensures ok { OnOk result (ListensToEnd W.contents (telling_of form) history.old history.new (I.remaining input.old) (I.remaining input.new) text.old text.new) }
    ensures err { IfErr result (Unheard W.contents (telling_of form) (I.is_reliable input.old) history.old (I.remaining input.old) (I.remaining input.new) text.old text.new) }
{
    let mut line = Vec::new(alloc);
    let mut chunk = [0; CHUNK];
    let mut given = 0;
    'reads: loop {
        text.flush();
        if let Some(fault) = text.fault() {
            return Err(RehearseFault::Write(fault));
        }
        prompt.prompt();
        let left = MAX_INPUT - given;
        let most = CHUNK.min(left + 1);
        let room = &mut chunk[..most];
        let Some(count) = input.read_some(room) else {
            return Err(RehearseFault::File);
        };
        if count == 0 {
            return match answer_last(alloc, form, history, line.as_slice(), text) {
                Ok(()) => Ok(()),
                Err(_refused) => Err(RehearseFault::Memory),
            };
        }
        let (kept, _past) = room.split_at(count.min(left));
        match hear(alloc, form, history, &mut line, kept, text) {
            Ok(ControlFlow::Continue(())) => {}
            Ok(ControlFlow::Break(())) => return Ok(()),
            Err(fault) => return Err(fault),
        }
        if count > left {
            return Err(RehearseFault::TooLarge);
        }
        given += count;
    }
}

/// How a session ended; where the answers broke off, that is told and nothing else.
fn tell(heard: Result<(), RehearseFault>, sent: Result<(), WriteFault>) -> Result<(), RehearseFault>
    ensures { MatchResult sent (λ _. result ≡ heard) (λ fault. result ≡ Err (RehearseFault.Write fault)) }
{
    match sent {
        Ok(()) => heard,
        Err(fault) => Err(RehearseFault::Write(fault)),
    }
}

/// Holds a session: answers the commands of the reader, and sends the answers. Where a write fails, exactly the first bytes of all
/// answers went out, as many as the fault says.
pub(crate) fn hold_session<P: Prompt, I: Input, W: Write>(
    alloc: Global,
    form: Form,
    history: &mut History<'_>,
    prompt: &P,
    input: &mut I,
    out: &mut W,
) -> Result<(), RehearseFault>
    ensures ok { OnOk result (HoldsSession (telling_of form) history.old history.new (I.remaining input.old) (I.remaining input.new) (W.contents out.old) (W.contents out.new)) }
    ensures err { IfErr result (IsTrueOfSession (telling_of form) (I.is_reliable input.old) history.old (I.remaining input.old) (I.remaining input.new) (W.contents out.old) (W.contents out.new)) }
{
    let mut text = TextWriter::new(out);
    let heard = listen(alloc, form, history, prompt, input, &mut text);
    let sent = text.finish();
    tell(heard, sent)
}
