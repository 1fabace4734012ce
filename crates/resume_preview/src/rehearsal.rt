//! A rehearsal of the rest of a run.
ghost use Rattle.std.specs.Prelude.{◌≡◌, ◌≤◌, IfErr, IfOk, length};
ghost use Rattle.journal.specs.Lines.{max_body};
ghost use Rattle.resume_preview.specs.Asked.{question_of};
ghost use Rattle.resume_preview.specs.Rehearsals.{IsTrueOfRehearsal, RehearsesRest};

use crate::asked::Asked;
use crate::fault::PreviewFault;
use bounded_io::Input;
use json_output::Form;
use rehearse::{Opening, Prompt, rehearse_play};
use resume_state::resume_inputs;
use std::alloc::Global;
use std::io::Write;

/// Rehearses the play with which a run would go on, from how its hosts stand then, as `rehearse::rehearse_play` does. No command is read, and nothing goes out, before all was accepted:
/// a run that can't go on is refused as it is when it is to go on.
pub fn rehearse_from<P: Prompt, I: Input, W: Write>(
    alloc: Global,
    asked: &Asked<'_>,
    prompt: &P,
    input: &mut I,
    out: &mut W,
) -> Result<bool, PreviewFault>
    requires { length asked.now.wish.journal.now ≤ max_body }
    ensures ok { IfOk result (RehearsesRest (question_of asked.now) (I.remaining input.old) (I.remaining input.new) (W.contents out.old) (W.contents out.new)) }
    ensures err { IfErr result (IsTrueOfRehearsal (I.is_reliable input.old) (question_of asked.now) (I.remaining input.old) (I.remaining input.new) (W.contents out.old) (W.contents out.new)) }
{
    let resumption = match resume_inputs(alloc, asked.inventory, asked.playbook, asked.wish) {
        Ok(resumption) => resumption,
        Err(fault) => return Err(PreviewFault::Resume(fault)),
    };
    let opening = Opening {
        fleet: &resumption.fleet,
        play: &resumption.plays[resumption.beginning.plays_before],
        statuses: resumption.beginning.start.statuses.as_slice(),
    };
    match rehearse_play(alloc, Form::Plain, &opening, prompt, input, out) {
        Ok(refused) => Ok(refused),
        Err(fault) => Err(PreviewFault::Session(fault)),
    }
}
