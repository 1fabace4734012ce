//! The command `rehearse`: from the files of an inventory and a playbook, and commands on standard input, to their answers.
ghost use Rattle.std.specs.Prelude.{◌≡◌, IfOk, IfErr};
ghost use Rattle.rollout.specs.Rehearsals.{AnswersAll, EndsEarly, RehearsesInputs, status_of_session};
ghost use Rattle.rollout.specs.Systems.{sources_of};

use crate::fault::Fault;
use crate::inputs::read_both;
use crate::status::Status;
use crate::system::System;
use bounded_io::Input;
use command_line::Source;
use json_output::Form;
use rehearse::{Prompt, rehearse_text};
use std::alloc::Global;
use std::io::Write;

/// Reads the inventory and the playbook, and answers the commands on standard input, each as it comes, in the form: they rehearse the playbook's first play. Where none is to be refused, the
/// status tells whether one was.
#[allow(clippy::too_many_arguments)]
pub fn rehearse<S: System, I: Input, W: Write>(
    system: &S,
    alloc: Global,
    form: Form,
    inventory: Source,
    playbook: Source,
    is_strict: bool,
    input: &mut I,
    out: &mut W,
) -> Result<Status, Fault>
    ensures { RehearsesInputs form is_strict (sources_of (S.known system.now) (I.is_reliable input.old)) inventory playbook (I.remaining input.old) (I.remaining input.new)
        (W.contents out.old) (W.contents out.new) result }
{
    match read_both(system, alloc, inventory, playbook, input) {
        Ok((inventory, playbook)) => {
            let inventory = inventory.as_slice();
            let playbook = playbook.as_slice();
            answer_all(
                alloc, form, inventory, playbook, system, is_strict, input, out,
            )
        }
        Err(fault) => Err(fault),
    }
}

/// Rehearses the first play of the two texts. That all commands were answered is all that the status tells, unless none is to be refused.
#[allow(clippy::too_many_arguments)]
fn answer_all<P: Prompt, I: Input, W: Write>(
    alloc: Global,
    form: Form,
    inventory: &[u8],
    playbook: &[u8],
    prompt: &P,
    is_strict: bool,
    input: &mut I,
    out: &mut W,
) -> Result<Status, Fault>
    ensures ok { IfOk result (AnswersAll form is_strict inventory.now playbook.now (I.remaining input.old) (I.remaining input.new) (W.contents out.old) (W.contents out.new)) }
    ensures err { IfErr result (EndsEarly form (I.is_reliable input.old) inventory.now playbook.now (I.remaining input.old) (I.remaining input.new) (W.contents out.old) (W.contents out.new)) }
{
    match rehearse_text(alloc, form, inventory, playbook, prompt, input, out) {
        Ok(is_refused) => Ok(status_of(is_strict, is_refused)),
        Err(fault) => Err(Fault::from(fault)),
    }
}

/// How a session ends all of whose commands were answered.
pub(crate) fn status_of(is_strict: bool, is_refused: bool) -> Status
    ensures { result ≡ status_of_session is_strict is_refused }
{
    if is_strict && is_refused {
        Status::Refused
    } else {
        Status::Done
    }
}
