//! From the bytes of an inventory and a playbook, and commands as they come, to their answers.
ghost use Rattle.std.specs.Prelude.{◌≡◌, IfErr, IfOk, length};
ghost use Rattle.rehearse.specs.RehearseTexts.{IsFaultFrom, IsTrueFault, Rehearses, RehearsesFrom};
ghost use Rattle.rehearse.specs.Tellings.{telling_of};

use crate::fault::RehearseFault;
use crate::history::History;
use crate::opening::{Opening, caps, read_first};
use crate::prompt::Prompt;
use crate::rehearsal::Rehearsal;
use crate::session::hold_session;
use bounded_io::Input;
use json_output::Form;
use std::alloc::Global;
use std::io::Write;

/// Rehearses a play on a fleet whose hosts have these statuses, and whose pattern was looked up: answers the lines of commands that the reader gives, each
/// as it comes, in the form. Answers are sent, and `prompt` is told, before each read. A line `quit` ends the session, as the end of the
/// commands does. A line of more than `MAX_LINE` bytes, more commands than an
/// input has bytes, a failed read and want of memory end the session behind the answers to the lines before; it is never refused. Where a write fails, exactly the
/// first bytes of all answers went out, as many as the fault says. The answer is true where a line was refused: a name that nobody has, a play that has ended, a host that
/// isn't in the batch or doesn't wait, or what is no command.
pub fn rehearse_play<P: Prompt, I: Input, W: Write>(
    alloc: Global,
    form: Form,
    opening: &Opening<'_>,
    prompt: &P,
    input: &mut I,
    out: &mut W,
) -> Result<bool, RehearseFault>
    requires all { length opening.now.statuses.now ≡ length opening.now.fleet.now.hosts }
    ensures ok { IfOk result (RehearsesFrom (telling_of form) opening.now.fleet.now opening.now.play.now opening.now.statuses.now (I.remaining input.old) (I.remaining input.new) (W.contents out.old) (W.contents out.new)) }
    ensures err { IfErr result (IsFaultFrom (telling_of form) (I.is_reliable input.old) opening.now.fleet.now opening.now.play.now opening.now.statuses.now (I.remaining input.old) (I.remaining input.new) (W.contents out.old) (W.contents out.new)) }
{
    let Opening {
        fleet,
        play,
        statuses,
    } = *opening;
    let caps = match caps(alloc, fleet, play) {
        Ok(caps) => caps,
        Err(_refused) => return Err(RehearseFault::Memory),
    };
    let rehearsal = match Rehearsal::new(
        alloc,
        fleet,
        statuses,
        caps.as_slice(),
        play.max_fail(),
        play.on_blocked(),
    ) {
        Ok(rehearsal) => rehearsal,
        Err(_refused) => return Err(RehearseFault::Memory),
    };
    let mut history = History::new(alloc, rehearsal);
    match hold_session(alloc, form, &mut history, prompt, input, out) {
        Ok(()) => Ok(history.refused()),
        Err(fault) => Err(fault),
    }
}

/// Rehearses the first play of a playbook on the fleet of an inventory, each given as the bytes of its text, as `rehearse_play` does, from where a run of it begins. No command is read,
/// and nothing goes out, before both texts were accepted: first the inventory's faults are told, then the playbook's,
/// then the first part of a pattern, of any play, that names nothing.
#[allow(clippy::too_many_arguments)]
pub fn rehearse_text<P: Prompt, I: Input, W: Write>(
    alloc: Global,
    form: Form,
    inventory: &[u8],
    playbook: &[u8],
    prompt: &P,
    input: &mut I,
    out: &mut W,
) -> Result<bool, RehearseFault>
    ensures ok { IfOk result (Rehearses (telling_of form) inventory.now playbook.now (I.remaining input.old) (I.remaining input.new) (W.contents out.old) (W.contents out.new)) }
    ensures err { IfErr result (IsTrueFault (telling_of form) (I.is_reliable input.old) inventory.now playbook.now (I.remaining input.old) (I.remaining input.new) (W.contents out.old) (W.contents out.new)) }
{
    let first = match read_first(alloc, inventory, playbook) {
        Ok(first) => first,
        Err(fault) => return Err(fault),
    };
    let opening = Opening {
        fleet: &first.fleet,
        play: &first.plays[0],
        statuses: first.statuses.as_slice(),
    };
    rehearse_play(alloc, form, &opening, prompt, input, out)
}
