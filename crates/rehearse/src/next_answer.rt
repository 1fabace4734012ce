//! Going on by several batches.
ghost use Rattle.std.specs.Prelude.{◌≡◌, ◌≤◌, IfOk, OnErr, OnOk, is_some, length, true};
ghost use Rattle.rehearse.specs.Answers.{FinishesTo, GoesOnTo, batches_between, over, unless};
ghost use Rattle.rehearse.specs.AnswersInside.{said};
ghost use Rattle.rehearse.specs.Stacks.{top};

use crate::history::History;
use crate::refusal::{Refusal, refuse};
use crate::reply::Reply;
use std::alloc::{AllocError, Global};

/// Answers a line that asks to go on by so many batches; as many as there are hosts lead to the end of the play. Only want of memory fails it; then the session
/// stands where it stood.
pub(crate) fn answer_next<'f, 'l>(
    alloc: Global,
    history: &mut History<'f>,
    count: usize,
) -> Result<Reply<'f, 'l>, AllocError>
    ensures reply { IfOk result (λ reply. said history.new.place.rehearsal reply
        ≡ unless (over history.old.place.rehearsal) (batches_between history.old.place.rehearsal history.new.place.rehearsal)) }
    ensures leads { OnOk result (GoesOnTo history.old count (over history.old.place.rehearsal) history.new) }
    ensures to_end { OnOk result (length history.old.place.rehearsal.rules.fleet.hosts ≤ count → is_some (top history.new.place.rehearsal).end ≡ true) }
    ensures unchanged { OnErr result (history.new ≡ history.old) }
{
    if history.rehearsal().end().is_some() {
        return Ok(refuse(history, Refusal::Over));
    }
    let from = history.rehearsal().advances();
    history.resume(alloc, count)?;
    Ok(Reply::Advanced { from })
}

/// Answers a line that asks to go on to the end of the play. Only want of memory fails it; then the session stands where it stood.
pub(crate) fn answer_finish<'f, 'l>(
    alloc: Global,
    history: &mut History<'f>,
) -> Result<Reply<'f, 'l>, AllocError>
    ensures reply { IfOk result (λ reply. said history.new.place.rehearsal reply
        ≡ unless (over history.old.place.rehearsal) (batches_between history.old.place.rehearsal history.new.place.rehearsal)) }
    ensures leads { OnOk result (FinishesTo history.old (over history.old.place.rehearsal) history.new) }
    ensures unchanged { OnErr result (history.new ≡ history.old) }
{
    let hosts = history.rehearsal().fleet().hosts();
    answer_next(alloc, history, hosts)
}
