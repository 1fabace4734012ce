//! Marking a host, which then fails when its batch comes.
ghost use Rattle.std.specs.Prelude.{◌≡◌, IfOk, OnErr, OnOk};
ghost use Rattle.rehearse.specs.Answers.{MarksTo, mark_refusal, unless};
ghost use Rattle.rehearse.specs.AnswersInside.{IsMarkable, said};
ghost use Rattle.rehearse.specs.Names.{host_named};
ghost use Rattle.rehearse.specs.Replies as replies;

use crate::history::History;
use crate::names::find_host;
use crate::refusal::{Refusal, refuse};
use crate::rehearsal::Rehearsal;
use crate::reply::Reply;
use fleet_states::{Status, status_of};
use group_tree::HostId;
use std::alloc::AllocError;

/// The host of a name, if its batch may come.
fn find_waiting<'l>(rehearsal: &Rehearsal<'_>, name: &'l [u8]) -> Result<HostId, Refusal<'l>>
    ensures { IsMarkable rehearsal.now name.now result }
{
    let Some(host) = find_host(rehearsal.fleet(), name) else {
        return Err(Refusal::NoSuchName(name));
    };
    if rehearsal.end().is_some() {
        return Err(Refusal::Over);
    }
    match status_of(rehearsal.statuses(), host) {
        Status::Waiting => Ok(host),
        _ => Err(Refusal::NotWaiting(host)),
    }
}

/// Answers a line that asks to mark the host of a name. Only want of memory fails it; then the session stands where it stood.
pub(crate) fn answer_fail<'f, 'l>(
    history: &mut History<'f>,
    name: &'l [u8],
) -> Result<Reply<'f, 'l>, AllocError>
    ensures reply { IfOk result (λ reply. said history.new.place.rehearsal reply
        ≡ unless (mark_refusal history.old.place.rehearsal name.now) (replies.marked (host_named history.old.place.rehearsal.rules.fleet name.now))) }
    ensures leads { OnOk result (MarksTo history.old name.now (mark_refusal history.old.place.rehearsal name.now) history.new) }
    ensures unchanged { OnErr result (history.new ≡ history.old) }
{
    match find_waiting(history.rehearsal(), name) {
        Ok(host) => {
            history.mark(host)?;
            Ok(Reply::Marked(host))
        }
        Err(refusal) => Ok(refuse(history, refusal)),
    }
}
