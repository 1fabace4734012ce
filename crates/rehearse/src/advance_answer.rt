//! Going on by a batch in which hosts fail.
ghost use Rattle.std.specs.Prelude.{◌≡◌, IfOk, OnErr, OnOk};
ghost use Rattle.rehearse.specs.Answers.{AdvancesTo, one_batch, refusal, unless};
ghost use Rattle.rehearse.specs.Commands.{words_of};
ghost use Rattle.rehearse.specs.AnswersInside.{IsSettled, said};

use crate::advance_fault::AdvanceFault;
use crate::history::History;
use crate::names::{Named, find_hosts};
use crate::refusal::{Refusal, refuse};
use crate::reply::Reply;
use std::alloc::{AllocError, Global};

/// Goes on by the batch that comes next, in which the hosts of these names fail, and the marked ones, unless that is refused. Only want of memory fails
/// it; then the session stands where it stood.
fn advance_by<'l>(
    alloc: Global,
    history: &mut History<'_>,
    names: &'l [u8],
) -> Result<Option<Refusal<'l>>, AllocError>
    ensures settled { IfOk result (IsSettled history.old (words_of names.now) history.new) }
    ensures unchanged { OnErr result (history.new ≡ history.old) }
{
    let hosts = match find_hosts(alloc, history.rehearsal().fleet(), names)? {
        Named::Hosts(hosts) => hosts,
        Named::Nobody(name) => return Ok(Some(Refusal::NoSuchName(name))),
    };
    match history.advance(alloc, hosts.as_slice()) {
        Ok(()) => Ok(None),
        Err(AdvanceFault::Over { end: _ }) => Ok(Some(Refusal::Over)),
        Err(AdvanceFault::NotInBatch { host }) => Ok(Some(Refusal::NotInBatch(host))),
        Err(AdvanceFault::Memory) => Err(AllocError),
    }
}

/// Answers a line that asks to go on by a batch in which the hosts of these names fail. Only want of memory fails it; then the session
/// stands where it stood.
pub(crate) fn answer_advance<'f, 'l>(
    alloc: Global,
    history: &mut History<'f>,
    names: &'l [u8],
) -> Result<Reply<'f, 'l>, AllocError>
    ensures reply { IfOk result (λ reply. said history.new.place.rehearsal reply
        ≡ unless (refusal history.old.place.rehearsal (words_of names.now)) (one_batch history.old.place.rehearsal)) }
    ensures leads { OnOk result (AdvancesTo history.old (words_of names.now) (refusal history.old.place.rehearsal (words_of names.now)) history.new) }
    ensures unchanged { OnErr result (history.new ≡ history.old) }
{
    let from = history.rehearsal().advances();
    match advance_by(alloc, history, names)? {
        Some(refusal) => Ok(refuse(history, refusal)),
        None => Ok(Reply::Advanced { from }),
    }
}
