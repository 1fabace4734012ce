//! Why a line is refused.
ghost use Rattle.std.specs.Prelude.{◌≡◌};
ghost use Rattle.rehearse.specs.AnswersInside.{said, why_of};
ghost use Rattle.rehearse.specs.Histories.{refusing};
ghost use Rattle.rehearse.specs.Replies as replies;

use crate::history::History;
use crate::reply::Reply;
use group_tree::HostId;

/// Why a line is refused.
#[derive(Clone, Copy)]
pub(crate) enum Refusal<'l> {
    /// The first name that nobody has.
    NoSuchName(&'l [u8]),
    /// The play has ended.
    Over,
    /// The first of the named hosts that does not stand in the batch.
    NotInBatch(HostId),
    /// The host that was to be marked, and whose batch does not come any more.
    NotWaiting(HostId),
    /// Its words are no command.
    BadCommand,
}

/// Refuses a line.
pub(crate) fn refuse<'f, 'l>(history: &mut History<'f>, refusal: Refusal<'l>) -> Reply<'f, 'l>
    ensures reply { said history.new.place.rehearsal result ≡ replies.refused (why_of refusal.entry) }
    ensures refused { history.new ≡ refusing history.old }
{
    history.refuse();
    Reply::Refused(refusal)
}
