//! Looking up the hosts of a group.
ghost use Rattle.std.specs.Prelude.{◌≡◌};
ghost use Rattle.rehearse.specs.Stacks.{top};
ghost use Rattle.rehearse.specs.Answers.{LooksUpTo, group_hosts};
ghost use Rattle.rehearse.specs.AnswersInside.{said};
ghost use Rattle.rehearse.specs.Names.{group_named};

use crate::history::History;
use crate::names::find_group;
use crate::refusal::{Refusal, refuse};
use crate::reply::Reply;

/// Answers a line that asks for the hosts of the group of this name.
pub(crate) fn answer_hosts<'f, 'l>(history: &mut History<'f>, name: &'l [u8]) -> Reply<'f, 'l>
    ensures reply { said history.new.place.rehearsal result
        ≡ group_hosts history.old.place.rehearsal.rules.fleet (top history.old.place.rehearsal) name.now (group_named history.old.place.rehearsal.rules.fleet name.now) }
    ensures leads { LooksUpTo history.old (group_named history.old.place.rehearsal.rules.fleet name.now) history.new }
{
    let fleet = history.rehearsal().fleet();
    match find_group(fleet, name) {
        Some(group) => Reply::Hosts(fleet.members(group)),
        None => refuse(history, Refusal::NoSuchName(name)),
    }
}
