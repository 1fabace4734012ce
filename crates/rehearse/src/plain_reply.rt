//! An answer in lines for people.
ghost use Rattle.std.specs.Prelude.{[], drop};
ghost use Rattle.bounded_io.specs.Writing.{Writes};
ghost use Rattle.recap.specs.PlanText.{plan_text};
ghost use Rattle.rehearse.specs.AnswersInside.{said, why_of};
ghost use Rattle.rehearse.specs.PlainReplies.{advanced_lines, marked_line, nobody_line, outside_line, plain_reply, refused_line, waiting_line};
ghost use Rattle.rehearse.specs.Stacks.{batches_to, top};

use crate::help::write_help;
use crate::hosts::write_members;
use crate::refusal::Refusal;
use crate::rehearsal::Rehearsal;
use crate::reply::Reply;
use crate::show::write_show;
use bounded_io::TextWriter;
use domains::Fleet;
use group_tree::HostId;
use recap::{host_name, write_names_line, write_plan_lines, write_printable};
use std::io::Write;

#[tactic(auto, using(bounded_io::proofs::Pieces::pieces_of_text))]
fn write_nobody<W: Write>(text: &mut TextWriter<'_, W>, name: &[u8])
    ensures { Writes W.contents text.old text.new (nobody_line name.now) }
{
    text.write_str("refused 304 NoSuchName name=");
    write_printable(text, name);
    text.write_str("\n");
}

#[tactic(auto, using(bounded_io::proofs::Pieces::pieces_of_text))]
fn write_outside<W: Write>(text: &mut TextWriter<'_, W>, fleet: &Fleet, host: HostId)
    ensures { Writes W.contents text.old text.new (outside_line fleet.now host) }
{
    text.write_str("refused 831 NotInBatch host=");
    write_printable(text, host_name(fleet, host).as_bytes());
    text.write_str("\n");
}

#[tactic(auto, using(bounded_io::proofs::Pieces::pieces_of_text))]
fn write_not_waiting<W: Write>(text: &mut TextWriter<'_, W>, fleet: &Fleet, host: HostId)
    ensures { Writes W.contents text.old text.new (waiting_line fleet.now host) }
{
    text.write_str("refused 833 NotWaiting host=");
    write_printable(text, host_name(fleet, host).as_bytes());
    text.write_str("\n");
}

fn write_refusal<W: Write>(text: &mut TextWriter<'_, W>, fleet: &Fleet, refusal: Refusal<'_>)
    ensures { Writes W.contents text.old text.new (refused_line fleet.now (why_of refusal.entry)) }
{
    match refusal {
        Refusal::NoSuchName(name) => write_nobody(text, name),
        Refusal::Over => text.write_str("refused 832 Over\n"),
        Refusal::NotInBatch(host) => write_outside(text, fleet, host),
        Refusal::NotWaiting(host) => write_not_waiting(text, fleet, host),
        Refusal::BadCommand => text.write_str("refused 905 BadCommand\n"),
    }
}

/// Writes a line for each batch by which the rehearsal went on behind so many.
fn write_advanced<W: Write>(text: &mut TextWriter<'_, W>, rehearsal: &Rehearsal<'_>, from: usize)
    ensures { Writes W.contents text.old text.new (advanced_lines rehearsal.now.rules.fleet (drop from (batches_to rehearsal.now.first rehearsal.now.above))) }
{
    for place in from..rehearsal.advances() {
        write_names_line(text, "advanced:", rehearsal.fleet(), rehearsal.batch(place));
    }
}

fn write_marked<W: Write>(text: &mut TextWriter<'_, W>, fleet: &Fleet, host: HostId)
    ensures { Writes W.contents text.old text.new (marked_line fleet.now host) }
{
    write_names_line(text, "marked:", fleet, &[host]);
}

fn write_plan<W: Write>(text: &mut TextWriter<'_, W>, rehearsal: &Rehearsal<'_>)
    ensures { Writes W.contents text.old text.new (plan_text rehearsal.now.rules.fleet (top rehearsal.now).boundary.answer []) }
{
    write_plan_lines(text, rehearsal.fleet(), rehearsal.plan(), &[]);
}

/// Writes the lines of an answer.
pub(crate) fn write_lines<W: Write>(
    text: &mut TextWriter<'_, W>,
    rehearsal: &Rehearsal<'_>,
    reply: Reply<'_, '_>,
)
    ensures { Writes W.contents text.old text.new (plain_reply rehearsal.now.rules.fleet (said rehearsal.now reply.entry)) }
{
    match reply {
        Reply::Refused(refusal) => write_refusal(text, rehearsal.fleet(), refusal),
        Reply::Advanced { from } => write_advanced(text, rehearsal, from),
        Reply::Marked(host) => write_marked(text, rehearsal.fleet(), host),
        Reply::Undone => text.write_str("undone\n"),
        Reply::NothingToUndo => text.write_str("nothing to undo\n"),
        Reply::Plan => write_plan(text, rehearsal),
        Reply::Show => write_show(text, rehearsal),
        Reply::Hosts(hosts) => write_members(text, rehearsal, hosts),
        Reply::Help => write_help(text),
    }
}
