//! An answer as a JSON object.
ghost use Rattle.bounded_io.specs.Writing.{Writes};
ghost use Rattle.rehearse.specs.AnswersInside.{said, why_of};
ghost use Rattle.rehearse.specs.JsonReplies.{end_so_far, json_reply, marked_json, nobody_json, outside_json, plan_json, refused_json, show_json, waiting_json};
ghost use Rattle.rehearse.specs.Stacks.{top};

use crate::json_batches::write_advanced;
use crate::json_help::write_help_json;
use crate::json_hosts::write_hosts_json;
use crate::refusal::Refusal;
use crate::rehearsal::Rehearsal;
use crate::reply::Reply;
use batch_plan::Answer;
use bounded_io::TextWriter;
use domains::Fleet;
use json_output::{
    write_answer, write_batches, write_ended, write_quoted, write_states, write_string,
};
use play_forecast::End;
use recap::host_name;
use std::io::Write;

#[tactic(auto, using(bounded_io::proofs::Pieces::pieces_of_text))]
fn write_nobody<W: Write>(text: &mut TextWriter<'_, W>, name: &[u8])
    ensures { Writes W.contents text.old text.new (nobody_json name.now) }
{
    text.write_str("{\"reply\":\"refused\",\"number\":304,\"kind\":\"NoSuchName\",\"name\":");
    write_string(text, name);
    text.write_str("}\n");
}

#[tactic(auto, using(bounded_io::proofs::Pieces::pieces_of_text))]
fn write_outside<W: Write>(text: &mut TextWriter<'_, W>, host: &str)
    ensures { Writes W.contents text.old text.new (outside_json host.now) }
{
    text.write_str("{\"reply\":\"refused\",\"number\":831,\"kind\":\"NotInBatch\",\"host\":");
    write_quoted(text, host);
    text.write_str("}\n");
}

#[tactic(auto, using(bounded_io::proofs::Pieces::pieces_of_text))]
fn write_not_waiting<W: Write>(text: &mut TextWriter<'_, W>, host: &str)
    ensures { Writes W.contents text.old text.new (waiting_json host.now) }
{
    text.write_str("{\"reply\":\"refused\",\"number\":833,\"kind\":\"NotWaiting\",\"host\":");
    write_quoted(text, host);
    text.write_str("}\n");
}

fn write_refusal<W: Write>(text: &mut TextWriter<'_, W>, fleet: &Fleet, refusal: Refusal<'_>)
    ensures { Writes W.contents text.old text.new (refused_json fleet.now (why_of refusal.entry)) }
{
    match refusal {
        Refusal::NoSuchName(name) => write_nobody(text, name),
        Refusal::Over => {
            text.write_str("{\"reply\":\"refused\",\"number\":832,\"kind\":\"Over\"}\n");
        }
        Refusal::NotInBatch(host) => write_outside(text, host_name(fleet, host)),
        Refusal::NotWaiting(host) => write_not_waiting(text, host_name(fleet, host)),
        Refusal::BadCommand => {
            text.write_str("{\"reply\":\"refused\",\"number\":905,\"kind\":\"BadCommand\"}\n");
        }
    }
}

#[tactic(auto, using(bounded_io::proofs::Pieces::pieces_of_text))]
fn write_marked<W: Write>(text: &mut TextWriter<'_, W>, host: &str)
    ensures { Writes W.contents text.old text.new (marked_json host.now) }
{
    text.write_str("{\"reply\":\"marked\",\"host\":");
    write_quoted(text, host);
    text.write_str("}\n");
}

#[tactic(auto, using(bounded_io::proofs::Pieces::pieces_of_text))]
fn write_plan<W: Write>(text: &mut TextWriter<'_, W>, fleet: &Fleet, answer: &Answer)
    ensures { Writes W.contents text.old text.new (plan_json fleet.now answer.now) }
{
    text.write_str("{\"reply\":\"plan\",\"answer\":");
    write_answer(text, fleet, answer);
    text.write_str(",\"batches\":");
    write_batches(text, fleet, answer);
    text.write_str("}\n");
}

/// Writes how the play ended, if it did.
fn write_end_so_far<W: Write>(text: &mut TextWriter<'_, W>, fleet: &Fleet, end: Option<End>)
    ensures { Writes W.contents text.old text.new (end_so_far fleet.now end) }
{
    match end {
        Some(end) => write_ended(text, fleet, end),
        None => text.write_str("null"),
    }
}

#[tactic(auto, using(bounded_io::proofs::Pieces::pieces_of_text))]
fn write_show<W: Write>(text: &mut TextWriter<'_, W>, rehearsal: &Rehearsal<'_>)
    ensures { Writes W.contents text.old text.new (show_json rehearsal.now.rules.fleet (top rehearsal.now)) }
{
    text.write_str("{\"reply\":\"show\",\"hosts\":");
    write_states(text, rehearsal.fleet(), rehearsal.statuses());
    text.write_str(",\"end\":");
    write_end_so_far(text, rehearsal.fleet(), rehearsal.end());
    text.write_str("}\n");
}

/// Writes the object of an answer.
pub(crate) fn write_object<W: Write>(
    text: &mut TextWriter<'_, W>,
    rehearsal: &Rehearsal<'_>,
    reply: Reply<'_, '_>,
)
    ensures { Writes W.contents text.old text.new (json_reply rehearsal.now.rules.fleet (said rehearsal.now reply.entry)) }
{
    match reply {
        Reply::Refused(refusal) => write_refusal(text, rehearsal.fleet(), refusal),
        Reply::Advanced { from } => write_advanced(text, rehearsal, from),
        Reply::Marked(host) => write_marked(text, host_name(rehearsal.fleet(), host)),
        Reply::Undone => text.write_str("{\"reply\":\"undone\"}\n"),
        Reply::NothingToUndo => text.write_str("{\"reply\":\"nothing-to-undo\"}\n"),
        Reply::Plan => write_plan(text, rehearsal.fleet(), rehearsal.plan()),
        Reply::Show => write_show(text, rehearsal),
        Reply::Hosts(hosts) => write_hosts_json(text, rehearsal, hosts),
        Reply::Help => write_help_json(text),
    }
}
