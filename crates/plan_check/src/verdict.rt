//! What is told of a plan.
ghost use Rattle.std.specs.Prelude.{◌≡◌};
ghost use Rattle.bounded_io.specs.Writing.{Writes};
ghost use Rattle.bounded_io.specs.Sending.{SendsText};
ghost use Rattle.plan_check.specs.Shown.{shown};
ghost use Rattle.plan_check.specs.Verdicts as model;
ghost use Rattle.plan_check.specs.VerdictText.{empty_line, host_line, missing_line, over_line, size_line, valid_line, verdict_text, wrong_line};

use crate::end::CheckEnd;
use crate::wrong::Wrong;
use batch_plan::Answer;
use bounded_io::{TextWriter, WriteFault};
use domains::Fleet;
use group_tree::GroupId;
use recap::{group_name, host_name, write_answer_line, write_field};
use std::io::Write;

/// What is told of a plan.
#[derive(Clone, Copy)]
pub(crate) enum Verdict<'t> {
    /// The group blocks every plan.
    Blocked { group: GroupId, waiting: usize },
    /// The first name that is no host's, in the batch of this number.
    Nobody { batch: usize, name: &'t [u8] },
    /// The first thing that is wrong with it.
    Wrong(Wrong),
    /// It is a plan.
    Valid { batches: usize, least: usize },
}

impl Verdict<'_> {
    /// How the check ends.
    pub(crate) fn end(&self) -> CheckEnd
        ensures { result ≡ model.end_of (shown self.now) }
    {
        match self {
            Verdict::Blocked { .. } => CheckEnd::Blocked,
            Verdict::Nobody { .. } | Verdict::Wrong(_) => CheckEnd::Wrong,
            Verdict::Valid { batches, least } if batches == least => CheckEnd::Least,
            Verdict::Valid { .. } => CheckEnd::Longer,
        }
    }
}

#[tactic(auto, using(bounded_io::proofs::Pieces::pieces_of_text))]
fn write_host<W: Write>(text: &mut TextWriter<'_, W>, word: &str, batch: u64, name: &[u8])
    ensures { Writes W.contents text.old text.new (host_line word.now batch name.now) }
{
    write_field(text, word, batch);
    text.write_str(" host=");
    text.write_bytes(name);
    text.write_str("\n");
}

#[tactic(auto, using(bounded_io::proofs::Pieces::pieces_of_text))]
fn write_size<W: Write>(text: &mut TextWriter<'_, W>, batch: u64, hosts: u64, size: u64)
    ensures { Writes W.contents text.old text.new (size_line batch hosts size) }
{
    write_field(text, "size batch=", batch);
    write_field(text, " hosts=", hosts);
    write_field(text, " size=", size);
    text.write_str("\n");
}

#[tactic(auto, using(bounded_io::proofs::Pieces::pieces_of_text))]
fn write_over<W: Write>(
    text: &mut TextWriter<'_, W>,
    batch: u64,
    group: &str,
    hosts: u64,
    room: u64,
)
    ensures { Writes W.contents text.old text.new (over_line batch group.now hosts room) }
{
    write_field(text, "over batch=", batch);
    text.write_str(" group=");
    text.write_str(group);
    write_field(text, " hosts=", hosts);
    write_field(text, " room=", room);
    text.write_str("\n");
}

#[tactic(auto, using(bounded_io::proofs::Pieces::pieces_of_text))]
fn write_empty<W: Write>(text: &mut TextWriter<'_, W>, batch: u64)
    ensures { Writes W.contents text.old text.new (empty_line batch) }
{
    write_field(text, "empty batch=", batch);
    text.write_str("\n");
}

#[tactic(auto, using(bounded_io::proofs::Pieces::pieces_of_text))]
fn write_missing<W: Write>(text: &mut TextWriter<'_, W>, name: &str)
    ensures { Writes W.contents text.old text.new (missing_line name.now) }
{
    text.write_str("missing host=");
    text.write_str(name);
    text.write_str("\n");
}

#[tactic(auto, using(bounded_io::proofs::Pieces::pieces_of_text))]
fn write_valid<W: Write>(text: &mut TextWriter<'_, W>, batches: u64, least: u64)
    ensures { Writes W.contents text.old text.new (valid_line batches least) }
{
    write_field(text, "valid batches=", batches);
    write_field(text, " least=", least);
    text.write_str("\n");
}

fn write_wrong<W: Write>(text: &mut TextWriter<'_, W>, fleet: &Fleet, wrong: Wrong)
    ensures { Writes W.contents text.old text.new (wrong_line fleet.now wrong) }
{
    match wrong {
        Wrong::Empty { batch } => write_empty(text, batch as u64),
        Wrong::NotWaiting { batch, host } => {
            let name = host_name(fleet, host).as_bytes();
            write_host(text, "not-waiting batch=", batch as u64, name);
        }
        Wrong::Twice { batch, host } => {
            let name = host_name(fleet, host).as_bytes();
            write_host(text, "twice batch=", batch as u64, name);
        }
        Wrong::Size { batch, hosts, size } => {
            write_size(text, batch as u64, hosts as u64, u64::from(size));
        }
        Wrong::Over {
            batch,
            group,
            hosts,
            room,
        } => {
            let name = group_name(fleet, group);
            write_over(text, batch as u64, name, hosts as u64, room as u64);
        }
        Wrong::Missing { host } => write_missing(text, host_name(fleet, host)),
    }
}

fn write_verdict<W: Write>(text: &mut TextWriter<'_, W>, fleet: &Fleet, verdict: Verdict<'_>)
    ensures { Writes W.contents text.old text.new (verdict_text fleet.now (shown verdict.entry)) }
{
    match verdict {
        Verdict::Blocked { group, waiting } => {
            write_answer_line(text, fleet, &Answer::Blocked { group, waiting });
        }
        Verdict::Nobody { batch, name } => {
            write_host(text, "unknown batch=", batch as u64, name);
        }
        Verdict::Wrong(wrong) => write_wrong(text, fleet, wrong),
        Verdict::Valid { batches, least } => write_valid(text, batches as u64, least as u64),
    }
}

/// Sends what is told of a plan. It takes no memory.
pub(crate) fn send_verdict<W: Write>(
    fleet: &Fleet,
    verdict: Verdict<'_>,
    out: &mut W,
) -> Result<(), WriteFault>
    ensures { SendsText (W.contents out.old) (W.contents out.new) (verdict_text fleet.now (shown verdict.entry)) result }
{
    let mut text = TextWriter::new(out);
    write_verdict(&mut text, fleet, verdict);
    text.finish()
}
