//! The hosts and the end where a rehearsal stands.
ghost use Rattle.std.specs.Prelude.{◌≡◌, ◌++◌, codes};
ghost use Rattle.bounded_io.specs.Writing.{Writes};
ghost use Rattle.fleet_states.specs.Statuses.{status_at};
ghost use Rattle.rehearse.specs.Stacks.{top};
ghost use Rattle.rehearse.specs.PlainReplies.{end_so_far, show_text, status_line, status_lines};

use crate::rehearsal::Rehearsal;
use bounded_io::TextWriter;
use domains::Fleet;
use fleet_states::{Status, status_of};
use group_tree::HostId;
use play_forecast::End;
use recap::{host_name, word_of, write_end};
use std::io::Write;

#[tactic(auto, using(bounded_io::proofs::Pieces::pieces_of_text))]
fn write_line<W: Write>(text: &mut TextWriter<'_, W>, name: &str, word: &str)
    ensures { Writes W.contents text.old text.new (name.now ++ (codes " " ++ (word.now ++ codes "\n"))) }
{
    text.write_str(name);
    text.write_str(" ");
    text.write_str(word);
    text.write_str("\n");
}

/// Writes the line of a host that isn't idle.
#[tactic(auto, using(bounded_io::proofs::Pieces::pieces_of_text))]
fn write_status<W: Write>(text: &mut TextWriter<'_, W>, name: &str, status: Status)
    ensures { Writes W.contents text.old text.new (status_line name.now status) }
{
    match status {
        Status::Idle => {}
        _ => write_line(text, name, word_of(status)),
    }
}

/// Writes the lines of the hosts that aren't idle, by name.
fn write_statuses<W: Write>(text: &mut TextWriter<'_, W>, fleet: &Fleet, statuses: &[Status])
    ensures { Writes W.contents text.old text.new (status_lines fleet.now statuses.now) }
{
    for index in 0..fleet.hosts() {
        write_status(
            text,
            host_name(fleet, HostId { index }),
            status_of(statuses, HostId { index }),
        );
    }
}

/// Writes how the play ended, if it did.
fn write_end_so_far<W: Write>(text: &mut TextWriter<'_, W>, fleet: &Fleet, end: Option<End>)
    ensures { Writes W.contents text.old text.new (end_so_far fleet.now end) }
{
    match end {
        Some(end) => write_end(text, fleet, end),
        None => text.write_str("end none\n"),
    }
}

/// Writes the hosts and the end where the rehearsal stands.
#[tactic(auto, using(bounded_io::proofs::Pieces::pieces_of_text))]
pub(crate) fn write_show<W: Write>(text: &mut TextWriter<'_, W>, rehearsal: &Rehearsal<'_>)
    ensures { Writes W.contents text.old text.new (show_text rehearsal.now.rules.fleet (top rehearsal.now)) }
{
    write_statuses(text, rehearsal.fleet(), rehearsal.statuses());
    write_end_so_far(text, rehearsal.fleet(), rehearsal.end());
}
