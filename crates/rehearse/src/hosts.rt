//! The lines of a group's hosts, with their states and their batches.
ghost use Rattle.std.specs.Prelude.{flat_map};
ghost use Rattle.bounded_io.specs.Writing.{Writes};
ghost use Rattle.domains.specs.Ids.{host_numbers};
ghost use Rattle.rehearse.specs.Stacks.{top};
ghost use Rattle.rehearse.specs.Hosts.{batch_text, member_line, member_lines};

use crate::batch::batch_number;
use crate::rehearsal::Rehearsal;
use bounded_io::TextWriter;
use fleet_states::status_of;
use group_tree::HostId;
use recap::{host_name, word_of, write_field};
use std::io::Write;

/// Writes the number of a host's batch.
fn write_batch<W: Write>(text: &mut TextWriter<'_, W>, number: Option<usize>)
    ensures { Writes W.contents text.old text.new (batch_text number) }
{
    match number {
        Some(number) => write_field(text, " batch=", number as u64),
        None => text.write_str(" batch=-"),
    }
}

/// Writes the line of a host.
#[tactic(auto, using(bounded_io::proofs::Pieces::pieces_of_text))]
fn write_member<W: Write>(text: &mut TextWriter<'_, W>, rehearsal: &Rehearsal<'_>, host: HostId)
    ensures { Writes W.contents text.old text.new (member_line rehearsal.now.rules.fleet (top rehearsal.now) host.index) }
{
    text.write_str(host_name(rehearsal.fleet(), host));
    text.write_str(" state=");
    text.write_str(word_of(status_of(rehearsal.statuses(), host)));
    write_batch(text, batch_number(rehearsal.plan(), host));
    text.write_str("\n");
}

fn write_each_member<W: Write>(
    text: &mut TextWriter<'_, W>,
    rehearsal: &Rehearsal<'_>,
    hosts: &[HostId],
)
    ensures { Writes W.contents text.old text.new (flat_map (λ host. member_line rehearsal.now.rules.fleet (top rehearsal.now) host.index) hosts.now) }
{
    for host in hosts {
        write_member(text, rehearsal, *host);
    }
}

/// Writes the lines of these hosts.
pub(crate) fn write_members<W: Write>(
    text: &mut TextWriter<'_, W>,
    rehearsal: &Rehearsal<'_>,
    hosts: &[HostId],
)
    ensures { Writes W.contents text.old text.new (member_lines rehearsal.now.rules.fleet (top rehearsal.now) (host_numbers hosts.now)) }
{
    write_each_member(text, rehearsal, hosts);
}
