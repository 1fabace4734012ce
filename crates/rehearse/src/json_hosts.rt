//! The hosts of a group, with their states and their batches, as a JSON object.
ghost use Rattle.std.specs.Prelude.{◌++◌, nat_lt};
ghost use Rattle.bounded_io.specs.Writing.{Writes};
ghost use Rattle.domains.specs.Ids.{host_numbers};
ghost use Rattle.json_output.specs.Arrays.{comma_if, entries_text};
ghost use Rattle.rehearse.specs.JsonReplies.{batch_json, hosts_json, member_json, member_of, members_json};
ghost use Rattle.rehearse.specs.Stacks.{top};

use crate::batch::batch_number;
use crate::rehearsal::Rehearsal;
use bounded_io::TextWriter;
use fleet_states::{Status, status_of};
use group_tree::HostId;
use json_output::{write_comma, write_quoted};
use recap::{host_name, word_of, write_field};
use std::io::Write;

/// Writes the number of a host's batch.
fn write_batch<W: Write>(text: &mut TextWriter<'_, W>, number: Option<usize>)
    ensures { Writes W.contents text.old text.new (batch_json number) }
{
    match number {
        Some(number) => write_field(text, ",\"batch\":", number as u64),
        None => text.write_str(",\"batch\":null"),
    }
}

#[tactic(auto, using(bounded_io::proofs::Pieces::pieces_of_text))]
fn write_host<W: Write>(
    text: &mut TextWriter<'_, W>,
    name: &str,
    status: Status,
    batch: Option<usize>,
)
    ensures { Writes W.contents text.old text.new (member_json name.now status batch) }
{
    text.write_str("{\"host\":");
    write_quoted(text, name);
    text.write_str(",\"state\":");
    write_quoted(text, word_of(status));
    write_batch(text, batch);
    text.write_str("}");
}

fn write_member<W: Write>(text: &mut TextWriter<'_, W>, rehearsal: &Rehearsal<'_>, host: HostId)
    ensures { Writes W.contents text.old text.new (member_of rehearsal.now.rules.fleet (top rehearsal.now) host.index) }
{
    write_host(
        text,
        host_name(rehearsal.fleet(), host),
        status_of(rehearsal.statuses(), host),
        batch_number(rehearsal.plan(), host),
    );
}

#[tactic(auto, using(bounded_io::proofs::Pieces::pieces_of_text))]
fn write_entry<W: Write>(
    text: &mut TextWriter<'_, W>,
    rehearsal: &Rehearsal<'_>,
    place: usize,
    host: HostId,
)
    ensures { Writes W.contents text.old text.new (comma_if (nat_lt 0 place) ++ member_of rehearsal.now.rules.fleet (top rehearsal.now) host.index) }
{
    write_comma(text, 0 < place);
    write_member(text, rehearsal, host);
}

fn write_each_member<W: Write>(
    text: &mut TextWriter<'_, W>,
    rehearsal: &Rehearsal<'_>,
    hosts: &[HostId],
)
    ensures { Writes W.contents text.old text.new (entries_text (λ place host. member_of rehearsal.now.rules.fleet (top rehearsal.now) host) (host_numbers hosts.now)) }
{
    for place in 0..hosts.len() {
        write_entry(text, rehearsal, place, hosts[place]);
    }
}

#[tactic(auto, using(bounded_io::proofs::Pieces::pieces_of_text))]
fn write_members<W: Write>(
    text: &mut TextWriter<'_, W>,
    rehearsal: &Rehearsal<'_>,
    hosts: &[HostId],
)
    ensures { Writes W.contents text.old text.new (members_json rehearsal.now.rules.fleet (top rehearsal.now) (host_numbers hosts.now)) }
{
    text.write_str("[");
    write_each_member(text, rehearsal, hosts);
    text.write_str("]");
}

/// Writes these hosts.
#[tactic(auto, using(bounded_io::proofs::Pieces::pieces_of_text))]
pub(crate) fn write_hosts_json<W: Write>(
    text: &mut TextWriter<'_, W>,
    rehearsal: &Rehearsal<'_>,
    hosts: &[HostId],
)
    ensures { Writes W.contents text.old text.new (hosts_json rehearsal.now.rules.fleet (top rehearsal.now) (host_numbers hosts.now)) }
{
    text.write_str("{\"reply\":\"hosts\",\"hosts\":");
    write_members(text, rehearsal, hosts);
    text.write_str("}\n");
}
