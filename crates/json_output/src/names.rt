//! The names of hosts in an array.
ghost use Rattle.std.specs.Prelude.{◌≡◌, ◌<◌, ◌++◌, length, nat_lt};
ghost use Rattle.bounded_io.specs.Writing.{Writes};
ghost use Rattle.domains.specs.Ids.{host_numbers};
ghost use Rattle.domains.specs.Numbered.{host_at};
ghost use Rattle.json_output.specs.Arrays.{comma_if, entries_text, quoted};
ghost use Rattle.json_output.specs.PlanJson.{names_json};

use crate::arrays::{write_comma, write_quoted};
use bounded_io::TextWriter;
use domains::Fleet;
use group_tree::HostId;
use recap::host_name;
use std::io::Write;

#[tactic(auto, using(bounded_io::proofs::Pieces::pieces_of_text))]
fn write_name<W: Write>(text: &mut TextWriter<'_, W>, fleet: &Fleet, place: usize, host: HostId)
    ensures { Writes W.contents text.old text.new (comma_if (nat_lt 0 place) ++ quoted (host_at fleet.now.hosts host.index)) }
{
    write_comma(text, 0 < place);
    write_quoted(text, host_name(fleet, host));
}

fn write_each_name<W: Write>(text: &mut TextWriter<'_, W>, fleet: &Fleet, hosts: &[HostId])
    ensures { Writes W.contents text.old text.new (entries_text (λ place host. quoted (host_at fleet.now.hosts host)) (host_numbers hosts.now)) }
{
    for place in 0..hosts.len() {
        write_name(text, fleet, place, hosts[place]);
    }
}

/// Writes the names of the hosts.
#[tactic(auto, using(bounded_io::proofs::Pieces::pieces_of_text))]
pub fn write_names<W: Write>(text: &mut TextWriter<'_, W>, fleet: &Fleet, hosts: &[HostId])
    ensures { Writes W.contents text.old text.new (names_json fleet.now (host_numbers hosts.now)) }
{
    text.write_str("[");
    write_each_name(text, fleet, hosts);
    text.write_str("]");
}
