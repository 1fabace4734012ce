//! What stands below a play's text.
ghost use Rattle.std.specs.Prelude.{◌++◌, flat_map, option_map};
ghost use Rattle.bounded_io.specs.Writing.{Writes};
ghost use Rattle.domains.specs.Ids.{host_numbers};
ghost use Rattle.plan_occupancy.specs.Surveys as model;
ghost use Rattle.plan_occupancy.specs.Surveys.{Outlook};
ghost use Rattle.plan_occupancy.specs.Inside.{IsSurveyOf, held_view, held_views, written};

use crate::held::HeldHost;
use crate::occupancy_report::OccupancyReport;
use bounded_io::TextWriter;
use domains::Fleet;
use group_tree::{GroupId, HostId};
use occupancy_table::{ColorMode, Grid, write_table};
use recap::{group_name, host_name, write_names_line};
use std::io::Write;

/// Writes the line of the hosts that are down, where there are any.
fn write_down<W: Write>(text: &mut TextWriter<'_, W>, fleet: &Fleet, hosts: &[HostId])
    ensures { Writes W.contents text.old text.new (model.down_line fleet.now (host_numbers hosts.now)) }
{
    if !hosts.is_empty() {
        write_names_line(text, "down:", fleet, hosts);
    }
}

#[tactic(auto, using(bounded_io::proofs::Pieces::pieces_of_text))]
fn write_holder<W: Write>(text: &mut TextWriter<'_, W>, fleet: &Fleet, group: Option<GroupId>)
    ensures { Writes W.contents text.old text.new (model.holder_text fleet.now (option_map (λ group. group.index) group)) }
{
    match group {
        Some(group) => {
            text.write_str(": ");
            text.write_str(group_name(fleet, group));
        }
        None => {}
    }
}

/// Writes the line of a host that was set aside.
#[tactic(auto, using(bounded_io::proofs::Pieces::pieces_of_text))]
fn write_held<W: Write>(text: &mut TextWriter<'_, W>, fleet: &Fleet, held: HeldHost)
    ensures { Writes W.contents text.old text.new (model.held_line fleet.now (held_view held)) }
{
    text.write_str("held ");
    text.write_str(host_name(fleet, held.host));
    write_holder(text, fleet, held.group);
    text.write_str("\n");
}

fn write_all_held<W: Write>(text: &mut TextWriter<'_, W>, fleet: &Fleet, held: &[HeldHost])
    ensures { Writes W.contents text.old text.new (flat_map (model.held_line fleet.now) (held_views held.now)) }
{
    for each in held {
        write_held(text, fleet, *each);
    }
}

/// Goes on with what is told of a play's groups, the table painted so. It takes no memory.
#[tactic(auto, using(bounded_io::proofs::Pieces::pieces_of_text))]
pub(crate) fn write_survey<W: Write>(
    text: &mut TextWriter<'_, W>,
    fleet: &Fleet,
    paint: ColorMode,
    survey: &OccupancyReport,
)
    ensures { Writes W.contents text.old text.new (written paint fleet.now survey.now) }
{
    let grid = Grid {
        fleet,
        mark: survey.mark,
        table: &survey.table,
        paint,
    };
    write_table(text, &grid);
    write_down(text, fleet, survey.down.as_slice());
    write_all_held(text, fleet, survey.held.as_slice());
}
