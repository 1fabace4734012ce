//! What is told of a play's groups.
ghost use Rattle.std.specs.Prelude.{◌≡◌, ◌≤◌, ◌++◌, [], All, IfOk, OnOk, flat_map, length, map, take};
ghost use Rattle.domains.specs.Ids.{host_numbers};
ghost use Rattle.play_forecast.specs.Courses.{batches_of};
ghost use Rattle.occupancy_table.specs.Columns.{IsTableOf, counts_in, counts_of, now, planned};
ghost use Rattle.rehearse.specs.CourseSteps.{course_of};
ghost use Rattle.plan_occupancy.specs.Surveys as model;
ghost use Rattle.plan_occupancy.specs.Surveys.{aside_at, columns_of, course_outlook, held_of, opened, plan_outlook};
ghost use Rattle.plan_occupancy.specs.Inside.{IsSurveyOf, held_views};

use crate::down::list_down;
use crate::held::{HeldHost, append_held};
use crate::marks::{first_forcing, forcing};
use batch_plan::Answer;
use domains::Fleet;
use fleet_states::Status;
use group_tree::{GroupId, HostId};
use occupancy_table::{GroupTable, tabulate_plan};
use play_forecast::Boundary;
use rehearse::PlayCourse;
use std::alloc::{AllocError, Global};

/// What is told of a play's groups: the table, the group that is marked in it, who is down at the play's beginning, and who was set aside.
#[derive(Debug, Drop)]
pub(crate) struct OccupancyReport {
    pub(crate) table: GroupTable,
    pub(crate) mark: Option<GroupId>,
    pub(crate) down: Vec<HostId>,
    pub(crate) held: Vec<HeldHost>,
}

/// The table of a plan that is made of these statuses; a blocked one has no batches.
fn tabulate_answer(
    alloc: Global,
    fleet: &Fleet,
    statuses: &[Status],
    answer: &Answer,
) -> Result<GroupTable, AllocError>
    requires all { length statuses.now ≡ length fleet.now.hosts }
    ensures { IfOk result (IsTableOf fleet.now (columns_of (plan_outlook statuses.now answer.now []))) }
{
    match answer {
        Answer::Planned(plan) => tabulate_plan(alloc, fleet, statuses, &plan.batches),
        Answer::Blocked { .. } => GroupTable::new(alloc, fleet, statuses),
    }
}

/// What is told of a plan that is made of these statuses, once these hosts are set aside. Only want of memory refuses it.
pub(crate) fn survey_plan(
    alloc: Global,
    fleet: &Fleet,
    statuses: &[Status],
    answer: &Answer,
    held: &[HostId],
) -> Result<OccupancyReport, AllocError>
    requires all { length statuses.now ≡ length fleet.now.hosts }
    ensures { IfOk result (IsSurveyOf fleet.now (plan_outlook statuses.now answer.now (host_numbers held.now))) }
{
    let table = tabulate_answer(alloc, fleet, statuses, answer)?;
    let mut holders = Vec::new(alloc);
    append_held(alloc, fleet, statuses, held, &mut holders)?;
    Ok(OccupancyReport {
        table,
        mark: forcing(answer),
        down: list_down(alloc, fleet, statuses)?,
        held: holders,
    })
}

/// The statuses with which these boundaries begin.
fn start_of(boundaries: &[Boundary]) -> &[Status]
    ensures { result.now ≡ model.start_of boundaries.now }
{
    match boundaries {
        [first, ..] => first.statuses.as_slice(),
        [] => &[],
    }
}

/// Adds the columns of the batches that these boundaries opened.
fn append_opened(
    alloc: Global,
    fleet: &Fleet,
    boundaries: &[Boundary],
    table: &mut GroupTable,
) -> Result<(), AllocError>
    requires all { All (λ boundary. length boundary.statuses.items ≡ length fleet.now.hosts) boundaries.now }
    ensures groups { table.new.groups ≡ table.old.groups }
    ensures ok { OnOk result (counts_of table.new ≡ counts_of table.old ++ map (counts_in fleet.now) (map opened boundaries.now)) }
{
    for boundary in boundaries {
        let before = boundary.statuses.as_slice();
        table.add(alloc, fleet, before, boundary.next_batch())?;
    }
    Ok(())
}

/// Adds those who were set aside at these boundaries, each with the group that holds it.
fn append_asides(
    alloc: Global,
    fleet: &Fleet,
    boundaries: &[Boundary],
    held: &mut Vec<HeldHost>,
) -> Result<(), AllocError>
    ensures { OnOk result (held_views held.new.items ≡ held_views held.old.items ++ flat_map (held_of fleet.now) (map aside_at boundaries.now)) }
{
    for boundary in boundaries {
        append_held(
            alloc,
            fleet,
            boundary.statuses.as_slice(),
            boundary.held.as_slice(),
            held,
        )?;
    }
    Ok(())
}

/// The table of a course.
fn tabulate_course(
    alloc: Global,
    fleet: &Fleet,
    course: &PlayCourse,
) -> Result<GroupTable, AllocError>
    requires some { 1 ≤ length course.now.boundaries.items }
    requires all { All (λ boundary. length boundary.statuses.items ≡ length fleet.now.hosts) course.now.boundaries.items }
    ensures { IfOk result (IsTableOf fleet.now (columns_of (course_outlook (course_of course.now)))) }
{
    let boundaries = course.boundaries.as_slice();
    let mut table = GroupTable::new(alloc, fleet, start_of(boundaries))?;
    append_opened(alloc, fleet, &boundaries[..course.batches()], &mut table)?;
    Ok(table)
}

/// What is told of a course. Only want of memory refuses it.
pub(crate) fn survey_course(
    alloc: Global,
    fleet: &Fleet,
    course: &PlayCourse,
) -> Result<OccupancyReport, AllocError>
    requires some { 1 ≤ length course.now.boundaries.items }
    requires all { All (λ boundary. length boundary.statuses.items ≡ length fleet.now.hosts) course.now.boundaries.items }
    ensures { IfOk result (IsSurveyOf fleet.now (course_outlook (course_of course.now))) }
{
    let boundaries = course.boundaries.as_slice();
    let table = tabulate_course(alloc, fleet, course)?;
    let mut held = Vec::new(alloc);
    append_asides(alloc, fleet, boundaries, &mut held)?;
    Ok(OccupancyReport {
        table,
        mark: first_forcing(boundaries),
        down: list_down(alloc, fleet, start_of(boundaries))?,
        held,
    })
}
