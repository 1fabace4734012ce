//! The courses of several plays.
ghost use Rattle.std.specs.Prelude.{◌≡◌, ◌<◌, ◌≤◌, ◌*◌, [], IfOk, OnOk, length, map, true, false};
ghost use Rattle.std.specs.List.{sum_by};
ghost use Rattle.domains.specs.Ids.{host_numbers};
ghost use Rattle.fleet_states.specs.Batches.{fails_in};
ghost use Rattle.fleet_states.specs.Starts.{start_statuses};
ghost use Rattle.batch_plan.specs.Beginnings.{restart_statuses};
ghost use Rattle.play_forecast.specs.Files.{last_statuses};
ghost use Rattle.play_forecast.specs.PlayPlans.{targets};
ghost use Rattle.rehearse.specs.CourseSteps as spec;
ghost use Rattle.rehearse.specs.CourseSteps.{HasFollowed, IsWholeCourse, course_of};
ghost use Rattle.rehearse.specs.CourseTexts.{AreCoursesBy, AreCoursesFrom, batches_opened, setting_by};

use crate::course::PlayCourse;
use crate::following::{Setting, follow};
use crate::targets::{count, start_play, targets_of};
use batch_plan::restart;
use domains::Fleet;
use fleet_states::Status;
use group_tree::HostId;
use play_forecast::End;
use play_model::Play;
use std::alloc::{AllocError, Global};

/// The course of a play for these hosts, from these statuses on.
fn follow_for(
    alloc: Global,
    fleet: &Fleet,
    play: &Play,
    failing: &[Option<usize>],
    hosts: &[HostId],
    statuses: Vec<Status>,
) -> Result<PlayCourse, AllocError>
    requires targets { host_numbers hosts.now ≡ targets fleet.now play.now }
    requires all { length statuses.items ≡ length fleet.now.hosts }
    ensures { IfOk result (IsWholeCourse (setting_by fleet.now (fails_in failing.now) play.now) statuses.items) }
{
    let setting = Setting {
        fleet,
        play,
        targeted: count(fleet, hosts),
        failing,
    };
    follow(alloc, &setting, statuses)
}

/// The course of a first play, from these statuses on.
fn follow_first(
    alloc: Global,
    fleet: &Fleet,
    play: &Play,
    failing: &[Option<usize>],
    statuses: Vec<Status>,
) -> Result<PlayCourse, AllocError>
    requires all { length statuses.items ≡ length fleet.now.hosts }
    ensures { IfOk result (IsWholeCourse (setting_by fleet.now (fails_in failing.now) play.now) statuses.items) }
{
    let hosts = targets_of(alloc, fleet, play)?;
    follow_for(alloc, fleet, play, failing, hosts.as_slice(), statuses)
}

/// The course of a play that begins where this one ended: those wait whom it is for, save who failed, was halted or is off.
fn follow_after(
    alloc: Global,
    fleet: &Fleet,
    play: &Play,
    failing: &[Option<usize>],
    before: &[Status],
) -> Result<PlayCourse, AllocError>
    requires all { length before.now ≡ length fleet.now.hosts }
    ensures { IfOk result (IsWholeCourse (setting_by fleet.now (fails_in failing.now) play.now) (restart_statuses before.now (targets fleet.now play.now))) }
{
    let hosts = targets_of(alloc, fleet, play)?;
    let statuses = restart(alloc, fleet, before, hosts.as_slice())?;
    follow_for(alloc, fleet, play, failing, hosts.as_slice(), statuses)
}

/// Whether a play may follow one that ends so.
fn is_finished(end: End) -> bool
    ensures { result ≡ spec.is_finished end }
{
    matches!(end, End::Finished)
}

/// Puts the course of a play with the others, and behind it those of the plays after it, until one ends otherwise than finished.
fn follow_later(
    alloc: Global,
    fleet: &Fleet,
    plays: &[Play],
    failing: &[Option<usize>],
    before: PlayCourse,
    courses: &mut Vec<PlayCourse>,
) -> Result<(), AllocError>
    requires all { length (last_statuses [] before.boundaries.items) ≡ length fleet.now.hosts }
    ensures { OnOk result (HasFollowed fleet.now (fails_in failing.now) plays.now before courses.old.items courses.new.items) }
{
    let [play, rest @ ..] = plays else {
        courses.push(before)?;
        return Ok(());
    };
    if !is_finished(before.end) {
        courses.push(before)?;
        return Ok(());
    }
    let course = follow_after(alloc, fleet, play, failing, before.last_statuses())?;
    courses.push(before)?;
    follow_later(alloc, fleet, rest, failing, course, courses)
}

/// The courses of these plays, the first of which begins with these statuses, and each other where the one before it ended, to the one that ends otherwise than finished.
pub(crate) fn follow_plays_from(
    alloc: Global,
    fleet: &Fleet,
    plays: &[Play],
    failing: &[Option<usize>],
    statuses: Vec<Status>,
) -> Result<Vec<PlayCourse>, AllocError>
    requires some { 0 < length plays.now }
    requires all { length statuses.items ≡ length fleet.now.hosts }
    ensures are { IfOk result (λ courses. AreCoursesFrom fleet.now (fails_in failing.now) plays.now statuses.items (map course_of courses.items)) }
    ensures few { IfOk result (λ courses. sum_by batches_opened (map course_of courses.items) ≤ length plays.now * length fleet.now.hosts) }
{
    let [first, later @ ..] = plays else {
        unreachable!()
    };
    let course = follow_first(alloc, fleet, first, failing, statuses)?;
    let mut courses = Vec::new(alloc);
    follow_later(alloc, fleet, later, failing, course, &mut courses)?;
    Ok(courses)
}

/// The courses of the plays of a file, the first of which begins as a run does.
pub(crate) fn follow_plays(
    alloc: Global,
    fleet: &Fleet,
    plays: &[Play],
    failing: &[Option<usize>],
) -> Result<Vec<PlayCourse>, AllocError>
    requires some { 0 < length plays.now }
    ensures are { IfOk result (λ courses. AreCoursesBy fleet.now (fails_in failing.now) plays.now (map course_of courses.items)) }
    ensures few { IfOk result (λ courses. sum_by batches_opened (map course_of courses.items) ≤ length plays.now * length fleet.now.hosts) }
{
    let [first, ..] = plays else { unreachable!() };
    let statuses = start_play(alloc, fleet, first)?;
    follow_plays_from(alloc, fleet, plays, failing, statuses)
}
