//! A play from boundary to boundary, where hosts fail.
ghost use Rattle.std.specs.Prelude.{◌≡◌, IfOk, OnOk, length, min};
ghost use Rattle.fleet_states.specs.Batches.{fails_in};
ghost use Rattle.play_forecast.specs.Courses.{IsBoundary, IsPlannedFrom};
ghost use Rattle.play_forecast.specs.PlayPlans.{first_cap, targets};
ghost use Rattle.rehearse.specs.CourseSteps.{HasMoved, IsTurnAt, IsWholeCourse, setting_of};

use crate::advance::close_batch;
use crate::course::PlayCourse;
use crate::targets::{count as count_hosts, targets_of};
use domains::Fleet;
use fleet_states::Status;
use play_forecast::{Boundary, End};
use play_model::Play;
use std::alloc::{AllocError, Global};

/// What stays the same throughout a play: the fleet, how many of its hosts the play is for, and of each host the step that fails on it, if one does.
#[derive(Clone, Copy)]
pub(crate) struct Setting<'p> {
    pub(crate) fleet: &'p Fleet,
    pub(crate) play: &'p Play,
    pub(crate) targeted: u32,
    pub(crate) failing: &'p [Option<usize>],
}

/// Where a play stands while no batch is open: the status of each host, and how the batch before ended it, if it did.
#[derive(Debug, Drop)]
pub(crate) struct Standing {
    pub(crate) statuses: Vec<Status>,
    pub(crate) before: Option<End>,
}

/// What a play comes to with a boundary and its batch.
#[derive(Debug, Drop)]
pub(crate) enum Turn {
    Behind(Standing),
    /// It ends at the boundary.
    Ended(End),
}

/// How many batches were opened, one a boundary. Past it the last entry of the sizes is in force.
fn count(boundaries: &[Boundary]) -> u32
    ensures { result ≡ min (length boundaries.now) 4294967295 }
{
    boundaries.len().min(u32::MAX as usize) as u32
}

/// The boundary to which these statuses lead behind the others. Only want of memory refuses it.
fn next_boundary(
    alloc: Global,
    setting: &Setting<'_>,
    boundaries: &[Boundary],
    statuses: Vec<Status>,
) -> Result<Boundary, AllocError>
    requires all { length statuses.items ≡ length setting.now.fleet.now.hosts }
    requires targeted { setting.now.targeted ≡ length (targets setting.now.fleet.now setting.now.play.now) }
    ensures { IfOk result (IsBoundary (setting_of setting.now) (length boundaries.now) statuses.items) }
{
    let play = setting.play;
    let cap = play.cap(setting.targeted, count(boundaries));
    Boundary::from_statuses(alloc, setting.fleet, play.on_blocked(), statuses, cap)
}

/// The boundary at which a play begins that has these statuses. Only want of memory refuses it, where its pattern was looked up.
pub fn first_boundary(
    alloc: Global,
    fleet: &Fleet,
    play: &Play,
    statuses: Vec<Status>,
) -> Result<Boundary, AllocError>
    requires all { length statuses.items ≡ length fleet.now.hosts }
    ensures { IfOk result (IsPlannedFrom fleet.now play.now.on_blocked (first_cap fleet.now play.now) statuses.items) }
{
    let hosts = targets_of(alloc, fleet, play)?;
    let setting = Setting {
        fleet,
        play,
        targeted: count_hosts(fleet, hosts.as_slice()),
        failing: &[],
    };
    next_boundary(alloc, &setting, &[], statuses)
}

/// Ends the play at the boundary, or passes its batch. Only want of memory refuses it.
fn pass(
    alloc: Global,
    setting: &Setting<'_>,
    boundary: &Boundary,
    before: Option<End>,
) -> Result<Turn, AllocError>
    ensures { IfOk result (IsTurnAt (setting_of setting.now) before boundary.now) }
{
    if let Some(end) = before.or(boundary.end_without_batch()) {
        return Ok(Turn::Ended(end));
    }
    let play = setting.play;
    let steps = play.steps().len();
    let (statuses, before) = close_batch(alloc, boundary, setting.failing, play.max_fail(), steps)?;
    Ok(Turn::Behind(Standing { statuses, before }))
}

/// Comes to the next boundary, and ends the play there or passes its batch. Only want of memory refuses it.
fn move_on(
    alloc: Global,
    setting: &Setting<'_>,
    boundaries: &mut Vec<Boundary>,
    standing: Standing,
) -> Result<Turn, AllocError>
    requires all { length standing.statuses.items ≡ length setting.now.fleet.now.hosts }
    requires targeted { setting.now.targeted ≡ length (targets setting.now.fleet.now setting.now.play.now) }
    ensures { IfOk result (HasMoved (setting_of setting.now) boundaries.old.items boundaries.new.items standing) }
{
    let Standing { statuses, before } = standing;
    let boundary = next_boundary(alloc, setting, boundaries.as_slice(), statuses)?;
    let turn = pass(alloc, setting, &boundary, before)?;
    boundaries.push(boundary)?;
    Ok(turn)
}

/// The course of a play from these statuses on. Each boundary at which it goes on has a batch of hosts that wait, and none of them waits again; so it comes to
/// its end. Only want of memory refuses it.
pub(crate) fn follow(
    alloc: Global,
    setting: &Setting<'_>,
    statuses: Vec<Status>,
) -> Result<PlayCourse, AllocError>
    requires all { length statuses.items ≡ length setting.now.fleet.now.hosts }
    requires targeted { setting.now.targeted ≡ length (targets setting.now.fleet.now setting.now.play.now) }
    ensures { IfOk result (IsWholeCourse (setting_of setting.now) statuses.items) }
{
    let mut boundaries = Vec::new(alloc);
    let mut standing = Standing {
        statuses,
        before: None,
    };
    loop {
        match move_on(alloc, setting, &mut boundaries, standing)? {
            Turn::Behind(next) => standing = next,
            Turn::Ended(end) => return Ok(PlayCourse { boundaries, end }),
        }
    }
}
