//! The picture that a plan is asked for.
ghost use Rattle.std.specs.Prelude.{◌≡◌, Err, IfErr, IfOk, length, map};
ghost use Rattle.std.specs.Result.{ForErr};
ghost use Rattle.bounded_io.specs.Sending.{SendsText};
ghost use Rattle.domains.specs.Ids.{group_numbers};
ghost use Rattle.batch_plan.specs.Counts.{limited_groups};
ghost use Rattle.forecast_svg.specs.PictureText.{picture_of_plays, picture_text};
ghost use Rattle.forecast_svg.specs.Views.{picture_view};
ghost use Rattle.rehearse.specs.CourseSteps.{course_of};
ghost use Rattle.rollout.specs.Pictures.{IsOfPicture, boundaries_of};

use crate::fault::Fault;
use crate::system::System;
use bounded_io::{InputFault, TextWriter, WriteFault};
use command_line::{Options, Source};
use domains::Fleet;
use forecast_svg::{Picture, list_limited, write_picture};
use group_tree::GroupId;
use plan_command::{read_fleet, read_known_plays};
use play_forecast::Boundary;
use rehearse::{PlayCourse, foresee};
use std::alloc::{AllocError, Global};
use std::io::Write;

/// The names of the hosts that fail in the course.
fn failing_of(wishes: &Options) -> &str {
    match &wishes.forecast {
        Some(failing) => failing.as_str(),
        None => "",
    }
}

/// The picture of a plan's course, if one is asked for, and why it could not be drawn.
#[derive(Drop)]
pub struct Drawing<'s, 'w, S> {
    system: &'s S,
    wishes: &'w Options,
    outcome: Result<(), Fault>,
    ghost told: { ForErr outcome IsOfPicture },
}

impl<'s, 'w, S: System> Drawing<'s, 'w, S> {
    pub fn new(system: &'s S, wishes: &'w Options) -> Drawing<'s, 'w, S> {
        Drawing {
            system,
            wishes,
            outcome: Ok(()),
        }
    }

    /// Draws the course of two texts that were accepted, where a file is named.
    pub(crate) fn draw(&mut self, alloc: Global, inventory: &[u8], playbook: &[u8]) {
        if let Some(name) = &self.wishes.picture {
            let failing = failing_of(self.wishes);
            self.outcome = draw(
                self.system,
                alloc,
                name.as_str(),
                failing,
                inventory,
                playbook,
            );
        }
    }

    /// Whether nothing was to be drawn, or it was; or why it wasn't.
    pub fn outcome(self) -> Result<(), Fault>
        ensures { IfErr result IsOfPicture }
    {
        self.outcome
    }
}

/// The boundaries of each course.
fn list_boundaries(alloc: Global, courses: &[PlayCourse]) -> Result<Vec<&[Boundary]>, AllocError>
    ensures { IfOk result (λ lists. map (λ boundaries. boundaries.now) lists.items ≡ map boundaries_of courses.now) }
{
    let mut lists = Vec::with_capacity(alloc, courses.len())?;
    for course in courses {
        lists.push(course.boundaries.as_slice())?;
    }
    Ok(lists)
}

/// Sends a picture. It takes no memory.
fn send<W: Write>(picture: &Picture<'_>, out: &mut W) -> Result<(), WriteFault>
    ensures { SendsText (W.contents out.old) (W.contents out.new) (picture_text (picture_view picture.now)) result }
{
    let mut text = TextWriter::new(out);
    write_picture(&mut text, picture);
    text.finish()
}

/// Sends the picture of these courses on the fleet, whose limited groups these are. It takes no memory.
fn send_picture<W: Write>(
    fleet: &Fleet,
    groups: &[GroupId],
    courses: &[&[Boundary]],
    out: &mut W,
) -> Result<(), WriteFault>
    requires limited { group_numbers groups.now ≡ limited_groups fleet.now }
    ensures { SendsText (W.contents out.old) (W.contents out.new) (picture_text (picture_of_plays fleet.now (map (λ boundaries. boundaries.now) courses.now))) result }
{
    let picture = Picture::new(fleet, groups, courses);
    send(&picture, out)
}

/// Writes the picture of the course of two texts into the file of this name.
fn draw<S: System>(
    system: &S,
    alloc: Global,
    name: &str,
    failing: &str,
    inventory: &[u8],
    playbook: &[u8],
) -> Result<(), Fault>
    ensures { IfErr result IsOfPicture }
{
    // Both were accepted once: only memory may be wanting.
    let Ok(fleet) = read_fleet(alloc, inventory) else {
        return Err(Fault::Memory);
    };
    let Ok(plays) = read_known_plays(alloc, &fleet, playbook) else {
        return Err(Fault::Memory);
    };
    let Ok(courses) = foresee(alloc, &fleet, plays.as_slice(), failing) else {
        return Err(Fault::Memory);
    };
    let groups = list_limited(alloc, &fleet)?;
    let lists = list_boundaries(alloc, courses.as_slice())?;
    let Ok(mut file) = system.write_to(name) else {
        let source = Source::File(String::from_str(alloc, name)?);
        let fault = InputFault::File;
        return Err(Fault::Input { source, fault });
    };
    match send_picture(&fleet, groups.as_slice(), lists.as_slice(), &mut file) {
        Ok(()) => Ok(()),
        Err(fault) => Err(Fault::Write(fault)),
    }
}
