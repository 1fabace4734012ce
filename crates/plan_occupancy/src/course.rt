//! From the bytes of an inventory and a playbook to the text of the course, with the groups of each play.
ghost use Rattle.std.specs.Prelude.{◌<◌, ◌^◌, ◌++◌, All, IfErr, IfOk, map};
ghost use Rattle.std.specs.List.{sum_by};
ghost use Rattle.bounded_io.specs.Sending.{SendsText};
ghost use Rattle.bounded_io.specs.Writing.{Writes};
ghost use Rattle.rehearse.specs.CourseSteps.{course_of};
ghost use Rattle.rehearse.specs.CourseTexts.{batches_opened, course_lines, numbered};
ghost use Rattle.recap.specs.RecapText.{text_by_place};
ghost use Rattle.plan_occupancy.specs.Surveys.{course_outlook, survey_text};
ghost use Rattle.plan_occupancy.specs.Inside.{AreSurveysOf, IsSurveyOf, IsWalked};
ghost use Rattle.plan_occupancy.specs.CourseSurveys.{IsTrueCourseFaultBeside, WritesSurveyedCourse, surveyed_lines, surveyed_text};

use crate::manner::Manner;
use crate::occupancy_report::{OccupancyReport, survey_course};
use crate::writing::write_survey;
use bounded_io::{TextWriter, WriteFault};
use domains::{Fleet, PatternFault};
use occupancy_table::ColorMode;
use plan_command::{PlanFault, read_fleet, read_known_plays};
use recap::write_field;
use rehearse::{CourseEnd, PlayCourse, count_batches, foresee, last_end, write_course};
use std::alloc::{AllocError, Global};
use std::io::Write;

/// What is told of the groups of each of these courses. Only want of memory refuses it.
fn survey_all(
    alloc: Global,
    fleet: &Fleet,
    courses: &[PlayCourse],
) -> Result<Vec<OccupancyReport>, AllocError>
    requires walked { All (IsWalked fleet.now) courses.now }
    ensures { IfOk result (λ surveys. AreSurveysOf fleet.now courses.now surveys.items) }
{
    let mut surveys = Vec::new(alloc);
    for course in courses {
        surveys.push(survey_course(alloc, fleet, course)?)?;
    }
    Ok(surveys)
}

/// Writes a course, and what is told of its groups.
fn write_one<W: Write>(
    text: &mut TextWriter<'_, W>,
    fleet: &Fleet,
    manner: Manner,
    number: u64,
    course: &PlayCourse,
    survey: &OccupancyReport,
)
    requires told { IsSurveyOf fleet.now (course_outlook (course_of course.now)) survey.now }
    ensures { Writes W.contents text.old text.new
        (numbered manner.several number (course_lines fleet.now (course_of course.now)) ++ survey_text manner.paint fleet.now (course_outlook (course_of course.now))) }
{
    write_course(text, fleet, manner.several, number, course);
    write_survey(text, fleet, manner.paint, survey);
}

fn write_each<W: Write>(
    text: &mut TextWriter<'_, W>,
    fleet: &Fleet,
    manner: Manner,
    courses: &[PlayCourse],
    surveys: &[OccupancyReport],
)
    requires told { AreSurveysOf fleet.now courses.now surveys.now }
    ensures { Writes W.contents text.old text.new (text_by_place (surveyed_lines manner.paint fleet.now manner.several) 0 (map course_of courses.now)) }
{
    for place in 0..courses.len() {
        write_one(
            text,
            fleet,
            manner,
            place as u64 + 1,
            &courses[place],
            &surveys[place],
        );
    }
}

#[tactic(auto, using(bounded_io::proofs::Pieces::pieces_of_text))]
fn write_all<W: Write>(
    text: &mut TextWriter<'_, W>,
    fleet: &Fleet,
    manner: Manner,
    courses: &[PlayCourse],
    surveys: &[OccupancyReport],
)
    requires few { sum_by batches_opened (map course_of courses.now) < 2 ^ 64 }
    requires told { AreSurveysOf fleet.now courses.now surveys.now }
    ensures { Writes W.contents text.old text.new (surveyed_text manner.paint fleet.now manner.several (map course_of courses.now)) }
{
    write_each(text, fleet, manner, courses, surveys);
    write_field(text, "batches=", count_batches(courses));
    text.write_str("\n");
}

/// Sends the courses with their groups. It takes no memory.
fn send_courses<W: Write>(
    fleet: &Fleet,
    manner: Manner,
    courses: &[PlayCourse],
    surveys: &[OccupancyReport],
    out: &mut W,
) -> Result<(), WriteFault>
    requires few { sum_by batches_opened (map course_of courses.now) < 2 ^ 64 }
    requires told { AreSurveysOf fleet.now courses.now surveys.now }
    ensures { SendsText (W.contents out.old) (W.contents out.new) (surveyed_text manner.paint fleet.now manner.several (map course_of courses.now)) result }
{
    let mut text = TextWriter::new(out);
    write_all(&mut text, fleet, manner, courses, surveys);
    text.finish()
}

/// Writes what a run of the plays of a playbook on the fleet of an inventory would open to its end, where just the hosts that `failing` names fail, as `course_text` does, and
/// below each play how many hosts of each limited group are down while each batch runs, who is down at the play's beginning, and which group holds whom that was set aside. The
/// cells of full groups are coloured where the paint says so. Nothing goes out before all was accepted: the faults are told as the course alone tells them. Where a write
/// fails, exactly the first bytes of the text went out, as many as the fault says. Writing takes no memory.
pub fn surveyed_course<W: Write>(
    alloc: Global,
    inventory: &[u8],
    playbook: &[u8],
    failing: &str,
    paint: ColorMode,
    out: &mut W,
) -> Result<CourseEnd, PlanFault>
    ensures ok { IfOk result (WritesSurveyedCourse inventory.now playbook.now failing.now paint (W.contents out.old) (W.contents out.new)) }
    ensures err { IfErr result (IsTrueCourseFaultBeside inventory.now playbook.now failing.now paint (W.contents out.old) (W.contents out.new)) }
{
    let fleet = match read_fleet(alloc, inventory) {
        Ok(fleet) => fleet,
        Err(fault) => return Err(fault),
    };
    let plays = match read_known_plays(alloc, &fleet, playbook) {
        Ok(plays) => plays,
        Err(fault) => return Err(fault),
    };
    let courses = match foresee(alloc, &fleet, plays.as_slice(), failing) {
        Ok(courses) => courses,
        Err(fault) => return Err(PlanFault::Pattern(fault)),
    };
    let courses = courses.as_slice();
    let surveys = match survey_all(alloc, &fleet, courses) {
        Ok(surveys) => surveys,
        Err(_refused) => return Err(PlanFault::Pattern(PatternFault::Memory)),
    };
    let manner = Manner {
        several: plays.len() > 1,
        paint,
    };
    match send_courses(&fleet, manner, courses, surveys.as_slice(), out) {
        Ok(()) => Ok(last_end(courses)),
        Err(fault) => Err(PlanFault::Write(fault)),
    }
}
