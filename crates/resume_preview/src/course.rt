//! The course of the rest of a run.
ghost use Rattle.std.specs.Prelude.{◌≡◌, ◌≤◌, IfErr, IfOk, drop, length};
ghost use Rattle.journal.specs.Lines.{max_body};
ghost use Rattle.resume_preview.specs.Asked.{question_of};
ghost use Rattle.resume_preview.specs.Courses.{IsTrueOfCourse, WritesCourse};

use crate::asked::Asked;
use crate::fault::OutlookFault;
use play_model::Play;
use rehearse::{CourseEnd, foresee_from, last_end, send_courses};
use resume_state::{Resumption, resume_inputs};
use run_command::Beginning;
use std::alloc::Global;
use std::io::Write;

/// The plays behind so many.
fn behind(plays: &[Play], plays_before: usize) -> &[Play]
    requires { plays_before ≤ length plays.now }
    ensures { result.now ≡ drop plays_before plays.now }
{
    &plays[plays_before..]
}

/// Writes what a run would open to its end that goes on, where just the hosts that `failing` names fail, at their first step: the courses of the play that goes on and of the plays behind
/// it, each under its number in the file where that has several. Nothing goes out before all was accepted: a run that can't go on is refused as it is when it is to go on,
/// and then the first part of `failing` that names nothing is told. Where a write fails, exactly the first bytes of the text went out, as many as the fault says. Writing takes no memory.
pub fn course_from<W: Write>(
    alloc: Global,
    asked: &Asked<'_>,
    failing: &str,
    out: &mut W,
) -> Result<CourseEnd, OutlookFault>
    requires { length asked.now.wish.journal.now ≤ max_body }
    ensures ok { IfOk result (WritesCourse (question_of asked.now) failing.now (W.contents out.old) (W.contents out.new)) }
    ensures err { IfErr result (IsTrueOfCourse (question_of asked.now) failing.now (W.contents out.old) (W.contents out.new)) }
{
    let resumption = match resume_inputs(alloc, asked.inventory, asked.playbook, asked.wish) {
        Ok(resumption) => resumption,
        Err(fault) => return Err(OutlookFault::Resume(fault)),
    };
    let Resumption {
        fleet,
        plays,
        beginning,
        mended: _,
        goes_on: _,
    } = resumption;
    let Beginning {
        plays_before,
        start,
    } = beginning;
    let coming = behind(plays.as_slice(), plays_before);
    let courses = match foresee_from(alloc, &fleet, coming, start.statuses, failing) {
        Ok(courses) => courses,
        Err(fault) => return Err(OutlookFault::Failing(fault)),
    };
    match send_courses(
        &fleet,
        plays.len() > 1,
        plays_before,
        courses.as_slice(),
        out,
    ) {
        Ok(()) => Ok(last_end(courses.as_slice())),
        Err(fault) => Err(OutlookFault::Write(fault)),
    }
}
