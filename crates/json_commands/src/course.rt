//! From the bytes of an inventory and a playbook to the courses of the plays, where hosts fail.
ghost use Rattle.std.specs.Prelude.{IfErr, IfOk};
ghost use Rattle.json_commands.specs.CourseTexts.{IsTrueCourseJsonFault, WritesCourseJson};

use crate::courses::send_courses_json;
use plan_command::{PlanFault, read_fleet, read_known_plays};
use rehearse::{CourseEnd, foresee, last_end};
use std::alloc::Global;
use std::io::Write;

/// Writes as one JSON object what a run of the plays of a playbook on the fleet of an inventory would open to its end, each given as the bytes of its
/// text, where just the hosts that `failing` names fail, at their first step: as a pattern does, by their names or by those of groups. Nothing goes out
/// before all was accepted: first the inventory's faults are told, then the playbook's, then the first part of a pattern, of any play, that names nothing,
/// then the first such part of `failing`. Where a write fails, exactly the first bytes of the object went out, as many as the fault says. Writing takes no memory.
#[tactic(auto, using(crate::proofs::JsonLemmas::unread_course))]
pub fn course_json<W: Write>(
    alloc: Global,
    inventory: &[u8],
    playbook: &[u8],
    failing: &str,
    out: &mut W,
) -> Result<CourseEnd, PlanFault>
    ensures ok { IfOk result (WritesCourseJson inventory.now playbook.now failing.now (W.contents out.old) (W.contents out.new)) }
    ensures err { IfErr result (IsTrueCourseJsonFault inventory.now playbook.now failing.now (W.contents out.old) (W.contents out.new)) }
{
    let fleet = match read_fleet(alloc, inventory) {
        Ok(fleet) => fleet,
        Err(fault) => return Err(fault),
    };
    let plays = match read_known_plays(alloc, &fleet, playbook) {
        Ok(plays) => plays,
        Err(fault) => return Err(fault),
    };
    let courses = match foresee(alloc, &fleet, plays.as_slice(), failing) {
        Ok(courses) => courses,
        Err(fault) => return Err(PlanFault::Pattern(fault)),
    };
    match send_courses_json(&fleet, courses.as_slice(), out) {
        Ok(()) => Ok(last_end(courses.as_slice())),
        Err(fault) => Err(PlanFault::Write(fault)),
    }
}
