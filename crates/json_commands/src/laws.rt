//! What holds of the objects that are written of texts, whoever writes them.
ghost use Rattle.json_commands.specs.Laws.{OneCourseJson, OnePlanJson};

/// What is written of a plan is one function of the bytes of the inventory and the playbook.
pub fn one_plan_json()
    ensures { OnePlanJson }
{}

/// What is written of courses is one function of those bytes and of the names of failing hosts.
pub fn one_course_json()
    ensures { OneCourseJson }
{}
