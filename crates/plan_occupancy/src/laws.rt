//! What holds of every table that is told, and of the texts that tell it.
ghost use Rattle.plan_occupancy.specs.Laws.{ColoursChangeNoCourse, ColoursChangeNoPlan, CoursesStayWithin, OneSurveyedCourse, OneSurveyedPlan, PlansStayWithin};

/// In no column of a plan's table is a group over its limit.
pub fn plans_stay_within_limits()
    ensures { PlansStayWithin }
{}

/// Nor in one of a course's tables, whoever fails in it.
pub fn courses_stay_within_limits()
    ensures { CoursesStayWithin }
{}

/// What is written of a plan with its groups is one function of the bytes of the inventory and the playbook, and of the paint.
pub fn one_surveyed_plan()
    ensures { OneSurveyedPlan }
{}

/// What is written of a course with its groups is one function of those bytes, of the names of failing hosts and of the paint.
pub fn one_surveyed_course()
    ensures { OneSurveyedCourse }
{}

/// A terminal shows of a coloured plan what the plain one is.
pub fn colours_change_no_plan()
    ensures { ColoursChangeNoPlan }
{}

/// And of a coloured course.
pub fn colours_change_no_course()
    ensures { ColoursChangeNoCourse }
{}
