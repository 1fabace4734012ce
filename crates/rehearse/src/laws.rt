//! What holds of every session, and of every course.
ghost use Rattle.rehearse.specs.CourseLaws.{OneCourseText};
ghost use Rattle.rehearse.specs.HistoryLaws.{UndoneCommandIsAsBefore, UndoneSessionIsOpening};
ghost use Rattle.rehearse.specs.Laws.{SessionsRehearse};

/// Whatever lines are answered from the opening of two texts on, the rehearsal is one of the first play. So what holds of every rehearsal of a play,
/// as that runs go as they were rehearsed, holds wherever a session comes.
pub fn sessions_rehearse()
    ensures { SessionsRehearse }
{}

/// Whoever undoes a command that led on, be it one batch, several or a mark, stands where it was given.
pub fn an_undone_command_leaves_nothing()
    ensures { UndoneCommandIsAsBefore }
{}

/// Whoever undoes all commands stands where the session began, whatever was done and undone in between.
pub fn undoing_all_leads_back()
    ensures { UndoneSessionIsOpening }
{}

/// What is written of a course is one function of the bytes of the inventory, the playbook and the names of the hosts that fail.
pub fn one_course_text()
    ensures { OneCourseText }
{}
