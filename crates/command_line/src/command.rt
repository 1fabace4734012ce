//! What a line of words asks for.

use crate::forks::Forks;
use crate::message::Message;

/// What the program is asked to do, with the files that it reads.
#[derive(Debug, Drop)]
pub enum Line {
    /// Prints the groups that limit how many of their hosts may be down.
    Limits {
        inventory: Source,
    },
    /// Prints the plan of the playbook's first play.
    Plan {
        inventory: Source,
        playbook: Source,
    },
    /// Updates the hosts of the playbook's plays, so many at once, and prints what came of them.
    Run {
        inventory: Source,
        playbook: Source,
        forks: Forks,
    },
    /// Rehearses the playbook's first play: answers commands on standard input.
    Rehearse {
        inventory: Source,
        playbook: Source,
    },
    /// Prints where a run stands, by its journal.
    State {
        inventory: Source,
        journal: Source,
    },
    /// Tells whether a text says a plan with which the playbook's first play begins.
    Check {
        inventory: Source,
        playbook: Source,
        plan: Source,
    },
    /// Prints all faults of an inventory and a playbook, or where there is none what is probably not meant.
    Lint {
        inventory: Source,
        playbook: Option<Source>,
    },
    /// Prints what the fault means whose number is written so, or the kind of notes that has this name, and what to do.
    Explain {
        word: String,
    },
    /// Prints this text: the help or the version.
    Print(Message),
}

/// Where an input comes from.
#[derive(Debug, Drop)]
pub enum Source {
    StandardInput,
    /// The file of this name; `-` is a file's name like others.
    File(String),
}
