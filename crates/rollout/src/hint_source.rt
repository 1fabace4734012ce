//! What is said behind the line of a fault to whoever looks at it.
ghost use Rattle.std.specs.Prelude.{◌≡◌, ◌||◌, true, option_map, string_bytes};
ghost use Rattle.command_line.specs.Wishes.{wish_as};
ghost use Rattle.rollout.specs.Endings.{MayHelp};

use crate::advice::{Texts, advice_on};
use crate::fault::Fault;
use crate::holder::holder_of;
use crate::source::read_file;
use crate::status::Status;
use crate::system::System;
use bounded_io::InputFault;
use command_line::command::Line;
use command_line::{Options, Source};
use hints::tell;
use std::alloc::{AllocError, Global};

/// The files that a fault may be of, and whether a line that helps is to stand behind it.
#[derive(Drop)]
pub struct HintSource {
    is_wanted: bool,
    inventory: Option<String>,
    playbook: Option<String>,
    lock_file: Option<String>,
    journal: Option<String>,
}

impl HintSource {
    /// A line helps where somebody looks at what is reported, or more than the line of a fault is asked for.
    pub fn new<S: System>(system: &S, alloc: Global, line: &Line, wishes: &Options) -> HintSource
        ensures asked { result.is_wanted ≡ true → (S.may_watch system.now || (wish_as wishes.now).verbose) ≡ true }
        ensures verbose { (wish_as wishes.now).verbose ≡ true → result.is_wanted ≡ true }
    {
        let is_wanted = is_wanted(system, wishes);
        let (inventory, playbook) = files_of(alloc, line);
        HintSource {
            is_wanted,
            inventory,
            playbook,
            lock_file: copied(alloc, &wishes.lock_file),
            journal: copied(alloc, &wishes.from),
        }
    }

    /// The line that helps, if there is one.
    pub fn help<S: System>(
        &self,
        system: &S,
        alloc: Global,
        outcome: &Result<Status, Fault>,
    ) -> Option<String>
        ensures { MayHelp self.now.is_wanted (option_map string_bytes result) }
    {
        match outcome {
            Err(fault) if self.is_wanted => self.help_with(system, alloc, fault),
            _ => None,
        }
    }

    fn help_with<S: System>(&self, system: &S, alloc: Global, fault: &Fault) -> Option<String>
        ensures { MayHelp true (option_map string_bytes result) }
    {
        match fault {
            Fault::Input {
                source: Source::File(name),
                fault: InputFault::File,
            } => why_unreadable(system, alloc, name.as_str()),
            Fault::Locked => self.who_locks(system, alloc),
            fault if self.has_texts_of(system, fault) => self.advice(system, alloc, fault),
            _ => None,
        }
    }

    /// Which file is locked, and by which process if the system tells it.
    fn who_locks<S: System>(&self, system: &S, alloc: Global) -> Option<String>
        ensures { MayHelp true (option_map string_bytes result) }
    {
        match self.locked(system) {
            Some(name) => who_locks(system, alloc, name),
            None => None,
        }
    }

    /// The name of the file whose lock another holds.
    fn locked<S: System>(&self, system: &S) -> Option<&str> {
        let first = match &self.lock_file {
            Some(_name) => &self.lock_file,
            None => &self.inventory,
        };
        match held_name(system, first) {
            Some(name) => Some(name),
            None => held_name(system, &self.journal),
        }
    }

    /// Whether the texts that the fault is of can be read once more.
    fn has_texts_of<S: System>(&self, system: &S, fault: &Fault) -> bool {
        match fault {
            Fault::Read(_) | Fault::Fleet(_) => is_file(system, &self.inventory),
            Fault::Playbook(_) => is_file(system, &self.playbook),
            Fault::Pattern(_) => {
                is_file(system, &self.inventory) && is_file(system, &self.playbook)
            }
            _ => false,
        }
    }

    /// The files are read once more.
    fn advice<S: System>(&self, system: &S, alloc: Global, fault: &Fault) -> Option<String>
        ensures { MayHelp true (option_map string_bytes result) }
    {
        let inventory = text_of(system, alloc, &self.inventory);
        let playbook = text_of(system, alloc, &self.playbook);
        let faults = std::slice::from_ref(fault);
        match Texts::read(alloc, inventory.as_slice(), playbook.as_slice(), faults) {
            Ok(texts) => advice_on(alloc, fault, &texts),
            Err(_refused) => None,
        }
    }
}

#[tactic(auto, using(crate::proofs::Asking::watched_so))]
pub(crate) fn is_wanted<S: System>(system: &S, wishes: &Options) -> bool
    ensures asked { result ≡ true → (S.may_watch system.now || (wish_as wishes.now).verbose) ≡ true }
    ensures verbose { (wish_as wishes.now).verbose ≡ true → result ≡ true }
{
    wishes.is_verbose || system.is_watched()
}

/// The names of the files of an inventory and a playbook, as far as memory suffices to keep them.
fn files_of(alloc: Global, line: &Line) -> (Option<String>, Option<String>) {
    match line {
        Line::Limits { inventory } | Line::State { inventory, .. } => (
            named(alloc, inventory),
            None,
        ),
        Line::Plan {
            inventory,
            playbook,
        }
        | Line::Rehearse {
            inventory,
            playbook,
        }
        | Line::Run {
            inventory,
            playbook,
            ..
        }
        | Line::Check {
            inventory,
            playbook,
            ..
        } => (named(alloc, inventory), named(alloc, playbook)),
        Line::Lint { .. } | Line::Explain { .. } | Line::Print(_) => (None, None),
    }
}

fn named(alloc: Global, source: &Source) -> Option<String> {
    match source {
        Source::File(name) => String::from_str(alloc, name.as_str()).ok(),
        Source::StandardInput => None,
    }
}

fn copied(alloc: Global, name: &Option<String>) -> Option<String> {
    match name {
        Some(name) => String::from_str(alloc, name.as_str()).ok(),
        None => None,
    }
}

fn is_file<S: System>(system: &S, name: &Option<String>) -> bool {
    match name {
        Some(name) => system.is_file(name.as_str()),
        None => false,
    }
}

/// The name, if another holds the lock of its file.
fn held_name<'n, S: System>(system: &S, name: &'n Option<String>) -> Option<&'n str> {
    match name {
        Some(name) if system.is_held(name.as_str()) => Some(name.as_str()),
        _ => None,
    }
}

/// What the file has now; nothing where it can't be read more than once.
fn text_of<S: System>(system: &S, alloc: Global, name: &Option<String>) -> Vec<u8> {
    match name {
        Some(name) if system.is_file(name.as_str()) => {
            read_file(system, alloc, name.as_str()).unwrap_or(Vec::new(alloc))
        }
        _ => Vec::new(alloc),
    }
}

/// Why the system didn't give the file.
fn why_unreadable<S: System>(system: &S, alloc: Global, name: &str) -> Option<String>
    ensures { MayHelp true (option_map string_bytes result) }
{
    told(alloc, reason(system, name))
}

fn reason<S: System>(system: &S, name: &str) -> &'static str {
    if !system.is_there(name) {
        "there is no file of this name, or a folder on the way to it may not be searched"
    } else if system.is_file(name) {
        "the file is there, and the system doesn't let it be read: look at its permissions"
    } else {
        "this is no file that can be read: a folder, perhaps"
    }
}

/// Which process holds the lock of the file, if the system tells it.
fn who_locks<S: System>(system: &S, alloc: Global, name: &str) -> Option<String>
    ensures { MayHelp true (option_map string_bytes result) }
{
    match holder_line(alloc, holder_of(system, alloc, name), name) {
        Ok(line) => told(alloc, line.as_str()),
        Err(_refused) => None,
    }
}

fn holder_line(alloc: Global, holder: Option<String>, name: &str) -> Result<String, AllocError> {
    let mut line = String::new(alloc);
    match holder {
        Some(process) => {
            line.push_str("process ")?;
            line.push_str(process.as_str())?;
        }
        None => line.push_str("another run")?,
    }
    line.push_str(" holds the lock of ")?;
    line.push_str(name)?;
    line.push_str(": wait for its end")?;
    Ok(line)
}

fn told(alloc: Global, text: &str) -> Option<String>
    ensures { MayHelp true (option_map string_bytes result) }
{
    match tell(alloc, text) {
        Ok(line) => Some(line),
        Err(_refused) => None,
    }
}
