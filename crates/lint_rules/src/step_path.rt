//! The position of a step in a playbook.
ghost use Rattle.std.specs.Prelude.{◌≡◌};
ghost use Rattle.lint_rules.specs.Paths.{path_of};

use play_model::Play;

/// A play with its number, from 0.
#[derive(Clone, Copy)]
pub struct Numbered<'p> {
    pub number: usize,
    pub play: &'p Play,
}

/// The numbers of a play and of one of its tasks or handlers, each from 0.
#[derive(Clone, Copy, Debug)]
pub struct StepPath {
    pub play: usize,
    pub is_handler: bool,
    pub place: usize,
}

impl StepPath {
    /// Returns the path of the step at this index; handlers follow the tasks.
    pub fn of(numbered: Numbered<'_>, place: usize) -> StepPath
        ensures { result ≡ path_of numbered.entry.number numbered.entry.play.now place }
    {
        let tasks = numbered.play.tasks();
        if place < tasks {
            StepPath {
                play: numbered.number,
                is_handler: false,
                place,
            }
        } else {
            StepPath {
                play: numbered.number,
                is_handler: true,
                place: place - tasks,
            }
        }
    }
}
