//! What the help says of options.

use crate::option_name::OptionName;

/// A command whose help lists options.
#[derive(Clone, Copy, Debug)]
pub(crate) enum CommandName {
    Limits,
    Plan,
    Run,
    Rehearse,
    State,
    Lint,
}

const UP: &str = "With --from, count these hosts and groups as up (comma-separated)";

const CHANGED_INPUTS: &str = "With --from, accept inputs that changed since the run started";

const VERBOSE: &str = "Add a hint to errors (default on a terminal)";

impl OptionName {
    /// The placeholder of its value.
    pub(crate) fn value_name<'a>(self) -> &'a str {
        match self {
            OptionName::Color => "WHEN",
            OptionName::Failing | OptionName::Up => "HOSTS",
            OptionName::Expect => "LIST",
            OptionName::Allow => "NAMES",
            OptionName::From | OptionName::Resume => "JOURNAL",
            _ => "FILE",
        }
    }

    /// What it makes this command do, which has it.
    pub(crate) fn help<'a>(self, owner: CommandName) -> &'a str {
        match owner {
            CommandName::Limits => self.help_of_limits(),
            CommandName::Plan => self.help_of_plan(),
            CommandName::Run => self.help_of_run(),
            CommandName::Rehearse => self.help_of_rehearse(),
            CommandName::State => self.help_of_state(),
            CommandName::Lint => self.help_of_lint(),
        }
    }

    fn help_of_limits<'a>(self) -> &'a str {
        match self {
            OptionName::Expect => {
                "Exit 1 unless the numbers match LIST: NAME=N or NAME<=N, comma-separated"
            }
            OptionName::From => "Count hosts as down by this run's journal",
            OptionName::Up => UP,
            OptionName::ChangedInputs => {
                "With --from, accept an inventory that changed since the run started"
            }
            OptionName::Json => "Print the table, and any error, as JSON",
            OptionName::Verbose => VERBOSE,
            _ => "",
        }
    }

    fn help_of_plan<'a>(self) -> &'a str {
        match self {
            OptionName::Commands => {
                "Print the command each step would run on each host, instead of the plan"
            }
            OptionName::Expect => "Exit 1 unless the plan matches LIST: batches=N or batches<=N",
            OptionName::From => "Plan what `run --resume JOURNAL` would do",
            OptionName::Up => UP,
            OptionName::ChangedInputs => CHANGED_INPUTS,
            OptionName::Json => "Print the plan, and any error, as JSON",
            OptionName::Verbose => {
                "Name skipped hosts, and add a hint to errors (default on a terminal)"
            }
            other => other.help_of_forecasts(),
        }
    }

    /// What the options of `plan` print or draw that look beyond the first batch.
    fn help_of_forecasts<'a>(self) -> &'a str {
        match self {
            OptionName::Forecast => "Forecast a whole run, play by play, if no host fails",
            OptionName::Failing => {
                "With --forecast, fail these hosts and groups at their first step (comma-separated)"
            }
            OptionName::Groups => {
                "Also show how many hosts of each limited group are down in each batch"
            }
            OptionName::Color => "Color groups at their limit: auto (default), always or never",
            OptionName::Picture => "Draw the forecast as SVG into FILE",
            _ => "",
        }
    }

    fn help_of_run<'a>(self) -> &'a str {
        match self {
            OptionName::Verbose => "Report every batch and step on standard error",
            OptionName::Quiet => "Show no progress, even on a terminal (-v overrides)",
            OptionName::StopFile => "Stop before the next batch once FILE exists",
            OptionName::Journal => {
                "Record each host's state in a new FILE, before and after each batch"
            }
            OptionName::Resume => "Continue the run recorded in JOURNAL, and append to it",
            OptionName::Up => {
                "Count these hosts and groups as up, despite inventory or journal (comma-separated)"
            }
            OptionName::ChangedInputs => {
                "With --resume, accept inputs that changed since the run started"
            }
            OptionName::LockFile => {
                "Lock FILE, made if missing, instead of the inventory, to keep out a second run"
            }
            OptionName::NoLock => "Lock nothing: a second run of the inventory isn't kept out",
            OptionName::Strict => "Run nothing if a step might read an undefined name",
            OptionName::Json => "Print the recap, and any error, as JSON",
            _ => "",
        }
    }

    fn help_of_rehearse<'a>(self) -> &'a str {
        match self {
            OptionName::Strict => "Exit 1 if a command was refused",
            OptionName::From => "Start where `run --resume JOURNAL` would continue",
            OptionName::Up => UP,
            OptionName::ChangedInputs => CHANGED_INPUTS,
            OptionName::Json => "Print each answer, and any error, as JSON",
            OptionName::Verbose => VERBOSE,
            _ => "",
        }
    }

    fn help_of_state<'a>(self) -> &'a str {
        match self {
            OptionName::ChangedInputs => "Accept an inventory that changed since the run started",
            _ => "",
        }
    }

    fn help_of_lint<'a>(self) -> &'a str {
        match self {
            OptionName::Allow => "Suppress these lint rules (comma-separated)",
            _ => "",
        }
    }
}
