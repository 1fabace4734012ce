//! Words that don't go together.
ghost use Rattle.std.specs.Prelude.{◌≡◌};
ghost use Rattle.command_line.specs.Clashes as spec;

/// Why the words of a line don't go together.
#[derive(Clone, Copy, Debug)]
pub enum OptionConflict {
    /// Hosts fail in a forecast that isn't requested.
    FailingAlone,
    /// A run that goes on is to be kept in another journal than its own.
    JournalOfResume,
    /// Other inputs than those of no journal.
    ChangedInputsAlone,
    /// Hosts are up by now where no run began before.
    UpAlone,
    /// A table of groups, or a picture, of what a journal leaves.
    GroupsFrom,
    /// A number is expected of more than the start.
    ExpectBeyond,
    /// The commands of the steps, and something else.
    CommandsBeside,
    /// What has no form in JSON.
    NoJson,
    /// Names are looked for where other hosts are up than the inventory has.
    StrictOfOthers,
    /// A word that is no time for colours.
    NoColor,
    /// A word of which nothing is explained: no fault has this number, and no kind of notes this name.
    NoEntry,
}

impl OptionConflict {
    /// What is said of it, in one line.
    pub fn text<'a>(self) -> &'a str
        ensures { result.now ≡ spec.text_of self }
    {
        match self {
            OptionConflict::FailingAlone => "error: --failing goes with --forecast\n",
            OptionConflict::JournalOfResume => {
                "error: --journal doesn't go with --resume: a run that goes on is kept in the journal that --resume names\n"
            }
            OptionConflict::ChangedInputsAlone => {
                "error: --changed-inputs goes with --resume, with --from and with state\n"
            }
            OptionConflict::UpAlone => "error: --up goes with run, and else with --from\n",
            OptionConflict::GroupsFrom => "error: --from doesn't go with --groups and --picture\n",
            OptionConflict::ExpectBeyond => {
                "error: --expect doesn't go with --forecast, --groups, --picture and --from\n"
            }
            OptionConflict::CommandsBeside => {
                "error: --commands doesn't go with --forecast, --groups, --picture, --from and --expect\n"
            }
            OptionConflict::NoJson => {
                "error: --json doesn't go with --groups, --picture, --from, --expect and --commands\n"
            }
            OptionConflict::StrictOfOthers => {
                "error: --strict of a run doesn't go with --resume and --up\n"
            }
            OptionConflict::NoColor => "error: --color has the values auto, always and never\n",
            OptionConflict::NoEntry => {
                "error: explain goes with the number of a fault, as 302, or a kind of notes: repeated-key, near-key, group-down, zero-limit, empty-limit, loose-limit, unfilled-placeholder, no-hosts, unlimited-hosts, local-command, undefined-name, unknown-group, constant-test, idle-step, idle-handler, changed-guard, shell-word, dash-name, down-hosts, one-failure\n"
            }
        }
    }
}
