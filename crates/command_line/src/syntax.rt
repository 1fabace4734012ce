//! The commands and their arguments, as the help shows them.
ghost use Rattle.std.specs.Prelude.{◌≡◌, true, false, IfOk, IfErr, map, string_bytes};
ghost use Rattle.clap.specs.Words.{FailsBy, app_of, fault_of, kind_of, subcommand_of, subcommand_rows_of, takes, with_rule};
ghost use Rattle.clap.specs.declared.builder.command.Command.TheViews.{out-Command as fields_of};
ghost use Rattle.command_line.specs.Syntax as spec;

use crate::arguments;
use crate::arguments::{
    any_playbook, forks, inventory, journal, old_inventory, option, playbook, topic,
};
use crate::option_help::CommandName;
use crate::option_name::OptionName;
use crate::option_rules::{OF_LIMITS, OF_LINT, OF_PLAN, OF_REHEARSAL, OF_RUN, OF_STATE};
use clap::error::ErrorKind;
use clap::{ArgMatches, Command, Error};
use std::alloc::{AllocError, Global};

const NOTES: &str = "\
INV is an inventory and PLAY a playbook, both JSON in Ansible's layout.
Without arguments, rollout reads an inventory from standard input and shows its limits.

Exit status:
  0  success
  1  rejected arguments or input, I/O error, or findings of lint or check
  2  a run finished with failed hosts
  3  waiting hosts have no room
  4  a batch ended the run: too many of its hosts failed, or all
  5  out of memory
  6  the run was stopped or interrupted, or its journal can't be written
  7  the run is still running (state)";

const COMMANDS: &str = "\
Commands on standard input, one per line:
  advance [HOST ..]  finish the next batch; these hosts and the marked ones fail
  next N             finish the next N batches; only marked hosts fail
  finish             finish all batches; only marked hosts fail
  fail HOST          mark a host to fail in its batch
  undo               undo the last advance, next, finish or fail
  plan               print the plan for the hosts still waiting
  show               print each host's state, and how the play ended, if it did
  hosts GROUP        print each host of a group, its state and its batch
  help, quit         list these commands; end the session";

fn rollout<'a>(alloc: Global) -> Result<Command<'a>, AllocError>
    ensures { IfOk result (λ c. app_of c ≡ spec.rollout) }
{
    Command::new(alloc, "rollout")
        .bin_name("rollout")?
        .version("0.2.0")
        .about("Update a fleet in batches, never exceeding a group's limit of down hosts")
        .after_help(NOTES)
        .no_binary_name(true)
        .subcommand_required(true)
        .subcommand(limits(alloc)?)?
        .subcommand(plan(alloc)?)?
        .subcommand(run(alloc)?)?
        .subcommand(rehearse(alloc)?)?
        .subcommand(state(alloc)?)?
        .subcommand(check(alloc)?)?
        .subcommand(lint(alloc)?)?
        .subcommand(explain(alloc)?)
}

/// Adds the option to the command, for its help and for what clap says of a bad line.
fn with_option<'a>(
    alloc: Global,
    command: Command<'a>,
    name: OptionName,
    owner: CommandName,
) -> Result<Command<'a>, AllocError>
    ensures app { IfOk result (λ c. app_of c ≡ with_rule (app_of command.entry) (spec.argument_of name)) }
    ensures local { IfOk result (λ c. (fields_of c).has_globals ≡ (fields_of command.entry).has_globals) }
{
    command.arg(option(alloc, name, owner))
}

/// Adds these options to the command.
fn with_options<'a>(
    alloc: Global,
    command: Command<'a>,
    options: &[OptionName],
    owner: CommandName,
) -> Result<Command<'a>, AllocError>
    ensures app { IfOk result (λ c. app_of c ≡ spec.with_options (app_of command.entry) options.now) }
    ensures local { IfOk result (λ c. (fields_of c).has_globals ≡ (fields_of command.entry).has_globals) }
{
    match options {
        [first, rest @ ..] => {
            let more = with_option(alloc, command, *first, owner)?;
            with_options(alloc, more, rest, owner)
        }
        [] => Ok(command),
    }
}

fn limits<'a>(alloc: Global) -> Result<Command<'a>, AllocError>
    ensures app { IfOk result (λ c. app_of c ≡ spec.limits_command) }
    ensures local { IfOk result (λ c. (fields_of c).has_globals ≡ false) }
{
    let bare = Command::new(alloc, "limits")
        .about("Show each limited group: members, hosts down, limit, room")
        .arg(inventory(alloc))?;
    with_options(alloc, bare, OF_LIMITS, CommandName::Limits)
}

fn plan<'a>(alloc: Global) -> Result<Command<'a>, AllocError>
    ensures app { IfOk result (λ c. app_of c ≡ spec.plan_command) }
    ensures local { IfOk result (λ c. (fields_of c).has_globals ≡ false) }
{
    let bare = Command::new(alloc, "plan")
        .about("Plan the fewest batches for the first play, and say what forces that number")
        .arg(inventory(alloc))?
        .arg(playbook(alloc))?;
    with_options(alloc, bare, OF_PLAN, CommandName::Plan)
}

fn run<'a>(alloc: Global) -> Result<Command<'a>, AllocError>
    ensures app { IfOk result (λ c. app_of c ≡ spec.run_command) }
    ensures local { IfOk result (λ c. (fields_of c).has_globals ≡ false) }
{
    let bare = Command::new(alloc, "run")
        .about("Run the plays batch by batch, then print a recap")
        .arg(inventory(alloc))?
        .arg(playbook(alloc))?
        .arg(forks(alloc))?;
    with_options(alloc, bare, OF_RUN, CommandName::Run)
}

fn rehearse<'a>(alloc: Global) -> Result<Command<'a>, AllocError>
    ensures app { IfOk result (λ c. app_of c ≡ spec.rehearse_command) }
    ensures local { IfOk result (λ c. (fields_of c).has_globals ≡ false) }
{
    let bare = Command::new(alloc, "rehearse")
        .about("Try out failures on the first play, interactively; run nothing")
        .after_help(COMMANDS)
        .arg(inventory(alloc))?
        .arg(playbook(alloc))?;
    with_options(alloc, bare, OF_REHEARSAL, CommandName::Rehearse)
}

fn state<'a>(alloc: Global) -> Result<Command<'a>, AllocError>
    ensures app { IfOk result (λ c. app_of c ≡ spec.state_command) }
    ensures local { IfOk result (λ c. (fields_of c).has_globals ≡ false) }
{
    let bare = Command::new(alloc, "state")
        .about("Show each host's state from a run's journal, and whether the run ended")
        .arg(old_inventory(alloc))?
        .arg(journal(alloc))?;
    with_options(alloc, bare, OF_STATE, CommandName::State)
}

fn check<'a>(alloc: Global) -> Result<Command<'a>, AllocError>
    ensures app { IfOk result (λ c. app_of c ≡ spec.check_command) }
    ensures local { IfOk result (λ c. (fields_of c).has_globals ≡ false) }
{
    Command::new(alloc, "check")
        .about("Check a batch plan written elsewhere")
        .arg(inventory(alloc))?
        .arg(playbook(alloc))?
        .arg(arguments::plan(alloc))
}

fn lint<'a>(alloc: Global) -> Result<Command<'a>, AllocError>
    ensures app { IfOk result (λ c. app_of c ≡ spec.lint_command) }
    ensures local { IfOk result (λ c. (fields_of c).has_globals ≡ false) }
{
    let bare = Command::new(alloc, "lint")
        .about("Report every error and probable mistake in the files")
        .arg(inventory(alloc))?
        .arg(any_playbook(alloc))?;
    with_options(alloc, bare, OF_LINT, CommandName::Lint)
}

fn explain<'a>(alloc: Global) -> Result<Command<'a>, AllocError>
    ensures app { IfOk result (λ c. app_of c ≡ spec.explain_command) }
    ensures local { IfOk result (λ c. (fields_of c).has_globals ≡ false) }
{
    Command::new(alloc, "explain")
        .about("Explain an error number or a lint rule, with an example and a fix")
        .arg(topic(alloc))
}

/// What clap reads of the words.
pub(crate) fn matches<'a>(alloc: Global, words: &'a [String]) -> Result<ArgMatches<'a>, Error>
    ensures ok { IfOk result (λ m.
        subcommand_rows_of m ≡ subcommand_of spec.rollout (map string_bytes words.entry.now)) }
    ensures err { IfErr result (λ e.
        takes spec.rollout (map string_bytes words.entry.now) ≡ true → kind_of e ≡ ErrorKind.OutOfMemory) }
    ensures kinds { FailsBy (fault_of spec.rollout (map string_bytes words.entry.now)) result }
{
    rollout(alloc)?.try_get_matches_from(words)
}
