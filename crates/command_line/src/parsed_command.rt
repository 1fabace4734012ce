//! What the words of a line ask for.
ghost use Rattle.std.specs.Prelude.{◌≡◌, map, string_bytes};
ghost use Rattle.std.specs.Option.{option_map};
ghost use Rattle.command_line.specs.Asked as spec;
ghost use Rattle.command_line.specs.Asked.{asked_as};
ghost use Rattle.command_line.specs.Operands as operands;
ghost use Rattle.command_line.specs.Runs.{run_of, without_option};

use crate::forks::Forks;
use crate::run_words;
use crate::words::{is_word, lone_operand, three_operands, two_operands};

/// A command with the names of its files, lent by the words; what is explained is a word as it is written, a number or the name of a kind.
#[derive(Drop)]
pub(crate) enum ParsedCommand<'w> {
    Limits(&'w str),
    Plan(&'w str, &'w str),
    Run(&'w str, &'w str, Forks),
    Rehearse(&'w str, &'w str),
    State(&'w str, &'w str),
    Check(&'w str, &'w str, &'w str),
    Lint(&'w str),
    LintBoth(&'w str, &'w str),
    Explain(&'w str),
}

/// What the words ask for, the program's own name left out.
pub(crate) fn asked_by(words: &[String]) -> Option<ParsedCommand<'_>>
    ensures { option_map asked_as result ≡ spec.asked_by (map string_bytes words.now) }
{
    match words {
        [command, rest @ ..] => asked_of(command, rest),
        [] => None,
    }
}

fn asked_of<'w>(command: &String, words: &'w [String]) -> Option<ParsedCommand<'w>>
    ensures { option_map asked_as result ≡ spec.asked_of (string_bytes command.now) (map string_bytes words.now) }
{
    if is_word(command, "limits") {
        limits_of(words)
    } else if is_word(command, "plan") {
        plan_of(words)
    } else if is_word(command, "run") {
        run_of(words)
    } else if is_word(command, "rehearse") {
        rehearse_of(words)
    } else if is_word(command, "state") {
        state_of(words)
    } else if is_word(command, "check") {
        check_of(words)
    } else if is_word(command, "lint") {
        lint_of(words)
    } else if is_word(command, "explain") {
        explain_of(words)
    } else {
        None
    }
}

fn limits_of(words: &[String]) -> Option<ParsedCommand<'_>>
    ensures { option_map asked_as result ≡ option_map spec.limits (operands.lone_operand (map string_bytes words.now)) }
{
    let inventory = lone_operand(words)?;
    Some(ParsedCommand::Limits(inventory))
}

fn plan_of(words: &[String]) -> Option<ParsedCommand<'_>>
    ensures { option_map asked_as result ≡ option_map spec.plan (operands.two_operands (map string_bytes words.now)) }
{
    let (inventory, playbook) = two_operands(words)?;
    Some(ParsedCommand::Plan(inventory, playbook))
}

fn run_of(words: &[String]) -> Option<ParsedCommand<'_>>
    ensures { option_map asked_as result ≡ option_map spec.run (run_of (without_option (map string_bytes words.now))) }
{
    let (inventory, playbook, forks) = run_words::run_of(words)?;
    Some(ParsedCommand::Run(inventory, playbook, forks))
}

fn rehearse_of(words: &[String]) -> Option<ParsedCommand<'_>>
    ensures { option_map asked_as result ≡ option_map spec.rehearse (operands.two_operands (map string_bytes words.now)) }
{
    let (inventory, playbook) = two_operands(words)?;
    Some(ParsedCommand::Rehearse(inventory, playbook))
}

fn state_of(words: &[String]) -> Option<ParsedCommand<'_>>
    ensures { option_map asked_as result ≡ option_map spec.state (operands.two_operands (map string_bytes words.now)) }
{
    let (inventory, journal) = two_operands(words)?;
    Some(ParsedCommand::State(inventory, journal))
}

fn check_of(words: &[String]) -> Option<ParsedCommand<'_>>
    ensures { option_map asked_as result ≡ option_map spec.check (operands.three_operands (map string_bytes words.now)) }
{
    let (inventory, playbook, plan) = three_operands(words)?;
    Some(ParsedCommand::Check(inventory, playbook, plan))
}

/// An inventory alone, or with a playbook.
fn lint_of(words: &[String]) -> Option<ParsedCommand<'_>>
    ensures { option_map asked_as result ≡ spec.lint_of (map string_bytes words.now) }
{
    if let Some(inventory) = lone_operand(words) {
        return Some(ParsedCommand::Lint(inventory));
    }
    let (inventory, playbook) = two_operands(words)?;
    Some(ParsedCommand::LintBoth(inventory, playbook))
}

fn explain_of(words: &[String]) -> Option<ParsedCommand<'_>>
    ensures { option_map asked_as result ≡ option_map spec.explain (operands.lone_operand (map string_bytes words.now)) }
{
    let word = lone_operand(words)?;
    Some(ParsedCommand::Explain(word))
}
