//! The line that asks for something, where clap found the same.
ghost use Rattle.std.specs.Prelude.{◌≡◌, ◌↔◌, None, Some, IsTrue, IfOk, IfErr, string_bytes};
ghost use Rattle.std.specs.Option.{option_map};
ghost use Rattle.clap.specs.Words.{subcommand_rows_of};
ghost use Rattle.command_line.specs.Answers.{AreFiles, AreThree, AsksFor, Finds, IsFile, IsFound, IsUnmade};
ghost use Rattle.command_line.specs.Asked as spec;
ghost use Rattle.command_line.specs.Asked.{asked_as};

use crate::command::{Line, Source};
use crate::fault::LineFault;
use crate::forks::Forks;
use crate::found;
use crate::parsed_command::ParsedCommand;
use clap::ArgMatches;
use std::alloc::{AllocError, Global};

/// The line that asks for this, where clap found it too.
pub(crate) fn line_for(
    alloc: Global,
    asked: ParsedCommand<'_>,
    matches: &ArgMatches<'_>,
) -> Result<Line, LineFault>
    ensures ok { IfOk result (AsksFor (asked_as asked.entry)) }
    ensures err { IfErr result (IsUnmade (Finds (asked_as asked.entry) (subcommand_rows_of matches.now))) }
{
    match asked {
        ParsedCommand::Limits(inventory) => limits_line(alloc, inventory, matches),
        ParsedCommand::Plan(inventory, playbook) => plan_line(alloc, inventory, playbook, matches),
        ParsedCommand::Run(inventory, playbook, forks) => {
            run_line(alloc, inventory, playbook, forks, matches)
        }
        ParsedCommand::Rehearse(inventory, playbook) => rehearse_line(
            alloc, inventory, playbook, matches,
        ),
        ParsedCommand::State(inventory, journal) => state_line(alloc, inventory, journal, matches),
        ParsedCommand::Check(inventory, playbook, plan) => {
            check_line(alloc, inventory, playbook, plan, matches)
        }
        ParsedCommand::Lint(inventory) => lint_line(alloc, inventory, matches),
        ParsedCommand::LintBoth(inventory, playbook) => lint_both_line(
            alloc, inventory, playbook, matches,
        ),
        ParsedCommand::Explain(word) => explain_line(alloc, word, matches),
    }
}

fn limits_line(alloc: Global, inventory: &str, matches: &ArgMatches<'_>) -> Result<Line, LineFault>
    ensures ok { IfOk result (AsksFor (spec.limits inventory.now)) }
    ensures err { IfErr result (IsUnmade (Finds (spec.limits inventory.now) (subcommand_rows_of matches.now))) }
{
    match found_file(alloc, inventory, found::limits_inventory(matches)) {
        Ok(inventory) => Ok(Line::Limits { inventory }),
        Err(fault) => Err(fault),
    }
}

fn plan_line(
    alloc: Global,
    inventory: &str,
    playbook: &str,
    matches: &ArgMatches<'_>,
) -> Result<Line, LineFault>
    ensures ok { IfOk result (AsksFor (spec.plan (inventory.now, playbook.now))) }
    ensures err { IfErr result (IsUnmade (Finds (spec.plan (inventory.now, playbook.now)) (subcommand_rows_of matches.now))) }
{
    let found = (
        found::plan_inventory(matches),
        found::plan_playbook(matches),
    );
    match found_files(alloc, (inventory, playbook), found) {
        Ok((inventory, playbook)) => Ok(Line::Plan {
            inventory,
            playbook,
        }),
        Err(fault) => Err(fault),
    }
}

fn rehearse_line(
    alloc: Global,
    inventory: &str,
    playbook: &str,
    matches: &ArgMatches<'_>,
) -> Result<Line, LineFault>
    ensures ok { IfOk result (AsksFor (spec.rehearse (inventory.now, playbook.now))) }
    ensures err { IfErr result (IsUnmade (Finds (spec.rehearse (inventory.now, playbook.now)) (subcommand_rows_of matches.now))) }
{
    let found = (
        found::rehearse_inventory(matches),
        found::rehearse_playbook(matches),
    );
    match found_files(alloc, (inventory, playbook), found) {
        Ok((inventory, playbook)) => Ok(Line::Rehearse {
            inventory,
            playbook,
        }),
        Err(fault) => Err(fault),
    }
}

fn state_line(
    alloc: Global,
    inventory: &str,
    journal: &str,
    matches: &ArgMatches<'_>,
) -> Result<Line, LineFault>
    ensures ok { IfOk result (AsksFor (spec.state (inventory.now, journal.now))) }
    ensures err { IfErr result (IsUnmade (Finds (spec.state (inventory.now, journal.now)) (subcommand_rows_of matches.now))) }
{
    let found = (
        found::state_inventory(matches),
        found::state_journal(matches),
    );
    match found_files(alloc, (inventory, journal), found) {
        Ok((inventory, journal)) => Ok(Line::State { inventory, journal }),
        Err(fault) => Err(fault),
    }
}

fn check_line(
    alloc: Global,
    inventory: &str,
    playbook: &str,
    plan: &str,
    matches: &ArgMatches<'_>,
) -> Result<Line, LineFault>
    ensures ok { IfOk result (AsksFor (spec.check (inventory.now, playbook.now, plan.now))) }
    ensures err { IfErr result (IsUnmade (Finds (spec.check (inventory.now, playbook.now, plan.now)) (subcommand_rows_of matches.now))) }
{
    let found = (
        found::check_inventory(matches),
        found::check_playbook(matches),
        found::check_plan(matches),
    );
    match found_three(alloc, (inventory, playbook, plan), found) {
        Ok((inventory, playbook, plan)) => Ok(Line::Check {
            inventory,
            playbook,
            plan,
        }),
        Err(fault) => Err(fault),
    }
}

/// The line of `lint` without a playbook, where clap found none.
fn lint_line(alloc: Global, inventory: &str, matches: &ArgMatches<'_>) -> Result<Line, LineFault>
    ensures ok { IfOk result (AsksFor (spec.lint inventory.now None)) }
    ensures err { IfErr result (IsUnmade (Finds (spec.lint inventory.now None) (subcommand_rows_of matches.now))) }
{
    if found::lint_playbook(matches).is_some() {
        return Err(LineFault::Unexplained);
    }
    match found_file(alloc, inventory, found::lint_inventory(matches)) {
        Ok(inventory) => Ok(Line::Lint {
            inventory,
            playbook: None,
        }),
        Err(fault) => Err(fault),
    }
}

fn lint_both_line(
    alloc: Global,
    inventory: &str,
    playbook: &str,
    matches: &ArgMatches<'_>,
) -> Result<Line, LineFault>
    ensures ok { IfOk result (AsksFor (spec.lint inventory.now (Some playbook.now))) }
    ensures err { IfErr result (IsUnmade (Finds (spec.lint inventory.now (Some playbook.now)) (subcommand_rows_of matches.now))) }
{
    let found = (
        found::lint_inventory(matches),
        found::lint_playbook(matches),
    );
    match found_files(alloc, (inventory, playbook), found) {
        Ok((inventory, playbook)) => Ok(Line::Lint {
            inventory,
            playbook: Some(playbook),
        }),
        Err(fault) => Err(fault),
    }
}

fn explain_line(alloc: Global, word: &str, matches: &ArgMatches<'_>) -> Result<Line, LineFault>
    ensures ok { IfOk result (AsksFor (spec.explain word.now)) }
    ensures err { IfErr result (IsUnmade (Finds (spec.explain word.now) (subcommand_rows_of matches.now))) }
{
    if !is_found(word, found::explain_word(matches)) {
        return Err(LineFault::Unexplained);
    }
    match String::from_str(alloc, word) {
        Ok(word) => Ok(Line::Explain { word }),
        Err(_) => Err(LineFault::Memory),
    }
}

/// The line of the command `run`, where clap found the same forks too.
fn run_line(
    alloc: Global,
    inventory: &str,
    playbook: &str,
    forks: Forks,
    matches: &ArgMatches<'_>,
) -> Result<Line, LineFault>
    ensures ok { IfOk result (AsksFor (spec.run (inventory.now, playbook.now, forks))) }
    ensures err { IfErr result (IsUnmade (Finds (spec.run (inventory.now, playbook.now, forks)) (subcommand_rows_of matches.now))) }
{
    let found = (found::run_inventory(matches), found::run_playbook(matches));
    if !are_found(&forks, &found::run_forks(matches)) {
        return Err(LineFault::Unexplained);
    }
    match found_files(alloc, (inventory, playbook), found) {
        Ok((inventory, playbook)) => Ok(Line::Run {
            inventory,
            playbook,
            forks,
        }),
        Err(fault) => Err(fault),
    }
}

/// The file, where clap found it.
fn found_file(alloc: Global, name: &str, found: Option<&str>) -> Result<Source, LineFault>
    ensures ok { IfOk result (IsFile name.now) }
    ensures err { IfErr result (IsUnmade (option_map (λ s. s.now) found.entry ≡ Some name.now)) }
{
    if !is_found(name, found) {
        return Err(LineFault::Unexplained);
    }
    match file(alloc, name) {
        Ok(file) => Ok(file),
        Err(_) => Err(LineFault::Memory),
    }
}

/// The two files, where clap found both.
fn found_files(
    alloc: Global,
    files: (&str, &str),
    found: (Option<&str>, Option<&str>),
) -> Result<(Source, Source), LineFault>
    ensures ok { IfOk result (AreFiles (files.entry.0.now, files.entry.1.now)) }
    ensures err { IfErr result (IsUnmade
        (IsFound (files.entry.0.now, files.entry.1.now) (option_map (λ s. s.now) found.entry.0) (option_map (λ s. s.now) found.entry.1))) }
{
    let first = match found_file(alloc, files.0, found.0) {
        Ok(file) => file,
        Err(fault) => return Err(fault),
    };
    match found_file(alloc, files.1, found.1) {
        Ok(second) => Ok((first, second)),
        Err(fault) => {
            drop(first);
            Err(fault)
        }
    }
}

/// The three files, where clap found all.
fn found_three(
    alloc: Global,
    files: (&str, &str, &str),
    found: (Option<&str>, Option<&str>, Option<&str>),
) -> Result<(Source, Source, Source), LineFault>
    ensures ok { IfOk result (AreThree (files.entry.0.now, files.entry.1.now, files.entry.2.now)) }
    ensures err { IfErr result (IsUnmade
        (IsFound (files.entry.0.now, files.entry.1.now) (option_map (λ s. s.now) found.entry.0) (option_map (λ s. s.now) found.entry.1)
        × (option_map (λ s. s.now) found.entry.2 ≡ Some files.entry.2.now))) }
{
    let (first, second) = match found_files(alloc, (files.0, files.1), (found.0, found.1)) {
        Ok(files) => files,
        Err(fault) => return Err(fault),
    };
    match found_file(alloc, files.2, found.2) {
        Ok(third) => Ok((first, second, third)),
        Err(fault) => {
            drop(first);
            drop(second);
            Err(fault)
        }
    }
}

/// Whether clap found these forks.
fn are_found(wanted: &Forks, found: &Option<Forks>) -> bool
    ensures { IsTrue result ↔ (found.now ≡ Some wanted.now) }
{
    match found {
        Some(found) => found.number() == wanted.number(),
        None => false,
    }
}

/// Whether clap found this word.
fn is_found(wanted: &str, found: Option<&str>) -> bool
    ensures { IsTrue result ↔ (option_map (λ s. s.now) found.entry ≡ Some wanted.now) }
{
    match found {
        Some(found) => found == wanted,
        None => false,
    }
}

fn file(alloc: Global, name: &str) -> Result<Source, AllocError>
    ensures { IfOk result (IsFile name.now) }
{
    Ok(Source::File(String::from_str(alloc, name)?))
}
