//! The files and the forks that clap found.
ghost use Rattle.std.specs.Prelude.{◌≡◌, codes};
ghost use Rattle.std.specs.Option.{option_map};
ghost use Rattle.clap.specs.Words.{subcommand_rows_of};
ghost use Rattle.command_line.specs.Syntax as spec;

use crate::arguments::{FORKS, INVENTORY, JOURNAL, PLAN, PLAYBOOK, TOPIC};
use crate::forks::Forks;
use clap::ArgMatches;

/// The inventory's file, where the command is `limits`.
pub(crate) fn limits_inventory<'a>(matches: &ArgMatches<'a>) -> Option<&'a str>
    ensures { option_map (λ s. s.now) result ≡ spec.file_in (codes "limits") (codes "INV") (subcommand_rows_of matches.now) }
{
    matches.subcommand_matches("limits")?.get_str(INVENTORY)
}

/// The inventory's file, where the command is `plan`.
pub(crate) fn plan_inventory<'a>(matches: &ArgMatches<'a>) -> Option<&'a str>
    ensures { option_map (λ s. s.now) result ≡ spec.file_in (codes "plan") (codes "INV") (subcommand_rows_of matches.now) }
{
    matches.subcommand_matches("plan")?.get_str(INVENTORY)
}

/// The playbook's file, where the command is `plan`.
pub(crate) fn plan_playbook<'a>(matches: &ArgMatches<'a>) -> Option<&'a str>
    ensures { option_map (λ s. s.now) result ≡ spec.file_in (codes "plan") (codes "PLAY") (subcommand_rows_of matches.now) }
{
    matches.subcommand_matches("plan")?.get_str(PLAYBOOK)
}

/// The inventory's file, where the command is `rehearse`.
pub(crate) fn rehearse_inventory<'a>(matches: &ArgMatches<'a>) -> Option<&'a str>
    ensures { option_map (λ s. s.now) result ≡ spec.file_in (codes "rehearse") (codes "INV") (subcommand_rows_of matches.now) }
{
    matches.subcommand_matches("rehearse")?.get_str(INVENTORY)
}

/// The playbook's file, where the command is `rehearse`.
pub(crate) fn rehearse_playbook<'a>(matches: &ArgMatches<'a>) -> Option<&'a str>
    ensures { option_map (λ s. s.now) result ≡ spec.file_in (codes "rehearse") (codes "PLAY") (subcommand_rows_of matches.now) }
{
    matches.subcommand_matches("rehearse")?.get_str(PLAYBOOK)
}

/// The inventory's file, where the command is `state`.
pub(crate) fn state_inventory<'a>(matches: &ArgMatches<'a>) -> Option<&'a str>
    ensures { option_map (λ s. s.now) result ≡ spec.file_in (codes "state") (codes "INV") (subcommand_rows_of matches.now) }
{
    matches.subcommand_matches("state")?.get_str(INVENTORY)
}

/// The journal's file, where the command is `state`.
pub(crate) fn state_journal<'a>(matches: &ArgMatches<'a>) -> Option<&'a str>
    ensures { option_map (λ s. s.now) result ≡ spec.file_in (codes "state") (codes "JOURNAL") (subcommand_rows_of matches.now) }
{
    matches.subcommand_matches("state")?.get_str(JOURNAL)
}

/// The inventory's file, where the command is `run`.
pub(crate) fn run_inventory<'a>(matches: &ArgMatches<'a>) -> Option<&'a str>
    ensures { option_map (λ s. s.now) result ≡ spec.file_in (codes "run") (codes "INV") (subcommand_rows_of matches.now) }
{
    matches.subcommand_matches("run")?.get_str(INVENTORY)
}

/// The playbook's file, where the command is `run`.
pub(crate) fn run_playbook<'a>(matches: &ArgMatches<'a>) -> Option<&'a str>
    ensures { option_map (λ s. s.now) result ≡ spec.file_in (codes "run") (codes "PLAY") (subcommand_rows_of matches.now) }
{
    matches.subcommand_matches("run")?.get_str(PLAYBOOK)
}

/// The inventory's file, where the command is `check`.
pub(crate) fn check_inventory<'a>(matches: &ArgMatches<'a>) -> Option<&'a str>
    ensures { option_map (λ s. s.now) result ≡ spec.file_in (codes "check") (codes "INV") (subcommand_rows_of matches.now) }
{
    matches.subcommand_matches("check")?.get_str(INVENTORY)
}

/// The playbook's file, where the command is `check`.
pub(crate) fn check_playbook<'a>(matches: &ArgMatches<'a>) -> Option<&'a str>
    ensures { option_map (λ s. s.now) result ≡ spec.file_in (codes "check") (codes "PLAY") (subcommand_rows_of matches.now) }
{
    matches.subcommand_matches("check")?.get_str(PLAYBOOK)
}

/// The plan's file, where the command is `check`.
pub(crate) fn check_plan<'a>(matches: &ArgMatches<'a>) -> Option<&'a str>
    ensures { option_map (λ s. s.now) result ≡ spec.file_in (codes "check") (codes "PLAN") (subcommand_rows_of matches.now) }
{
    matches.subcommand_matches("check")?.get_str(PLAN)
}

/// The inventory's file, where the command is `lint`.
pub(crate) fn lint_inventory<'a>(matches: &ArgMatches<'a>) -> Option<&'a str>
    ensures { option_map (λ s. s.now) result ≡ spec.file_in (codes "lint") (codes "INV") (subcommand_rows_of matches.now) }
{
    matches.subcommand_matches("lint")?.get_str(INVENTORY)
}

/// The playbook's file, where the command is `lint`.
pub(crate) fn lint_playbook<'a>(matches: &ArgMatches<'a>) -> Option<&'a str>
    ensures { option_map (λ s. s.now) result ≡ spec.file_in (codes "lint") (codes "PLAY") (subcommand_rows_of matches.now) }
{
    matches.subcommand_matches("lint")?.get_str(PLAYBOOK)
}

/// The word that is explained, where the command is `explain`.
pub(crate) fn explain_word<'a>(matches: &ArgMatches<'a>) -> Option<&'a str>
    ensures { option_map (λ s. s.now) result ≡ spec.file_in (codes "explain") (codes "NUMBER|RULE") (subcommand_rows_of matches.now) }
{
    matches.subcommand_matches("explain")?.get_str(TOPIC)
}

/// The forks, where the command is `run`.
pub(crate) fn run_forks(matches: &ArgMatches<'_>) -> Option<Forks>
    ensures { result ≡ spec.forks_found (subcommand_rows_of matches.now) }
{
    Forks::new(matches.subcommand_matches("run")?.get_one::<usize>(FORKS)?)
}
