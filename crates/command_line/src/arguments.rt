//! The arguments of commands, as clap reads them and the help shows them.
ghost use Rattle.std.specs.Prelude.{◌≡◌, false};
ghost use Rattle.clap.specs.Words.{rule_of};
ghost use Rattle.command_line.specs.Syntax as spec;

use crate::forks::DEFAULT;
use crate::option_help::CommandName;
use crate::option_name::OptionName;
use clap::{Arg, ArgAction, value_parser};
use std::alloc::Global;

pub(crate) const INVENTORY: &str = "INV";

pub(crate) const PLAYBOOK: &str = "PLAY";

pub(crate) const JOURNAL: &str = "JOURNAL";

pub(crate) const PLAN: &str = "PLAN";

pub(crate) const TOPIC: &str = "NUMBER|RULE";

pub(crate) const FORKS: &str = "forks";

const INVENTORY_HELP: &str = "Inventory file (JSON)";

const OLD_INVENTORY_HELP: &str = "Inventory file (JSON) that the run started with";

const PLAYBOOK_HELP: &str = "Playbook file (JSON)";

const JOURNAL_HELP: &str = "Journal of the run";

const PLAN_HELP: &str = "Plan file: one batch of host names per line, as `rollout plan` prints";

const TOPIC_HELP: &str = "Error number such as 302, or lint rule such as idle-step";

const FORKS_HELP: &str = "Work on up to N hosts at once, 1 to 64";

pub(crate) fn inventory<'a>(alloc: Global) -> Arg<'a>
    ensures rule { rule_of result ≡ spec.inventory_argument }
    ensures local { result.global ≡ false }
{
    Arg::new(alloc, INVENTORY)
        .required(true)
        .help(INVENTORY_HELP)
}

/// The inventory's file of a run that has started.
pub(crate) fn old_inventory<'a>(alloc: Global) -> Arg<'a>
    ensures rule { rule_of result ≡ spec.inventory_argument }
    ensures local { result.global ≡ false }
{
    inventory(alloc).help(OLD_INVENTORY_HELP)
}

pub(crate) fn playbook<'a>(alloc: Global) -> Arg<'a>
    ensures rule { rule_of result ≡ spec.playbook_argument }
    ensures local { result.global ≡ false }
{
    Arg::new(alloc, PLAYBOOK).required(true).help(PLAYBOOK_HELP)
}

pub(crate) fn journal<'a>(alloc: Global) -> Arg<'a>
    ensures rule { rule_of result ≡ spec.journal_argument }
    ensures local { result.global ≡ false }
{
    Arg::new(alloc, JOURNAL).required(true).help(JOURNAL_HELP)
}

/// The playbook's file, which is optional.
pub(crate) fn any_playbook<'a>(alloc: Global) -> Arg<'a>
    ensures rule { rule_of result ≡ spec.any_playbook_argument }
    ensures local { result.global ≡ false }
{
    Arg::new(alloc, PLAYBOOK).help(PLAYBOOK_HELP)
}

pub(crate) fn plan<'a>(alloc: Global) -> Arg<'a>
    ensures rule { rule_of result ≡ spec.plan_argument }
    ensures local { result.global ≡ false }
{
    Arg::new(alloc, PLAN).required(true).help(PLAN_HELP)
}

/// The number of an error, or the name of a lint rule.
pub(crate) fn topic<'a>(alloc: Global) -> Arg<'a>
    ensures rule { rule_of result ≡ spec.topic_argument }
    ensures local { result.global ≡ false }
{
    Arg::new(alloc, TOPIC).required(true).help(TOPIC_HELP)
}

pub(crate) fn forks<'a>(alloc: Global) -> Arg<'a>
    ensures rule { rule_of result ≡ spec.forks_argument }
    ensures local { result.global ≡ false }
{
    Arg::new(alloc, FORKS)
        .long(FORKS)
        .value_name("N")
        .value_parser(value_parser!(usize).range(1..=64))
        .default_value(DEFAULT)
        .help(FORKS_HELP)
}

/// An option of this command that is taken out of the words before clap reads them. The help lists it, and clap reports it if its value is missing, or if it has one and should not.
pub(crate) fn option<'a>(alloc: Global, option: OptionName, owner: CommandName) -> Arg<'a>
    ensures rule { rule_of result ≡ spec.argument_of option }
    ensures local { result.global ≡ false }
{
    if option.has_value() {
        valued(alloc, option.id(), option.value_name(), option.help(owner))
    } else if option.is(OptionName::Verbose) {
        flag(alloc, option.id(), option.help(owner)).short('v')
    } else {
        flag(alloc, option.id(), option.help(owner))
    }
}

fn valued<'a>(alloc: Global, id: &'a str, value_name: &'a str, help: &'a str) -> Arg<'a>
    ensures rule { rule_of result ≡ spec.valued_argument id.now }
    ensures local { result.global ≡ false }
{
    Arg::new(alloc, id)
        .long(id)
        .value_name(value_name)
        .help(help)
}

fn flag<'a>(alloc: Global, id: &'a str, help: &'a str) -> Arg<'a>
    ensures rule { rule_of result ≡ spec.flag_argument id.now }
    ensures local { result.global ≡ false }
{
    Arg::new(alloc, id)
        .long(id)
        .action(ArgAction::SetTrue)
        .help(help)
}
