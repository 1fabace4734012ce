//! The line that helps behind the line of a fault of a text.
ghost use Rattle.std.specs.Prelude.{◌≡◌, true, IfOk, option_map, string_bytes};
ghost use Rattle.hints.specs.Lines.{IsHelpLine};
ghost use Rattle.rollout.specs.Endings.{MayHelp};

use crate::fault::Fault;
use domains::{Fleet, FleetFault, PatternFault};
use group_tree::{GroupId, HostId};
use hints::{Document, fleet_help, pattern_help, play_help, read_help};
use inventory_read::ReadFault;
use plan_command::read_fleet;
use playbook_schema::PlayFault;
use recap::{group_name, host_name};
use std::alloc::{AllocError, Global};

/// The texts of an inventory and a playbook, and the fleet that they are for, where names are looked up in one and it can be had.
#[derive(Drop)]
pub struct Texts<'t> {
    inventory: Document<'t>,
    playbook: Document<'t>,
    fleet: Option<Fleet>,
}

impl<'t> Texts<'t> {
    /// As much of them as these faults are told by.
    pub fn read(
        alloc: Global,
        inventory: &'t [u8],
        playbook: &'t [u8],
        faults: &[Fault],
    ) -> Result<Texts<'t>, AllocError> {
        Ok(Texts {
            inventory: Document::read(alloc, inventory)?,
            playbook: Document::read(alloc, playbook)?,
            fleet: fleet_for(alloc, inventory, faults)?,
        })
    }
}

/// Making a fleet of a great inventory takes longer than all else, so it is made only for faults that look names up.
fn fleet_for(
    alloc: Global,
    inventory: &[u8],
    faults: &[Fault],
) -> Result<Option<Fleet>, AllocError> {
    if faults.iter().any(|fault| is_of_pattern(fault)) {
        Ok(read_fleet(alloc, inventory).ok())
    } else {
        Ok(None)
    }
}

fn is_of_pattern(fault: &Fault) -> bool {
    match fault {
        Fault::Pattern(_) => true,
        _ => false,
    }
}

/// What was expected where the fault is, and what stands there. There is none of a fault that is none of these texts, or where memory is wanting.
pub fn advice_on(alloc: Global, fault: &Fault, texts: &Texts<'_>) -> Option<String>
    ensures { MayHelp true (option_map string_bytes result) }
{
    match told(alloc, fault, texts) {
        Ok(help) => help,
        Err(_refused) => None,
    }
}

fn told(alloc: Global, fault: &Fault, texts: &Texts<'_>) -> Result<Option<String>, AllocError>
    ensures { IfOk result (λ help. MayHelp true (option_map string_bytes help)) }
{
    match fault {
        Fault::Read(fault) => on_inventory(alloc, fault, &texts.inventory),
        Fault::Fleet(fault) => on_fleet(alloc, fault, &texts.inventory),
        Fault::Playbook(fault) => on_playbook(alloc, fault, &texts.playbook),
        Fault::Pattern(fault) => on_pattern(alloc, fault, &texts.fleet, &texts.playbook),
        _ => Ok(None),
    }
}

fn on_inventory(
    alloc: Global,
    fault: &ReadFault,
    document: &Document<'_>,
) -> Result<Option<String>, AllocError>
    ensures { IfOk result (λ help. MayHelp true (option_map string_bytes help)) }
{
    kept(read_help(alloc, fault, document))
}

fn on_fleet(
    alloc: Global,
    fault: &FleetFault,
    document: &Document<'_>,
) -> Result<Option<String>, AllocError>
    ensures { IfOk result (λ help. MayHelp true (option_map string_bytes help)) }
{
    kept(fleet_help(alloc, fault, document))
}

fn on_playbook(
    alloc: Global,
    fault: &PlayFault,
    document: &Document<'_>,
) -> Result<Option<String>, AllocError>
    ensures { IfOk result (λ help. MayHelp true (option_map string_bytes help)) }
{
    kept(play_help(alloc, fault, document))
}

fn on_pattern(
    alloc: Global,
    fault: &PatternFault,
    fleet: &Option<Fleet>,
    document: &Document<'_>,
) -> Result<Option<String>, AllocError>
    ensures { IfOk result (λ help. MayHelp true (option_map string_bytes help)) }
{
    match names_of(alloc, fleet) {
        Ok(names) => kept(pattern_help(alloc, fault, names.as_slice(), document)),
        Err(refused) => Err(refused),
    }
}

/// The line, where memory sufficed for it.
fn kept(line: Result<String, AllocError>) -> Result<Option<String>, AllocError>
    requires { IsHelpLine line }
    ensures { IfOk result (λ help. MayHelp true (option_map string_bytes help)) }
{
    match line {
        Ok(line) => Ok(Some(line)),
        Err(refused) => Err(refused),
    }
}

/// The names of a fleet's groups and then of its hosts.
fn names_of(alloc: Global, fleet: &Option<Fleet>) -> Result<Vec<&str>, AllocError> {
    let mut names = Vec::new(alloc);
    if let Some(fleet) = fleet {
        for index in 0..fleet.groups() {
            names.push(group_name(fleet, GroupId { index }))?;
        }
        for index in 0..fleet.hosts() {
            names.push(host_name(fleet, HostId { index }))?;
        }
    }
    Ok(names)
}
