//! Names of files that are refused before anything is read.
ghost use Rattle.std.specs.Prelude.{IfSome, option_map, string_bytes};
ghost use Rattle.command_line.specs.Wishes.{wish_as};
ghost use Rattle.rollout.specs.Outputs.{MissesStopOf, NamesOutput, NamesStop, OverwritesOf, RefusesName};

use crate::fault::Fault;
use crate::system::System;
use bounded_io::InputFault;
use command_line::command::Line;
use command_line::{Options, Source};
use std::alloc::Global;

/// Why the name of a file is refused: it would be written and is an input, or a stop file could never be seen there.
pub(crate) fn refused_name<S: System>(
    system: &S,
    alloc: Global,
    line: &Line,
    wishes: &Options,
) -> Option<Fault>
    ensures { IfSome result (RefusesName (wish_as wishes.now)) }
{
    match overwriting(system, alloc, line, wishes) {
        Some(fault) => Some(fault),
        None => missing_stop(system, alloc, &wishes.stop_file),
    }
}

/// A stop file whose folder isn't there, or can't be searched, would never be seen.
fn missing_stop<S: System>(system: &S, alloc: Global, stop_file: &Option<String>) -> Option<Fault>
    ensures { IfSome result (MissesStopOf (option_map string_bytes stop_file.now)) }
{
    match stop_file {
        Some(name) if !system.may_appear(name.as_str()) => Some(unseen(alloc, name)),
        _ => None,
    }
}

fn unseen(alloc: Global, name: &String) -> Fault
    ensures { NamesStop (string_bytes name.now) result }
{
    match String::from_str(alloc, name.as_str()) {
        Ok(name) => Fault::Input {
            source: Source::File(name),
            fault: InputFault::File,
        },
        Err(_refused) => Fault::Memory,
    }
}

/// Why a line is refused that writes one of its own inputs: the same file, whatever its name.
fn overwriting<S: System>(system: &S, alloc: Global, line: &Line, wishes: &Options) -> Option<Fault>
    ensures { IfSome result (OverwritesOf (option_map string_bytes wishes.now.picture)) }
{
    match &wishes.picture {
        Some(name) if is_read(system, line, name.as_str()) => Some(named(alloc, name)),
        _ => None,
    }
}

fn named(alloc: Global, name: &String) -> Fault
    ensures { NamesOutput (string_bytes name.now) result }
{
    match String::from_str(alloc, name.as_str()) {
        Ok(name) => Fault::OutputIsInput { name },
        Err(_refused) => Fault::Memory,
    }
}

/// Whether the line reads the file of this name.
fn is_read<S: System>(system: &S, line: &Line, name: &str) -> bool {
    match line {
        Line::Plan {
            inventory,
            playbook,
        } => is_of(system, inventory, name) || is_of(system, playbook, name),
        _ => false,
    }
}

/// Whether the source is the file of this name.
pub(crate) fn is_of<S: System>(system: &S, source: &Source, name: &str) -> bool {
    match source {
        Source::File(input) => are_one_file(system, input.as_str(), name),
        Source::StandardInput => false,
    }
}

/// Whether both names lead to one file.
fn are_one_file<S: System>(system: &S, one: &str, other: &str) -> bool {
    match (system.file_id(one), system.file_id(other)) {
        (Some(one), Some(other)) => one == other,
        _ => false,
    }
}
