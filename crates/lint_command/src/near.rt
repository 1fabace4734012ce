//! The name that was probably meant where one is read that no waiting host has.
ghost use Rattle.std.specs.Prelude.{◌≡◌, ◌∷◌, ◌++◌, IfOk, OnOk, codes, filter, map, option_map};
ghost use Rattle.step_lints.specs.Inside.{names_of};
ghost use Rattle.lint_command.specs.Near as model;
ghost use Rattle.lint_command.specs.Near.{all_with_near, compared_names, play_registers, register_names, step_registers};
ghost use Rattle.lint_rules.specs.Notes.{seen};
ghost use Rattle.name_suggestions.specs.Nearness.{nearest_of};

use cond::span::split;
use lint_rules::{Note, Notes};
use name_suggestions::nearest;
use play_model::{Play, Step};
use std::alloc::{AllocError, Global};
use step_lints::NameSet;

/// With so many names at most a name is compared.
const MOST_COMPARED: usize = 1000;

/// With names of so many bytes at most.
const LONGEST_COMPARED: usize = 64;

/// So many notes at most are told with one that is near.
const MOST_TOLD: usize = 100;

fn add_register<'a>(
    register: &'a Option<String>,
    names: &mut Vec<&'a str>,
) -> Result<(), AllocError>
    ensures { OnOk result (names_of names.new.items ≡ names_of names.old.items ++ register_names register.now) }
{
    if let Some(register) = register {
        names.push(register.as_str())?;
    }
    Ok(())
}

/// Adds the names under which steps register results.
fn add_step_registers<'a>(steps: &'a [Step], names: &mut Vec<&'a str>) -> Result<(), AllocError>
    ensures { OnOk result (names_of names.new.items ≡ names_of names.old.items ++ step_registers steps.now) }
{
    for step in steps {
        add_register(&step.register, names)?;
    }
    Ok(())
}

fn add_play_registers<'a>(plays: &'a [Play], names: &mut Vec<&'a str>) -> Result<(), AllocError>
    ensures { OnOk result (names_of names.new.items ≡ names_of names.old.items ++ play_registers plays.now) }
{
    for play in plays {
        add_step_registers(play.steps(), names)?;
    }
    Ok(())
}

/// The host's own name, the names that are given, and those under which the steps of plays register results.
fn list_names<'a>(
    alloc: Global,
    given: &[&'a str],
    plays: &'a [Play],
) -> Result<Vec<&'a str>, AllocError>
    ensures { IfOk result (λ names. names_of names.items ≡ codes "inventory_hostname" ∷ (names_of given.now ++ play_registers plays.now)) }
{
    let mut names = Vec::new(alloc);
    names.push("inventory_hostname")?;
    names.extend_from_slice(given)?;
    add_play_registers(plays, &mut names)?;
    Ok(names)
}

fn is_compared(name: &str, other: &str) -> bool
    ensures { result ≡ model.is_compared name.now other.now }
{
    other != name && other.len() <= LONGEST_COMPARED
}

/// Those of the names that are compared with this one.
fn list_others<'a>(alloc: Global, name: &str, names: &[&'a str]) -> Result<Vec<&'a str>, AllocError>
    ensures { IfOk result (λ others. names_of others.items ≡ filter (model.is_compared name.now) (names_of names.now)) }
{
    let mut others = Vec::new(alloc);
    for other in names {
        if is_compared(name, *other) {
            others.push(*other)?;
        }
    }
    Ok(others)
}

/// The nearest of them.
fn near_name<'a>(
    alloc: Global,
    name: &str,
    names: &[&'a str],
) -> Result<Option<&'a str>, AllocError>
    ensures { IfOk result (λ near. option_map (λ other. other.now) near ≡ nearest_of name.now (filter (model.is_compared name.now) (names_of names.now))) }
{
    let others = list_others(alloc, name, names)?;
    nearest(alloc, name, others.as_slice())
}

/// The note, with the nearest of these names where no waiting host has the one that is read.
fn warn_with_near<'a>(
    alloc: Global,
    note: Note<'a>,
    names: &[&'a str],
) -> Result<Note<'a>, AllocError>
    ensures { IfOk result (λ changed. seen changed ≡ model.with_near (names_of names.now) (seen note.entry)) }
{
    match note {
        Note::UnknownName { at, name, .. } => Ok(Note::UnknownName {
            at,
            name,
            near: near_name(alloc, name, names)?,
        }),
        _ => Ok(note),
    }
}

fn notes_with_near<'a>(
    alloc: Global,
    notes: &[Note<'a>],
    names: &[&'a str],
) -> Result<Notes<'a>, AllocError>
    ensures { IfOk result (λ changed. changed ≡ map (model.with_near (names_of names.now)) (map seen notes.now)) }
{
    let mut changed = Notes::new(alloc);
    for note in notes {
        changed.add(Some(warn_with_near(alloc, *note, names)?))?;
    }
    Ok(changed)
}

/// Adds these notes as they are.
fn add_all<'a>(notes: &[Note<'a>], changed: &mut Notes<'a>) -> Result<(), AllocError>
    ensures { OnOk result (changed.new ≡ changed.old ++ map seen notes.now) }
{
    for note in notes {
        changed.add(Some(*note))?;
    }
    Ok(())
}

/// The notes, the first ones with the name that was probably meant in each that tells of one which no waiting host has, where one is near: of those that are given, and of those under which the steps
/// of these plays register results. It fails for want of memory alone.
pub(crate) fn with_near<'a>(
    alloc: Global,
    notes: &Notes<'a>,
    given: &NameSet<'a>,
    plays: &'a [Play],
) -> Result<Notes<'a>, AllocError>
    ensures { IfOk result (λ changed. changed ≡ all_with_near (compared_names (names_of given.now.names.keys) plays.now) notes.now) }
{
    let names = list_names(alloc, given.names.as_slice(), plays)?;
    let compared = split(names.as_slice(), MOST_COMPARED).0;
    let (first, others) = split(notes.as_slice(), MOST_TOLD);
    let mut changed = notes_with_near(alloc, first, compared)?;
    add_all(others, &mut changed)?;
    Ok(changed)
}
