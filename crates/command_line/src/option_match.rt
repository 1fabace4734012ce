//! What the options say that were given.
ghost use Rattle.std.specs.Prelude.{◌≡◌, ◌++◌, ◌∷◌, [], IfOk, OnOk, codes, flat_map, if◌then◌else◌, map, string_bytes};
ghost use Rattle.std.specs.Option.{option_map};
ghost use Rattle.std.specs.List.{last_or, list_any};
ghost use Rattle.command_line.specs.OptionReads.{given_as};
ghost use Rattle.command_line.specs.Wishes as spec;

use crate::option_name::OptionName;
use crate::option_reading::OptionMatch;
use std::alloc::{AllocError, Global};

/// Whether the option was given.
pub(crate) fn has(given: &[OptionMatch], option: OptionName) -> bool
    ensures { result ≡ spec.has option (map given_as given.now) }
{
    is_among(given, option)
}

fn is_among(given: &[OptionMatch], option: OptionName) -> bool
    ensures { result ≡ list_any (λ one. spec.is_given option (given_as one)) given.now }
{
    given.iter().any(|one| is_of(one, option))
}

fn is_of(one: &OptionMatch, option: OptionName) -> bool
    ensures { result ≡ spec.is_given option (given_as one.now) }
{
    option.is(one.option)
}

/// The values of the option, in their order.
fn values(
    alloc: Global,
    given: &[OptionMatch],
    option: OptionName,
) -> Result<Vec<String>, AllocError>
    ensures { IfOk result (λ values. map string_bytes values.items ≡ spec.values option (map given_as given.now)) }
{
    let values = list_values(alloc, given, option)?;
    Ok(values)
}

fn list_values(
    alloc: Global,
    given: &[OptionMatch],
    option: OptionName,
) -> Result<Vec<String>, AllocError>
    ensures { IfOk result (λ values. map string_bytes values.items ≡ flat_map (λ one. spec.value_of option (given_as one)) given.now) }
{
    let mut values = Vec::new(alloc);
    for one in given {
        add(alloc, &mut values, one, option)?;
    }
    Ok(values)
}

/// Adds the value, where it is one of the option.
fn add(
    alloc: Global,
    values: &mut Vec<String>,
    given: &OptionMatch,
    option: OptionName,
) -> Result<(), AllocError>
    ensures { OnOk result (map string_bytes values.new.items ≡ map string_bytes values.old.items ++ spec.value_of option (given_as given.now)) }
{
    if is_of(given, option) {
        values.push(String::from_str(alloc, given.value.as_str())?)?;
    }
    Ok(())
}

/// The last value of the option, if it was given.
pub(crate) fn last(
    alloc: Global,
    given: &[OptionMatch],
    option: OptionName,
) -> Result<Option<String>, AllocError>
    ensures { IfOk result (λ value. option_map string_bytes value ≡ spec.last_value option (map given_as given.now)) }
{
    let values = values(alloc, given, option)?;
    Ok(last_of(values))
}

fn last_of(mut values: Vec<String>) -> Option<String>
    ensures { option_map string_bytes result ≡ last_or None (map string_bytes values.items) }
{
    values.pop()
}

/// The values of the option in one text, a comma behind each.
pub(crate) fn joined(
    alloc: Global,
    given: &[OptionMatch],
    option: OptionName,
) -> Result<String, AllocError>
    ensures { IfOk result (λ text. string_bytes text ≡ spec.joined_values option (map given_as given.now)) }
{
    let values = values(alloc, given, option)?;
    join(alloc, values.as_slice())
}

fn join(alloc: Global, values: &[String]) -> Result<String, AllocError>
    ensures { IfOk result (λ text. string_bytes text ≡ flat_map (λ value. string_bytes value ++ codes ",") values.now) }
{
    let mut text = String::new(alloc);
    for value in values {
        append(&mut text, value)?;
    }
    Ok(text)
}

fn append(text: &mut String, value: &String) -> Result<(), AllocError>
    ensures { OnOk result (string_bytes text.new ≡ string_bytes text.old ++ (string_bytes value.now ++ codes ",")) }
{
    text.push_str(value.as_str())?;
    text.push_str(",")
}
