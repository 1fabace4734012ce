//! Reading lists of expectations.
ghost use Rattle.std.specs.Prelude.{◌≡◌, IfOk, Some, None, option_map};
ghost use Rattle.expectations.specs.Lists as model;
ghost use Rattle.expectations.specs.Lists.{expectation_in, expectations_in};
ghost use Rattle.expectations.specs.Shown.{all_shown, shown};

use crate::expectation::{Expectation, Relation};
use crate::fault::ListFault;
use group_tree::is_name;
use std::alloc::Global;
use text_syntax::{first_part, number_in_digits};

fn with_name(name: &str, relation: Relation, number: u16) -> Option<Expectation<'_>>
    ensures { option_map shown result ≡ model.with_name name.now relation number }
{
    if is_name(name) {
        Some(Expectation {
            name,
            relation,
            number,
        })
    } else {
        None
    }
}

fn with_front(front: &str, number: u16) -> Option<Expectation<'_>>
    ensures { option_map shown result ≡ model.with_front front.now number }
{
    match front.strip_suffix('<') {
        Some(name) => with_name(name, Relation::AtMost, number),
        None => with_name(front, Relation::Equal, number),
    }
}

/// What one part of a list says.
fn read_part(part: &str) -> Option<Expectation<'_>>
    ensures { option_map shown result ≡ expectation_in part.now }
{
    let (front, digits) = part.split_once('=')?;
    with_front(front, number_in_digits(digits, 5, 65535)?)
}

/// The expectations that a text lists, in their order: parts `NAME=NUMBER` and `NAME<=NUMBER`, with commas or colons between. It is refused where some part is something else or there is none;
/// otherwise only want of memory refuses it.
pub fn read_expectations(alloc: Global, text: &str) -> Result<Vec<Expectation<'_>>, ListFault>
    ensures ok { IfOk result (λ expectations. expectations_in text.now ≡ Some (all_shown expectations.items)) }
    ensures no_list { result ≡ Err ListFault.NoList → expectations_in text.now ≡ None }
{
    let mut expectations = Vec::new(alloc);
    let mut left = text;
    while let Some((part, rest)) = first_part(left) {
        let Some(expectation) = read_part(part) else {
            return Err(ListFault::NoList);
        };
        expectations.push(expectation)?;
        left = rest;
    }
    if expectations.is_empty() {
        return Err(ListFault::NoList);
    }
    Ok(expectations)
}
