//! The first expectation that isn't met.
ghost use Rattle.std.specs.Prelude.{◌≡◌, is_some, option_map, if◌then◌else◌};
ghost use Rattle.expectations.specs.Facts as model;
ghost use Rattle.expectations.specs.Facts.{batch_count, first_unmet, limit_named, limited_count, number_in_plan, number_in_table};
ghost use Rattle.expectations.specs.Shown.{all_shown, shown, unmet_shown};

use crate::expectation::{Expectation, Relation, Unmet};
use batch_plan::Answer;
use domains::Fleet;
use group_tree::GroupId;

fn holds(relation: Relation, expected: usize, found: usize) -> bool
    ensures { result ≡ model.holds relation expected found }
{
    match relation {
        Relation::Equal => found == expected,
        Relation::AtMost => found <= expected,
    }
}

fn is_met(expectation: Expectation<'_>, found: Option<usize>) -> bool
    ensures { result ≡ model.is_met (shown expectation.entry) found }
{
    match found {
        Some(found) => holds(expectation.relation, usize::from(expectation.number), found),
        None => false,
    }
}

/// The limit of the group of this name, where there is one and it has a limit.
fn limit_of(fleet: &Fleet, name: &str) -> Option<usize>
    ensures { result ≡ limit_named fleet.now name.now }
{
    let group = fleet.group(name)?;
    let limit = fleet.limit(group)?;
    Some(usize::from(limit))
}

/// One where there is a limit, else none.
fn one_if(limit: Option<u16>) -> usize
    ensures { result ≡ (if is_some limit then 1 else 0) }
{
    match limit {
        Some(_) => 1,
        None => 0,
    }
}

/// How many groups have a limit.
fn count_limited(fleet: &Fleet) -> usize
    ensures { result ≡ limited_count fleet.now }
{
    let mut count = 0;
    for index in 0..fleet.groups() {
        count += one_if(fleet.limit(GroupId { index }));
    }
    count
}

/// The number that a name stands for in the table of limits, where so many groups have one.
fn number_of(fleet: &Fleet, limited: usize, name: &str) -> Option<usize>
    requires { limited ≡ limited_count fleet.now }
    ensures { result ≡ number_in_table fleet.now name.now }
{
    if name == "hosts" {
        return Some(fleet.hosts());
    }
    if name == "limited" {
        return Some(limited);
    }
    limit_of(fleet, name)
}

/// The first of the expectations that the table of the fleet's limits doesn't meet. `hosts` and `limited` stand for the numbers of the table's last line, and any other name for the
/// limit of the group that has it: a group of either name can't be asked for. It takes no memory.
pub fn unmet_in_table<'t>(fleet: &Fleet, expectations: &[Expectation<'t>]) -> Option<Unmet<'t>>
    ensures { option_map unmet_shown result ≡ first_unmet (number_in_table fleet.now) (all_shown expectations.now) }
{
    let limited = count_limited(fleet);
    for expectation in expectations {
        let found = number_of(fleet, limited, expectation.name);
        if !is_met(*expectation, found) {
            return Some(Unmet {
                expectation: *expectation,
                found,
            });
        }
    }
    None
}

fn count_batches(answer: &Answer) -> Option<usize>
    ensures { result ≡ batch_count answer.now }
{
    match answer {
        Answer::Planned(plan) => Some(plan.batches.len()),
        Answer::Blocked { .. } => None,
    }
}

fn number_in(answer: &Answer, name: &str) -> Option<usize>
    ensures { result ≡ number_in_plan answer.now name.now }
{
    if name == "batches" {
        count_batches(answer)
    } else {
        None
    }
}

/// The first of the expectations that the plan doesn't meet. `batches` stands for the number of its batches, where it isn't blocked; no other name stands for a number. It takes no
/// memory.
pub fn unmet_in_plan<'t>(answer: &Answer, expectations: &[Expectation<'t>]) -> Option<Unmet<'t>>
    ensures { option_map unmet_shown result ≡ first_unmet (number_in_plan answer.now) (all_shown expectations.now) }
{
    for expectation in expectations {
        let found = number_in(answer, expectation.name);
        if !is_met(*expectation, found) {
            return Some(Unmet {
                expectation: *expectation,
                found,
            });
        }
    }
    None
}
