//! What is known of a test at the outset.
ghost use Rattle.std.specs.Prelude.{◌≡◌, ◌++◌, OnOk, option_map};
ghost use Rattle.undefined_names.specs.Lent.{lent_names};
ghost use Rattle.undefined_names.specs.InitialEnv as outset;
ghost use Rattle.undefined_names.specs.Outlook as spec;
ghost use Rattle.cond.specs.Meaning.{contrary_if, value_holds};
ghost use Rattle.cond.specs.Trees.{had, written, written_operand, written_ref};

use crate::name_status::StaticEnv;
use crate::values::{holds, same, turned};
use cond::leaf::{Operand, Ref, Test};
use cond::span::word_in;
use cond::{Scalar, Value};
use std::alloc::AllocError;

/// Whether the test holds, where that is known.
pub(crate) fn eval_partially<F: StaticEnv>(text: &[u8], test: Test, foresight: &F) -> Option<bool>
    ensures { result ≡ spec.eval_partially (F.outset foresight.now) (written text.now test) }
{
    match test {
        Test::Stands { .. } => None,
        Test::Defined { contrary, of } => turned_known(contrary, has_value(text, of, foresight)),
        Test::Equals {
            contrary,
            left,
            right,
        } => {
            let left = known_operand(text, left, foresight);
            let right = known_operand(text, right, foresight);
            turned_known(contrary, known_same(left, right))
        }
        Test::Within { contrary, group } => {
            Some(turned(contrary, is_inside(word_in(text, group), foresight)))
        }
        Test::Alone(operand) => known_holds(known_operand(text, operand, foresight)),
    }
}

/// Adds the names that the test may look up in vain.
pub(crate) fn add_missed<'c, F: StaticEnv>(
    text: &'c [u8],
    test: Test,
    foresight: &F,
    missed: &mut Vec<&'c str>,
) -> Result<(), AllocError>
    ensures { OnOk result (lent_names missed.new.items ≡ lent_names missed.old.items ++ spec.missed_in_test (F.outset foresight.now) (written text.now test)) }
{
    match test {
        Test::Stands { name, .. } => add_result(word_in(text, name), foresight, missed),
        Test::Defined { .. } | Test::Within { .. } => Ok(()),
        Test::Equals { left, right, .. } => {
            add_operand(text, left, foresight, missed)?;
            add_operand(text, right, foresight, missed)
        }
        Test::Alone(operand) => add_operand(text, operand, foresight, missed),
    }
}

pub(crate) fn turned_known(contrary: bool, known: Option<bool>) -> Option<bool>
    ensures { result ≡ option_map (contrary_if contrary) known }
{
    match known {
        Some(holds) => Some(turned(contrary, holds)),
        None => None,
    }
}

fn known_holds(known: Option<Value<'_>>) -> Option<bool>
    ensures { result ≡ option_map value_holds (option_map had known.entry) }
{
    match known {
        Some(value) => Some(holds(value)),
        None => None,
    }
}

fn known_same(left: Option<Value<'_>>, right: Option<Value<'_>>) -> Option<bool>
    ensures { result ≡ spec.known_same (option_map had left.entry) (option_map had right.entry) }
{
    match (left, right) {
        (Some(left), Some(right)) => Some(same(left, right)),
        _ => None,
    }
}

// A group of this name other than `all` holds the host.
fn is_inside<F: StaticEnv>(group: &str, foresight: &F) -> bool
    ensures { result ≡ spec.is_inside (F.outset foresight.now) group.now }
{
    group != "all" && foresight.in_group(group)
}

fn known_operand<'c: 'v, 'v, F: StaticEnv>(
    text: &'c [u8],
    operand: Operand,
    foresight: &'v F,
) -> Option<Value<'v>>
    ensures { option_map had result ≡ spec.known_operand (F.outset foresight.now) (written_operand text.now operand) }
{
    match operand {
        Operand::Text(word) => Some(Value::Plain(Scalar::Text(word_in(text, word)))),
        Operand::Int(number) => Some(Value::Plain(Scalar::Int(number))),
        Operand::Truth(truth) => Some(Value::Plain(Scalar::Bool(truth))),
        Operand::Ref(of) => known_at(text, of, foresight),
    }
}

fn known_at<'v, F: StaticEnv>(text: &[u8], of: Ref, foresight: &'v F) -> Option<Value<'v>>
    ensures { option_map had result ≡ outset.known_at (F.outset foresight.now) (written_ref text.now of) }
{
    match of {
        Ref::Whole(name) => foresight.standing(word_in(text, name)).known_value(),
        Ref::Part(..) => None,
        Ref::Hostname => Some(Value::Plain(Scalar::Text(foresight.host()))),
    }
}

// Whether the reference has a value, where that is known.
fn has_value<F: StaticEnv>(text: &[u8], of: Ref, foresight: &F) -> Option<bool>
    ensures { result ≡ outset.has_value (F.outset foresight.now) (written_ref text.now of) }
{
    match of {
        Ref::Whole(name) => foresight.standing(word_in(text, name)).is_there(),
        Ref::Part(name, field) => foresight
            .standing(word_in(text, name))
            .is_field_there(field),
        Ref::Hostname => Some(true),
    }
}

fn add_operand<'c, F: StaticEnv>(
    text: &'c [u8],
    operand: Operand,
    foresight: &F,
    missed: &mut Vec<&'c str>,
) -> Result<(), AllocError>
    ensures { OnOk result (lent_names missed.new.items ≡ lent_names missed.old.items ++ spec.missed_in_operand (F.outset foresight.now) (written_operand text.now operand)) }
{
    match operand {
        Operand::Ref(Ref::Whole(name)) => add_whole(word_in(text, name), foresight, missed),
        Operand::Ref(Ref::Part(name, _)) => add_result(word_in(text, name), foresight, missed),
        Operand::Ref(Ref::Hostname) => Ok(()),
        Operand::Text(_) | Operand::Int(_) | Operand::Truth(_) => Ok(()),
    }
}

fn add_whole<'c, F: StaticEnv>(
    name: &'c str,
    foresight: &F,
    missed: &mut Vec<&'c str>,
) -> Result<(), AllocError>
    ensures { OnOk result (lent_names missed.new.items ≡ lent_names missed.old.items ++ spec.missed_if (spec.is_missed ((F.outset foresight.now).standing name.now)) name.now) }
{
    add_if(foresight.standing(name).is_missed(), name, missed)
}

fn add_result<'c, F: StaticEnv>(
    name: &'c str,
    foresight: &F,
    missed: &mut Vec<&'c str>,
) -> Result<(), AllocError>
    ensures { OnOk result (lent_names missed.new.items ≡ lent_names missed.old.items ++ spec.missed_if (spec.is_result_missed ((F.outset foresight.now).standing name.now)) name.now) }
{
    add_if(foresight.standing(name).is_result_missed(), name, missed)
}

fn add_if<'c>(is_wanted: bool, name: &'c str, missed: &mut Vec<&'c str>) -> Result<(), AllocError>
    ensures { OnOk result (lent_names missed.new.items ≡ lent_names missed.old.items ++ spec.missed_if is_wanted name.now) }
{
    if is_wanted {
        missed.push(name)?;
    }
    Ok(())
}
