//! What values say.
ghost use Rattle.std.specs.Prelude.{◌≡◌};
ghost use Rattle.group_tree.specs.Scalars.{lent_scalar};
ghost use Rattle.cond.specs.Meaning as meaning;
ghost use Rattle.cond.specs.Trees.{had};

use cond::{Scalar, Value};

/// The verdict, turned round where the contrary is asked.
pub(crate) fn turned(contrary: bool, holds: bool) -> bool
    ensures { result ≡ meaning.contrary_if contrary holds }
{
    if contrary { !holds } else { holds }
}

/// What a value says alone.
pub(crate) fn holds(value: Value<'_>) -> bool
    ensures { result ≡ meaning.value_holds (had value.entry) }
{
    match value {
        Value::Registered => true,
        Value::Plain(scalar) => scalar_holds(scalar),
    }
}

fn scalar_holds(scalar: Scalar<'_>) -> bool
    ensures { result ≡ meaning.scalar_holds (lent_scalar scalar.entry) }
{
    match scalar {
        Scalar::Text(text) => !text.is_empty(),
        Scalar::Int(number) => number != 0,
        Scalar::Bool(truth) => truth,
    }
}

/// Of one kind, and the same; a registered result as a whole equals nothing.
pub(crate) fn same(left: Value<'_>, right: Value<'_>) -> bool
    ensures { result ≡ meaning.same_value (had left.entry) (had right.entry) }
{
    match (left, right) {
        (Value::Plain(left), Value::Plain(right)) => same_scalar(left, right),
        _ => false,
    }
}

fn same_scalar(left: Scalar<'_>, right: Scalar<'_>) -> bool
    ensures { result ≡ meaning.same_scalar (lent_scalar left.entry) (lent_scalar right.entry) }
{
    match (left, right) {
        (Scalar::Text(left), Scalar::Text(right)) => left == right,
        (Scalar::Int(left), Scalar::Int(right)) => left == right,
        (Scalar::Bool(left), Scalar::Bool(right)) => left == right,
        _ => false,
    }
}
