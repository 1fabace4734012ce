//! The fields of a registered result.
ghost use Rattle.std.specs.Prelude.{◌≡◌, option_map};
ghost use Rattle.group_tree.specs.Scalars.{lent_scalar};
ghost use Rattle.play_model.specs.Results.{row_of};
ghost use Rattle.host_vars.specs.HostVars.{field_in_row};

use group_tree::Scalar;
use play_model::Registered;
use text_syntax::Field;

pub(crate) fn field_value(registered: &Registered, field: Field) -> Option<Scalar<'_>>
    ensures { option_map lent_scalar result ≡ field_in_row (row_of registered.now) field }
{
    match field {
        Field::Rc => match registered.rc {
            Some(rc) => Some(Scalar::Int(i64::from(rc))),
            None => None,
        },
        Field::Stdout => Some(Scalar::Text(registered.stdout.as_str())),
        Field::Stderr => Some(Scalar::Text(registered.stderr.as_str())),
        Field::Changed => Some(Scalar::Bool(registered.changed)),
        Field::Failed => Some(Scalar::Bool(registered.failed)),
        Field::Skipped => Some(Scalar::Bool(registered.skipped)),
    }
}
