//! A host that has an empty string under every name except those searched for.
ghost use Rattle.std.specs.Prelude.{◌≡◌, option_map};
ghost use Rattle.group_tree.specs.Scalars.{lent_scalar};
ghost use Rattle.result_dependencies.specs.Lookups as spec;

use cond::Names;
use group_tree::Scalar;
use text_syntax::{Ref, Values};

/// Rendering reports the first of these names as one without a value.
#[derive(Drop)]
pub(crate) struct ProbeEnv<'n, N: Names> {
    pub(crate) names: &'n N,
}

impl<N: Names> Values for ProbeEnv<'_, N> {
    ghost values = { λ blanks. spec.blanks (N.holds blanks.names.now) };

    fn value(&self, of: Ref<'_>) -> Option<Scalar<'_>> {
        match of {
            Ref::Whole(name) => blank_unless(self.names, name),
            Ref::Field(name, _) => blank_unless(self.names, name),
            Ref::Hostname => Some(Scalar::Text("")),
        }
    }
}

fn blank_unless<N: Names>(names: &N, name: &str) -> Option<Scalar<'static>>
    ensures { option_map lent_scalar result ≡ spec.blank_unless (N.holds names.now) name.now }
{
    if names.has(name) {
        None
    } else {
        Some(Scalar::Text(""))
    }
}
